//! A session with what its end has handed over, what it is served over and what is left of it.
use crate::counts::Counts;
use crate::shares::{Clock, Gate, Shares};
use crate::wire::{Finish, Wire};
use live_jobs::{JobChannel, KeptJob, SessionSeat};
use live_store::{ArticleLog, OneRecord, StorePremises};
use live_wire::{Hears, Says, Tally};
use peer_session::Session;
use relay_conf::Config;
use std::alloc::Global;

/// What the sessions of a relay have in common.
#[derive(Drop)]
pub struct SessionContext<'a, S, C, G> {
    pub shares: &'a S,
    pub register: &'a ArticleLog,
    pub channels: &'a [JobChannel],
    pub config: &'a Config,
    pub clock: &'a C,
    pub gate: &'a G,
}

/// What a step that a session planned is done with, and at which moment.
#[derive(Drop)]
pub(crate) struct StepContext<'a, S> {
    pub(crate) alloc: Global,
    pub(crate) shares: &'a S,
    pub(crate) register: &'a ArticleLog,
    pub(crate) channels: &'a [JobChannel],
    pub(crate) moment: u64,
    /// The seconds after which an offer runs out, if ever.
    pub(crate) lasting: Option<u64>,
}

/// A connection that is to be served, as a session of this number.
#[derive(Drop)]
pub struct Connection<H: Hears, W: Says> {
    /// The number of the session.
    pub number: u64,
    /// The number of the peer in the configuration.
    pub peer: usize,
    /// The side that is read.
    pub reader: H,
    /// The side that is written.
    pub writer: W,
}

/// What is left of a session that was served: its end's seat, the jobs of it that were answered
/// kept, how it ended, the two sides of its connection, and what it said and read in numbers.
#[derive(Drop)]
pub struct Served<J: StorePremises, H: Hears, W: Says> {
    pub seat: SessionSeat,
    pub kept: Vec<KeptJob<J>>,
    pub finish: Finish,
    pub reader: H,
    pub writer: W,
    pub tally: Tally,
    /// The turns that it had before it left.
    pub turns: u64,
}

/// A session, the reads of the article that it fetches, and what its end has handed over.
#[derive(Drop)]
pub(crate) struct LiveSession<J: StorePremises> {
    /// The number of the session.
    pub(crate) number: u64,
    pub(crate) session: Session,
    pub(crate) reads: OneRecord<J>,
    pub(crate) seat: SessionSeat,
    pub(crate) kept: Vec<KeptJob<J>>,
}

/// A session on its connection, with what is counted of it.
#[derive(Drop)]
pub(crate) struct Conversation<J: StorePremises, H: Hears, W: Says> {
    pub(crate) live: LiveSession<J>,
    pub(crate) wire: Wire<H, W>,
    pub(crate) counts: Counts,
}

/// What came of a turn.
#[derive(Drop)]
pub(crate) enum Turned {
    /// It was had, and this was said.
    Says(Vec<u8>),
    /// Nothing is due.
    Rests,
    /// The gate lets no further command in.
    Held,
    /// Memory was refused, and nothing was done.
    Memory,
}
