//! What a stop and a start give, and why they aren't to be had (docs/PROTOCOL.md, Clean stop and
//! start).
use crate::system::System;
use block_shelf::Unstarted;
use cyc_block::BlockStore;
use relay_conf::Config;
use std::io;

/// A relay that was closed.
#[derive(Drop)]
pub struct Stopped<S> {
    /// The stores of its buffers, in their order.
    pub stores: Vec<S>,
    /// The text of its history (docs/FORMATS.md, History file).
    pub history: Vec<u8>,
}

/// What is left of a relay that was killed.
#[derive(Drop)]
pub struct LeftBehind<S> {
    /// Its settings.
    pub config: Config,
    /// The stores of its buffers, in their order, as they were.
    pub stores: Vec<S>,
}

/// Why a relay isn't closed, in the order of trial; want of memory comes last before the devices.
#[derive(Drop)]
pub enum Unstopped<S: BlockStore> {
    /// A message-id is being stored. The relay is as it was, and nothing was written.
    NotIdle(System<S>),
    /// Memory was refused. The relay is as it was, and nothing was written.
    Memory(System<S>),
    /// The device of the buffer of this number failed. All stores; heads may say that they are
    /// closed.
    Device(u8, Vec<S>),
}

/// Why a relay isn't started.
#[derive(Drop)]
pub enum NotStarted<S> {
    /// The host had no seed for its tables; all stores, in their order.
    Host(io::Error, Vec<S>),
    /// The stores or the text are none to start from, memory was refused, or a device failed.
    Refused(Unstarted<S>),
}
