//! An end: the connections of a peer, one after the other, each a session.
ghost use Rattle.std.specs.Prelude.{◌≡◌, Bool, [], true};
ghost use Rattle.article_verdict.specs.Config.{terms_of};
ghost use Rattle.live_jobs.specs.Seats.{IsSeatOf, end_of};
ghost use Rattle.live_session.specs.Going.{hands_at};
ghost use Rattle.relay_live.specs.Numbers.{number_of};
ghost use Rattle.relay_live.specs.Sessions.{IsOneMore};

use crate::drawing::Number;
use crate::forgetting::expire_round;
use crate::journaled_shares::JournaledShares;
use crate::keeper::Keeper;
use crate::register_ref::RegisterRef;
use crate::shared::Shared;
use cyc_block::BlockStore;
use live_jobs::{Accounts, JobChannel, KeptJob, Service, SessionSeat, WriterTurns};
use live_journal::PendingJournal;
use live_session::{Clock, Connection, Gate, Served, SessionContext, serve_session};
use live_store::StorePremises;
use live_wire::{Connections, Hears, Says};
use post_history::Naming;
use relay_conf::Config;
use std::alloc::Global;
use std::hash::RandomState;
use std::mem;
use std::net::Ipv6Addr;
use std::sync::Wait;
use std::sync::ledger::Ledger;

/// An end: a peer's connections, which it serves one after the other, each as a session of a number
/// of its own.
#[derive(Drop)]
pub struct PeerServer<
    'a,
    X,
    S: BlockStore + Drop,
    J: StorePremises + Naming,
    L: Ledger,
    C: Clock,
    G,
    Q: RegisterRef,
> {
    pub(crate) alloc: Global,
    pub(crate) hasher: RandomState,
    pub(crate) shared: &'a Shared<S, J, L>,
    pub(crate) register: &'a Q,
    pub(crate) config: &'a Config,
    pub(crate) clock: &'a C,
    pub(crate) journal: &'a PendingJournal,
    pub(crate) gate: &'a G,
    /// The number of the peer.
    pub(crate) peer: usize,
    pub(crate) connections: X,
    /// The jobs that its sessions answered kept, in the order of the answers.
    pub(crate) kept: Vec<KeptJob<J>>,
    ghost here: { Q.lent register.now ≡ J.register },
}

impl<
    'a,
    X,
    S: BlockStore + Drop,
    J: StorePremises + Naming,
    L: Ledger,
    C: Clock,
    G,
    Q: RegisterRef,
> PeerServer<'a, X, S, J, L, C, G, Q> {
    ghost use Rattle.live_jobs.specs.Seats.{count_of, handed_by};
    ghost use Rattle.relay_live.specs.PeerServers.{kept_of, peer_of, terms_at};
    ghost use Rattle.relay_live.specs.Sessions.{Accounted};

    /// The end of this peer, by its number in the configuration, before its first connection.
    pub fn new(
        alloc: Global,
        hasher: RandomState,
        keeper: &Keeper<'a, S, J, L, C, Q>,
        config: &'a Config,
        gate: &'a G,
        peer: usize,
        connections: X,
    ) -> PeerServer<'a, X, S, J, L, C, G, Q>
        ensures none { kept_of result ≡ [] }
        ensures peer { peer_of result ≡ peer }
        ensures terms { terms_at result ≡ terms_of config.now }
    {
        PeerServer {
            alloc,
            hasher,
            shared: keeper.shared,
            register: keeper.register,
            config,
            clock: keeper.clock,
            journal: keeper.journal,
            gate,
            peer,
            connections,
            kept: Vec::new(alloc),
        }
    }

    /// The jobs that its sessions answered kept (239, 235), in the order of the answers.
    pub fn kept(&self) -> &[KeptJob<J>]
        ensures { result.now ≡ kept_of self.now }
    {
        self.kept.as_slice()
    }

    /// Serves a connection from this address as the session of this number, which is spent.
    fn converse<N: WriterTurns<R>, H: Hears, W: Says, R: Wait>(
        &mut self,
        rt: &R,
        channels: &[JobChannel],
        turns: &N,
        seat: SessionSeat,
        number: Number<L>,
        from: Ipv6Addr,
        reader: H,
        writer: W,
    ) -> Conversed<H, W>
    where
        G: Gate<R>,
        requires seat { IsSeatOf channels.now seat }
        requires new { (H.heard reader ≡ []) × (W.said writer ≡ []) }
        ensures seat { IsSeatOf channels.now result.seat }
        ensures end { end_of result.seat ≡ end_of seat }
        ensures one_more { (honest : Bool) → (honest ≡ true → J.trusted ≡ true)
            → ∥ IsOneMore honest J.register (terms_of self.old.config.now) (end_of seat)
            self.old.peer (number_of number) (hands_at seat self.old.kept.items)
            (hands_at result.seat self.new.kept.items) ∥₁ }
        ensures same { (self.new.config ≡ self.old.config) × (self.new.peer ≡ self.old.peer)
            × (self.new.connections ≡ self.old.connections) }
    {
        let number = number.into_value();
        let began = self.clock.now();
        self.gate.opened(rt, self.peer, number, from);
        let kept = mem::replace(&mut self.kept, Vec::new(self.alloc));
        let shares = JournaledShares::new(self.shared, self.journal, turns);
        let context = SessionContext {
            shares: &shares,
            register: self.register.register(),
            channels,
            config: self.config,
            clock: self.clock,
            gate: self.gate,
        };
        let connection = Connection {
            number,
            peer: self.peer,
            reader,
            writer,
        };
        let served = serve_session(
            rt,
            self.alloc,
            self.hasher,
            &context,
            seat,
            kept,
            connection,
        );
        self.kept = served.kept;
        let seconds = self.clock.now().saturating_sub(began);
        let (finish, tally) = (served.finish, &served.tally);
        self.gate
            .closed(rt, self.peer, number, from, finish, tally, seconds);
        Conversed {
            seat: served.seat,
            reader: served.reader,
            writer: served.writer,
        }
    }

    /// Serves a connection as a session of a number of its own, and lets go of it; where no number
    /// is left it isn't served.
    fn serve_next<N: WriterTurns<R>, R: Wait>(
        &mut self,
        rt: &R,
        channels: &[JobChannel],
        turns: &N,
        seat: SessionSeat,
        connection: (<X as Connections<R>>::Reader, <X as Connections<R>>::Writer),
    ) -> SessionSeat
    where
        X: Connections<R>,
        G: Gate<R>,
        requires seat { IsSeatOf channels.now seat }
        requires new { (X.Reader.heard connection.0 ≡ []) × (X.Writer.said connection.1 ≡ []) }
        ensures seat { IsSeatOf channels.now result }
        ensures end { end_of result ≡ end_of seat }
        ensures kept { Accounted J.trusted (terms_of self.old.config.now) (end_of seat)
            self.old.peer (count_of seat) (handed_by seat) self.old.kept.items
            → Accounted J.trusted (terms_of self.new.config.now) (end_of result)
            self.new.peer (count_of result) (handed_by result) self.new.kept.items }
        ensures same { (self.new.config ≡ self.old.config) × (self.new.peer ≡ self.old.peer) }
    {
        let Some(number) = self.shared.draw(rt) else {
            return seat;
        };
        let (reader, writer) = connection;
        let from = self.connections.caller(&reader);
        let over = self.converse(rt, channels, turns, seat, number, from, reader, writer);
        self.connections.let_go(rt, over.reader, over.writer);
        over.seat
    }
}

/// What is left of a connection whose session has ended: the end's seat, and its two sides.
#[derive(Drop)]
struct Conversed<H: Hears, W: Says> {
    seat: SessionSeat,
    reader: H,
    writer: W,
}

impl<
    'a,
    X,
    S: BlockStore + Drop,
    J: StorePremises + Naming,
    L: Ledger,
    C: Clock,
    G,
    Q: RegisterRef,
> Accounts for PeerServer<'a, X, S, J, L, C, G, Q> {
    ghost use Rattle.article_verdict.specs.Config.{terms_of};
    ghost use Rattle.relay_live.specs.Sessions.{Accounted};

    /// The number of its peer, and its configuration.
    type Mark = (usize, Config);

    ghost mark = { λ end. (end.peer, end.config.now) };

    ghost fits = { λ end number count jobs. Accounted J.trusted (terms_of end.config.now) number
        end.peer count jobs end.kept.items };
}

impl<'a, X, S, J, L, C, G, Q, R> Service<R> for PeerServer<'a, X, S, J, L, C, G, Q>
where
    X: Connections<R>,
    S: BlockStore + Drop,
    J: StorePremises + Naming,
    L: Ledger,
    C: Clock,
    G: Gate<R>,
    Q: RegisterRef,
    R: Wait,
{
    fn serve<N: WriterTurns<R>>(
        &mut self,
        rt: &R,
        channels: &[JobChannel],
        turns: &N,
        seat: SessionSeat,
    ) -> SessionSeat {
        let mut seat = seat;
        for _ in rt.forever() {
            let Some(connection) = self.connections.next_one(rt) else {
                return seat;
            };
            // Before its session is told of any id.
            drop(expire_round(rt, self.shared, self.clock.now()));
            seat = self.serve_next(rt, channels, turns, seat, connection);
        }
        unreachable!()
    }

    fn decline(&mut self, rt: &R) {
        self.connections.give_up(rt);
    }
}
