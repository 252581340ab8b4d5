//! The gate of a relay that is served.
ghost use Rattle.std.specs.Prelude.{◌≡◌, ◌++◌, List, ℕ, Some, IfOk, OnOk, length};
ghost use Rattle.std.specs.Option.{option_map};
ghost use Rattle.relay_gate.specs.Gates.{AreFromLines, ArePeerLines, ArePeersTold};
ghost use Rattle.relay_gate.specs.Gates.{AreReasonsLines, IsFromLine, IsPeerLine};
ghost use Rattle.relay_gate.specs.Gates.{IsReasonsLine, finish_word};
ghost use Rattle.relay_gate.specs.Gates.{names_of, news_in, told_text};
ghost use Rattle.relay_gate.specs.News.{all_in, wants_all};

use crate::news::News;
use crate::refusals::Refusals;
use live_session::{Command, Finish, Gate, Remark};
use live_wire::Tally;
use relay_conf::Peer;
use std::alloc::{AllocError, Global};
use std::fmt::{Display, Formatter};
use std::net::Ipv6Addr;
use std::sync::atomic::{AtomicU64, Ordering};
use std::sync::{Mutex, Wait};
use std::time::Clock;
use std::{fmt, str};

/// What the sessions of a peer have said and read so far, and how many of them are open.
#[derive(Drop)]
struct PeerCounts<'a> {
    /// The peer's name, as relay.conf has it: ASCII letters, digits and a few marks.
    name: &'a str,
    open: AtomicU64,
    accepted: AtomicU64,
    known: AtomicU64,
    refused: AtomicU64,
    later: AtomicU64,
    octets: AtomicU64,
    /// The articles that were judged and refused.
    refusals: Refusals,
    /// The offers that its sessions have open.
    offers: AtomicU64,
    /// The address that its newest session is connected from.
    from: Mutex<Option<Ipv6Addr>>,
}

impl<'a> PeerCounts<'a> {
    /// Of a peer without a session.
    fn new(peer: &'a Peer) -> PeerCounts<'a> {
        PeerCounts {
            name: str::from_utf8(peer.name.as_slice()).unwrap_or("?"),
            open: AtomicU64::new(0),
            accepted: AtomicU64::new(0),
            known: AtomicU64::new(0),
            refused: AtomicU64::new(0),
            later: AtomicU64::new(0),
            octets: AtomicU64::new(0),
            refusals: Refusals::new(),
            offers: AtomicU64::new(0),
            from: Mutex::new(None),
        }
    }

    /// Counts what a session has said and read more.
    fn add(&self, more: &Tally) {
        self.accepted.fetch_add(more.accepted, Ordering::SeqCst);
        self.known.fetch_add(more.known, Ordering::SeqCst);
        self.refused.fetch_add(more.refused, Ordering::SeqCst);
        self.later.fetch_add(more.later, Ordering::SeqCst);
        self.octets.fetch_add(more.octets, Ordering::SeqCst);
    }

    /// What its sessions have said and read so far.
    fn told(&self) -> Told {
        Told(Tally {
            accepted: self.accepted.load(Ordering::SeqCst),
            known: self.known.load(Ordering::SeqCst),
            refused: self.refused.load(Ordering::SeqCst),
            later: self.later.load(Ordering::SeqCst),
            octets: self.octets.load(Ordering::SeqCst),
        })
    }

    /// Puts the line of the peer behind a text.
    fn put(&self, alloc: Global, text: &mut Vec<u8>) -> Result<(), AllocError>
        ensures { OnOk result ((line : List ℕ) × IsPeerLine self.now.name.now line
            × (text.new.items ≡ text.old.items ++ line)) }
    {
        let name = self.name;
        let open = self.open.load(Ordering::SeqCst);
        let told = self.told();
        let offers = self.offers.load(Ordering::SeqCst);
        let line = format!(in alloc; "peer {name} open={open} {told} offers={offers}\n")?;
        text.extend_from_slice(line.as_bytes())
    }

    /// Puts the line of the reasons for which its articles were refused behind a text.
    fn put_refused(&self, alloc: Global, text: &mut Vec<u8>) -> Result<(), AllocError>
        ensures { OnOk result ((line : List ℕ) × IsReasonsLine self.now.name.now line
            × (text.new.items ≡ text.old.items ++ line)) }
    {
        self.refusals.put(alloc, self.name, text)
    }

    /// Puts the line of the address that its newest session is connected from behind a text, where
    /// it had one.
    fn put_from<R: Wait>(&self, rt: &R, alloc: Global, text: &mut Vec<u8>) -> Result<(), AllocError>
        ensures { OnOk result ((line : List ℕ) × IsFromLine self.now.name.now line
            × (text.new.items ≡ text.old.items ++ line)) }
    {
        let from = *self.from.lock(rt);
        match from {
            Some(address) => put_address(alloc, self.name, address, text),
            None => Ok(()),
        }
    }
}

/// Puts the line of an address that the newest session of a peer is connected from behind a text.
fn put_address(
    alloc: Global,
    name: &str,
    address: Ipv6Addr,
    text: &mut Vec<u8>,
) -> Result<(), AllocError>
    ensures { OnOk result ((line : List ℕ) × IsFromLine name.now line
        × (text.new.items ≡ text.old.items ++ line)) }
{
    let from = address.to_canonical();
    let line = format!(in alloc; "from {name}={from}\n")?;
    text.extend_from_slice(line.as_bytes())
}

/// What was said and read, as a line tells it.
#[derive(Clone, Copy)]
struct Told(Tally);

impl Display for Told {
    ghost output = { λ told. Some (told_text told.0) };

    fn fmt<W: fmt::Write>(&self, formatter: &mut Formatter<W>) -> fmt::Result {
        let Tally {
            accepted,
            known,
            refused,
            later,
            octets,
        } = self.0;
        write!(
            formatter,
            "accepted={accepted} known={known} refused={refused} later={later} octets={octets}",
        )
    }
}

/// Lets every command in at once, counts for each peer what its sessions say and read, has lines of
/// articles put where the relay logs them, and tells of each session that has ended, in a line on
/// standard error.
#[derive(Drop)]
pub struct CountingGate<'a> {
    alloc: Global,
    counts: Vec<PeerCounts<'a>>,
    /// Where lines of articles are put, if they are.
    news: Option<News<'a>>,
}

impl<'a> CountingGate<'a> {
    /// A gate for the sessions of these peers, before the first of them.
    pub fn new(
        alloc: Global,
        peers: &'a [Peer],
        news: Option<News<'a>>,
    ) -> Result<CountingGate<'a>, AllocError>
        ensures names { IfOk result (λ gate. length (names_of gate) ≡ length peers.now) }
        ensures news { IfOk result (λ gate. news_in gate ≡ option_map all_in news.entry) }
    {
        let mut counts = Vec::new(alloc);
        for peer in peers {
            counts.push(PeerCounts::new(peer))?;
        }
        Ok(CountingGate {
            alloc,
            counts,
            news,
        })
    }

    /// Puts what is told of each peer behind a text.
    pub fn put_peers<R: Wait>(&self, rt: &R, text: &mut Vec<u8>) -> Result<(), AllocError>
        ensures { OnOk result ((told : List ℕ) × ArePeersTold (names_of self.now) told
            × (text.new.items ≡ text.old.items ++ told)) }
    {
        self.put_counts(text)?;
        self.put_refusals(text)?;
        self.put_addresses(rt, text)?;
        Ok(())
    }

    /// Puts a line for each peer behind a text.
    fn put_counts(&self, text: &mut Vec<u8>) -> Result<(), AllocError>
        ensures { OnOk result ((lines : List ℕ) × ArePeerLines (names_of self.now) lines
            × (text.new.items ≡ text.old.items ++ lines)) }
    {
        for counts in &self.counts {
            counts.put(self.alloc, text)?;
        }
        Ok(())
    }

    /// Puts a line of refusals for each peer behind a text.
    fn put_refusals(&self, text: &mut Vec<u8>) -> Result<(), AllocError>
        ensures { OnOk result ((lines : List ℕ) × AreReasonsLines (names_of self.now) lines
            × (text.new.items ≡ text.old.items ++ lines)) }
    {
        for counts in &self.counts {
            counts.put_refused(self.alloc, text)?;
        }
        Ok(())
    }

    /// Puts a line for each peer that had a session behind a text.
    fn put_addresses<R: Wait>(&self, rt: &R, text: &mut Vec<u8>) -> Result<(), AllocError>
        ensures { OnOk result ((lines : List ℕ) × AreFromLines (names_of self.now) lines
            × (text.new.items ≡ text.old.items ++ lines)) }
    {
        for counts in &self.counts {
            counts.put_from(rt, self.alloc, text)?;
        }
        Ok(())
    }
}

/// How a session ended, in one word.
fn word_of(finish: Finish) -> &'static str
    ensures { result.now ≡ finish_word finish }
{
    match finish {
        Finish::Quit => "Quit",
        Finish::Broken => "Broken",
        Finish::Fault => "Fault",
        Finish::TurnsSpent => "TurnsSpent",
        Finish::Held => "Held",
    }
}

impl<R: Eprint + Wait + Clock> Gate<R> for CountingGate<'_> {
    ghost use Rattle.std.specs.Prelude.{⊤, false};

    // It says no to none, and nothing is said of one that it lets in.
    ghost refuses = { λ _ _. ⊥ };

    ghost admits = { λ _ _. ⊤ };

    ghost one_by_one = { λ _. false };

    fn enter(&self, _rt: &R, _command: Command) -> bool {
        true
    }

    fn is_one_by_one(&self) -> bool {
        false
    }

    fn leave(&self, _rt: &R, _command: Command) {}

    fn opened(&self, rt: &R, peer: usize, _session: u64, from: Ipv6Addr) {
        if let Some(counts) = self.counts.get(peer) {
            counts.open.fetch_add(1, Ordering::SeqCst);
            *counts.from.lock(rt) = Some(from);
        }
    }

    fn wants_stored(&self) -> bool
        ensures { result ≡ wants_all (news_in self.now) }
    {
        match &self.news {
            Some(news) => news.is_of_all(),
            None => false,
        }
    }

    fn remarked(&self, rt: &R, peer: usize, reply: &[u8], remark: &Remark) {
        let Some(counts) = self.counts.get(peer) else {
            return;
        };
        if let Remark::Refused(_, reason) = remark {
            counts.refusals.add(*reason);
        }
        if let Some(news) = &self.news {
            news.put(rt, self.alloc, counts.name, reply, remark);
        }
    }

    fn offers(&self, _rt: &R, peer: usize, had: usize, has: usize) {
        if let Some(counts) = self.counts.get(peer) {
            let more = (has as u64).wrapping_sub(had as u64);
            counts.offers.fetch_add(more, Ordering::SeqCst);
        }
    }

    fn counted(&self, _rt: &R, peer: usize, more: &Tally) {
        if let Some(counts) = self.counts.get(peer) {
            counts.add(more);
        }
    }

    fn closed(
        &self,
        rt: &R,
        peer: usize,
        session: u64,
        from: Ipv6Addr,
        finish: Finish,
        tally: &Tally,
        seconds: u64,
    ) {
        let Some(counts) = self.counts.get(peer) else {
            return;
        };
        counts.open.fetch_sub(1, Ordering::SeqCst);
        let from = from.to_canonical();
        let _lost = eprintln!(rt;
            "closed peer={} session={session} from={from} finish={} seconds={seconds} {}",
            counts.name,
            word_of(finish),
            Told(*tally),
        );
    }
}
