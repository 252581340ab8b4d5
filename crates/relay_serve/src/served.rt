//! A relay that is served, as whoever goes on beside it sees it.
ghost use Rattle.std.specs.Prelude.{◌≡◌, ◌++◌, ℕ, List, IfOk, length};
ghost use Rattle.relay_gate.specs.Gates.{ArePeersTold, names_of};
ghost use Rattle.relay_live.specs.Making.{buffers_in};
ghost use Rattle.relay_report.specs.Report.{text_of_figures};
ghost use Rattle.relay_serve.specs.Filled.{sizes_text};

use crate::figures::figures_of;
use crate::filled::put_sizes;
use crate::pausing::{tell_change, told_so, told_while};
use cyc_block::BlockStore;
use live_store::StorePremises;
use post_history::Naming;
use relay_ages::AgesDesk;
use relay_attendant::Figured;
use relay_conf::Config;
use relay_folder::HistoryPlace;
use relay_gate::CountingGate;
use relay_live::{Shared, expire_round};
use relay_report::{Figures, text_of};
use std::alloc::{AllocError, Global};
use std::sync::Wait;
use std::sync::ledger::Ledger;

/// How many seconds pass between two rounds of forgetting.
const BETWEEN_ROUNDS: u64 = 60;

/// A configuration with what the threads of its relay share, their clock, and the marks of its
/// buffers.
#[derive(Drop)]
pub(crate) struct Served<
    'a,
    S: BlockStore + Drop,
    J: StorePremises + Naming,
    L: Ledger,
    C: live_session::Clock,
    P,
> {
    config: &'a Config,
    shared: &'a Shared<S, J, L>,
    clock: &'a C,
    ages: &'a AgesDesk<P>,
    ghost buffers: { buffers_in shared.now ≡ length config.now.buffers.buffers.items },
}

impl<
    'a,
    S: BlockStore + Drop,
    J: StorePremises + Naming,
    L: Ledger,
    C: live_session::Clock,
    P,
> Served<'a, S, J, L, C, P> {
    /// What is served of this configuration.
    pub(crate) fn new(
        config: &'a Config,
        shared: &'a Shared<S, J, L>,
        clock: &'a C,
        ages: &'a AgesDesk<P>,
    ) -> Served<'a, S, J, L, C, P>
        requires { buffers_in shared.now ≡ length config.now.buffers.buffers.items }
    {
        Served {
            config,
            shared,
            clock,
            ages,
        }
    }
}

impl<
    S: BlockStore + Drop,
    J: StorePremises + Naming,
    L: Ledger,
    C: live_session::Clock,
    P: HistoryPlace,
> Served<'_, S, J, L, C, P> {
    ghost use Rattle.std.specs.Prelude.{ℕ, IfOk, OnOk};
    ghost use Rattle.relay_ages.specs.Ages.{TellsOldest};
    ghost use Rattle.relay_serve.specs.Figures.{HasNames};

    /// The figures: each buffer, feed and shard as it is when its lock is taken, one after the
    /// other.
    fn figures<R: Wait>(&self, rt: &R, alloc: Global) -> Result<Figures, AllocError>
        ensures names { IfOk result (HasNames self.now.config.now) }
    {
        figures_of(rt, alloc, self.config, self.shared)
    }

    /// Notes how far the buffers are at the moment of the relay's clock.
    pub(crate) fn note<R: Wait + Eprint>(&self, rt: &R) {
        if let Ok(figures) = self.figures(rt, self.ages.alloc()) {
            self.ages.note(rt, self.config, &figures, self.clock.now());
            drop(figures);
        }
    }

    /// Puts since when the oldest articles of these figures' buffers are there behind a text.
    fn put_oldest<R: Wait + Eprint>(
        &self,
        rt: &R,
        text: &mut Vec<u8>,
        figures: &Figures,
    ) -> Result<(), AllocError>
        ensures { OnOk result ((moment : ℕ) × TellsOldest moment
            self.now.config.now.buffers.buffers.items figures.now.buffers.items text.old.items
            text.new.items) }
    {
        self.ages
            .put_oldest(rt, text, self.config, figures, self.clock.now())
    }
}

/// What is told of these figures: the report of them, what is told of each peer, and a line for
/// each buffer's size, by the front that the buffer's line has.
pub(crate) fn told_of<R: Wait>(
    rt: &R,
    alloc: Global,
    config: &Config,
    figures: &Figures,
    gate: &CountingGate<'_>,
) -> Result<Vec<u8>, AllocError>
    ensures { IfOk result (λ text. (peers : List ℕ) × ArePeersTold (names_of gate.now) peers
        × (text.items ≡ text_of_figures figures.now
        ++ (peers ++ sizes_text config.now.buffers.buffers.items figures.now.buffers.items))) }
{
    let mut text = text_of(alloc, figures)?;
    gate.put_peers(rt, &mut text)?;
    put_sizes(&mut text, &config.buffers.buffers, &figures.buffers)?;
    Ok(text)
}

impl<S, J, L, C, P, R> Figured<R> for Served<'_, S, J, L, C, P>
where
    S: BlockStore + Drop,
    J: StorePremises + Naming,
    L: Ledger,
    C: live_session::Clock,
    P: HistoryPlace,
    R: Wait + Eprint,
{
    ghost use Rattle.std.specs.Prelude.{◌≡◌};
    ghost use Rattle.relay_serve.specs.Pausing.{told_so};

    /// The report of the relay as it is, what is told of each peer, each buffer's size, that it is
    /// paused, where it is, and since when each buffer's oldest article is there.
    fn report(
        &self,
        rt: &R,
        alloc: Global,
        gate: &CountingGate<'_>,
    ) -> Result<Vec<u8>, AllocError> {
        let figures = self.figures(rt, alloc)?;
        let paused = self.shared.is_paused();
        let mut text = told_while(rt, alloc, self.config, &figures, gate, paused)?;
        let put = self.put_oldest(rt, &mut text, &figures);
        drop(figures);
        put?;
        Ok(text)
    }

    fn pause(&self, rt: &R, paused: bool) -> &'static [u8]
        ensures told { result.now ≡ told_so paused }
    {
        if self.shared.pause(paused) {
            tell_change(rt, paused);
        }
        told_so(paused)
    }

    fn between(&self) -> u64 {
        BETWEEN_ROUNDS
    }

    /// A round of forgetting, at the moment of the relay's clock, and it is noted how far the
    /// buffers are.
    fn go_round(&self, rt: &R, _seconds: u64) {
        let _round = expire_round(rt, self.shared, self.clock.now());
        self.note(rt);
    }
}
