//! What goes on beside the repair of a relay: whoever asks is told that it is recovering.
ghost use Rattle.std.specs.Prelude.{◌≡◌, ◌++◌, codes, IfErr, IfOk, IfSome, OnOk, length, map};
ghost use Rattle.relay_repair.specs.Telling.{octets_in};
ghost use Rattle.relay_recovery.specs.Recovering.{IsRepairAnswer, buffer_line, told_recovering};
ghost use Rattle.relay_repair.specs.Repairing.{Repairs, counts_of};
ghost use Rattle.buffer_files.specs.Faults.{IsServeFault};

use cyc_block::BlockStore;
use relay_attendant::{Attendant, Figured, start_side_thread};
use relay_conf::{BufferConf, Config};
use relay_core::{NotStarted, Stopped};
use relay_gate::CountingGate;
use relay_repair::repair;
use relay_report::ServeError;
use relay_startup::unstarted;
use std::alloc::{AllocError, Global};
use std::random::RandomSource;
use std::sync::Wait;
use std::thread;
use std::thread::Threads;
use std::time::Clock;

/// How many seconds pass between two lines of how long a repair has taken.
const BETWEEN_LINES: u64 = 10;

/// A relay that is repaired, as whoever goes on beside it sees it.
#[derive(Drop)]
pub struct Recovering<'a> {
    /// Its buffers.
    buffers: &'a [BufferConf],
}

impl<'a> Recovering<'a> {
    /// A relay of these buffers.
    fn new(buffers: &'a [BufferConf]) -> Recovering<'a>
        ensures { result.buffers.now ≡ buffers.now }
    {
        Recovering { buffers }
    }
}

impl<R: Eprint> Figured<R> for Recovering<'_> {
    /// That it is recovering, and which buffers it has.
    fn report(
        &self,
        _rt: &R,
        alloc: Global,
        _gate: &CountingGate<'_>,
    ) -> Result<Vec<u8>, AllocError>
        ensures told { IfOk result (λ text. text.items ≡ told_recovering self.now.buffers.now) }
    {
        recovering_text(alloc, self.buffers)
    }

    /// It takes nothing yet, and begins as one that isn't paused: that it is recovering.
    fn pause(&self, _rt: &R, _paused: bool) -> &'static [u8]
        ensures told { result.now ≡ codes "recovering\n" }
    {
        b"recovering\n"
    }

    fn between(&self) -> u64 {
        BETWEEN_LINES
    }

    /// Tells how long the repair has taken.
    fn go_round(&self, rt: &R, seconds: u64) {
        let _lost = eprintln!(rt; "recovering seconds={seconds}");
    }
}

/// What is told of a relay of these buffers that is repaired.
fn recovering_text(alloc: Global, buffers: &[BufferConf]) -> Result<Vec<u8>, AllocError>
    ensures told { IfOk result (λ text. text.items ≡ told_recovering buffers.now) }
{
    let mut text = Vec::new(alloc);
    text.extend_from_slice(b"recovering\n")?;
    for buffer in buffers {
        put_buffer(&mut text, buffer)?;
    }
    Ok(text)
}

/// Puts the line of a buffer behind a text.
fn put_buffer(text: &mut Vec<u8>, buffer: &BufferConf) -> Result<(), AllocError>
    ensures { OnOk result (text.new.items ≡ text.old.items ++ buffer_line buffer.now) }
{
    text.extend_from_slice(b"buffer ")?;
    text.extend_from_slice(buffer.name.as_slice())?;
    text.extend_from_slice(b"\n")
}

/// Repairs the relay that was left on these stores, with this history of its last stop, and has
/// whoever asks meanwhile told that. Where no thread is to be had for that no store is called.
pub fn repair_beside<S, R>(
    rt: &R,
    alloc: Global,
    config: &Config,
    stores: Vec<S>,
    text: Option<&[u8]>,
    now: u64,
    desk: &Attendant<'_>,
) -> Result<Stopped<S>, ServeError>
where
    S: BlockStore + Drop,
    R: Threads + Wait + Clock + Eprint + RandomSource + Sync,
    requires { map (λ store. length (S.blocks store)) stores.items
        ≡ map (λ buffer. buffer.blocks) config.now.buffers.buffers.items }
    ensures repaired { IfOk result (λ stopped. Repairs ⟦<S as BlockStore>⟧ config.now stores.items
        (octets_in text.entry) now stopped.stores.items stopped.history.items) }
    ensures counts { IfOk result (λ stopped. counts_of ⟦<S as BlockStore>⟧ stopped.stores.items
        ≡ counts_of ⟦<S as BlockStore>⟧ stores.items) }
    ensures fault { IfErr result (IsServeFault config.now) }
{
    let told = Recovering::new(&config.buffers.buffers);
    let run = move || -> Result<Stopped<S>, NotStarted<S>>
        requires { map (λ store. length (S.blocks store)) stores.items
            ≡ map (λ buffer. buffer.blocks) config.now.buffers.buffers.items }
        ensures { IsRepairAnswer S.BlockStore config.entry.now stores.items
            (octets_in text.entry) now result }
    { repair(rt, alloc, config, stores, text, now) };
    match run_told(rt, run, desk, &told) {
        Some(Ok(stopped)) => Ok(stopped),
        Some(Err(refused)) => Err(unstarted(alloc, config, refused)),
        None => Err(ServeError::NoThread),
    }
}

/// Has something run to its end, and beside it whoever asks answered, which is started first. Where
/// no thread is to be had for that nothing is run.
fn run_told<
    T: Drop,
    W: FnOnce() -> T + Drop,
    F: Figured<R> + Sync,
    R: Threads + Wait + Clock + Eprint + Sync,
>(rt: &R, run: W, desk: &Attendant<'_>, told: &F) -> Option<T>
    requires { W.pre run }
    ensures { IfSome result (W.post run) }
{
    thread::scope(
        thread::scope_env(),
        rt,
        move |scope| -> Option<T>
            requires { W.pre run }
            ensures { IfSome result (W.post run) }
        {
            let Some(attending) = start_side_thread(scope, rt, desk, told) else {
                drop(run);
                return None;
            };
            let ran = run();
            desk.ended();
            attending.join(rt);
            desk.goes_on();
            Some(ran)
        },
    )
}
