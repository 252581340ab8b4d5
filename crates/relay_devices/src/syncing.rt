//! The files of the buffers are flushed while a relay is served, beside whoever writes them
//! (docs/PROTOCOL.md, Crashes: what `serve` does).
ghost use Rattle.std.specs.Prelude.{◌≡◌, ◌++◌, ◌∷◌, [], List, Bool, IfErr, IfOk, is_err};
ghost use Rattle.std.specs.Prelude.{◌<◌, Some, length, map, slice_get};
ghost use Rattle.file_blocks.specs.Host.{held_identity};
ghost use Rattle.buffer_files.specs.Files.{IsFileFault};
ghost use Rattle.relay_devices.specs.Syncing.{FlushesOne, IsRound, SyncsAs};
ghost use Rattle.relay_devices.specs.Syncing.{identity_in, name_in};
ghost use Rattle.relay_devices.specs.Syncing as terms;
ghost use Rattle.relay_devices.specs.declared.syncing.Deed.{Deed};
ghost use Rattle.relay_devices.specs.declared.syncing.Deed.TheVariants as deeds;

use crate::watched::print_failed;
use buffer_files::flusher_of;
use cyc_block::DeviceFailed;
use file_blocks::{Flusher, HeldFile};
use http_server::Log;
use relay_conf::{Buffers, Config};
use relay_journal::second_of;
use relay_report::ServeError;
use std::alloc::Global;
use std::fs::{File, Files};
use std::sync::Wait;
use std::sync::atomic::{AtomicBool, Ordering};
use std::thread;
use std::time::{Clock, Duration};

/// For how many milliseconds nobody looks whether it is time, or the relay has ended.
const PART: u64 = 200;

/// What is done with a file.
#[derive(Clone, Copy)]
enum Deed {
    /// Its device was had take all that was written, which failed or not.
    Flushed(bool),
    /// It was told that this failed.
    Told,
}

/// Who flushes files that others write, and tells of failures.
trait Syncer<F> {
    /// What was done with which file, the first of it first.
    ghost done: { Self → List (F × Deed) };

    /// Whether the end of the relay was seen.
    ghost has_seen_end: { Self → Bool };

    /// Looks whether the relay has ended.
    fn sees_end(&mut self) -> bool
        ensures seen { has_seen_end self.new ≡ result }
        ensures done { done self.new ≡ done self.old };

    /// Has the device take all that was written to a file.
    fn flush(&mut self, file: &F) -> Result<(), DeviceFailed>
        ensures seen { has_seen_end self.new ≡ has_seen_end self.old }
        ensures done { done self.new
            ≡ done self.old ++ (file.now, deeds.Flushed (is_err result)) ∷ [] };

    /// Tells that the flush of a file has failed.
    fn tell(&mut self, file: &F)
        ensures seen { has_seen_end self.new ≡ has_seen_end self.old }
        ensures done { done self.new ≡ done self.old ++ (file.now, deeds.Told) ∷ [] };
}

/// Flushes each of these files once, one after the other, and tells of each failure at once, up to
/// the end of the relay.
fn flush_round<F, S: Syncer<F>>(syncer: &mut S, files: &[F])
    ensures { IsRound files.now (S.has_seen_end syncer.new) (S.done syncer.old)
        (S.done syncer.new) }
{
    for file in files {
        if syncer.sees_end() {
            return;
        }
        flush_one(syncer, file);
    }
}

/// Flushes a file, and tells where that has failed.
fn flush_one<F, S: Syncer<F>>(syncer: &mut S, file: &F)
    ensures { FlushesOne file.now (S.done syncer.old) (S.done syncer.new) }
{
    if syncer.flush(file).is_err() {
        syncer.tell(file);
    }
}

/// The seconds in which a round of flushes has begun and ended.
#[derive(Clone, Copy)]
struct LastRound {
    begun: u64,
    ended: u64,
}

/// Whether a round begins in this second: so many after the last one has begun, and in none of
/// those in which that went on, so that of no file two failures are told in one second.
fn is_due(last: LastRound, every: u64, now: u64) -> bool
    ensures { result ≡ terms.is_due last.begun last.ended every now }
{
    let due = u128::from(last.begun) + u128::from(every);
    due <= u128::from(now) && last.ended < now
}

/// The file of a buffer, open once more, by the name of the buffer.
#[derive(Drop)]
struct SyncedFile<'a> {
    name: &'a [u8],
    file: Flusher,
}

/// The files of the buffers, in their order, and how many seconds after the last round of flushes
/// has begun the next one does.
#[derive(Drop)]
pub struct Syncing<'a> {
    every: u64,
    files: Vec<SyncedFile<'a>>,
}

/// Opens the file of each buffer once more, where relay.conf says how often they are flushed. The
/// error is want of memory, or the first file with which that can't be done.
pub fn open_syncing<'a, R: Files<File = File>>(
    rt: &R,
    alloc: Global,
    config: &'a Config,
    folder: &str,
    held: &[HeldFile],
) -> Result<Option<Syncing<'a>>, ServeError>
    requires count { length held.now ≡ length config.now.buffers.buffers.items }
    ensures syncing { IfOk result (SyncsAs config.now held.now) }
    ensures fault { IfErr result (IsFileFault config.now.buffers) }
{
    match config.relay.sync {
        None => Ok(None),
        Some(every) => {
            let files = open_again(rt, alloc, &config.buffers, folder, held)?;
            Ok(Some(Syncing { every, files }))
        }
    }
}

/// The file of each buffer, open once more.
fn open_again<'a, R: Files<File = File>>(
    rt: &R,
    alloc: Global,
    settings: &'a Buffers,
    folder: &str,
    held: &[HeldFile],
) -> Result<Vec<SyncedFile<'a>>, ServeError>
    requires count { length held.now ≡ length settings.now.buffers.items }
    ensures names { IfOk result (λ files. map name_in files.items
        ≡ map (λ buffer. buffer.name) settings.now.buffers.items) }
    ensures same { IfOk result (λ files. map identity_in files.items
        ≡ map held_identity held.now) }
    ensures fault { IfErr result (IsFileFault settings.now) }
{
    let mut files = Vec::with_capacity(alloc, settings.buffers.len())?;
    for buffer in &settings.buffers {
        let own = held_at(held, files.len());
        let file = flusher_of(rt, alloc, folder, buffer, own)?;
        let name = buffer.name.as_slice();
        files.push_reserved(SyncedFile { name, file });
    }
    Ok(files)
}

/// The file of the buffer of this number, which is held.
fn held_at(held: &[HeldFile], number: usize) -> &HeldFile
    requires { number < length held.now }
    ensures { slice_get held.now number ≡ Some result.now }
{
    match held.get(number) {
        Some(own) => own,
        None => unreachable!(),
    }
}

impl Syncing<'_> {
    /// Flushes the files again and again, until the relay has ended.
    pub fn go_on<R: Wait + Clock + Eprint>(&self, rt: &R, end: &AtomicBool) {
        let mut syncer = MachineSyncer::new(rt, end);
        let begun = second_of(rt);
        let mut last = LastRound {
            begun,
            ended: begun,
        };
        for _ in rt.forever() {
            if syncer.sees_end() {
                return;
            }
            let begun = second_of(rt);
            if is_due(last, self.every, begun) {
                flush_round(&mut syncer, &self.files);
                let ended = second_of(rt);
                last = LastRound { begun, ended };
            } else {
                thread::sleep(rt, Duration::from_millis(PART));
            }
        }
    }
}

/// Who flushes files of the machine, and tells of failures on standard error.
#[derive(Drop)]
struct MachineSyncer<'s, 'a, R> {
    rt: &'s R,
    end: &'s AtomicBool,
    is_over: bool,
    log: Log<SyncedFile<'a>, Deed>,
}

impl<'s, 'a, R> MachineSyncer<'s, 'a, R> {
    /// One that has done nothing, and looks there for the end of the relay.
    fn new(rt: &'s R, end: &'s AtomicBool) -> MachineSyncer<'s, 'a, R> {
        MachineSyncer {
            rt,
            end,
            is_over: false,
            log: Log::new(),
        }
    }
}

impl<'a, R: Eprint> Syncer<SyncedFile<'a>> for MachineSyncer<'_, 'a, R> {
    ghost done = { λ syncer. syncer.log.items };

    ghost has_seen_end = { λ syncer. syncer.is_over };

    fn sees_end(&mut self) -> bool {
        self.is_over = self.end.load(Ordering::SeqCst);
        self.is_over
    }

    fn flush(&mut self, file: &SyncedFile<'a>) -> Result<(), DeviceFailed> {
        let answer = file.file.flush();
        self.log = self.log.and(file, &Deed::Flushed(answer.is_err()));
        answer
    }

    fn tell(&mut self, file: &SyncedFile<'a>) {
        print_failed(self.rt, file.name, "Sync");
        self.log = self.log.and(file, &Deed::Told);
    }
}
