//! A store whose failures are told.
ghost use Rattle.std.specs.Prelude.{◌≡◌, ◌<◌, IfOk, Some, length, map, slice_get};
ghost use Rattle.relay_conf.specs.declared.cycbuff.BufferConf.{BufferConf};
ghost use Rattle.relay_devices.specs.Watched.{name_in, store_in};

use buffer_files::{Beginning, Looked, Synced};
use cyc_block::{BLOCK_OCTETS, BlockStore, DeviceFailed, HeadState, read_head_image};
use file_blocks::FileBlocks;
use relay_conf::Buffers;
use std::alloc::AllocError;
use std::str;
use std::time::Clock;

/// A store whose device can be had take what was written.
pub trait Flushing: BlockStore {
    /// Has the device take all that was written.
    fn flush(&self) -> Result<(), DeviceFailed>;
}

impl Flushing for FileBlocks {
    fn flush(&self) -> Result<(), DeviceFailed> {
        self.sync()
    }
}

/// A store of blocks that is asked by another, which tells of each call that failed, in a line a
/// second at most on standard error, by the name of the buffer.
#[derive(Drop)]
pub struct Watched<'a, S, R> {
    store: S,
    rt: &'a R,
    name: &'a [u8],
    /// The second after that in which a failure was last told, 0 before that.
    told: u64,
}

impl<'a, S, R: Clock + Eprint> Watched<'a, S, R> {
    /// A store of which no failure was told.
    fn new(rt: &'a R, name: &'a [u8], store: S) -> Watched<'a, S, R>
        ensures store { store_in result ≡ store }
        ensures name { name_in result ≡ name.now }
    {
        Watched {
            store,
            rt,
            name,
            told: 0,
        }
    }

    /// Tells that a call of this kind failed, unless one was told in this second.
    fn tell(&mut self, kind: &str)
        ensures same { self.new.store ≡ self.old.store }
    {
        let second = match self.rt.monotonic() {
            Ok(passed) => passed.as_secs().saturating_add(1),
            Err(_) => return,
        };
        if second == self.told {
            return;
        }
        self.told = second;
        print_failed(self.rt, self.name, kind);
    }

    /// Hands on the answer to a call of this kind, and tells where that failed.
    fn hand_on(&mut self, answer: Result<(), DeviceFailed>, kind: &str) -> Result<(), DeviceFailed>
        ensures answer { result ≡ answer }
        ensures same { self.new.store ≡ self.old.store }
    {
        if answer.is_err() {
            self.tell(kind);
        }
        answer
    }
}

impl<'a, S: Flushing, R: Clock + Eprint> Watched<'a, S, R> {
    /// Has the device take a head that says open before blocks are written behind it: else a power
    /// cut could leave a head that says closed, and blocks that are newer. Where it can't that is
    /// told, and the relay goes on.
    fn flush_opened(&mut self)
        ensures same { self.new.store ≡ self.old.store }
    {
        if self.store.flush().is_err() {
            self.tell("Write");
        }
    }
}

/// Prints that a call of this kind failed, by the name of its buffer.
pub(crate) fn print_failed<R: Eprint>(rt: &R, name: &[u8], kind: &str) {
    let name = str::from_utf8(name).unwrap_or("?");
    let _lost = eprintln!(rt; "failed buffer={name} kind={kind}");
}

/// Whether this is written as the head block 0 of a buffer that is open.
fn is_opened(k: u32, octets: &[u8; BLOCK_OCTETS]) -> bool {
    match read_head_image(octets) {
        Some(numbers) => match numbers.state {
            HeadState::Open => k == 0,
            HeadState::Closed => false,
        },
        None => false,
    }
}

impl<S: Looked, R> Looked for Watched<'_, S, R> {
    ghost was_blank = { λ watched. S.was_blank watched.store };

    ghost was_emptied = { λ watched. S.was_emptied watched.store };
}

impl<R: Clock + Eprint> Synced for Watched<'_, FileBlocks, R> {
    ghost use Rattle.file_blocks.specs.Host.{IsFlushed};
    ghost use Rattle.file_blocks.specs.Store.{file_of};

    ghost is_synced = { λ watched. IsFlushed (file_of watched.store) };

    fn sync(&mut self) -> Result<(), DeviceFailed> {
        self.store.sync_noted()
    }
}

impl<S: Flushing, R: Clock + Eprint> BlockStore for Watched<'_, S, R> {
    ghost blocks = { λ watched. S.blocks watched.store };

    ghost heads = { λ watched. S.heads watched.store };

    ghost calls = { λ watched. S.calls watched.store };

    ghost failures = { λ watched. S.failures watched.store };

    ghost honest = { λ watched. S.honest watched.store };

    fn count(&self) -> u32 {
        self.store.count()
    }

    fn read(&mut self, k: u32, octets: &mut [u8; BLOCK_OCTETS]) -> Result<(), DeviceFailed> {
        let answer = self.store.read(k, octets);
        self.hand_on(answer, "Read")
    }

    fn write(&mut self, k: u32, octets: &[u8; BLOCK_OCTETS]) -> Result<(), DeviceFailed> {
        let answer = self.store.write(k, octets);
        self.hand_on(answer, "Write")
    }

    fn read_head(&mut self, k: u32, octets: &mut [u8; BLOCK_OCTETS]) -> Result<(), DeviceFailed> {
        let answer = self.store.read_head(k, octets);
        self.hand_on(answer, "Read")
    }

    fn write_head(&mut self, k: u32, octets: &[u8; BLOCK_OCTETS]) -> Result<(), DeviceFailed> {
        let answer = self.store.write_head(k, octets);
        if answer.is_ok() && is_opened(k, octets) {
            self.flush_opened();
        }
        self.hand_on(answer, "Write")
    }
}

/// What a relay begins over, each store watched by the name of its buffer.
pub fn watch<'a, S: Flushing + Looked + Drop, R: Clock + Eprint>(
    rt: &'a R,
    settings: &'a Buffers,
    beginning: Beginning<S>,
) -> Result<Beginning<Watched<'a, S, R>>, AllocError>
    requires count { length beginning.stores.items ≡ length settings.now.buffers.items }
    ensures stores { IfOk result (λ watched.
        map store_in watched.stores.items ≡ beginning.stores.items) }
    ensures names { IfOk result (λ watched. map name_in watched.stores.items
        ≡ map (λ buffer. buffer.name) settings.now.buffers.items) }
    ensures origin { IfOk result (λ watched. watched.origin ≡ beginning.origin) }
    ensures fresh { IfOk result (λ watched. watched.fresh ≡ beginning.fresh) }
{
    let Beginning {
        stores,
        origin,
        fresh,
    } = beginning;
    let stores = watch_all(rt, settings, stores)?;
    Ok(Beginning {
        stores,
        origin,
        fresh,
    })
}

/// Each store, watched by the name of its buffer.
fn watch_all<'a, S: Flushing + Drop, R: Clock + Eprint>(
    rt: &'a R,
    settings: &'a Buffers,
    stores: Vec<S>,
) -> Result<Vec<Watched<'a, S, R>>, AllocError>
    requires count { length stores.items ≡ length settings.now.buffers.items }
    ensures stores { IfOk result (λ all. map store_in all.items ≡ stores.items) }
    ensures names { IfOk result (λ all. map name_in all.items
        ≡ map (λ buffer. buffer.name) settings.now.buffers.items) }
{
    let mut all = Vec::with_capacity(*stores.allocator(), stores.len())?;
    for store in stores {
        let name = name_at(settings, all.len());
        all.push_reserved(Watched::new(rt, name, store));
    }
    Ok(all)
}

/// The name of the buffer of this number.
fn name_at(settings: &Buffers, number: usize) -> &[u8]
    requires { number < length settings.now.buffers.items }
    ensures { (buffer : BufferConf)
        × (slice_get settings.now.buffers.items number ≡ Some buffer)
        × (result.now ≡ buffer.name) }
{
    match settings.buffers.get(number) {
        Some(buffer) => buffer.name.as_slice(),
        None => unreachable!(),
    }
}
