ghost use Rattle.std.specs.Prelude.{◌≡◌, ◌≢◌, ◌<◌, ◌+◌, ◌-◌, ◌↔◌, length, slice_set};
ghost use Rattle.std.specs.Prelude.{IsErr, OnErr, OnOk};
ghost use Rattle.news_terms.specs.HeadBlocks.{head_blocks};
ghost use Rattle.cyc_block.specs.Failing.{armed, calls_left, spent, store_below};
ghost use Rattle.cyc_block.specs.Failing.{IsOneCall, FailsInTurn};
ghost use Rattle.cyc_block.specs.Seen.{LooksSame};
ghost use Rattle.cyc_block.specs.Store.{block_at, ChangesOnly};

use crate::tally::Tally;
use crate::{BLOCK_OCTETS, BlockStore, DeviceFailed};

/// A store whose call number k fails once; reads and writes, those of head blocks too, are counted
/// together, from 1. The call that fails does nothing else. Armed again, it fails another call
/// once.
#[derive(Drop)]
pub struct FailAt<S> {
    store: S,
    /// The calls up to the one that fails, and that one; 0 where none is to fail any more.
    left: u64,
    /// The calls that it failed on purpose so far.
    on_purpose: Tally,
}

impl<S: BlockStore> FailAt<S> {
    /// The store with its call number k failing; with 0 none does.
    pub fn new(store: S, k: u64) -> FailAt<S>
        ensures store { store_below result ≡ store }
        ensures calls { calls_left result ≡ k }
        ensures spent { spent result ≡ 0 }
        ensures blocks { ⟦<FailAt<S> as BlockStore>⟧.blocks result ≡ S.blocks store }
        ensures heads { ⟦<FailAt<S> as BlockStore>⟧.heads result ≡ S.heads store }
        ensures honest { S.honest store → ⟦<FailAt<S> as BlockStore>⟧.honest result }
    {
        FailAt {
            store,
            left: k,
            on_purpose: Tally::new(),
        }
    }

    /// From here call number k fails, once, counted from 1; with 0 none does. A call that was to
    /// fail before no longer is. What failed so far stays counted.
    pub fn arm(&mut self, k: u64)
        // This is the whole of it.
        ensures armed { self.new ≡ armed k self.old }
        ensures store { store_below self.new ≡ store_below self.old }
        ensures left { calls_left self.new ≡ k }
        ensures spent { spent self.new ≡ spent self.old }
        // What contracts see of every store is as it was.
        ensures seen { LooksSame ⟦<FailAt<S> as BlockStore>⟧ self.old self.new }
    {
        self.left = k;
    }
}

impl<S: BlockStore> BlockStore for FailAt<S> {
    ghost blocks = { λ failing. S.blocks failing.store };

    ghost heads = { λ failing. S.heads failing.store };

    // A call that it fails on purpose is one that the store below isn't asked for.
    ghost calls = { λ failing. S.calls failing.store + spent failing };

    ghost failures = { λ failing. S.failures failing.store + spent failing };

    ghost honest = { λ failing. S.honest failing.store };

    fn count(&self) -> u32 {
        self.store.count()
    }

    fn read(&mut self, k: u32, octets: &mut [u8; BLOCK_OCTETS]) -> Result<(), DeviceFailed>
        requires { k < length (S.blocks (store_below self.old)) }
        ensures octets { S.honest (store_below self.old)
            → OnOk result (octets.new ≡ block_at (S.blocks (store_below self.old)) k) }
        ensures same { S.honest (store_below self.old)
            → S.blocks (store_below self.new) ≡ S.blocks (store_below self.old) }
        ensures heads { S.honest (store_below self.old)
            → S.heads (store_below self.new) ≡ S.heads (store_below self.old) }
        ensures call { IsOneCall ⟦<S as BlockStore>⟧ self.old self.new result }
        ensures turn { FailsInTurn ⟦<S as BlockStore>⟧ self.old self.new result }
    {
        counted(&mut self.left, &mut self.on_purpose)?;
        self.store.read(k, octets)
    }

    fn write(&mut self, k: u32, octets: &[u8; BLOCK_OCTETS]) -> Result<(), DeviceFailed>
        requires { k < length (S.blocks (store_below self.old)) }
        ensures written { S.honest (store_below self.old)
            → OnOk result (S.blocks (store_below self.new)
            ≡ slice_set (S.blocks (store_below self.old)) k octets.now) }
        ensures others { S.honest (store_below self.old)
            → ChangesOnly k (S.blocks (store_below self.old)) (S.blocks (store_below self.new)) }
        ensures heads { S.honest (store_below self.old)
            → S.heads (store_below self.new) ≡ S.heads (store_below self.old) }
        ensures call { IsOneCall ⟦<S as BlockStore>⟧ self.old self.new result }
        ensures turn { FailsInTurn ⟦<S as BlockStore>⟧ self.old self.new result }
    {
        counted(&mut self.left, &mut self.on_purpose)?;
        self.store.write(k, octets)
    }

    fn read_head(&mut self, k: u32, octets: &mut [u8; BLOCK_OCTETS]) -> Result<(), DeviceFailed>
        requires { k < head_blocks (length (S.blocks (store_below self.old))) }
        ensures octets { S.honest (store_below self.old)
            → OnOk result (octets.new ≡ block_at (S.heads (store_below self.old)) k) }
        ensures same { S.honest (store_below self.old)
            → S.heads (store_below self.new) ≡ S.heads (store_below self.old) }
        ensures blocks { S.honest (store_below self.old)
            → S.blocks (store_below self.new) ≡ S.blocks (store_below self.old) }
        ensures call { IsOneCall ⟦<S as BlockStore>⟧ self.old self.new result }
        ensures turn { FailsInTurn ⟦<S as BlockStore>⟧ self.old self.new result }
    {
        counted(&mut self.left, &mut self.on_purpose)?;
        self.store.read_head(k, octets)
    }

    fn write_head(&mut self, k: u32, octets: &[u8; BLOCK_OCTETS]) -> Result<(), DeviceFailed>
        requires { k < head_blocks (length (S.blocks (store_below self.old))) }
        ensures written { S.honest (store_below self.old)
            → OnOk result (S.heads (store_below self.new)
            ≡ slice_set (S.heads (store_below self.old)) k octets.now) }
        ensures others { S.honest (store_below self.old)
            → ChangesOnly k (S.heads (store_below self.old)) (S.heads (store_below self.new)) }
        ensures blocks { S.honest (store_below self.old)
            → S.blocks (store_below self.new) ≡ S.blocks (store_below self.old) }
        ensures call { IsOneCall ⟦<S as BlockStore>⟧ self.old self.new result }
        ensures turn { FailsInTurn ⟦<S as BlockStore>⟧ self.old self.new result }
    {
        counted(&mut self.left, &mut self.on_purpose)?;
        self.store.write_head(k, octets)
    }
}

/// Counts a call, and fails it where it is the one that fails, which is counted too.
fn counted(left: &mut u64, on_purpose: &mut Tally) -> Result<(), DeviceFailed>
    ensures left { left.new ≡ left.old - 1 }
    ensures due { IsErr result ↔ (left.old ≡ 1) }
    ensures failed { OnErr result (on_purpose.new ≡ on_purpose.old + 1) }
    ensures no_failure { OnOk result (on_purpose.new ≡ on_purpose.old) }
{
    let due = *left == 1;
    *left = left.saturating_sub(1);
    if due {
        on_purpose.add_one();
        return Err(DeviceFailed);
    }
    Ok(())
}
