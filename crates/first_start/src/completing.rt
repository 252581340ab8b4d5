//! Whether a first start was cut short, and how it is completed (docs/PROTOCOL.md, Crashes: what
//! `serve` does).
ghost use Rattle.std.specs.Prelude.{◌≡◌, ◌↔◌, ◌≤◌, ◌<◌, ℕ, All, IfOk, IfSome, IsTrue, OnOk, length};
ghost use Rattle.std.specs.Prelude.{Some, map, slice_get, true};
ghost use Rattle.block_shelf.specs.Each.{AreEach};
ghost use Rattle.cyc_block.specs.Heads.{head_view};
ghost use Rattle.cyc_block.specs.declared.head.HeadState.TheVariants as states;
ghost use Rattle.cyc_buffer.specs.Reads.{StaysHeld};
ghost use Rattle.first_start.specs.Completing.{CompletesHead, HasNoneOrFirst};
ghost use Rattle.first_start.specs.Completing.{IsCutShort, IsHeadMissing, IsHeadless, IsZero};
ghost use Rattle.first_start.specs.Completing.{IsUnmarked, first_head};

use cyc_block::{
    BLOCK_OCTETS, BlockStore, DeviceFailed, HeadNumbers, HeadState, are_zeros, head_count,
    head_image,
};
use relay_remains::numbers_of;

/// Whether a first start over these stores, the i-th that of buffer i, was cut short. Where a
/// device fails it wasn't. All heads are read before a block is, so where none is missing no block
/// is read.
pub fn is_cut_short<S: BlockStore>(stores: &mut [S]) -> bool
    ensures cut { IsTrue result → IsCutShort ⟦<S as BlockStore>⟧ stores.old }
    ensures held { AreEach (λ (b : ℕ). StaysHeld ⟦<S as BlockStore>⟧) stores.old stores.new }
    ensures blocks { map (λ store. length (S.blocks store)) stores.new
        ≡ map (λ store. length (S.blocks store)) stores.old }
{
    if !lack_heads(stores) {
        return false;
    }
    lack_blocks(stores)
}

/// Whether each buffer has no head, or one that is open and was never stopped, and one has none.
fn lack_heads<S: BlockStore>(stores: &mut [S]) -> bool
    ensures heads { IsTrue result → (b : ℕ) (store : S) → slice_get stores.old b ≡ Some store
        → S.honest store → HasNoneOrFirst ⟦<S as BlockStore>⟧ b store }
    ensures missing { IsTrue result → IsHeadMissing ⟦<S as BlockStore>⟧ stores.old }
    ensures held { AreEach (λ (b : ℕ). StaysHeld ⟦<S as BlockStore>⟧) stores.old stores.new }
    ensures blocks { map (λ store. length (S.blocks store)) stores.new
        ≡ map (λ store. length (S.blocks store)) stores.old }
{
    let mut is_missing = false;
    for place in 0..stores.len() {
        match lacks_head(&mut stores[place], place) {
            Some(lacks) => is_missing = is_missing || lacks,
            None => return false,
        }
    }
    is_missing
}

/// Whether the buffer at this place has no head, where it has none or one that is open and was
/// never stopped. Nothing is said of any other, nor where the device fails.
fn lacks_head<S: BlockStore>(store: &mut S, place: usize) -> Option<bool>
    ensures head { S.honest store.old → IfSome result (λ lacks.
        HasNoneOrFirst ⟦<S as BlockStore>⟧ place store.old) }
    ensures missing { S.honest store.old → result ≡ Some true
        → IsHeadless ⟦<S as BlockStore>⟧ store.old }
    ensures held { StaysHeld ⟦<S as BlockStore>⟧ store.old store.new }
{
    let blocks = store.count();
    let mut octets = [0; BLOCK_OCTETS];
    if store.read_head(0, &mut octets).is_err() {
        return None;
    }
    if are_zeros(&octets) {
        return Some(true);
    }
    match numbers_of(&octets, place, blocks) {
        Some(head) if is_first(&head) => Some(false),
        _ => None,
    }
}

/// Whether the head is open, of a buffer that was never stopped.
fn is_first(head: &HeadNumbers) -> bool
    ensures { IsTrue result ↔ (head.now.state ≡ states.Open) × (head.now.stop ≡ 0) }
{
    head.state == HeadState::Open && head.stop == 0
}

/// Whether each block of each store has zeros alone, and each head block but head block 0.
fn lack_blocks<S: BlockStore>(stores: &mut [S]) -> bool
    ensures zeros { IsTrue result → (b : ℕ) (store : S) → slice_get stores.old b ≡ Some store
        → S.honest store → All IsZero (S.blocks store) }
    ensures marks { IsTrue result → (b : ℕ) (store : S) → slice_get stores.old b ≡ Some store
        → S.honest store → IsUnmarked ⟦<S as BlockStore>⟧ store }
    ensures held { AreEach (λ (b : ℕ). StaysHeld ⟦<S as BlockStore>⟧) stores.old stores.new }
    ensures blocks { map (λ store. length (S.blocks store)) stores.new
        ≡ map (λ store. length (S.blocks store)) stores.old }
{
    for place in 0..stores.len() {
        if !lacks_all(&mut stores[place]) {
            return false;
        }
    }
    true
}

/// Whether each block of the store has zeros alone, and each head block but head block 0.
fn lacks_all<S: BlockStore>(store: &mut S) -> bool
    ensures zeros { S.honest store.old → IsTrue result → All IsZero (S.blocks store.old) }
    ensures marks { S.honest store.old → IsTrue result
        → IsUnmarked ⟦<S as BlockStore>⟧ store.old }
    ensures held { StaysHeld ⟦<S as BlockStore>⟧ store.old store.new }
{
    if !lacks_marks(store) {
        return false;
    }
    lacks_blocks(store)
}

/// Whether each head block of the store but head block 0 has zeros alone. Where the device fails
/// one may have more.
fn lacks_marks<S: BlockStore>(store: &mut S) -> bool
    ensures marks { S.honest store.old → IsTrue result
        → IsUnmarked ⟦<S as BlockStore>⟧ store.old }
    ensures held { StaysHeld ⟦<S as BlockStore>⟧ store.old store.new }
{
    let mut marks = [0; BLOCK_OCTETS];
    for k in 1..head_count(store.count()) {
        if store.read_head(k, &mut marks).is_err() {
            return false;
        }
        if !are_zeros(&marks) {
            return false;
        }
    }
    true
}

/// Whether each block of the store has zeros alone. Where the device fails one may have more.
fn lacks_blocks<S: BlockStore>(store: &mut S) -> bool
    ensures zeros { S.honest store.old → IsTrue result → All IsZero (S.blocks store.old) }
    ensures held { StaysHeld ⟦<S as BlockStore>⟧ store.old store.new }
{
    let mut octets = [0; BLOCK_OCTETS];
    for k in 0..store.count() {
        if store.read(k, &mut octets).is_err() {
            return false;
        }
        if !are_zeros(&octets) {
            return false;
        }
    }
    true
}

/// Writes the heads that aren't there. The error is the place of the first store whose device
/// failed.
pub fn complete_each<S: BlockStore>(stores: &mut [S]) -> Result<(), usize>
    requires few { length stores.old ≤ 256 }
    ensures completed { OnOk result
        (AreEach (CompletesHead ⟦<S as BlockStore>⟧) stores.old stores.new) }
    ensures blocks { map (λ store. length (S.blocks store)) stores.new
        ≡ map (λ store. length (S.blocks store)) stores.old }
{
    for place in 0..stores.len() {
        match complete_one(&mut stores[place], place) {
            Ok(()) => {}
            Err(_failed) => return Err(place),
        }
    }
    Ok(())
}

/// Writes the head of the buffer at this place where it isn't there.
fn complete_one<S: BlockStore>(store: &mut S, place: usize) -> Result<(), DeviceFailed>
    requires { place < 256 }
    ensures completed { OnOk result
        (CompletesHead ⟦<S as BlockStore>⟧ place store.old store.new) }
    ensures blocks { length (S.blocks store.new) ≡ length (S.blocks store.old) }
{
    let blocks = store.count();
    let mut octets = [0; BLOCK_OCTETS];
    store.read_head(0, &mut octets)?;
    if !are_zeros(&octets) {
        return Ok(());
    }
    store.write_head(0, &head_image(&first_head(place, blocks)))
}

/// The head of a buffer at this place in which nothing was begun yet.
fn first_head(place: usize, blocks: u32) -> HeadNumbers
    requires { place < 256 }
    ensures { head_view result ≡ first_head place blocks }
{
    HeadNumbers {
        state: HeadState::Open,
        number: place as u8,
        blocks,
        first_cycle: 0,
        cycle: 0,
        head: 0,
        stop: 0,
        begun: 0,
        stored: 0,
    }
}
