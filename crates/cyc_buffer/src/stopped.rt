//! What a start reads of the buffer that was stopped on a store.
ghost use Rattle.std.specs.Prelude.{◌≡◌, ◌<◌, ◌≤◌, ◌*◌, ℕ, true, false, length};
ghost use Rattle.std.specs.Prelude.{◌+◌, List, None};
ghost use Rattle.cyc_block.specs.Heads.{head_view, state_view};
ghost use Rattle.cyc_buffer.specs.BufferState.{numbers_in};
ghost use Rattle.cyc_buffer.specs.Readings.{ReadsAll, ReadsBehind, ReadsClosed, ReadsNumbers};
ghost use Rattle.cyc_buffer.specs.Readings.{ReadsStopped};
ghost use Rattle.cyc_buffer.specs.Reads.{AreSound};
ghost use Rattle.cyc_buffer.specs.Stopped.{IsDamaged};

use crate::answers::StartError;
use crate::articles::{Stretch, read_articles};
use crate::bits::{read_bitmap, read_head_octets};
use crate::buffer_state::{BufferState, Counts};
use crate::line::Line;
use crate::marks::Marks;
use cyc_block::{BlockStore, HeadNumbers, HeadState, read_head_image};
use cyc_token::Token;
use std::alloc::Global;

/// What was read off a store of the buffer that was stopped on it.
#[derive(Drop)]
pub(crate) struct Stopped {
    pub(crate) buffer_state: BufferState,
    pub(crate) stop: u64,
    pub(crate) tokens: Vec<Token>,
}

/// The buffer that was stopped on a store, all of whose numbers, bits and live finished articles
/// are read first.
pub(crate) fn read_stopped<S: BlockStore>(
    alloc: Global,
    store: &mut S,
    number: u8,
    first_cycle: u32,
) -> Result<Stopped, StartError>
    ensures { ReadsStopped S.BlockStore store.old store.new (record {
      number = number;
      blocks = length (S.blocks store.old);
      first_cycle = first_cycle;
    }) result }
{
    let numbers = read_closed(store, number, first_cycle)?;
    let mut starts = Marks::new(alloc, numbers.blocks)?;
    read_bitmap(store, numbers.blocks, &mut starts)?;
    let mut kept = Marks::new(alloc, numbers.blocks)?;
    let tokens = read_all(alloc, store, &numbers, &starts, &mut kept)?;
    Ok(Stopped {
        buffer_state: stopped_buffer_state(&numbers, starts, kept),
        stop: numbers.stop,
        tokens,
    })
}

/// The numbers that head block 0 says, where it is this buffer's, which was stopped, and they can
/// be a buffer's.
fn read_closed<S: BlockStore>(
    store: &mut S,
    number: u8,
    first_cycle: u32,
) -> Result<HeadNumbers, StartError>
    ensures { ReadsClosed S.BlockStore store.old store.new (record {
      number = number;
      blocks = length (S.blocks store.old);
      first_cycle = first_cycle;
    }) result }
{
    let numbers = read_numbers(store, number, first_cycle)?;
    match numbers.state {
        HeadState::Open => Err(StartError::Unclosed),
        HeadState::Closed => {
            if are_sound(&numbers) {
                Ok(numbers)
            } else {
                Err(StartError::Damaged)
            }
        }
    }
}

/// The numbers that head block 0 says, where it is this buffer's.
fn read_numbers<S: BlockStore>(
    store: &mut S,
    number: u8,
    first_cycle: u32,
) -> Result<HeadNumbers, StartError>
    ensures { ReadsNumbers S.BlockStore store.old store.new (record {
      number = number;
      blocks = length (S.blocks store.old);
      first_cycle = first_cycle;
    }) result }
{
    let blocks = store.count();
    let octets = read_head_octets(store, 0)?;
    let Some(numbers) = read_head_image(&octets) else {
        return Err(StartError::NoHead);
    };
    if numbers.number != number || numbers.blocks != blocks || numbers.first_cycle != first_cycle {
        return Err(StartError::NoHead);
    }
    Ok(numbers)
}

/// Whether the numbers of a head block can be those of a buffer.
fn are_sound(numbers: &HeadNumbers) -> bool
    ensures sound { result ≡ true → AreSound (head_view numbers.now) }
    ensures damaged { result ≡ false → (heads blocks : List (List ℕ))
        → IsDamaged heads blocks (head_view numbers.now) }
{
    if numbers.head > numbers.blocks || numbers.cycle < numbers.first_cycle {
        return false;
    }
    let cycles = u64::from(numbers.cycle - numbers.first_cycle);
    let passed = cycles * u64::from(numbers.blocks) + u64::from(numbers.head);
    numbers.begun <= passed && numbers.stored <= numbers.begun
}

/// Reads all articles that the marks say, marks their blocks, and lists their tokens.
fn read_all<S: BlockStore>(
    alloc: Global,
    store: &mut S,
    numbers: &HeadNumbers,
    starts: &Marks,
    kept: &mut Marks,
) -> Result<Vec<Token>, StartError>
    requires sound { AreSound (head_view numbers.now) }
    requires count { length (S.blocks store.old) ≡ numbers.now.blocks }
    requires room { numbers.now.blocks ≤ 64 * length starts.now.words.items }
    requires kept_room { numbers.now.blocks ≤ 64 * length kept.old.words.items }
    ensures { ReadsAll S.BlockStore store.old store.new numbers.now starts.now.words.items
        kept.old.words.items kept.new.words.items result }
{
    // Rising by place, what is behind the head comes first.
    let mut tokens = read_behind(alloc, store, numbers, starts, kept)?;
    let before = Stretch {
        number: numbers.number,
        cycle: numbers.cycle,
        end: numbers.head,
    };
    read_articles(store, starts, &before, 0, kept, &mut tokens)?;
    Ok(tokens)
}

/// Reads the articles behind the head, which are of the cycle before; in the first cycle there are
/// none.
fn read_behind<S: BlockStore>(
    alloc: Global,
    store: &mut S,
    numbers: &HeadNumbers,
    starts: &Marks,
    kept: &mut Marks,
) -> Result<Vec<Token>, StartError>
    requires sound { AreSound (head_view numbers.now) }
    requires count { length (S.blocks store.old) ≡ numbers.now.blocks }
    requires room { numbers.now.blocks ≤ 64 * length starts.now.words.items }
    requires kept_room { numbers.now.blocks ≤ 64 * length kept.old.words.items }
    ensures { ReadsBehind S.BlockStore store.old store.new numbers.now starts.now.words.items
        kept.old.words.items kept.new.words.items result }
{
    let mut tokens = Vec::new(alloc);
    if numbers.cycle > numbers.first_cycle {
        let behind = Stretch {
            number: numbers.number,
            cycle: numbers.cycle - 1,
            end: numbers.blocks,
        };
        read_articles(store, starts, &behind, numbers.head, kept, &mut tokens)?;
        return Ok(tokens);
    }
    if !starts.are_clear(numbers.head, numbers.blocks) {
        return Err(StartError::Damaged);
    }
    Ok(tokens)
}

/// The register that sound numbers of a stopped buffer say, with these marks.
fn stopped_buffer_state(numbers: &HeadNumbers, starts: Marks, kept: Marks) -> BufferState
    requires sound { AreSound (head_view numbers.now) }
    requires starts_room { numbers.now.blocks ≤ 64 * length starts.words.items }
    requires kept_room { numbers.now.blocks ≤ 64 * length kept.words.items }
    requires starts_least { 64 * length starts.words.items < numbers.now.blocks + 64 }
    requires kept_least { 64 * length kept.words.items < numbers.now.blocks + 64 }
    ensures numbers { numbers_in result (state_view numbers.now.state) numbers.now.stop
        ≡ head_view numbers.now }
    ensures starts { result.starts ≡ starts }
    ensures kept { result.kept ≡ kept }
    ensures progress { result.progress ≡ None }
{
    BufferState {
        line: Line {
            number: numbers.number,
            blocks: numbers.blocks,
            first_cycle: numbers.first_cycle,
            cycle: numbers.cycle,
            used: numbers.head,
        },
        starts,
        kept,
        counts: Counts {
            begun: numbers.begun,
            stored: numbers.stored,
        },
        progress: None,
    }
}
