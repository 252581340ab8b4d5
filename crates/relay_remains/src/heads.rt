//! What the heads of a relay's buffers say of how it ended.
ghost use Rattle.std.specs.Prelude.{◌≡◌, ◌↔◌, ◌∷◌, [], length, map, IfSome, IsTrue, MatchOption};
ghost use Rattle.cyc_block.specs.Heads.{head_view, state_view};
ghost use Rattle.cyc_buffer.specs.Stopped.{Says};
ghost use Rattle.news_terms.specs.HeadBlocks.{HeadBlock};
ghost use Rattle.block_shelf.specs.Starting.{IsUnwritten};
ghost use Rattle.relay_remains.specs.Heads.{AreUnwritten, TellsEnd, TellsEnds, both, buffer_at};
ghost use Rattle.relay_remains.specs.Heads.{ended_as, failed_in, told_as};

use block_shelf::StopFault;
use cyc_block::{BLOCK_OCTETS, BlockStore, HeadNumbers, HeadState, read_head_image};
use relay_core::next_stop;

/// How a relay has ended, by the heads of its buffers.
#[derive(Clone, Copy)]
pub enum Standing {
    /// It was stopped: each head is closed at the stop of the history.
    Stopped,
    /// It was not: a head is open at that stop, or closed at the next one, whose history wasn't
    /// kept.
    Unstopped,
}

/// Why the heads are none that a crash leaves.
#[derive(Clone, Copy)]
pub struct HeadFault {
    /// The place of the buffer.
    pub place: usize,
    /// Its device failed, its head block 0 isn't that of this buffer, or it is of another stop than
    /// the history.
    pub error: StopFault,
}

impl Standing {
    /// How a relay has ended that has one buffer more, which has ended so.
    fn with(self, next: Standing) -> Standing
        ensures { result ≡ both self next }
    {
        match next {
            Standing::Stopped => self,
            Standing::Unstopped => Standing::Unstopped,
        }
    }
}

/// How the relay of these stores, the i-th that of buffer i, has ended, whose history is of this
/// stop.
pub fn standing_of<S: BlockStore>(stores: &mut [S], stop: u64) -> Result<Standing, HeadFault>
    ensures told { TellsEnds ⟦<S as BlockStore>⟧ stop stores.old result }
    ensures unwritten { AreUnwritten ⟦<S as BlockStore>⟧ result stores.old stores.new }
    ensures counts { map (λ store. length (S.blocks store)) stores.new
        ≡ map (λ store. length (S.blocks store)) stores.old }
{
    let mut standing = Standing::Stopped;
    for place in 0..stores.len() {
        match standing_in(&mut stores[place], place, stop) {
            Ok(next) => standing = standing.with(next),
            Err(error) => return Err(HeadFault { place, error }),
        }
    }
    Ok(standing)
}

/// How the buffer at this place has ended, by its head block 0.
fn standing_in<S: BlockStore>(store: &mut S, place: usize, stop: u64) -> Result<Standing, StopFault>
    ensures told { S.honest store.old
        → TellsEnd ⟦<S as BlockStore>⟧ stop place store.old result }
    ensures unwritten { IsUnwritten ⟦<S as BlockStore>⟧ (failed_in result place) place store.old
        store.new }
{
    let blocks = store.count();
    let mut octets = [0; BLOCK_OCTETS];
    match store.read_head(0, &mut octets) {
        Ok(()) => match numbers_of(&octets, place, blocks) {
            Some(numbers) => standing_by(&numbers, stop),
            None => Err(StopFault::NoHead),
        },
        Err(_failed) => Err(StopFault::Device),
    }
}

/// The numbers that head block 0 says, where it is that of the buffer at this place, with so many
/// blocks.
pub fn numbers_of(octets: &[u8; BLOCK_OCTETS], place: usize, blocks: u32) -> Option<HeadNumbers>
    ensures numbers { MatchOption result
        ((b : HeadBlock) → Says (octets.now ∷ []) (buffer_at place blocks) b → ⊥)
        (λ numbers. Says (octets.now ∷ []) (buffer_at place blocks) (head_view numbers)) }
    ensures only { IfSome result (λ numbers. (b : HeadBlock)
        → Says (octets.now ∷ []) (buffer_at place blocks) b → head_view numbers ≡ b) }
{
    let numbers = read_head_image(octets)?;
    if is_of_buffer(&numbers, place, blocks) {
        Some(numbers)
    } else {
        None
    }
}

/// Whether the numbers are those of the buffer at this place, with so many blocks.
fn is_of_buffer(numbers: &HeadNumbers, place: usize, blocks: u32) -> bool
    ensures { IsTrue result ↔ ((numbers.now.number ≡ place) × (numbers.now.blocks ≡ blocks)
        × (numbers.now.first_cycle ≡ 0)) }
{
    usize::from(numbers.number) == place && numbers.blocks == blocks && numbers.first_cycle == 0
}

/// How a buffer whose head says these numbers has ended, where the history is of this stop.
fn standing_by(numbers: &HeadNumbers, stop: u64) -> Result<Standing, StopFault>
    ensures { result ≡ told_as (ended_as stop (state_view numbers.now.state) numbers.now.stop) }
{
    match numbers.state {
        HeadState::Open if numbers.stop == stop => Ok(Standing::Unstopped),
        HeadState::Closed if numbers.stop == stop => Ok(Standing::Stopped),
        HeadState::Closed if numbers.stop == next_stop(stop) => Ok(Standing::Unstopped),
        _ => Err(StopFault::Mixed),
    }
}
