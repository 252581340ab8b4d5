use crate::picking::Place;
use buffer_group::Group;
use cyc_block::{BlockStore, CHUNK_OCTETS};
use cyc_buffer::{BufError, Buffer, Found, Front, Open};
use cyc_token::Token;

/// A group of the buffer set: where it is, and the numbers of its buffers in the order of its list.
pub struct PlacedGroup {
    pub(crate) group: Group,
    pub(crate) numbers: Vec<usize>,
}

// Written out, so that no crate above proves anew how each part is let go.
impl Drop for PlacedGroup {
    fn drop(self) {
        let PlacedGroup {
            group: _,
            numbers: _,
        } = self;
    }
}

/// An article that is begun, and neither finished nor abandoned.
pub struct Begun {
    pub(crate) open: Open,
}

impl Begun {
    /// Lets the handle go. The article stays begun: its buffer begins no other.
    pub fn let_go(self) {
        let Begun { open } = self;
        open.into_token();
    }
}

/// Why a block of an article isn't written, in the order of trial.
#[derive(Drop)]
pub enum WriteError {
    /// The article isn't open here, a write of one of its blocks failed, all of it is written, or
    /// the text has another length.
    NotOpen,
    /// The device failed at the write.
    Failed(BufError),
}

/// All buffers, by their numbers, and the groups that they are in.
#[derive(Drop)]
pub struct BufferSet<S: BlockStore> {
    pub(crate) buffers: Vec<Buffer<S>>,
    pub(crate) placed_groups: Vec<PlacedGroup>,
}

impl<S: BlockStore> BufferSet<S> {
    ghost use Rattle.std.specs.Prelude.{◌≡◌, ◌↔◌, Bool, ℕ, Option, slice_get, IfNone, IfOk, IsTrue};
    ghost use Rattle.block_shelf.specs.Calls.{BeginsOn, KeepsAll, WritesOn, FinishesOn, AbandonsOn};
    ghost use Rattle.block_shelf.specs.Calls.{CanFinish, CanWrite, FinishesWhereItCan, token_of};
    ghost use Rattle.block_shelf.specs.Calls.{WritesWhereItCan};
    ghost use Rattle.block_shelf.specs.Devices.{CallsNone, CallsOneAtMost, calls_at};
    ghost use Rattle.block_shelf.specs.Keeping.{KeepsTexts};
    ghost use Rattle.block_shelf.specs.Leaving.{Trust};
    ghost use Rattle.block_shelf.specs.Openings.{Opening};
    ghost use Rattle.block_shelf.specs.Reading.{ReadsOn, IsFrontAt};
    ghost use Rattle.cyc_buffer.specs.Calls.{LeavesRest};
    ghost use Rattle.cyc_token.specs.Token.{token_view};
    ghost use Rattle.relay_model.specs.State.{State};
    ghost use Rattle.relay_model.specs.Terms.{Terms};

    /// Begins an article of a class and of so many octets in the buffer that its group picks, at
    /// its next place. From now on what the front passes is gone. `None` where no token has room
    /// for the cycle; also where there is no such group, a write is open in that buffer, or the
    /// article has no octets or doesn't fit. Takes no memory.
    pub fn begin(&mut self, group: u16, class: u8, length: u32) -> Option<Begun>
        ensures begun { BeginsOn group class length self.old result self.new }
        // Where nothing is begun, whatever the reason, all that was kept still is.
        ensures refused { IfNone result (KeepsAll self.old self.new) }
        ensures calls { CallsNone self.old self.new }
    {
        if length == 0 {
            return None;
        }
        let placed_group = self.placed_groups.get_mut(usize::from(group))?;
        let Place { pick, number } = placed_group.pick(length)?;
        let buffer = self.buffers.get_mut(number)?;
        let Ok(open) = buffer.begin(class, length, pick.fresh) else {
            return None;
        };
        placed_group.group.begun(&pick, length);
        Some(Begun { open })
    }

    /// Writes the next block of a begun article, whose whole text this is, and says whether it was
    /// the last. After Failed the article can only be abandoned. Takes no memory.
    pub fn write_next(&mut self, begun: &Begun, text: &[u8]) -> Result<bool, WriteError>
        ensures written { WritesOn (token_of begun.now) text.now self.old result self.new }
        // It is written where it can be, by one call of the device; else nothing is done.
        ensures cases { WritesWhereItCan begun.now text.now self.old result self.new }
        // No other device is called.
        ensures calls { (number : ℕ) → (number ≡ (token_of begun.now).buffer → ⊥)
            → calls_at self.new number ≡ calls_at self.old number }
    {
        if !self.can_write(begun, text) {
            return Err(WriteError::NotOpen);
        }
        match self.buffers.get_mut(usize::from(begun.open.token().buffer)) {
            Some(buffer) => match buffer.write_next(&begun.open, text) {
                Ok(last) => Ok(last),
                Err(error) => Err(WriteError::Failed(error)),
            },
            None => unreachable!(),
        }
    }

    /// Whether the next block of a text can be written to a begun article.
    fn can_write(&self, begun: &Begun, text: &[u8]) -> bool
        ensures { IsTrue result ↔ CanWrite self.now begun.now text.now }
    {
        match self.buffers.get(usize::from(begun.open.token().buffer)) {
            Some(buffer) => buffer.can_write(&begun.open, text),
            None => false,
        }
    }

    /// Finishes a begun article, all of which is written: from now on its text is found under the
    /// token. One that can't be finished here is given back. Takes no memory.
    pub fn finish(&mut self, begun: Begun) -> Result<Token, Begun>
        ensures token { IfOk result (λ token. token_view token ≡ token_of begun) }
        ensures finished { FinishesOn (token_of begun) self.old result self.new }
        // It is finished where it can be; else nothing is done.
        ensures cases { FinishesWhereItCan begun self.old result self.new }
        ensures calls { CallsNone self.old self.new }
    {
        if !self.can_finish(&begun) {
            return Err(begun);
        }
        let Begun { open } = begun;
        let number = usize::from(open.token().buffer);
        match self.buffers.get_mut(number) {
            Some(buffer) => Ok(buffer.finish(open)),
            None => unreachable!(),
        }
    }

    /// Whether a begun article can be finished.
    fn can_finish(&self, begun: &Begun) -> bool
        ensures { IsTrue result ↔ CanFinish self.now begun.now }
    {
        match self.buffers.get(usize::from(begun.open.token().buffer)) {
            Some(buffer) => buffer.can_finish(&begun.open),
            None => false,
        }
    }

    /// Gives a begun article up. Its space stays lost. Takes no memory.
    pub fn abandon(&mut self, begun: Begun)
        ensures abandoned { AbandonsOn (token_of begun) self.old self.new }
        ensures calls { CallsNone self.old self.new }
    {
        let Begun { open } = begun;
        match self.buffers.get_mut(usize::from(open.token().buffer)) {
            Some(buffer) => buffer.abandon(open),
            None => {
                open.into_token();
            }
        }
    }

    /// Reads block k of the article under a token. Takes no memory.
    pub fn read(
        &mut self,
        token: &Token,
        k: u32,
        chunk: &mut [u8; CHUNK_OCTETS],
    ) -> Result<Found, BufError>
        ensures found { ReadsOn (token_view token.now) k self.old result chunk.new self.new }
        // Behind a chunk the slice is as it was, and where there is no chunk all of it is.
        ensures rest { LeavesRest result chunk.old chunk.new }
        ensures calls { CallsOneAtMost token.now.buffer self.old self.new }
    {
        match self.buffers.get_mut(usize::from(token.buffer)) {
            Some(buffer) => buffer.read_block(token, k, chunk),
            None => Ok(Found::Unknown),
        }
    }

    /// The front of a buffer, where there is one of this number.
    pub fn front(&self, number: u8) -> Option<Front>
        ensures { (trusted : Trust) (w : Terms) (σ : State) (openings : ℕ → Option Opening)
            (failures : ℕ → ℕ) → KeepsTexts trusted self.now w σ.begun σ.kept openings failures
            → IsFrontAt w σ (slice_get w.buffers number) result }
    {
        Some(self.buffers.get(usize::from(number))?.passed())
    }
}
