//! A started buffer before its head is open.
ghost use Rattle.std.specs.Prelude.{None};
ghost use Rattle.cyc_buffer.specs.Head.{inside};
ghost use Rattle.live_store.specs.Tied.{Tied};

use crate::record::{RecordNumber, StorePremises};
use cyc_block::BlockStore;
use cyc_buffer::Unopened;
use std::marker::PhantomData;

/// A started buffer whose head block says closed yet, and for each block the number of the article
/// that begins there. It begins nothing before its head is open.
#[derive(Drop)]
pub struct UnopenedNumbered<S: BlockStore, J: StorePremises> {
    pub(crate) buffer: Unopened<S>,
    pub(crate) numbers: Vec<Option<RecordNumber>>,
    pub(crate) of: PhantomData<J>,
    ghost tied: { ∥ Tied J.trusted J.register (inside buffer) None numbers.items ∥₁ },
}
