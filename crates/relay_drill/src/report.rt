//! The report of a relay as it is.
ghost use Rattle.std.specs.Prelude.{IfOk};
ghost use Rattle.relay_drill.specs.Reporting.{Reports};

use cyc_block::BlockStore;
use relay_core::System;
use relay_report::text_of;
use std::alloc::{AllocError, Global};

/// The report of a relay (docs/FORMATS.md, Report), in whatever state it is: text in lines that end
/// with LF. The error is want of memory.
pub fn report<S: BlockStore>(alloc: Global, system: &System<S>) -> Result<Vec<u8>, AllocError>
    ensures { IfOk result (λ text. Reports system.now text.items) }
{
    let figures = system.figures()?;
    text_of(alloc, &figures)
}
