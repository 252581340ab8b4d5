//! From what a relay begins, over the files of its buffers.
ghost use Rattle.std.specs.Prelude.{◌≡◌, ◌⊎◌, All, IfErr, IfOk, IsTrue, map};
ghost use Rattle.file_blocks.specs.Store.{count_of};
ghost use Rattle.relay_folder.specs.Origin.{IsFormatted};
ghost use Rattle.buffer_files.specs.Files.{IsFileFault, WasBlank, WasEmptied};
ghost use Rattle.buffer_files.specs.History.{IsForgotten, IsOriginFault};

use crate::files::{are_blank, empty_files};
use crate::history::{begun_from, forget};
use file_blocks::FileBlocks;
use relay_conf::Buffers;
use relay_folder::{HistoryPlace, JournalPlace, Origin};
use relay_report::ServeError;
use std::alloc::Global;

/// What a relay may begin over, before it is known from what.
#[derive(Drop)]
pub struct Unbegun {
    /// The store of each buffer, in their order.
    pub stores: Vec<FileBlocks>,
    /// Whether it is asked to begin from nothing.
    pub fresh: bool,
}

/// A store into whose file was looked, before it was one, whether a buffer was kept there.
pub trait Looked {
    /// None was found.
    ghost was_blank: { Self → Type 0 };

    /// Its file was emptied since it was opened, so that nothing of what was kept there is left.
    ghost was_emptied: { Self → Type 0 };
}

impl Looked for FileBlocks {
    ghost was_blank = { WasBlank };

    ghost was_emptied = { WasEmptied };
}

/// What a relay begins over, and from what: from nothing, so that each store is formatted, only
/// where that was asked for, or where no buffer was found in any of them; and over files that were
/// emptied, since stamps of an earlier life would be found again after a crash.
#[derive(Drop)]
pub struct Beginning<S: Looked> {
    /// The store of each buffer, in their order.
    pub stores: Vec<S>,
    /// From nothing, or from what it was stopped with.
    pub origin: Origin,
    /// Whether it was asked to begin from nothing.
    pub fresh: bool,
    ghost formatted: { IsFormatted origin → ∥ IsTrue fresh ⊎ All S.was_blank stores.items ∥₁ },
    ghost emptied: { IsFormatted origin → ∥ All S.was_emptied stores.items ∥₁ },
}

/// Finds out what a relay begins from, and empties the files where that is nothing, once neither a
/// history nor a journal is kept. The error is want of memory, or that the history can't be read,
/// or one of both not be taken away where all is to be formatted, or the first file that can't be
/// emptied.
pub fn begin_over<H: HistoryPlace, P: JournalPlace>(
    alloc: Global,
    settings: &Buffers,
    history: &mut H,
    journal: &mut P,
    unbegun: Unbegun,
) -> Result<Beginning<FileBlocks>, ServeError>
    ensures blocks { IfOk result (λ begun. map count_of begun.stores.items
        ≡ map count_of unbegun.stores.items) }
    ensures stores { IfOk result (λ begun. ¬ IsFormatted begun.origin
        → begun.stores ≡ unbegun.stores) }
    ensures fresh { IfOk result (λ begun. begun.fresh ≡ unbegun.fresh) }
    // No journal of an earlier life is read in one that begins from nothing.
    ensures journal { IfOk result (λ begun. IsFormatted begun.origin
        → IsForgotten ⟦<P as HistoryPlace>⟧ journal.old journal.new) }
    ensures same { IfOk result (λ begun. ¬ IsFormatted begun.origin
        → journal.new ≡ journal.old) }
    ensures fault { IfErr result (λ error. IsOriginFault error ⊎ IsFileFault settings.now error) }
{
    let Unbegun { stores, fresh } = unbegun;
    let blank = are_blank(&stores);
    match begun_from(alloc, history, fresh, blank) {
        Ok(Origin::Formatted) => {
            forget(journal)?;
            Ok(Beginning {
                stores: empty_files(alloc, settings, stores)?,
                origin: Origin::Formatted,
                fresh,
            })
        }
        Ok(Origin::Stopped(text)) => Ok(Beginning {
            stores,
            origin: Origin::Stopped(text),
            fresh,
        }),
        Err(error) => {
            drop(stores);
            Err(error)
        }
    }
}
