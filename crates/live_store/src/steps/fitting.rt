//! Whether an open write fits what is asked of it.
ghost use Rattle.std.specs.Prelude.{◌≡◌, ◌↔◌, IsTrue, IfSome, length};
ghost use Rattle.boxcar.specs.Table.{Shows};
ghost use Rattle.live_store.specs.Handles.{shown_of};
ghost use Rattle.live_store.specs.Steps.{CanFinishFor, CanWriteFor, IsOfWrite};
ghost use Rattle.live_store.specs.Tied.{text_in};

use super::entered::Entered;
use crate::open_write::OpenWrite;
use crate::record::ArticleLog;
use cyc_buffer::size_of;

/// Whether the next block of an open write can be written for a record, whose text has so many
/// octets.
pub(super) fn can_write(
    register: &ArticleLog,
    open_write: &OpenWrite,
    entered: &Entered,
    octets: usize,
) -> bool
    requires shown { Shows register.now (shown_of entered.now) }
    requires own { IfSome open_write.now.shown (λ w. Shows register.now w) }
    requires octets { octets ≡ length (text_in (shown_of entered.now)) }
    ensures { IsTrue result ↔ CanWriteFor open_write.now (shown_of entered.now) }
{
    let length = open_write.write.length();
    !open_write.broken
        && is_named(register, open_write, entered)
        && open_write.written < size_of(length)
        && octets == length as usize
}

/// Whether an open write can be finished for a record.
pub(super) fn can_finish(register: &ArticleLog, open_write: &OpenWrite, entered: &Entered) -> bool
    requires shown { Shows register.now (shown_of entered.now) }
    requires own { IfSome open_write.now.shown (λ w. Shows register.now w) }
    ensures { IsTrue result ↔ CanFinishFor open_write.now (shown_of entered.now) }
{
    !open_write.broken
        && open_write.shown.is_some()
        && is_named(register, open_write, entered)
        && open_write.written == size_of(open_write.write.length())
}

/// Whether an open write is the record's: it has the record's number, or has none yet and has the
/// record's token.
pub(super) fn is_named(register: &ArticleLog, open_write: &OpenWrite, entered: &Entered) -> bool
    requires shown { Shows register.now (shown_of entered.now) }
    requires own { IfSome open_write.now.shown (λ w. Shows register.now w) }
    ensures { IsTrue result ↔ IsOfWrite open_write.now (shown_of entered.now) }
{
    match &open_write.shown {
        None => entered.token == open_write.write.token(),
        Some(own) => {
            if own.index() != entered.shown.index() {
                return false;
            }
            register.agrees(own, &entered.shown);
            true
        }
    }
}
