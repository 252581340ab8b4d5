//! What the numbers of a history stand for is kept.
ghost use Rattle.std.specs.Prelude.{◌≡◌, ◌∷◌, [], Bool, Some, true, IfErr, IfOk, OnErr, OnOk};
ghost use Rattle.std.specs.Prelude.{option_map};
ghost use Rattle.history_names.specs.Named.{IsNamesFault, told_in};
ghost use Rattle.relay_folder.specs.Keeping.{IsAsBefore, IsNotKept};
ghost use Rattle.relay_names.specs.Text.{told_octets};
ghost use Rattle.relay_names.specs.Views.{names_view};

use crate::reading::unread;
use relay_conf::Config;
use relay_folder::{HistoryPlace, keep};
use relay_names::{Names, names_of, write_names};
use relay_report::ServeError;
use std::alloc::{AllocError, Global};
use std::io;

/// Keeps the names over a history of this stop at a place, for good: those that are known of it,
/// and for each later stop those of the configuration. A relay that is started keeps them before it
/// writes anything else of its history or its buffers.
pub fn keep_names<N: HistoryPlace>(
    alloc: Global,
    config: &Config,
    place: &mut N,
    stop: u64,
    known: Option<Names>,
) -> Result<(), ServeError>
    ensures kept { N.honest place.old → OnOk result (N.kept place.new
        ≡ Some (told_octets (told_in config.now stop (option_map names_view known)))) }
    ensures lasts { N.honest place.old → OnOk result (N.lasting place.new
        ≡ Some (told_octets (told_in config.now stop (option_map names_view known))) ∷ []) }
    ensures refused { N.honest place.old → OnErr result (IsNotKept N.HistoryPlace
        (told_octets (told_in config.now stop (option_map names_view known)))
        place.old place.new) }
    ensures honest { N.honest place.old → N.honest place.new }
    ensures fault { IfErr result IsNamesFault }
{
    let text = text_told(alloc, config, stop, known)?;
    match put_text(alloc, place, &text) {
        Ok(()) => Ok(()),
        Err(error) => Err(unread(error.kind())),
    }
}

/// The text of names that is kept over a history of this stop.
fn text_told(
    alloc: Global,
    config: &Config,
    stop: u64,
    known: Option<Names>,
) -> Result<Vec<u8>, AllocError>
    ensures { IfOk result (λ text. text.items
        ≡ told_octets (told_in config.now stop (option_map names_view known))) }
{
    let own = names_of(alloc, config)?;
    write_names(alloc, stop, known.as_ref(), &own)
}

/// Keeps this text, where it isn't kept yet, and has the device take its name in any case.
fn put_text<N: HistoryPlace>(alloc: Global, place: &mut N, text: &[u8]) -> io::Result<()>
    ensures kept { N.honest place.old → OnOk result (N.kept place.new ≡ Some text.now) }
    ensures lasts { N.honest place.old
        → OnOk result (N.lasting place.new ≡ Some text.now ∷ []) }
    ensures refused { N.honest place.old
        → OnErr result (IsNotKept N.HistoryPlace text.now place.old place.new) }
    ensures honest { N.honest place.old → N.honest place.new }
{
    if is_kept(alloc, place, text)? {
        // What an earlier start kept is there, but a power cut may still take its name away.
        place.flush_names()
    } else {
        keep(place, text)
    }
}

/// Whether this text is kept.
fn is_kept<N: HistoryPlace>(alloc: Global, place: &mut N, text: &[u8]) -> io::Result<bool>
    ensures kept { N.honest place.old
        → IfOk result (λ same. same ≡ true → N.kept place.old ≡ Some text.now) }
    ensures same { N.honest place.old → IsAsBefore N.HistoryPlace place.old place.new }
    ensures honest { N.honest place.old → N.honest place.new }
{
    match place.read(alloc)? {
        Some(kept) => Ok(kept.as_slice() == text),
        None => Ok(false),
    }
}
