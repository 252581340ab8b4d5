//! What a text of names tells (docs/FORMATS.md, Names file).
ghost use Rattle.std.specs.Prelude.{◌≡◌, option_map};
ghost use Rattle.relay_names.specs.Names.{names_at};
ghost use Rattle.relay_names.specs.Views.{names_view, told_view};
ghost use Rattle.relay_names.specs.declared.told.NamesError.TheVariants.{Memory};

use crate::names::Names;
use std::alloc::{AllocError, AllocFailed};

/// The names of the history of a stop, and those of the history of any later one.
pub struct Told {
    /// The number of the stop.
    pub stop: u64,
    /// The names of its history, where they are known.
    pub last: Option<Names>,
    /// The names of the history of any later stop.
    pub later: Names,
}

// Written out, so that no crate above proves anew how each part is let go.
impl Drop for Told {
    fn drop(self) {
        let Told {
            stop: _,
            last: _,
            later: _,
        } = self;
    }
}

impl Told {
    /// The names of the history of the stop of this number. Of an earlier one than is told of they
    /// aren't known.
    pub fn into_names_at(self, stop: u64) -> Option<Names>
        ensures { option_map names_view result ≡ names_at (told_view self) stop }
    {
        let Told {
            stop: told,
            last,
            later,
        } = self;
        if stop == told {
            return last;
        }
        if told < stop { Some(later) } else { None }
    }
}

/// Why a text tells no names.
#[derive(Clone, Copy)]
pub enum NamesError {
    /// Memory ran out, which says nothing of the text.
    Memory,
    /// It is no text of names.
    BadNames,
}

impl From<AllocError> for NamesError {
    ghost from_gives = { λ _ e. e ≡ Memory };

    fn from(_error: AllocError) -> NamesError {
        NamesError::Memory
    }
}

impl<T: Drop> From<AllocFailed<T>> for NamesError {
    ghost from_gives = { λ _ e. e ≡ Memory };

    fn from(_error: AllocFailed<T>) -> NamesError {
        NamesError::Memory
    }
}
