//! Why a text is no history.
ghost use Rattle.std.specs.Prelude.{◌≡◌};
ghost use Rattle.id_history.specs.declared.fault.HistoryError.TheVariants.{Memory};

use std::alloc::{AllocError, AllocFailed};

/// Why a text can't be read.
#[derive(Clone, Copy)]
pub enum HistoryError {
    /// Memory ran out.
    Memory,
    /// It isn't the text of a history that the configuration allows.
    BadHistory,
}

impl From<AllocError> for HistoryError {
    ghost from_gives = { λ _ e. e ≡ Memory };

    fn from(_error: AllocError) -> HistoryError {
        HistoryError::Memory
    }
}

impl<T: Drop> From<AllocFailed<T>> for HistoryError {
    ghost from_gives = { λ _ e. e ≡ Memory };

    fn from(_error: AllocFailed<T>) -> HistoryError {
        HistoryError::Memory
    }
}
