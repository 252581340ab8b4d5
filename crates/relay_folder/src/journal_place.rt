//! Places at which a journal is kept.
ghost use Rattle.std.specs.Prelude.{◌≡◌, ◌∷◌, [], List, Some, IfOk, ℕ};

use crate::history_place::HistoryPlace;
use crate::journal_file::JournalFile;
use std::io;

/// A place at which the text of a journal is kept. It is read as a history is, and a new one is
/// kept as a history is, by `keep`; then its file is opened, and octets are put behind its end.
pub trait JournalPlace: HistoryPlace {
    /// The file of what is kept, open.
    type Open: JournalFile + Drop + Send;

    /// Opens the file of the text that is kept. The place is not to be written as long as that is
    /// had.
    fn open(&mut self) -> io::Result<Self::Open>
        ensures text { Self.honest self.old → (text : List ℕ) → Self.kept self.old ≡ Some text
            → IfOk result (λ file. Self.Open.text file ≡ text) }
        ensures lasting { Self.honest self.old → (text : List ℕ)
            → Self.lasting self.old ≡ Some text ∷ []
            → IfOk result (λ file. Self.Open.lasting file ≡ text ∷ []) }
        ensures honest { Self.honest self.old → IfOk result (λ file. Self.Open.honest file) };
}
