//! Files of journals that are open.
ghost use Rattle.std.specs.Prelude.{◌≡◌, ◌++◌, ◌∷◌, [], List, All, OnErr, OnOk, ℕ};
ghost use Rattle.relay_folder.specs.Behind.{IsBehind, IsBehindOne};

use std::io;

/// The file of a journal, open where it is kept: whoever has it writes there, and needs no folder.
pub trait JournalFile {
    /// The text in it.
    ghost text: { Self → List ℕ };

    /// What may be in it after a power cut: one of these.
    ghost lasting: { Self → List (List ℕ) };

    /// Nobody else writes it, and what was written is what is read.
    ghost honest: { Self → Type 0 };

    /// Takes away all that is in it. Until it is flushed a power cut may bring that back.
    fn cut(&mut self) -> io::Result<()>
        ensures empty { honest self.old → OnOk result (text self.new ≡ []) }
        ensures same { honest self.old → OnErr result (text self.new ≡ text self.old) }
        ensures may { honest self.old → OnOk result (lasting self.new ≡ [] ∷ lasting self.old) }
        ensures lasting { honest self.old → OnErr result (lasting self.new ≡ lasting self.old) }
        ensures honest { honest self.old → honest self.new };

    /// Puts octets behind what is in it. Where that fails, any octets may stand there. The device
    /// may not have them yet: what a power cut leaves begins with what it would have left before.
    fn append(&mut self, octets: &[u8]) -> io::Result<()>
        ensures text { honest self.old
            → OnOk result (text self.new ≡ text self.old ++ octets.now) }
        ensures behind { honest self.old
            → OnErr result (IsBehind (text self.old) (text self.new)) }
        ensures lasting { honest self.old
            → All (IsBehindOne (lasting self.old)) (lasting self.new) }
        ensures honest { honest self.old → honest self.new };

    /// Has the device take all that is in it.
    fn flush(&mut self) -> io::Result<()>
        ensures lasts { honest self.old → OnOk result (lasting self.new ≡ text self.new ∷ []) }
        ensures lasting { honest self.old → OnErr result (lasting self.new ≡ lasting self.old) }
        ensures same { honest self.old → text self.new ≡ text self.old }
        ensures honest { honest self.old → honest self.new };
}
