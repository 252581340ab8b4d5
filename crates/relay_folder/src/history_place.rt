//! Places at which a history is kept.
ghost use Rattle.std.specs.Prelude.{◌≡◌, ◌∷◌, [], List, None, Option, Some, IfOk, OnErr, OnOk};
ghost use Rattle.std.specs.Prelude.{map, ℕ};
ghost use Rattle.std.specs.Option.{option_map};
ghost use Rattle.relay_folder.specs.Place.{Beside, Flushed, Nothing, Written};

use std::alloc::Global;
use std::io;

/// A place at which the text of a history is kept, with room beside it for the next one.
pub trait HistoryPlace {
    /// The text that is kept, none where there is none.
    ghost kept: { Self → Option (List ℕ) };

    /// What stands beside it.
    ghost beside: { Self → Beside };

    /// What may be kept after a power cut: one of these.
    ghost lasting: { Self → List (Option (List ℕ)) };

    /// Nobody else writes there, what was written is what is read, and what a call refuses it
    /// hasn't done to the text that is kept.
    ghost honest: { Self → Type 0 };

    /// Reads the text that is kept, none where there is none.
    fn read(&mut self, alloc: Global) -> io::Result<Option<Vec<u8>>>
        ensures text { honest self.old → IfOk result (λ text.
            option_map (λ octets. octets.items) text ≡ kept self.old) }
        ensures same { honest self.old → kept self.new ≡ kept self.old }
        ensures lasting { honest self.old → lasting self.new ≡ lasting self.old }
        ensures honest { honest self.old → honest self.new };

    /// Takes the text away that is kept, where there is one. Until the names are flushed a power
    /// cut may bring it back.
    fn remove(&mut self) -> io::Result<()>
        ensures gone { honest self.old → OnOk result (kept self.new ≡ None) }
        ensures same { honest self.old → OnErr result (kept self.new ≡ kept self.old) }
        ensures may { honest self.old → OnOk result (lasting self.new ≡ None ∷ lasting self.old) }
        ensures lasting { honest self.old → OnErr result (lasting self.new ≡ lasting self.old) }
        ensures honest { honest self.old → honest self.new };

    /// Takes away what stands beside the text, where anything does.
    fn clear_beside(&mut self) -> io::Result<()>
        ensures clear { honest self.old → OnOk result (beside self.new ≡ Nothing) }
        ensures same { honest self.old → kept self.new ≡ kept self.old }
        ensures lasting { honest self.old → lasting self.new ≡ lasting self.old }
        ensures honest { honest self.old → honest self.new };

    /// Writes a text beside the one that is kept, where nothing stands.
    fn write_beside(&mut self, text: &[u8]) -> io::Result<()>
        ensures written { honest self.old → beside self.old ≡ Nothing
            → OnOk result (beside self.new ≡ Written text.now) }
        ensures same { honest self.old → kept self.new ≡ kept self.old }
        ensures lasting { honest self.old → lasting self.new ≡ lasting self.old }
        ensures honest { honest self.old → honest self.new };

    /// Has the device take what was written beside the text.
    fn flush_beside(&mut self) -> io::Result<()>
        ensures flushed { honest self.old → (text : List ℕ) → beside self.old ≡ Written text
            → OnOk result (beside self.new ≡ Flushed text) }
        ensures same { honest self.old → kept self.new ≡ kept self.old }
        ensures lasting { honest self.old → lasting self.new ≡ lasting self.old }
        ensures honest { honest self.old → honest self.new };

    /// Puts what stands beside the text in its place. Only of what the device has is it said that
    /// it is kept then. Until the names are flushed a power cut may bring back what was kept
    /// before.
    fn put_in_place(&mut self) -> io::Result<()>
        ensures kept { honest self.old → (text : List ℕ) → beside self.old ≡ Flushed text
            → OnOk result (kept self.new ≡ Some text) }
        ensures clear { honest self.old → OnOk result (beside self.new ≡ Nothing) }
        ensures same { honest self.old → OnErr result (kept self.new ≡ kept self.old) }
        ensures may { honest self.old → (text : List ℕ) → beside self.old ≡ Flushed text
            → OnOk result (lasting self.new ≡ Some text ∷ lasting self.old) }
        ensures lasting { honest self.old → OnErr result (lasting self.new ≡ lasting self.old) }
        ensures honest { honest self.old → honest self.new };

    /// Has the device take the names: what is kept then is what a power cut leaves.
    fn flush_names(&mut self) -> io::Result<()>
        ensures lasts { honest self.old → OnOk result (lasting self.new ≡ kept self.new ∷ []) }
        ensures lasting { honest self.old → OnErr result (lasting self.new ≡ lasting self.old) }
        ensures same { honest self.old → kept self.new ≡ kept self.old }
        ensures beside { honest self.old → beside self.new ≡ beside self.old }
        ensures honest { honest self.old → honest self.new };
}
