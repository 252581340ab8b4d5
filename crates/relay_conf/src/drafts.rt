//! How a file is read, line by line.
ghost use Rattle.std.specs.Prelude.{◌≡◌, ◌+◌, ℕ, List, [], Option, Some, length, OnOk};
ghost use Rattle.std.specs.Option.{option_to_list};
ghost use Rattle.relay_conf.specs.Drafts.{StepGives, DraftGives};
ghost use Rattle.relay_conf.specs.Faults.{LineGives};
ghost use Rattle.relay_conf.specs.Lines.{lines_of};
ghost use Rattle.relay_conf.specs.Relay.{once};
ghost use Rattle.relay_conf.specs.declared.faults.Fault.{Fault};

use crate::faults::{ConfError, Fault, Refusal};
use crate::lines::next_line;
use std::alloc::Global;

/// What is kept of a file's lines while they are read, one after the other.
pub(crate) trait LineByLine: Drop {
    /// What the lines are read over.
    type Over;

    // What a line says.
    ghost Said: { Type 0 };

    // A line says this behind others.
    ghost Says: { List Said → List ℕ → Said → Type 0 };

    // What is wrong with a line behind others, looked for line by line.
    ghost wrong: { Self.Over → List Said → Said → Option Fault };

    // The draft is that of lines that say this.
    ghost Draws: { Self.Over → List Said → Self → Type 0 };

    /// Adds what the line of this number says.
    fn add_line(
        &mut self,
        alloc: Global,
        over: &Self::Over,
        number: usize,
        line: &[u8],
    ) -> Result<(), Refusal>
        ensures { (said : List Said) → length said + 1 ≡ number → Draws over.now said self.old
            → StepGives Says (wrong over.now) (Draws over.now) said line.now self.new result };
}

/// Reads the lines of a text up to the first fault that is looked for line by line.
pub(crate) fn read_lines<D: LineByLine>(
    alloc: Global,
    over: &D::Over,
    empty: D,
    text: &[u8],
) -> Result<D, ConfError>
    ensures { D.Draws over.now [] empty
        → DraftGives D.Says (D.wrong over.now) (D.Draws over.now) (lines_of text.now) result }
{
    let mut draft = empty;
    let mut number = 0;
    let mut unread = Some(text);
    while let Some(rest) = unread {
        let (line, after) = next_line(rest);
        number += 1;
        if let Err(refusal) = draft.add_line(alloc, over, number, line) {
            return Err(refusal.at(number));
        }
        unread = after;
    }
    Ok(draft)
}

/// Sets what isn't set yet; a second time is Duplicate.
pub(crate) fn set_once<T: Drop>(slot: &mut Option<T>, value: T) -> Result<(), Refusal>
    ensures fault { LineGives result (once (option_to_list slot.old)) }
    ensures set { OnOk result (slot.new ≡ Some value) }
{
    if slot.is_some() {
        return Err(Refusal::Faulty(Fault::Duplicate));
    }
    *slot = Some(value);
    Ok(())
}
