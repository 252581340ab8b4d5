//! The faults of configuration files.
ghost use Rattle.std.specs.Prelude.{◌≡◌};
ghost use Rattle.relay_conf.specs.declared.faults.ConfError.TheVariants.{Memory};
ghost use Rattle.relay_conf.specs.Faults.{code_of, name_of, error_at};

use std::alloc::{AllocError, AllocFailed};

/// What is wrong with a line, or with a whole file (docs/FORMATS.md, Configuration). In one line
/// they are looked for in the order Syntax, UnknownKey, Number, Pattern, Duplicate; UnknownName,
/// Shared and NoBuffers only after the last line.
#[derive(Clone, Copy)]
pub enum Fault {
    /// A line of no form of its file, a word that breaks the grammar of its place, an entry without
    /// its end, a file without what it needs.
    Syntax,
    /// A first word or key that the file doesn't know.
    UnknownKey,
    /// A name or key for the second time.
    Duplicate,
    /// A name that stands for nothing, a storage method other than cnfs.
    UnknownName,
    /// No number, a number out of its range, one buffer, group or peer too many.
    Number,
    /// An expression with a fault.
    Pattern,
    /// A buffer in two groups, or twice in one.
    Shared,
    /// A group with an empty list, a file without any group.
    NoBuffers,
}

impl Fault {
    /// The code by which the fault is printed.
    pub fn code(self) -> u8
        ensures { result ≡ code_of self }
    {
        match self {
            Fault::Syntax => 1,
            Fault::UnknownKey => 2,
            Fault::Duplicate => 3,
            Fault::UnknownName => 4,
            Fault::Number => 5,
            Fault::Pattern => 6,
            Fault::Shared => 7,
            Fault::NoBuffers => 8,
        }
    }

    /// The name by which the fault is printed.
    pub fn name(self) -> &'static str
        ensures { result.now ≡ name_of self }
    {
        match self {
            Fault::Syntax => "Syntax",
            Fault::UnknownKey => "UnknownKey",
            Fault::Duplicate => "Duplicate",
            Fault::UnknownName => "UnknownName",
            Fault::Number => "Number",
            Fault::Pattern => "Pattern",
            Fault::Shared => "Shared",
            Fault::NoBuffers => "NoBuffers",
        }
    }
}

/// A fault with its line, counted from 1; a fault of the whole file has line 0.
#[derive(Clone, Copy)]
pub struct LineFault {
    pub line: usize,
    pub fault: Fault,
}

/// Why a file gives no settings.
#[derive(Clone, Copy)]
pub enum ConfError {
    /// Memory ran out, which says nothing of the file.
    Memory,
    /// The first fault of the file.
    Faulty(LineFault),
}

/// Why a line isn't taken.
#[derive(Clone, Copy)]
pub(crate) enum Refusal {
    /// Memory ran out, which says nothing of the line.
    Memory,
    /// The line has this fault.
    Faulty(Fault),
}

impl Refusal {
    /// The same of the line of this number.
    pub(crate) fn at(self, line: usize) -> ConfError
        ensures { result ≡ error_at line self }
    {
        match self {
            Refusal::Memory => ConfError::Memory,
            Refusal::Faulty(fault) => ConfError::Faulty(LineFault { line, fault }),
        }
    }
}

impl From<AllocError> for Refusal {
    ghost use Rattle.relay_conf.specs.declared.faults.Refusal.TheVariants as refusals;

    ghost from_gives = { λ _ e. e ≡ refusals.Memory };

    fn from(_error: AllocError) -> Refusal {
        Refusal::Memory
    }
}

impl From<AllocError> for ConfError {
    ghost from_gives = { λ _ e. e ≡ Memory };

    fn from(_error: AllocError) -> ConfError {
        ConfError::Memory
    }
}

impl<T: Drop> From<AllocFailed<T>> for Refusal {
    ghost use Rattle.relay_conf.specs.declared.faults.Refusal.TheVariants as refusals;

    ghost from_gives = { λ _ e. e ≡ refusals.Memory };

    fn from(_error: AllocFailed<T>) -> Refusal {
        Refusal::Memory
    }
}

impl<T: Drop> From<AllocFailed<T>> for ConfError {
    ghost from_gives = { λ _ e. e ≡ Memory };

    fn from(_error: AllocFailed<T>) -> ConfError {
        ConfError::Memory
    }
}
