//! Why a drill ends before its script does.
ghost use Rattle.std.specs.Prelude.{◌≡◌, Some};
ghost use Rattle.relay_drill.specs.Text.{text_of};
ghost use Rattle.relay_drill.specs.declared.fault.DrillError.TheVariants as faults;
ghost use Rattle.relay_drill.specs.declared.fault.Ended.TheVariants as ends;

use relay_report::Unwritten;
use std::alloc::{AllocError, AllocFailed};
use std::error::Error;
use std::fmt;
use std::fmt::{Display, Formatter};

/// Why a drill ended before its script did (docs/PROTOCOL.md, The call `drill`). Its text is what
/// the program prints.
#[derive(Drop)]
pub enum DrillError {
    /// Memory was refused outside an event. What was written before stands.
    Memory,
    /// The script's line of this number, from 1 on, is bad. Nothing ran.
    Line(u64),
    /// The reader failed, or took more turns than it may. Nothing ran.
    Unreadable,
    /// The writer failed. What was written before stands.
    Unwritten,
    /// The system had no random numbers to seed the relay's tables with. Nothing ran.
    Unseeded,
    /// A device failed while the head block of its buffer was written. Nothing ran.
    Device,
    /// The relay was killed, and could not be repaired and started: a device failed, or the system
    /// had no random numbers. What was written before stands.
    Unrepaired,
}

impl Display for DrillError {
    ghost output = { λ error. Some (text_of error) };

    fn fmt<W: fmt::Write>(&self, formatter: &mut Formatter<W>) -> fmt::Result {
        let told = match self {
            DrillError::Line(line) => return write!(formatter, "script:{line}: fault"),
            DrillError::Memory => "out of memory",
            DrillError::Unreadable => "script: unreadable",
            DrillError::Unwritten => "stdout: unwritten",
            DrillError::Unseeded => "relay: no random numbers to be had",
            DrillError::Device => "relay: a device failed",
            DrillError::Unrepaired => "relay: not repaired",
        };
        formatter.write_str(told)
    }
}

impl fmt::Debug for DrillError {
    fn fmt<W: fmt::Write>(&self, formatter: &mut Formatter<W>) -> fmt::Result {
        Display::fmt(self, formatter)
    }
}

impl Error for DrillError {}

impl From<Unwritten> for DrillError {
    ghost from_gives = { λ _ e. e ≡ faults.Unwritten };

    fn from(_error: Unwritten) -> DrillError {
        DrillError::Unwritten
    }
}

impl From<AllocError> for DrillError {
    ghost from_gives = { λ _ e. e ≡ faults.Memory };

    fn from(_error: AllocError) -> DrillError {
        DrillError::Memory
    }
}

/// Why a line of a script ended before all of it was done.
#[derive(Drop)]
pub enum Ended {
    /// The drill ends.
    Faulty(DrillError),
    /// The power went in an event of it: what that was answered isn't told.
    Cut,
}

impl From<Unwritten> for Ended {
    ghost from_gives = { λ _ e. e ≡ ends.Faulty faults.Unwritten };

    fn from(_error: Unwritten) -> Ended {
        Ended::Faulty(DrillError::Unwritten)
    }
}

impl From<AllocError> for Ended {
    ghost from_gives = { λ _ e. e ≡ ends.Faulty faults.Memory };

    fn from(_error: AllocError) -> Ended {
        Ended::Faulty(DrillError::Memory)
    }
}

impl<T: Drop> From<AllocFailed<T>> for Ended {
    ghost from_gives = { λ _ e. e ≡ ends.Faulty faults.Memory };

    fn from(_error: AllocFailed<T>) -> Ended {
        Ended::Faulty(DrillError::Memory)
    }
}

impl<T: Drop> From<AllocFailed<T>> for DrillError {
    ghost from_gives = { λ _ e. e ≡ faults.Memory };

    fn from(_error: AllocFailed<T>) -> DrillError {
        DrillError::Memory
    }
}
