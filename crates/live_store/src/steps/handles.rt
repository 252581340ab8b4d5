//! What a writer is told where nothing is stored: values that the steps alone make.
ghost use Rattle.std.specs.Prelude.{◌≡◌, ◌≤◌, ℕ, length, IfErr, IfOk};
ghost use Rattle.live_store.specs.Handles.{IsNoText, IsOfBegin, IsRefusedAs, IsWornOf};
ghost use Rattle.live_store.specs.Handles.{conflict_in};
ghost use Rattle.live_store.specs.declared.steps.handles.ConflictCause.TheVariants as causes;
ghost use Rattle.live_store.specs.Steps.{IsBeginFault};

use cyc_buffer::{BufError, Fault};

/// Why nothing is stored though no device failed, in the order of trial.
#[derive(Clone, Copy)]
pub enum ConflictCause {
    /// The text has no octets, or more than a token can say.
    Text,
    /// It has more blocks than the buffer, or another write is open there.
    Begin,
    /// The open write isn't the record's, or can't go on for it.
    Write,
}

/// Nothing is stored, and no device failed. The steps alone say so.
#[derive(Clone, Copy)]
pub struct Conflict {
    cause: ConflictCause,
}

impl Conflict {
    ghost use Rattle.std.specs.Prelude.{◌≡◌};
    ghost use Rattle.live_store.specs.Handles.{conflict_in};
    ghost use Rattle.live_store.specs.declared.steps.handles.ConflictCause.TheVariants as causes;

    /// The open write isn't the record's, or can't go on for it.
    pub(super) fn of_write() -> Conflict
        ensures { conflict_in result ≡ causes.Write }
    {
        Conflict {
            cause: ConflictCause::Write,
        }
    }

    /// The cause.
    pub fn cause(&self) -> ConflictCause
        ensures { result ≡ conflict_in self.now }
    {
        self.cause
    }
}

/// The octets of a text, where it has some and no more than a token can say.
pub(crate) fn octets_of(text: &[u8]) -> Result<u32, Conflict>
    ensures octets { IfOk result (λ n. n ≡ length text.now) }
    ensures some { IfOk result (λ n. 1 ≤ n) }
    ensures conflict { IfErr result (λ conflict. (conflict_in conflict ≡ causes.Text)
        × IsNoText (length text.now)) }
{
    match u32::try_from(text.len()) {
        Ok(0) => Err(Conflict {
            cause: ConflictCause::Text,
        }),
        Ok(octets) => Ok(octets),
        Err(_) => Err(Conflict {
            cause: ConflictCause::Text,
        }),
    }
}

/// What a begin that is refused comes to: a worn buffer is told as its fault; an article that is
/// too big, and a buffer where another write is open, as in conflict. Only where a begin was
/// refused it is called.
pub(super) fn refused(error: BufError) -> Result<Fault, Conflict>
    ensures told { IsRefusedAs error result }
    ensures fault { (octets : ℕ) → IsBeginFault octets error
        → IfOk result (IsWornOf octets) }
    ensures conflict { IfErr result IsOfBegin }
{
    match error {
        BufError::TooBig | BufError::Busy => Err(Conflict {
            cause: ConflictCause::Begin,
        }),
        BufError::Worn(fault) => Ok(fault),
        BufError::Device(fault) => Ok(fault),
    }
}
