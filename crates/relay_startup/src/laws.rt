//! Laws of the causes why there is no history (docs/FORMATS.md, History file).
ghost use Rattle.std.specs.Prelude.{◌≡◌, None, Some, IfErr, IfOk};
ghost use Rattle.id_history.specs.History.{Fits, Holds, Kept, Setting, history_octets};
ghost use Rattle.id_history.specs.declared.fault.HistoryError.TheVariants as errors;
ghost use Rattle.relay_core.specs.Desks.{Reads};
ghost use Rattle.relay_report.specs.declared.keeping.HistoryFault as report;
ghost use Rattle.relay_report.specs.declared.keeping.HistoryFault.TheVariants.{Text};
ghost use Rattle.relay_startup.specs.Causes.{cause_of};

use id_history::{History, HistoryError};
use relay_conf::Config;
use relay_core::read_history;
use std::alloc::Global;

/// A text has a cause exactly where it is no history that a relay of the configuration can have had
/// at its stop.
pub fn cause_is_of_none(config: &Config, text: &[u8])
    ensures told { (cause : report.HistoryFault)
        → cause_of config.now (Some text.now) ≡ Some cause
        → (kept : Kept) → Reads config.now text.now kept → ⊥ }
    ensures untold { cause_of config.now (Some text.now) ≡ None
        → (kept : Kept) × Reads config.now text.now kept }
{
    let _count = text.len();
}

/// The reading of a start itself: a text that it refuses has a cause, and one that it takes has
/// none.
pub fn refused_has_cause(
    alloc: Global,
    config: &Config,
    text: &[u8],
) -> Result<History, HistoryError>
    ensures taken { IfOk result (λ history. cause_of config.now (Some text.now) ≡ None) }
    ensures refused { IfErr result (λ error. error ≡ errors.BadHistory
        → (cause : report.HistoryFault)
        × (cause_of config.now (Some text.now) ≡ Some cause)) }
{
    read_history(alloc, config, text)
}

/// Where the cause is the text itself, no relay can have stopped with it, however configured.
pub fn text_is_of_none(config: &Config, text: &[u8])
    ensures { cause_of config.now (Some text.now) ≡ Some Text
        → (setting : Setting) (kept : Kept) → Fits kept → Holds setting kept
        → text.now ≡ history_octets kept → ⊥ }
{
    let _count = text.len();
}
