//! How the relay of a folder stands.
ghost use Rattle.std.specs.Prelude.{◌≡◌, [], ℕ, All, IfErr, IfOk, OnOk, Some};
ghost use Rattle.block_shelf.specs.Each.{AreEach};
ghost use Rattle.cyc_buffer.specs.Reads.{StaysHeld};
ghost use Rattle.first_start.specs.Completing.{IsCutShort};
ghost use Rattle.relay_folder.specs.Keeping.{IsAsBefore};
ghost use Rattle.relay_report.specs.declared.fault.ServeError.TheVariants as faults;
ghost use Rattle.relay_report.specs.declared.keeping.HistoryFault.TheVariants.{Missing};
ghost use Rattle.relay_report.specs.declared.keeping.StartFault.TheVariants as starts;
ghost use Rattle.relay_check.specs.Looking as told;
ghost use Rattle.relay_check.specs.Looking.{IsStanding, IsStandingNamed, IsStandingOf};
ghost use Rattle.relay_startup.specs.Naming.{TellsChangesOf, TellsNamedCause};
ghost use Rattle.history_names.specs.Named.{named_by};
ghost use Rattle.relay_startup.specs.Causes.{TellsCause};
ghost use Rattle.buffer_files.specs.Faults.{IsServeFault};
ghost use Rattle.relay_startup.specs.Unstopped.{kept_text};
ghost use Rattle.relay_check.specs.declared.standing.FolderStanding.TheVariants as standings;

use buffer_files::unread;
use cyc_block::BlockStore;
use first_start::is_cut_short;
use history_names::{NamedText, named_text};
use relay_conf::Config;
use relay_folder::{HistoryPlace, Origin, origin_of};
use relay_report::{HistoryFault, ServeError, StartFault};
use relay_startup::is_unstopped;
use std::alloc::{AllocError, Global};

/// How the relay of a folder stands.
#[derive(Clone, Copy)]
pub(crate) enum FolderStanding {
    /// One is served there.
    Running,
    /// Neither a history nor a buffer was kept, or a first start was cut short: a start begins.
    Unbegun,
    /// It was stopped.
    Stopped,
    /// It was left without a stop, so that a start repairs it.
    Unstopped,
}

impl FolderStanding {
    /// The line that tells it.
    pub(crate) fn line(self) -> &'static [u8]
        ensures { result.now ≡ told.standing_line self }
    {
        match self {
            FolderStanding::Running => b"relay: running\n",
            FolderStanding::Unbegun => b"relay: nothing kept yet: a start begins\n",
            FolderStanding::Stopped => b"relay: stopped\n",
            FolderStanding::Unstopped => b"relay: not stopped: a start repairs it\n",
        }
    }
}

/// How the relay of a folder stands, and what a start would change by name, a line each.
#[derive(Drop)]
pub(crate) struct Stands {
    pub(crate) standing: FolderStanding,
    pub(crate) changes: Vec<u8>,
}

impl Stands {
    /// So it stands, with nothing that a start would change by name.
    pub(crate) fn unchanged(alloc: Global, standing: FolderStanding) -> Stands
        ensures standing { result.standing ≡ standing }
        ensures changes { result.changes.items ≡ [] }
    {
        Stands {
            standing,
            changes: Vec::new(alloc),
        }
    }

    /// What tells it: what a start would change by name, and the line behind it.
    pub(crate) fn into_text(self) -> Result<Vec<u8>, AllocError>
        ensures { IfOk result (λ text.
            text.items ≡ told.standing_text self.changes.items self.standing) }
    {
        let Stands { standing, changes } = self;
        let mut text = changes;
        text.extend_from_slice(standing.line())?;
        Ok(text)
    }
}

/// How the relay stands that isn't running, by its history, taken by name, and the heads on its
/// stores; `blank` says that no buffer was kept in any file. The error is what a start says of
/// history and heads before it begins. Nothing is changed.
pub(crate) fn standing_by<S: BlockStore, H: HistoryPlace, N: HistoryPlace>(
    alloc: Global,
    config: &Config,
    history: &mut H,
    names: &mut N,
    stores: &mut [S],
    blank: bool,
) -> Result<Stands, ServeError>
    ensures told { H.honest history.old → N.honest names.old
        → IfOk result (λ stands. IsStanding ⟦<S as BlockStore>⟧ config.now blank
        (N.kept names.old) (H.kept history.old) stores.old stands.standing) }
    ensures same { H.honest history.old → IsAsBefore H.HistoryPlace history.old history.new }
    ensures names { N.honest names.old → IsAsBefore N.HistoryPlace names.old names.new }
    ensures held { OnOk result
        (AreEach (λ (b : ℕ). StaysHeld ⟦<S as BlockStore>⟧) stores.old stores.new) }
    ensures cause { H.honest history.old → N.honest names.old → All S.honest stores.old
        → IfErr result (TellsNamedCause config.now (N.kept names.old) (H.kept history.old)) }
    ensures fault { IfErr result (IsServeFault config.now) }
{
    match origin_of(alloc, history, false, blank) {
        Ok(Origin::Formatted) => Ok(Stands::unchanged(alloc, FolderStanding::Unbegun)),
        Ok(Origin::Stopped(text)) => standing_by_name(alloc, config, names, stores, text),
        Err(error) => Err(unread(error.kind())),
    }
}

/// How the relay stands of whose last stop this is the text, taken by name; empty where none is
/// kept.
fn standing_by_name<S: BlockStore, N: HistoryPlace>(
    alloc: Global,
    config: &Config,
    names: &mut N,
    stores: &mut [S],
    text: Vec<u8>,
) -> Result<Stands, ServeError>
    ensures told { N.honest names.old
        → IfOk result (λ stands. IsStandingNamed ⟦<S as BlockStore>⟧ config.now
        (named_by config.now (N.kept names.old) text.items) stores.old stands.standing) }
    ensures changes { N.honest names.old
        → IfOk result (λ stands. TellsChangesOf config.now (N.kept names.old) text.items
        stands.changes.items) }
    ensures names { N.honest names.old → IsAsBefore N.HistoryPlace names.old names.new }
    ensures held { OnOk result
        (AreEach (λ (b : ℕ). StaysHeld ⟦<S as BlockStore>⟧) stores.old stores.new) }
    ensures cause { N.honest names.old → All S.honest stores.old
        → IfErr result (TellsNamedCause config.now (N.kept names.old) (Some text.items)) }
    ensures fault { IfErr result (IsServeFault config.now) }
{
    let NamedText {
        text,
        known,
        changes,
    } = named_text(alloc, config, names, text)?;
    drop(known);
    let standing = standing_of_text(alloc, config, stores, &text)?;
    Ok(Stands { standing, changes })
}

/// How the relay stands of whose last stop this is the text, empty where none is kept.
fn standing_of_text<S: BlockStore>(
    alloc: Global,
    config: &Config,
    stores: &mut [S],
    text: &[u8],
) -> Result<FolderStanding, ServeError>
    ensures told { IfOk result
        (IsStandingOf ⟦<S as BlockStore>⟧ config.now text.now stores.old) }
    ensures held { OnOk result
        (AreEach (λ (b : ℕ). StaysHeld ⟦<S as BlockStore>⟧) stores.old stores.new) }
    ensures cause { All S.honest stores.old
        → IfErr result (TellsCause config.now (kept_text text.now)) }
    ensures fault { IfErr result (IsServeFault config.now) }
{
    match is_unstopped(alloc, config, stores, text) {
        Ok(true) => Ok(FolderStanding::Unstopped),
        Ok(false) if text.is_empty() => standing_without(stores),
        Ok(false) => Ok(FolderStanding::Stopped),
        Err(error) => Err(error),
    }
}

/// How the relay stands of which no history is kept, and of whose heads one is none that a relay
/// leaves. Where no first start was cut short a start asks for the history.
fn standing_without<S: BlockStore>(stores: &mut [S]) -> Result<FolderStanding, ServeError>
    ensures told { IfOk result (λ standing.
        (standing ≡ standings.Unbegun) × IsCutShort ⟦<S as BlockStore>⟧ stores.old) }
    ensures held { AreEach (λ (b : ℕ). StaysHeld ⟦<S as BlockStore>⟧) stores.old stores.new }
    ensures fault { IfErr result (λ error. error ≡ faults.Start (starts.BadHistory Missing)) }
{
    if is_cut_short(stores) {
        return Ok(FolderStanding::Unbegun);
    }
    Err(ServeError::Start(StartFault::BadHistory(HistoryFault::Missing)))
}
