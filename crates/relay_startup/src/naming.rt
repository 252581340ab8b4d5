//! A relay goes on from what was left of it by the names of its configuration (docs/FORMATS.md,
//! Names file).
ghost use Rattle.std.specs.Prelude.{◌≡◌, [], true, IfErr, IfOk, length, map};
ghost use Rattle.block_shelf.specs.Each.{AreEach};
ghost use Rattle.block_shelf.specs.Starting.{IsUnwritten};
ghost use Rattle.buffer_files.specs.Faults.{IsServeFault};
ghost use Rattle.relay_startup.specs.Naming.{IsTakenByName, LeavesNames, TellsChangesOf};
ghost use Rattle.relay_startup.specs.Unstopped.{IsUnstoppedBy};

use crate::unstopped::{LookedAt, looked_at};
use buffer_files::Synced;
use cyc_block::BlockStore;
use history_names::{NamedText, keep_names, named_text};
use relay_conf::Config;
use relay_folder::HistoryPlace;
use relay_report::{HistoryFault, ServeError, StartFault};
use std::alloc::Global;
use std::str;

/// What was left of a relay, by the names of its configuration.
pub struct LeftByName<S> {
    /// The store of each buffer, in their order.
    pub stores: Vec<S>,
    /// The text of its history, as this configuration has it; empty where none was kept.
    pub text: Vec<u8>,
    /// What has changed by name, a line each.
    pub changes: Vec<u8>,
    /// Whether it was left without a stop.
    pub unstopped: bool,
}

/// What was left of a relay on these stores, with this text of its last history, is looked at by
/// name. Where it can be gone on with, and nowhere else, the names are kept, before anything else
/// is written: what it was known by at its last stop, and for each later one those of the
/// configuration.
pub fn left_by_name<S: Synced + Drop, N: HistoryPlace>(
    alloc: Global,
    config: &Config,
    names: &mut N,
    stores: Vec<S>,
    text: Vec<u8>,
) -> Result<LeftByName<S>, ServeError>
    ensures taken { IfOk result (λ left.
        IsTakenByName N.HistoryPlace config.now text.items left.text.items names.old names.new) }
    ensures changes { N.honest names.old
        → IfOk result (λ left. TellsChangesOf config.now (N.kept names.old) text.items
        left.changes.items) }
    ensures told { IfOk result (λ left. IsUnstoppedBy ⟦<S as BlockStore>⟧ config.now
        left.text.items stores.items left.unstopped) }
    // Without a history only one that was never stopped goes on: a lost one may be put back.
    ensures kept { IfOk result (λ left. left.text.items ≡ [] → left.unstopped ≡ true) }
    ensures unwritten { IfOk result (λ left.
        AreEach (IsUnwritten ⟦<S as BlockStore>⟧ None) stores.items left.stores.items) }
    ensures blocks { IfOk result (λ left.
        map (λ store. length (S.blocks store)) left.stores.items
        ≡ map (λ store. length (S.blocks store)) stores.items) }
    ensures refused { N.honest names.old
        → IfErr result (LeavesNames N.HistoryPlace config.now names.old names.new) }
    ensures fault { IfErr result (IsServeFault config.now) }
{
    let NamedText {
        text,
        known,
        changes,
    } = named_text(alloc, config, names, text)?;
    let LookedAt {
        stores,
        stop,
        unstopped,
    } = looked_at(alloc, config, stores, &text)?;
    if text.is_empty() && !unstopped {
        return Err(ServeError::Start(StartFault::BadHistory(HistoryFault::Missing)));
    }
    keep_names(alloc, config, names, stop, known)?;
    Ok(LeftByName {
        stores,
        text,
        changes,
        unstopped,
    })
}

/// Tells what has changed by name, each line in one write.
pub fn tell_changes<R: Eprint>(rt: &R, changes: &[u8]) {
    for line in changes.split(|octet| *octet == b'\n') {
        if !line.is_empty() {
            let line = str::from_utf8(line).unwrap_or("?");
            let _lost = eprintln!(rt; "{line}");
        }
    }
}
