//! Whether a relay was left without a stop, by its last history and the heads of its buffers
//! (docs/PROTOCOL.md, Crashes: the relay).
ghost use Rattle.std.specs.Prelude.{◌≡◌, ◌<◌, ◌^◌, ◌↔◌, ℕ, All, IfErr, IfOk, IsTrue, None, OnOk};
ghost use Rattle.std.specs.Prelude.{Some, length, map};
ghost use Rattle.block_shelf.specs.Each.{AreEach};
ghost use Rattle.block_shelf.specs.Starting.{IsUnwritten};
ghost use Rattle.block_shelf.specs.declared.starting.StopFault.TheVariants as stops;
ghost use Rattle.relay_repair.specs.Telling.{octets_in};
ghost use Rattle.relay_startup.specs.StopNumbers.{IsHistoryFault};
ghost use Rattle.relay_startup.specs.Causes.{TellsCause};
ghost use Rattle.buffer_files.specs.Faults.{IsServeFault};
ghost use Rattle.relay_startup.specs.Starting.{IsRefusal};
ghost use Rattle.relay_startup.specs.Unstopped.{IsLastStop, IsUnstoppedBy, kept_text};

use crate::starting::refusal;
use crate::stop_number::stop_in;
use block_shelf::{StopFault, number_of};
use buffer_files::Synced;
use cyc_block::BlockStore;
use relay_conf::Config;
use relay_remains::{HeadFault, Standing, standing_of};
use relay_report::ServeError;
use std::alloc::Global;

/// What the heads of a relay say that isn't begun from nothing.
pub(crate) struct LookedAt<S> {
    /// The store of each buffer, in their order.
    pub(crate) stores: Vec<S>,
    /// The number of its last stop, 0 where no history was kept.
    pub(crate) stop: u64,
    /// Whether it was left without a stop since.
    pub(crate) unstopped: bool,
}

/// The stores, once their heads were looked at, the number of the stop of this history, and whether
/// the heads say that its relay was left without a stop.
pub(crate) fn looked_at<S: Synced + Drop>(
    alloc: Global,
    config: &Config,
    stores: Vec<S>,
    text: &[u8],
) -> Result<LookedAt<S>, ServeError>
    ensures told { IfOk result (λ looked.
        IsUnstoppedBy ⟦<S as BlockStore>⟧ config.now text.now stores.items looked.unstopped) }
    ensures stop { IfOk result (λ looked.
        IsLastStop config.now (kept_text text.now) looked.stop) }
    ensures unwritten { IfOk result (λ looked.
        AreEach (IsUnwritten ⟦<S as BlockStore>⟧ None) stores.items looked.stores.items) }
    ensures blocks { IfOk result (λ looked.
        map (λ store. length (S.blocks store)) looked.stores.items
        ≡ map (λ store. length (S.blocks store)) stores.items) }
    ensures cause { All S.honest stores.items
        → IfErr result (TellsCause config.now (kept_text text.now)) }
    ensures fault { IfErr result (IsServeFault config.now) }
{
    let stop = last_stop(alloc, config, text)?;
    let mut stores = stores;
    match is_unstopped_since(alloc, config, &mut stores, text, stop) {
        Ok(unstopped) => Ok(LookedAt {
            stores,
            stop,
            unstopped,
        }),
        Err(error) => {
            drop(stores);
            Err(error)
        }
    }
}

/// Whether the heads say that the relay of this history was left without a stop. The error is that
/// the text is no history, or the first head that no relay of this history has.
pub fn is_unstopped<S: BlockStore>(
    alloc: Global,
    config: &Config,
    stores: &mut [S],
    text: &[u8],
) -> Result<bool, ServeError>
    ensures told { IfOk result (IsUnstoppedBy ⟦<S as BlockStore>⟧ config.now text.now stores.old) }
    ensures unwritten { OnOk result
        (AreEach (IsUnwritten ⟦<S as BlockStore>⟧ None) stores.old stores.new) }
    ensures blocks { map (λ store. length (S.blocks store)) stores.new
        ≡ map (λ store. length (S.blocks store)) stores.old }
    ensures cause { All S.honest stores.old
        → IfErr result (TellsCause config.now (kept_text text.now)) }
    ensures fault { IfErr result (IsServeFault config.now) }
{
    let stop = last_stop(alloc, config, text)?;
    is_unstopped_since(alloc, config, stores, text, stop)
}

/// Whether the heads say that the relay of this history, whose stop has this number, was left
/// without a stop since. The error is the first head that no relay of this history has.
fn is_unstopped_since<S: BlockStore>(
    alloc: Global,
    config: &Config,
    stores: &mut [S],
    text: &[u8],
    stop: u64,
) -> Result<bool, ServeError>
    requires last { IsLastStop config.now (kept_text text.now) stop }
    ensures told { IfOk result (IsUnstoppedBy ⟦<S as BlockStore>⟧ config.now text.now stores.old) }
    ensures unwritten { OnOk result
        (AreEach (IsUnwritten ⟦<S as BlockStore>⟧ None) stores.old stores.new) }
    ensures blocks { map (λ store. length (S.blocks store)) stores.new
        ≡ map (λ store. length (S.blocks store)) stores.old }
    ensures cause { All S.honest stores.old
        → IfErr result (TellsCause config.now (kept_text text.now)) }
    ensures fault { IfErr result (IsServeFault config.now) }
{
    match standing_of(stores, stop) {
        Ok(Standing::Unstopped) => Ok(true),
        Ok(Standing::Stopped) => Ok(false),
        // Where nothing was kept, that the history isn't there is what a start says first.
        Err(fault) if text.is_empty() && !is_of_device(fault.error) => Ok(false),
        Err(fault) => Err(refused_head(alloc, config, fault)),
    }
}

/// The head of a buffer is one that no relay of this history has.
fn refused_head(alloc: Global, config: &Config, fault: HeadFault) -> ServeError
    ensures told { (number : ℕ) × (fault.place < 2 ^ 8 → number ≡ fault.place)
        × IsRefusal config.now.buffers (Some number) fault.error result }
    ensures fault { IsServeFault config.now result }
{
    let number = number_of(fault.place);
    refusal(alloc, &config.buffers, Some(number), fault.error)
}

/// Whether a device failed.
fn is_of_device(error: StopFault) -> bool
    ensures { IsTrue result ↔ error ≡ stops.Device }
{
    match error {
        StopFault::Device => true,
        _ => false,
    }
}

/// The number of the last stop: 0 where no history was kept. The error is that the text is no
/// history of this configuration, or want of memory.
fn last_stop(alloc: Global, config: &Config, text: &[u8]) -> Result<u64, ServeError>
    ensures stop { IfOk result (IsLastStop config.now (kept_text text.now)) }
    ensures cause { IfErr result (TellsCause config.now (kept_text text.now)) }
    ensures fault { IfErr result IsHistoryFault }
{
    if text.is_empty() {
        return Ok(0);
    }
    stop_in(alloc, config, text)
}

/// The history that a text is, none where it is empty.
pub fn history_of(text: &[u8]) -> Option<&[u8]>
    ensures { octets_in result ≡ kept_text text.now }
{
    if text.is_empty() { None } else { Some(text) }
}
