//! The whole configuration.
ghost use Rattle.std.specs.Prelude.{◌≡◌, ◌<◌, All, length, map, IfOk, IfErr};
ghost use Rattle.relay_conf.specs.K1 as terms;
ghost use Rattle.relay_conf.specs.RelayViews.{relay_view};
ghost use Rattle.relay_conf.specs.Settings.{buffers_view};
ghost use Rattle.relay_conf.specs.Storage.{entry_view};

use crate::cycbuff::read_cycbuff;
use crate::faults::ConfError;
use crate::relay::read_relay;
use crate::settings::{Buffers, Config, Relay, StorageEntry};
use crate::storage::read_storage;
use std::alloc::Global;

/// The text of cycbuff.conf in K1 (docs/FORMATS.md, K1).
pub const K1_CYCBUFF: &[u8] = b"cycbuff:A:a.buf:4\nmetacycbuff:G:A\n";

/// The text of storage.conf in K1 (docs/FORMATS.md, K1).
pub const K1_STORAGE: &[u8] = b"method cnfs {\nclass: 1\nnewsgroups: *\noptions: G\n}\n";

/// The text of relay.conf in K1 (docs/FORMATS.md, K1).
pub const K1_RELAY: &[u8] =
    b"own relay.example\npeer p1 one.example 0\npeer p2 two.example 0\nfeed p2 2 *\n";

/// The buffers and groups of K1.
fn k1_buffers(alloc: Global) -> Result<Buffers, ConfError>
    ensures gives { IfOk result (λ buffers. buffers_view buffers ≡ terms.k1_buffers) }
    ensures memory { IfErr result (λ error. error ≡ ConfError.Memory) }
{
    read_cycbuff(alloc, K1_CYCBUFF)
}

/// The entries of K1, over its groups.
fn k1_storage_entries(alloc: Global, buffers: &Buffers) -> Result<Vec<StorageEntry>, ConfError>
    requires { buffers_view buffers.now ≡ terms.k1_buffers }
    ensures gives { IfOk result (λ storage_entries.
        map entry_view storage_entries.items ≡ terms.k1_entries) }
    ensures grouped { IfOk result (λ storage_entries.
        All (λ storage_entry. storage_entry.group < length buffers.now.groups.items)
        storage_entries.items) }
    ensures memory { IfErr result (λ error. error ≡ ConfError.Memory) }
{
    read_storage(alloc, K1_STORAGE, buffers)
}

/// What relay.conf says in K1.
fn k1_relay(alloc: Global) -> Result<Relay, ConfError>
    ensures gives { IfOk result (λ relay. relay_view relay ≡ terms.k1_relay) }
    ensures memory { IfErr result (λ error. error ≡ ConfError.Memory) }
{
    read_relay(alloc, K1_RELAY)
}

impl Config {
    ghost use Rattle.relay_conf.specs.K1.{IsK1};

    /// The configuration of these settings, where each entry goes to one of the groups.
    pub fn new(buffers: Buffers, storage_entries: Vec<StorageEntry>, relay: Relay) -> Config
        requires { All (λ storage_entry. storage_entry.group < length buffers.groups.items)
            storage_entries.items }
        ensures buffers { result.buffers ≡ buffers }
        ensures storage_entries { result.storage_entries ≡ storage_entries }
        ensures relay { result.relay ≡ relay }
    {
        Config {
            buffers,
            storage_entries,
            relay,
        }
    }

    /// The configuration K1, which is built in. Its texts have no fault: what fails is memory.
    pub fn k1(alloc: Global) -> Result<Config, ConfError>
        ensures gives { IfOk result IsK1 }
        ensures memory { IfErr result (λ error. error ≡ ConfError.Memory) }
    {
        let buffers = k1_buffers(alloc)?;
        let storage_entries = k1_storage_entries(alloc, &buffers)?;
        let relay = k1_relay(alloc)?;
        Ok(Config::new(buffers, storage_entries, relay))
    }
}
