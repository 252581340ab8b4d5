//! Why a relay can't start from its files, or can't be stopped so that it can start again.
ghost use Rattle.std.specs.Prelude.{◌≡◌, Some};
ghost use Rattle.relay_report.specs.Keeping.{buffer_fault_text, history_fault_text};
ghost use Rattle.relay_report.specs.Keeping.{start_text, stop_text};

use std::fmt;
use std::fmt::{Display, Formatter};

/// Why a relay can't start from the file of a buffer (docs/FORMATS.md, Head blocks).
#[derive(Clone, Copy)]
pub enum BufferFault {
    /// A block couldn't be read or written.
    Device,
    /// Its head block is none of this buffer.
    NoHead,
    /// It was not closed.
    Unclosed,
    /// Its head blocks don't fit its blocks.
    Damaged,
    /// It was closed at another stop than `relay.hist` is of.
    Mixed,
}

impl BufferFault {
    /// Its code and its name.
    pub fn text(self) -> &'static str
        ensures { result.now ≡ buffer_fault_text self }
    {
        match self {
            BufferFault::Device => "1 Device",
            BufferFault::NoHead => "2 NoHead",
            BufferFault::Unclosed => "3 Unclosed",
            BufferFault::Damaged => "4 Damaged",
            BufferFault::Mixed => "6 Mixed",
        }
    }
}

/// Why there is no history of a relay of this configuration, in the order of trial
/// (docs/FORMATS.md, History file).
#[derive(Clone, Copy)]
pub enum HistoryFault {
    /// There is no `relay.hist`, or an empty one.
    Missing,
    /// It is the text of no history, whatever the configuration.
    Text,
    /// `relay.names` isn't one, or its names can't be those of this history.
    Names,
    /// It has another number of groups, or a group's position that isn't one of its buffers.
    Groups,
    /// It has another number of feeds.
    Feeds,
    /// Of a feed as many tokens wait as its ring can't have left.
    Ring,
    /// A token names no buffer.
    Buffers,
}

impl HistoryFault {
    /// The file, the code and its name, and the word of the cause.
    pub fn text(self) -> &'static str
        ensures { result.now ≡ history_fault_text self }
    {
        match self {
            HistoryFault::Missing => "relay.hist: 5 BadHistory missing",
            HistoryFault::Text => "relay.hist: 5 BadHistory text",
            HistoryFault::Names => "relay.hist: 5 BadHistory names",
            HistoryFault::Groups => "relay.hist: 5 BadHistory groups",
            HistoryFault::Feeds => "relay.hist: 5 BadHistory feeds",
            HistoryFault::Ring => "relay.hist: 5 BadHistory ring",
            HistoryFault::Buffers => "relay.hist: 5 BadHistory buffers",
        }
    }
}

/// Why a relay can't start from its files (docs/PROTOCOL.md, Clean stop and start).
#[derive(Drop)]
pub enum StartFault {
    /// `relay.hist` is there and can't be read, or not be taken away before all is formatted.
    History,
    /// There is no history of a relay of this configuration, for this cause.
    BadHistory(HistoryFault),
    /// The buffer of this name in cycbuff.conf has a fault.
    Buffer(String, BufferFault),
    /// `relay.hist` speaks of articles that the buffers haven't.
    Ahead,
    /// `relay.names` is there and can't be read, or not be written anew.
    Names,
}

impl Display for StartFault {
    ghost output = { λ fault. Some (start_text fault) };

    fn fmt<W: fmt::Write>(&self, formatter: &mut Formatter<W>) -> fmt::Result {
        formatter.write_str(match self {
            StartFault::Buffer(name, fault) => {
                let text = fault.text();
                return write!(formatter, "{name}: {text}");
            }
            StartFault::History => "relay.hist: unusable",
            StartFault::BadHistory(fault) => fault.text(),
            StartFault::Ahead => "relay.hist: 7 Ahead",
            StartFault::Names => "relay.names: unusable",
        })
    }
}

/// Why a relay that was served couldn't be stopped so that it can start again.
#[derive(Clone, Copy)]
pub enum StopFault {
    /// An article is still being stored. No buffer was closed.
    NotIdle,
    /// A buffer couldn't be closed. No history was written.
    Device,
    /// `relay.hist` couldn't be written. All buffers are closed.
    History,
}

impl Display for StopFault {
    ghost output = { λ fault. Some (stop_text fault) };

    fn fmt<W: fmt::Write>(&self, formatter: &mut Formatter<W>) -> fmt::Result {
        formatter.write_str(match self {
            StopFault::NotIdle => "stop: NotIdle",
            StopFault::Device => "stop: Device",
            StopFault::History => "relay.hist: unusable",
        })
    }
}
