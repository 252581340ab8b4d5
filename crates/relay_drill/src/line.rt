//! The lines of a drill script (docs/FORMATS.md, Drill scripts).
ghost use Rattle.std.specs.Prelude.{◌<◌};

/// How many octets a piece has.
#[derive(Clone, Copy)]
pub struct PieceSize {
    pub octets: usize,
    ghost some: { 0 < octets },
}

/// What a line of a script asks.
#[derive(Drop)]
pub enum Line {
    /// `open`: this session opens, of the peer of this number.
    Open(u64, usize),
    /// `send` and `raw`: these octets of this session come.
    Bring(u64, Vec<u8>),
    /// `split`: from here on octets come in pieces of so many.
    Split(PieceSize),
    /// `turn`: this session has its turn at this moment.
    Turn(u64, u64),
    /// `write`: the writer of this group has its turn at this moment.
    Write(usize, u64),
    /// `rounds`: so many times, at this moment, each session that is not closed has its turn, then
    /// the writer of each group.
    Rounds(u64, u64),
    /// `break`: this session's connection is gone.
    Break(u64),
    /// `expire`: the next bit of forgetting, in this shard at this moment.
    Expire(usize, u64),
    /// `fail`: this call of this buffer's device fails, counted from here.
    Fail(usize, u64),
    /// `restart`: the relay is closed and started again.
    Restart,
    /// `crash`: the relay is killed, repaired and started.
    Crash,
    /// `crash BUFFER K`: once this call of this buffer's device is done, counted from here, the
    /// relay is killed, repaired and started.
    CrashAt(usize, u64),
    /// `report`: the report is printed.
    Report,
}
