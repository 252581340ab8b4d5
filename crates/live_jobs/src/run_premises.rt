//! What is known of a run where its seats lie behind locks.
use std::marker::Brand;

/// The channels of a run, and how many ends it has. What comes out of a lock is known by its type
/// alone, so a seat that lies there takes this as a parameter. Each run picks them.
pub trait RunPremises {
    ghost use Rattle.std.specs.Prelude.{ℕ, List};
    ghost use Rattle.live_jobs.specs.declared.channel.JobChannel.{JobChannel};

    /// The channels, in the order of the groups.
    ghost channels: { List JobChannel };

    /// How many ends there are.
    ghost ends: { ℕ };
}

impl RunPremises for Brand {
    ghost use Rattle.std.specs.Prelude.{[]};

    ghost channels = { [] };

    ghost ends = { 0 };
}
