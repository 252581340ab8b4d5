//! Moments of the machine's clock.
ghost use Rattle.std.specs.Prelude.{◌≡◌, ◌<◌, ◌≤◌, ◌/◌, ◌%◌, min};
ghost use Rattle.std.specs.Duration.{as_nanos};
ghost use Rattle.relay_model.specs.Terms.{last_moment};

use std::time::{Clock, Duration};

/// The last second of the year 9998, the last one that is told.
const LAST_SECOND: u64 = 253_370_764_799;

/// A moment of the machine's clock.
#[derive(Clone, Copy)]
pub struct Moment {
    /// The seconds since the first of 1970, in UTC.
    pub second: u64,
    /// The thousandths of a second behind it.
    pub millis: u32,
    pub ghost within: { second ≤ last_moment },
    pub ghost thousandth: { millis < 1000 },
}

/// What the machine's clock shows, within the moments that can be told; the first of 1970 where it
/// can't be read.
pub fn moment_of<R: Clock>(rt: &R) -> Moment {
    match rt.since_1970() {
        Ok(passed) => moment_after(passed),
        Err(_) => Moment {
            second: 0,
            millis: 0,
        },
    }
}

/// The moment so long after the first of 1970, at most in the last second that is told.
fn moment_after(passed: Duration) -> Moment
    ensures second { result.second ≡ min (as_nanos passed / 1_000_000_000) last_moment }
    ensures millis { result.millis ≡ as_nanos passed % 1_000_000_000 / 1_000_000 }
{
    Moment {
        second: passed.as_secs().min(LAST_SECOND),
        millis: passed.subsec_millis(),
    }
}
