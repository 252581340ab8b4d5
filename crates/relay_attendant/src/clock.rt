//! The clock of the machine.
ghost use Rattle.std.specs.Prelude.{◌≡◌, ◌≤◌};
ghost use Rattle.relay_model.specs.Terms.{last_moment};
ghost use Rattle.relay_attendant.specs.Moments.{within};

use id_history::LAST_MOMENT;
use live_session::Clock;
use std::time;

/// The clock of the machine, within the limits of the relay's moments. Where it can't be asked it
/// is the first moment, by which no article's date is due.
#[derive(Drop)]
pub struct MachineClock<'a, R> {
    rt: &'a R,
}

impl<'a, R> MachineClock<'a, R> {
    /// The clock of this machine.
    pub fn new(rt: &'a R) -> MachineClock<'a, R> {
        MachineClock { rt }
    }
}

impl<R: time::Clock> Clock for MachineClock<'_, R> {
    fn now(&self) -> u64 {
        match self.rt.since_1970() {
            Ok(passed) => limited(passed.as_secs()),
            Err(_) => 0,
        }
    }
}

/// So many seconds, or the last moment where they are more.
fn limited(seconds: u64) -> u64
    ensures moment { result ≡ within seconds }
    ensures last { result ≤ last_moment }
{
    seconds.min(LAST_MOMENT)
}
