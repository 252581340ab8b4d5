//! A relay from its beginning or from a crash on, with what a repair of it goes by.
ghost use Rattle.std.specs.Prelude.{◌≡◌, IfErr, IfOk};
ghost use Rattle.relay_drill.specs.declared.fault.DrillError.TheVariants as faults;

use crate::fault::DrillError;
use crate::powered::Powered;
use relay_core::System;

/// The stores of a drill.
pub type Store = Powered;

/// The relay over such stores.
pub type Relay = System<Store>;

/// The relay from its beginning or from a crash on.
pub struct Life {
    pub relay: Relay,
    /// The history of its last stop, if there was one: a repair's, or a restart's.
    pub history: Option<Vec<u8>>,
    /// The one before that: where the power goes while the relay is stopped it is still the last.
    pub earlier: Option<Vec<u8>>,
}

impl Life {
    /// Lets the relay go.
    pub fn let_go(self) {
        let Life {
            relay,
            history,
            earlier,
        } = self;
        relay.let_go();
        drop(history);
        drop(earlier);
    }
}

/// Where the relay was closed since this stop, its history is noted, as a stop writes it.
pub fn noted(life: Life, stop: u64) -> Result<Life, DrillError>
    ensures relay { IfOk result (λ noted. noted.relay ≡ life.relay) }
    ensures memory { IfErr result (λ error. error ≡ faults.Memory) }
{
    if life.relay.stop() == stop {
        return Ok(life);
    }
    match life.relay.history() {
        Ok(history) => Ok(with_history(life, history)),
        Err(_error) => {
            life.let_go();
            Err(DrillError::Memory)
        }
    }
}

/// The same with this history of the last stop.
fn with_history(life: Life, history: Vec<u8>) -> Life
    ensures { result.relay ≡ life.relay }
{
    let Life {
        relay,
        history: before,
        earlier,
    } = life;
    drop(earlier);
    Life {
        relay,
        history: Some(history),
        earlier: before,
    }
}
