//! The power of a drill's devices, and which calls of them fail (docs/FORMATS.md, Drill scripts).
ghost use Rattle.std.specs.Prelude.{◌≡◌, ◌-◌, ◌==◌};
ghost use Rattle.relay_drill.specs.Power.{GoesBehind, after_call, is_gone, one_less};

use std::alloc::{AllocError, Global};
use std::cell::Cell;
use std::rc::Rc;

/// Whether devices have power.
#[derive(Clone, Copy)]
pub enum Power {
    /// They have.
    On,
    /// It goes once so many more calls of the device of this buffer are done.
    Ends(usize, u64),
    /// They have none.
    Off,
}

/// The power behind a call of this buffer's device that is done.
fn after_call(power: Power, buffer: usize) -> Power
    ensures { result ≡ after_call buffer power }
{
    match power {
        Power::On => Power::On,
        Power::Ends(other, left) => {
            if buffer == other {
                one_less(other, left)
            } else {
                Power::Ends(other, left)
            }
        }
        Power::Off => Power::Off,
    }
}

/// One call less before it goes.
fn one_less(buffer: usize, left: u64) -> Power
    ensures { result ≡ one_less buffer left }
{
    if left <= 1 {
        return Power::Off;
    }
    Power::Ends(buffer, left - 1)
}

/// Whether it is gone.
fn is_gone(power: Power) -> bool
    ensures { result ≡ is_gone power }
{
    match power {
        Power::On => false,
        Power::Ends(_, _) => false,
        Power::Off => true,
    }
}

/// What becomes of a call of a device.
#[derive(Clone, Copy)]
pub enum Fate {
    /// It is done.
    Done,
    /// It fails, since a line of the script says so.
    Fails,
    /// It comes behind the last that there was power for.
    Late,
}

/// The power of the devices of all buffers, and which call of each fails, as who shares it has it.
#[derive(Drop)]
pub struct Supply {
    mains: Rc<Mains>,
}

/// The power of the devices of all buffers, and which call of each fails.
#[derive(Drop)]
struct Mains {
    power: Cell<Power>,
    /// Of each buffer the calls up to the one that fails, and that one; 0 where none is to fail.
    failing: Vec<Cell<u64>>,
}

impl Supply {
    /// Power for the devices of so many buffers, of which no call fails.
    pub fn new(alloc: Global, buffers: usize) -> Result<Supply, AllocError> {
        let mut failing = Vec::with_capacity(alloc, buffers)?;
        for _buffer in 0..buffers {
            failing.push(Cell::new(0))?;
        }
        let mains = Rc::new(
            alloc,
            Mains {
                power: Cell::new(Power::On),
                failing,
            },
        )?;
        Ok(Supply { mains })
    }

    /// The same, for one more who shares it.
    pub fn share(&self) -> Result<Supply, AllocError> {
        let mains = self.mains.clone()?;
        Ok(Supply { mains })
    }

    /// From here call number k of this buffer's device fails, once. A call of it that was to fail
    /// before no longer is.
    pub fn fail(&self, buffer: usize, k: u64) {
        if let Some(left) = self.mains.failing.get(buffer) {
            left.set(k);
        }
    }

    /// From here call number k of this buffer's device is the last that there is power for,
    /// whichever was to be before.
    pub fn end(&self, buffer: usize, k: u64) {
        self.mains.power.set(Power::Ends(buffer, k));
    }

    /// Where it is gone there is power again.
    pub fn renew(&self) {
        if self.is_gone() {
            self.mains.power.set(Power::On);
        }
    }

    /// Whether the power is gone.
    pub fn is_gone(&self) -> bool {
        is_gone(self.mains.power.get())
    }

    /// What becomes of a call of this buffer's device, which is counted.
    pub fn call(&self, buffer: usize) -> Fate {
        let power = self.mains.power.get();
        if is_gone(power) {
            return Fate::Late;
        }
        self.mains.power.set(after_call(power, buffer));
        if self.is_failing(buffer) {
            return Fate::Fails;
        }
        Fate::Done
    }

    /// Whether this call of this buffer's device is the one that fails; it is counted.
    fn is_failing(&self, buffer: usize) -> bool {
        match self.mains.failing.get(buffer) {
            Some(left) => {
                let due = left.get();
                left.set(due.saturating_sub(1));
                due == 1
            }
            None => false,
        }
    }
}

/// The power goes behind the call that a line names, and not before: whichever devices are called.
pub fn power_goes_behind()
    ensures { GoesBehind }
{}
