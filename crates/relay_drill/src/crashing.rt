//! A crash as a script has it: the relay is found again, and that is printed.
ghost use Rattle.std.specs.Prelude.{◌≡◌, Bool, false};
ghost use Rattle.relay_drill.specs.Progress.{Leads, stand_view};
ghost use Rattle.relay_drill.specs.Todo as todo;
ghost use Rattle.relay_drill.specs.Todo.{Todo, behind_line, deserted};

use crate::fault::DrillError;
use crate::life::{Life, noted};
use crate::manner::Stand;
use crate::power::Supply;
use crate::print::print_repaired;
use crate::reviving::revive;
use std::alloc::Global;
use std::io::Write;
use std::random::RandomSource;

/// The relay is killed, and repaired and started at the moment that a line named last: nobody is
/// here then. Where a crash is ahead, and comes meanwhile, it is so once more.
pub fn crash<W: Write>(
    rt: &impl RandomSource,
    alloc: Global,
    life: Life,
    supply: &Supply,
    stand: &mut Stand,
    writer: &mut W,
) -> Result<Life, DrillError>
    ensures { (reasons : Bool) (next : Bool → todo.Stand → Todo) → Leads reasons result
        (todo.Crashing stand.old.moment
        (behind_line stand.old.armed next (deserted (stand_view stand.old))))
        (next stand.new.armed (stand_view stand.new))
        life (W.contents writer.old) (W.contents writer.new) }
{
    if !stand.armed {
        return crash_once(rt, alloc, life, supply, stand, writer);
    }
    let life = revive(rt, alloc, life, supply, stand.moment)?;
    if supply.is_gone() {
        stand.armed = false;
        return crash_once(rt, alloc, life, supply, stand, writer);
    }
    stand.desert(alloc);
    match print_repaired(writer) {
        Ok(()) => Ok(life),
        Err(_error) => {
            life.let_go();
            Err(DrillError::Unwritten)
        }
    }
}

/// It is killed, repaired and started, with power throughout.
fn crash_once<W: Write>(
    rt: &impl RandomSource,
    alloc: Global,
    life: Life,
    supply: &Supply,
    stand: &mut Stand,
    writer: &mut W,
) -> Result<Life, DrillError>
    ensures crashed { (reasons : Bool) (next : todo.Stand → Todo) → Leads reasons result
        (todo.Crashing stand.old.moment (next (deserted (stand_view stand.old))))
        (next (stand_view stand.new))
        life (W.contents writer.old) (W.contents writer.new) }
    ensures armed { stand.new.armed ≡ stand.old.armed }
{
    let found = revive(rt, alloc, life, supply, stand.moment)?;
    stand.desert(alloc);
    match print_repaired(writer) {
        Ok(()) => Ok(found),
        Err(_error) => {
            found.let_go();
            Err(DrillError::Unwritten)
        }
    }
}

/// The power went in a line, before which this was the last stop.
pub fn cut<W: Write>(
    rt: &impl RandomSource,
    alloc: Global,
    life: Life,
    stop: u64,
    supply: &Supply,
    stand: &mut Stand,
    writer: &mut W,
) -> Result<Life, DrillError>
    ensures crashed { (reasons : Bool) (next : todo.Stand → Todo) → Leads reasons result
        (todo.Crashing stand.old.moment (next (deserted (stand_view stand.old))))
        (next (stand_view stand.new))
        life (W.contents writer.old) (W.contents writer.new) }
    ensures armed { stand.new.armed ≡ false }
{
    stand.armed = false;
    let life = noted(life, stop)?;
    crash_once(rt, alloc, life, supply, stand, writer)
}
