//! The rule of a job queue, and what its steps tell and make of what the passes know. They are for
//! contracts alone: no value of these types is made.
use crate::known::Known;
use crate::parcel::Parcel;
use crossbeam_queue::protocol::{Join, Lesson, Outcome, Protocol, Split};

/// The rule: what each end hands over is taken once, in its order, and nothing after its closing
/// mark.
pub struct InOrder;

impl Protocol<Parcel, Known> for InOrder {
    ghost use Rattle.job_queue.specs.Delivery.{knows_all, Delivers};

    ghost holds = { Delivers };

    ghost first = { knows_all };
}

/// A parcel is handed over, or the queue is full.
pub struct HandsOver;

impl Outcome<Parcel, Known> for HandsOver {
    ghost use Rattle.job_queue.specs.Delivery.{HasHanded};

    ghost then = { HasHanded };
}

impl Lesson<Parcel, Known> for HandsOver {
    ghost use Rattle.std.specs.Prelude.{⊤};

    ghost fact = { λ known parcels. ⊤ };
}

/// The oldest parcel is taken, or the queue is empty.
pub struct TakesOne;

impl Outcome<Parcel, Known> for TakesOne {
    ghost use Rattle.job_queue.specs.Delivery.{HasTaken};

    ghost then = { HasTaken };
}

impl Lesson<Parcel, Known> for TakesOne {
    ghost use Rattle.std.specs.Prelude.{⊤};

    ghost fact = { λ known parcels. ⊤ };
}

/// What was taken of an end is compared with what it handed over.
pub struct Compares;

impl Lesson<Parcel, Known> for Compares {
    ghost use Rattle.job_queue.specs.Delivery.{Compared};

    ghost fact = { Compared };
}

/// The right to take is cut off.
pub struct TheTaker;

impl Split<Known> for TheTaker {
    ghost use Rattle.job_queue.specs.Delivery.{without_taker, taker_of};

    ghost left = { without_taker };

    ghost right = { taker_of };
}

/// The lowest end is cut off.
pub struct NextEnd;

impl Split<Known> for NextEnd {
    ghost use Rattle.job_queue.specs.Delivery.{without_first, first_of};

    ghost left = { without_first };

    ghost right = { first_of };
}

/// All ends are cut off.
pub struct TheEnds;

impl Split<Known> for TheEnds {
    ghost use Rattle.job_queue.specs.Delivery.{without_ends, ends_of};

    ghost left = { without_ends };

    ghost right = { ends_of };
}

/// A pass takes in the ends of another, in place of its own.
pub struct Meets;

impl Join<Known> for Meets {
    ghost use Rattle.job_queue.specs.Delivery.{meeting, knows_nothing};

    ghost both = { meeting };

    ghost spent = { knows_nothing };
}
