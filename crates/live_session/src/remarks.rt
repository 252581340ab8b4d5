//! What a session remarks of articles that it was sent, beside its replies.
ghost use Rattle.std.specs.Prelude.{◌≡◌, IfOk, IfSome, None};
ghost use Rattle.std.specs.Option.{option_copied};
ghost use Rattle.live_session.specs.Remarks as terms;
ghost use Rattle.live_session.specs.Remarks.{IsOfJob, Prepares, TakesUp, remark_in, remark_of};
ghost use Rattle.live_session.specs.Remarks.{TellsNoTaken, taken_in, taken_left, wants_in};

use article_verdict::Reason;
use buffer_group::Job;
use id_history::Take;
use nntp_text::MsgId;
use peer_session::{Answer, Outcome, Step};
use std::alloc::{AllocError, Global};

/// What became of an article that a session was sent, as its peer is told.
#[derive(Drop)]
pub enum Remark {
    /// It was refused, for this reason.
    Refused(MsgId, Reason),
    /// It was known.
    Known(MsgId),
    /// It is stored; none where there was no memory for what is told of it.
    Stored(Option<Taken>),
}

/// What is told of an article that is stored.
#[derive(Drop)]
pub struct Taken {
    pub id: MsgId,
    /// The octets of its text.
    pub octets: usize,
    /// The numbers of the feeds that it is permitted for.
    pub feeds: Vec<u16>,
}

impl Taken {
    /// Of the article of this job.
    fn of(alloc: Global, job: &Job) -> Result<Taken, AllocError>
        ensures { IfOk result (IsOfJob job.now) }
    {
        let id = job.id.copied(alloc)?;
        let mut feeds = Vec::new(alloc);
        match feeds.extend_from_slice(&job.article.permitted) {
            Ok(()) => Ok(Taken {
                id,
                octets: job.article.text.as_slice().len(),
                feeds,
            }),
            Err(error) => {
                drop(id);
                Err(error)
            }
        }
    }
}

/// What a session remarks in a turn, and what it will of the article that it handed over last.
#[derive(Drop)]
pub(crate) struct Remarks {
    /// Whether somebody is told of articles that are stored.
    wants_stored: bool,
    taken: Option<Taken>,
    remark: Option<Remark>,
}

impl Remarks {
    /// Of a session that was sent nothing yet.
    pub(crate) fn new(wants_stored: bool) -> Remarks
        ensures wants { wants_in result ≡ wants_stored }
        ensures none { (taken_in result ≡ None) × (remark_in result ≡ None) }
    {
        Remarks {
            wants_stored,
            taken: None,
            remark: None,
        }
    }

    /// The job in hand is to be handed over: what will be told of its article, where that is wanted
    /// and there is memory for it.
    fn take_up(&mut self, alloc: Global, job: Option<&Job>)
        ensures { TakesUp self.old (option_copied job.entry) self.new }
    {
        self.taken = match job {
            Some(job) if self.wants_stored => taken_of(alloc, job),
            _ => None,
        };
    }

    /// A step is to be done.
    pub(crate) fn prepare(&mut self, alloc: Global, step: &Step, job: Option<&Job>)
        ensures { Prepares self.old step.now (option_copied job.entry) self.new }
    {
        match step {
            Step::Push(_) => self.take_up(alloc, job),
            _ => {}
        }
    }

    /// A step was done, and is answered so.
    pub(crate) fn note(&mut self, step: Step, answer: &Answer<'_>)
        ensures remark { remark_in self.new
            ≡ remark_of (wants_in self.old) (taken_in self.old) step answer.now }
        // What was taken up stays until it is told.
        ensures left { taken_in self.new ≡ taken_left (taken_in self.old) (remark_in self.new) }
        ensures wants { wants_in self.new ≡ wants_in self.old }
    {
        self.remark = match step {
            Step::Refuse(id, reason) => refused(id, reason, answer),
            Step::Take(id) => known(id, answer),
            Step::Slot => self.stored(answer),
            _ => {
                drop(step);
                None
            }
        };
    }

    /// What is remarked where an outcome was looked for.
    fn stored(&mut self, answer: &Answer<'_>) -> Option<Remark>
        ensures remark { result
            ≡ terms.stored_remark (wants_in self.old) (taken_in self.old) answer.now }
        ensures left { taken_in self.new ≡ taken_left (taken_in self.old) result }
        ensures wants { wants_in self.new ≡ wants_in self.old }
    {
        match answer {
            Answer::Slot(Some(Outcome::Kept)) if self.wants_stored => {
                Some(Remark::Stored(self.taken.take()))
            }
            _ => None,
        }
    }

    /// What was remarked, which it isn't any more.
    pub(crate) fn take(&mut self) -> Option<Remark>
        ensures taken { result ≡ remark_in self.old }
        ensures left { remark_in self.new ≡ None }
        ensures rest { (wants_in self.new ≡ wants_in self.old)
            × (taken_in self.new ≡ taken_in self.old) }
    {
        self.remark.take()
    }
}

/// What will be told of the article of a job, where there is memory for it.
fn taken_of(alloc: Global, job: &Job) -> Option<Taken>
    ensures { IfSome result (IsOfJob job.now) }
{
    match Taken::of(alloc, job) {
        Ok(taken) => Some(taken),
        Err(_) => None,
    }
}

/// What is remarked where an article was refused.
fn refused(id: MsgId, reason: Reason, answer: &Answer<'_>) -> Option<Remark>
    ensures remark { result ≡ terms.refused_remark id reason answer.now }
    ensures left { TellsNoTaken result }
{
    match answer {
        Answer::Nothing => Some(Remark::Refused(id, reason)),
        _ => {
            drop(id);
            None
        }
    }
}

/// What is remarked where an accepted article was to be stored.
fn known(id: MsgId, answer: &Answer<'_>) -> Option<Remark>
    ensures remark { result ≡ terms.known_remark id answer.now }
    ensures left { TellsNoTaken result }
{
    match answer {
        Answer::Take(Take::Seen) => Some(Remark::Known(id)),
        _ => {
            drop(id);
            None
        }
    }
}
