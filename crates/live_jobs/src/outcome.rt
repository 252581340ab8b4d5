//! What becomes of a job that a writer took.
ghost use Rattle.std.specs.Prelude.{◌≡◌, Bool};
ghost use Rattle.job_queue.specs.declared.parcel.Handed.{Handed};

use nntp_text::MsgId;

/// What became of a job: its article is kept, or not.
pub trait Outcome {
    /// Whether the article is kept.
    ghost kept: { Self → Bool };

    /// What is so of the outcome of this job.
    ghost fits: { Self → Handed → Type 0 };

    /// Whether the article is kept.
    fn is_kept(&self) -> bool
        ensures { result ≡ kept self.now };
}

/// A job that was taken, with what became of it. End, number and message-id name the job.
#[derive(Drop)]
pub struct FinishedJob<O> {
    pub end: u64,
    pub number: u64,
    pub id: MsgId,
    pub outcome: O,
}
