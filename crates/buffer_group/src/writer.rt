use crate::job::Job;
use cyc_token::Token;

/// How far the writer of a group is. An open write is known by its handle, a `B`.
#[derive(Drop)]
pub enum Writer<B> {
    /// It has no job.
    Idle,
    /// It took this job.
    Popped(Job),
    /// The job is begun, and so many of its blocks are written.
    Writing(Job, B, u32),
    /// The job's text is whole under this token.
    Finished(Job, Token),
    /// The article of this session was accepted, and the session isn't told yet.
    Settled(u64),
    /// The job can't be stored; where its write is still open, that is to be abandoned.
    Failed(Job, Option<B>),
    /// The article of this session was given up, and the session isn't told yet.
    Forgotten(u64),
}

/// What a writer does next.
#[derive(Clone, Copy)]
pub enum WriterStep {
    /// It takes the oldest job of its queue, if there is one.
    Pop,
    /// It begins the job in a buffer of the group.
    Begin,
    /// It writes the next block of the job's text.
    Block,
    /// It finishes the open write, all of whose blocks are written.
    Finish,
    /// It settles the job: from then on the article is stored.
    Settle,
    /// It abandons the open write.
    Abandon,
    /// It gives the article up.
    Forget,
    /// It tells the session how its article fared.
    Answer,
}

impl<B> Writer<B> {
    ghost use Rattle.std.specs.Prelude.{◌≡◌};
    ghost use Rattle.buffer_group.specs.Writers.{writer_view, step_of};
    ghost use Rattle.news_terms.specs.Token as terms;

    /// The step that the phase is followed by.
    pub fn next_step(&self) -> WriterStep
        ensures { (token_of : B → terms.Token) → result ≡ step_of (writer_view token_of self.now) }
    {
        match self {
            Writer::Idle => WriterStep::Pop,
            Writer::Popped(_job) => WriterStep::Begin,
            Writer::Writing(job, _open, written) => {
                if *written < job.article.blocks() {
                    WriterStep::Block
                } else {
                    WriterStep::Finish
                }
            }
            Writer::Finished(_job, _token) => WriterStep::Settle,
            Writer::Failed(_job, Some(_open)) => WriterStep::Abandon,
            Writer::Failed(_job, None) => WriterStep::Forget,
            Writer::Settled(_session) | Writer::Forgotten(_session) => WriterStep::Answer,
        }
    }
}
