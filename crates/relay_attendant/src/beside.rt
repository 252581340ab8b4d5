//! The threads of what goes on beside a relay.
ghost use Rattle.std.specs.Prelude.{◌≡◌, IfOk, IfSome, is_some};
ghost use Rattle.relay_attendant.specs.Attendants.{syncing_in};

use crate::attendant::Attendant;
use news_log::{NewsFile, NewsLines, NewsWriting};
use relay_folder::JournalFile;
use relay_gate::CountingGate;
use relay_journal::{JournalLines, Journaling};
use std::alloc::{AllocError, Global};
use std::sync::Wait;
use std::thread::{JoinHandle, Scope, Threads};
use std::time::Clock;

/// A relay, as whoever goes on beside it sees it.
pub trait Figured<R> {
    /// What whoever asks for the report is told.
    fn report(&self, rt: &R, alloc: Global, gate: &CountingGate<'_>) -> Result<Vec<u8>, AllocError>;

    /// Takes no new articles from now on, or takes them again; what whoever asked for that is told.
    fn pause(&self, rt: &R, paused: bool) -> &'static [u8];

    /// How many seconds pass between two rounds.
    fn between(&self) -> u64;

    /// Goes a round, so many seconds after what goes on beside it began.
    fn go_round(&self, rt: &R, seconds: u64);
}

/// Starts the thread of what goes on beside a relay, none where no thread is to be had.
pub fn start_side_thread<'s, E, F: Figured<R> + Sync, R: Threads + Wait + Clock + Eprint + Sync>(
    scope: &'s Scope<'s, E>,
    rt: &'s R,
    side: &'s Attendant<'s>,
    relay: &'s F,
) -> Option<JoinHandle<()>> {
    scope.spawn(move || side.attend(rt, relay)).ok()
}

/// The threads of what goes on beside a relay.
#[derive(Drop)]
pub struct Beside {
    /// Of whoever is asked.
    attending: JoinHandle<()>,
    /// Of whoever writes the journal.
    journaling: Option<JoinHandle<()>>,
    /// Of whoever writes the news log.
    news: Option<JoinHandle<()>>,
    /// Of whoever flushes files.
    syncing: Option<JoinHandle<()>>,
}

impl Beside {
    /// Waits until they have ended.
    pub fn join<R: Threads + Wait>(self, rt: &R) {
        let Beside {
            attending,
            journaling,
            news,
            syncing,
        } = self;
        attending.join(rt);
        join_one(rt, journaling);
        join_one(rt, news);
        join_one(rt, syncing);
    }
}

/// Waits until a thread has ended, where it was started.
fn join_one<R: Threads + Wait>(rt: &R, thread: Option<JoinHandle<()>>) {
    if let Some(thread) = thread {
        thread.join(rt);
    }
}

/// What is written beside a relay that is served.
#[derive(Drop)]
pub struct Writers<'a, O, K, N, M> {
    /// Its journal, where there is one.
    pub journaling: Option<Journaling<'a, O, K>>,
    /// Its news log, where it has one.
    pub news: Option<NewsWriting<'a, N, M>>,
}

/// Starts the threads of what goes on beside a relay, none where one is not to be had: of whoever
/// writes the journal, or the news log, only where there is one, and of whoever flushes files only
/// where they are.
pub fn start_beside<
    's,
    E,
    F: Figured<R> + Sync,
    O: JournalFile + Drop + Send + 's,
    K: JournalLines + Drop + Send + 's,
    N: NewsFile + Drop + Send + 's,
    M: NewsLines + Drop + Send + 's,
    R: Threads + Wait + Clock + Eprint + Sync,
>(
    scope: &'s Scope<'s, E>,
    rt: &'s R,
    side: &'s Attendant<'s>,
    relay: &'s F,
    writers: Writers<'s, O, K, N, M>,
) -> Option<Beside>
    ensures syncing { IfSome result (λ beside.
        is_some beside.syncing ≡ is_some (syncing_in side.now)) }
    ensures journaling { IfSome result (λ beside.
        is_some beside.journaling ≡ is_some writers.entry.journaling) }
    ensures news { IfSome result (λ beside.
        is_some beside.news ≡ is_some writers.entry.news) }
{
    let Writers { journaling, news } = writers;
    let Some(attending) = start_side_thread(scope, rt, side, relay) else {
        drop(journaling);
        drop(news);
        return None;
    };
    let Ok(journaling) = start_journaling(scope, rt, side, journaling) else {
        drop(news);
        side.ended();
        attending.join(rt);
        return None;
    };
    match start_files(scope, rt, side, news) {
        Ok((news, syncing)) => Some(Beside {
            attending,
            journaling,
            news,
            syncing,
        }),
        Err(NoThread) => {
            side.ended();
            attending.join(rt);
            join_one(rt, journaling);
            None
        }
    }
}

/// Starts the threads of whoever writes the news log and of whoever flushes files, neither where
/// one is not to be had.
fn start_files<
    's,
    E,
    N: NewsFile + Drop + Send + 's,
    M: NewsLines + Drop + Send + 's,
    R: Threads + Wait + Clock + Eprint + Sync,
>(
    scope: &'s Scope<'s, E>,
    rt: &'s R,
    side: &'s Attendant<'s>,
    news: Option<NewsWriting<'s, N, M>>,
) -> Result<(Option<JoinHandle<()>>, Option<JoinHandle<()>>), NoThread>
    ensures news { IfOk result (λ started. is_some started.0 ≡ is_some news.entry) }
    ensures syncing { IfOk result (λ started.
        is_some started.1 ≡ is_some (syncing_in side.now)) }
{
    let news = start_news(scope, rt, side, news)?;
    match start_syncing(scope, rt, side) {
        Ok(syncing) => Ok((news, syncing)),
        Err(NoThread) => {
            side.ended();
            join_one(rt, news);
            Err(NoThread)
        }
    }
}

/// Starts the thread of whoever writes the news log, where there is one.
fn start_news<
    's,
    E,
    N: NewsFile + Drop + Send + 's,
    M: NewsLines + Drop + Send + 's,
    R: Threads + Wait + Clock + Sync,
>(
    scope: &'s Scope<'s, E>,
    rt: &'s R,
    side: &'s Attendant<'s>,
    news: Option<NewsWriting<'s, N, M>>,
) -> Result<Option<JoinHandle<()>>, NoThread>
    ensures { IfOk result (λ started. is_some started ≡ is_some news.entry) }
{
    let Some(writing) = news else {
        return Ok(None);
    };
    match scope.spawn(move || side.write_news(rt, writing)) {
        Ok(started) => Ok(Some(started)),
        Err(_) => Err(NoThread),
    }
}

/// No thread was to be had.
#[derive(Drop)]
struct NoThread;

/// Starts the thread of whoever writes the journal, where there is one.
fn start_journaling<
    's,
    E,
    O: JournalFile + Drop + Send + 's,
    K: JournalLines + Drop + Send + 's,
    R: Threads + Wait + Clock + Sync,
>(
    scope: &'s Scope<'s, E>,
    rt: &'s R,
    side: &'s Attendant<'s>,
    journaling: Option<Journaling<'s, O, K>>,
) -> Result<Option<JoinHandle<()>>, NoThread>
    ensures { IfOk result (λ started. is_some started ≡ is_some journaling.entry) }
{
    let Some(journaling) = journaling else {
        return Ok(None);
    };
    match scope.spawn(move || side.journal(rt, journaling)) {
        Ok(started) => Ok(Some(started)),
        Err(_) => Err(NoThread),
    }
}

/// Starts the thread of whoever flushes files, where they are flushed.
fn start_syncing<'s, E, R: Threads + Wait + Clock + Eprint + Sync>(
    scope: &'s Scope<'s, E>,
    rt: &'s R,
    side: &'s Attendant<'s>,
) -> Result<Option<JoinHandle<()>>, NoThread>
    ensures { IfOk result (λ started. is_some started ≡ is_some (syncing_in side.now)) }
{
    if !side.syncs() {
        return Ok(None);
    }
    match scope.spawn(move || side.sync(rt)) {
        Ok(started) => Ok(Some(started)),
        Err(_) => Err(NoThread),
    }
}
