//! Lines of articles in the news log (docs/FORMATS.md, News log).
ghost use Rattle.std.specs.Prelude.{◌≡◌, IfOk};
ghost use Rattle.std.specs.Option.{option_map};
ghost use Rattle.news_log.specs.Lines.{IsAcceptedLine};
ghost use Rattle.relay_gate.specs.News.{IsNewsLine, all_in, all_of, code_in};

use live_session::{Remark, Taken};
use news_log::{
    Moment, NewsFile, NewsWriter, NewsWriting, PendingLines, PrintedNewsLines, ROOM, accepted_line,
    moment_of, refused_line,
};
use relay_conf::Relay;
use std::alloc::{AllocError, Global};
use std::str;
use std::sync::Wait;
use std::time::Clock;

/// Where lines of articles are put, and of which articles.
#[derive(Clone, Copy)]
pub struct News<'a> {
    relay: &'a Relay,
    pending: &'a PendingLines,
    /// Whether stored articles have lines too.
    all: bool,
}

impl<'a> News<'a> {
    /// Where a relay's lines are put, if it logs any.
    pub fn of(relay: &'a Relay, pending: &'a PendingLines) -> Option<News<'a>>
        ensures { option_map all_in result ≡ all_of relay.now }
    {
        match &relay.log {
            Some(log) => Some(News {
                relay,
                pending,
                all: log.all,
            }),
            None => None,
        }
    }

    /// The path of its file, where that is UTF-8.
    fn path(&self) -> Option<&'a str> {
        let log = self.relay.log.as_ref()?;
        str::from_utf8(log.path.as_slice()).ok()
    }

    /// Whether stored articles have lines too.
    pub(crate) fn is_of_all(&self) -> bool
        ensures { result ≡ all_in self.now }
    {
        self.all
    }

    /// Puts the line of what became of an article that a peer was answered so.
    pub(crate) fn put<R: Wait + Clock>(
        &self,
        rt: &R,
        alloc: Global,
        peer: &str,
        reply: &[u8],
        remark: &Remark,
    ) {
        let moment = moment_of(rt);
        match line_of(alloc, self.relay, &moment, peer, reply, remark) {
            Ok(line) => self.pending.put(rt, line.as_slice()),
            Err(_) => self.pending.lose(rt),
        }
    }
}

/// Where a relay's lines wait: with room where it logs any.
pub fn pending_of(alloc: Global, relay: &Relay) -> Result<PendingLines, AllocError> {
    let room = if relay.log.is_some() { ROOM } else { 0 };
    PendingLines::new(alloc, room)
}

/// What writes a relay's news log in its folder, where it has one, to this file. A path that is no
/// UTF-8 names no file: that is told, and its lines are lost.
pub fn writing_of<'a, 'n, N: NewsFile + Drop, R: Eprint>(
    rt: &'a R,
    alloc: Global,
    folder: &str,
    news: Option<News<'n>>,
    file: N,
) -> Result<Option<NewsWriting<'n, N, PrintedNewsLines<'a, R>>>, AllocError> {
    let mut file = file;
    let Some(news) = news else {
        return Ok(None);
    };
    match news.path() {
        Some(path) => {
            file.name(alloc, folder, path)?;
            let writer = NewsWriter::new(file, PrintedNewsLines::new(rt));
            let writing = NewsWriting::new(alloc, writer, news.pending, ROOM)?;
            Ok(Some(writing))
        }
        None => {
            let _lost = eprintln!(rt; "failed file=log kind=NoText");
            Ok(None)
        }
    }
}

/// The line of what became of an article that a peer was answered so at this moment. The error is
/// want of memory, now or when the article was handed over.
fn line_of(
    alloc: Global,
    relay: &Relay,
    moment: &Moment,
    peer: &str,
    reply: &[u8],
    remark: &Remark,
) -> Result<Vec<u8>, AllocError>
    ensures { IfOk result (λ line. IsNewsLine relay.now moment.now peer.now reply.now remark.now
        line.items) }
{
    let name = peer.as_bytes();
    match remark {
        Remark::Refused(id, reason) => {
            let why = reason.name();
            refused_line(alloc, moment, name, id.as_bytes(), code_of(reply), why)
        }
        Remark::Known(id) => {
            let why = "Duplicate";
            refused_line(alloc, moment, name, id.as_bytes(), code_of(reply), why)
        }
        Remark::Stored(Some(taken)) => stored_line(alloc, relay, moment, name, taken),
        Remark::Stored(None) => Err(AllocError),
    }
}

/// The line of an article that is stored.
fn stored_line(
    alloc: Global,
    relay: &Relay,
    moment: &Moment,
    peer: &[u8],
    taken: &Taken,
) -> Result<Vec<u8>, AllocError>
    ensures { IfOk result (λ line. IsAcceptedLine moment.now peer.now taken.now.id
        taken.now.octets relay.now taken.now.feeds.items line.items) }
{
    let octets = taken.octets as u64;
    let id = taken.id.as_bytes();
    accepted_line(alloc, moment, peer, id, octets, relay, &taken.feeds)
}

/// The code of a reply by which an article isn't taken: 437 to IHAVE, 439 to TAKETHIS (RFC 3977
/// section 6.3.2, RFC 4644 section 2.5).
fn code_of(reply: &[u8]) -> &'static str
    ensures { result.now ≡ code_in reply.now }
{
    if reply.starts_with(b"437") {
        "437"
    } else {
        "439"
    }
}
