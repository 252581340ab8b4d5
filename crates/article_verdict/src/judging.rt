//! The verdict on a block.
ghost use Rattle.std.specs.Prelude.{◌≡◌, ◌≢◌, bytes_eq, IfOk, IfErr};
ghost use Rattle.std.specs.Option.{option_copied};
ghost use Rattle.article_parse.specs.Article.{article_view, id_view};
ghost use Rattle.article_verdict.specs.Config.{terms_of};
ghost use Rattle.article_verdict.specs.Verdict.{judged_by_date, verdict_view};
ghost use Rattle.news_terms.specs.Article.{message_id};
ghost use Rattle.relay_model.specs.Judging.{Judges, judged, path_of};

use crate::reasons::{Reason, has_date_fault, path_reason};
use crate::storing::classed;
use article_parse::{ArtError, Article};
use buffer_group::Accepted;
use nntp_text::MsgId;
use relay_conf::Config;
use std::alloc::{AllocError, Global};

/// Judges the text of a block from the peer of this number, which was offered under this id, at
/// the moment `now` in seconds since the first of 1970; `None` stands for the text of a block that
/// was oversize (docs/PROTOCOL.md, Judging). The error is want of memory, and says nothing of the
/// text. A text that is refused is never copied; one that is accepted is written once, with its
/// Path updated.
pub fn verdict(
    alloc: Global,
    config: &Config,
    offered: &MsgId,
    peer: usize,
    text: Option<&[u8]>,
    now: u64,
) -> Result<Result<Accepted, Reason>, AllocError>
    ensures { IfOk result (λ verdict. Judges (terms_of config.now) peer offered.now now
        (option_copied text.entry) (verdict_view verdict)) }
{
    let Some(octets) = text else {
        return Ok(Err(Reason::Size));
    };
    match Article::parse(alloc, octets) {
        Ok(article) => judged(alloc, config, offered, peer, &article, now),
        Err(error) => {
            let reason = unread(error)?;
            Ok(Err(reason))
        }
    }
}

/// The reason for a text that was not read as an article, whatever its fault.
fn unread(error: ArtError) -> Result<Reason, AllocError>
    ensures reason { IfOk result (λ reason. reason ≡ Reason.Grammar) }
    ensures fault { IfOk result (λ reason. error ≢ ArtError.Memory) }
    ensures memory { IfErr result (λ none. error ≡ ArtError.Memory) }
{
    match error {
        ArtError::Memory => Err(AllocError),
        _ => Ok(Reason::Grammar),
    }
}

/// Judges an article that was read.
fn judged(
    alloc: Global,
    config: &Config,
    offered: &MsgId,
    peer: usize,
    article: &Article<'_>,
    now: u64,
) -> Result<Result<Accepted, Reason>, AllocError>
    requires { id_view article.now ≡ message_id (article_view article.now).fields }
    ensures { IfOk result (λ verdict. verdict_view verdict
        ≡ judged (terms_of config.now) peer offered.now now (article_view article.now)) }
{
    if !has_id(article, offered) {
        return Ok(Err(Reason::IdMismatch));
    }
    if let Some(reason) = path_reason(path_of(article), config.relay.own.as_slice()) {
        return Ok(Err(reason));
    }
    judged_by_date(alloc, config, peer, article, now)
}

/// Judges an article by its date, its class and its size.
fn judged_by_date(
    alloc: Global,
    config: &Config,
    peer: usize,
    article: &Article<'_>,
    now: u64,
) -> Result<Result<Accepted, Reason>, AllocError>
    ensures { IfOk result (λ verdict. verdict_view verdict
        ≡ judged_by_date (terms_of config.now) peer now (article_view article.now)) }
{
    if has_date_fault(alloc, article, now, config.relay.cutoff)? {
        return Ok(Err(Reason::Date));
    }
    classed(alloc, config, peer, article)
}

/// Whether this is the article's message-id.
fn has_id(article: &Article<'_>, id: &MsgId) -> bool
    ensures { result ≡ bytes_eq (id_view article.now) id.now }
{
    article.id().as_str() == id.as_str()
}

/// The Path of an article as it was received.
fn path_of<'a>(article: &Article<'a>) -> &'a [u8]
    ensures { result.now ≡ path_of (article_view article.now) }
{
    match article.field(b"Path") {
        Some(path) => path,
        None => b"",
    }
}
