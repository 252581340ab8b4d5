//! What a start reads of the articles that are live, and enters in the register.
ghost use Rattle.std.specs.Prelude.{◌≡◌, ℕ, Bool, length, IfErr, OnOk, true};
ghost use Rattle.cyc_buffer.specs.Agreement.{Agrees};
ghost use Rattle.cyc_buffer.specs.Head.{inside};
ghost use Rattle.cyc_buffer.specs.History.{History};
ghost use Rattle.cyc_buffer.specs.Remembered.{AreWithin};
ghost use Rattle.cyc_buffer.specs.Starting.{ListsLive};
ghost use Rattle.live_store.specs.Started.{AreArticles, AreNumberedTo, EntersArticle, HaveFirsts};
ghost use Rattle.live_store.specs.Started.{IsNoArticle, IsToldAs, IsUnentered, ReadsArticles};
ghost use Rattle.live_store.specs.Started.{ReadsText};
ghost use Rattle.live_store.specs.Tied.{AreShown};
ghost use Rattle.news_terms.specs.ArticleTexts.{IsArticle};

use super::entering::Record;
use crate::record::{ArticleLog, RecordNumber};
use article_parse::{ArtError, Article};
use cyc_block::{BlockStore, CHUNK_OCTETS};
use cyc_buffer::{Found, StartError, Unopened, size_of};
use cyc_token::Token;
use std::alloc::Global;
use std::sync::Wait;

/// Enters a record for the article of each token, in their order, and puts its number at the
/// article's first block.
pub(crate) fn enter_articles<S: BlockStore, R: Wait>(
    rt: &R,
    alloc: Global,
    register: &ArticleLog,
    buffer: &mut Unopened<S>,
    tokens: &[Token],
    numbers: &mut Vec<Option<RecordNumber>>,
) -> Result<(), StartError>
    requires within { AreWithin (length numbers.old.items) tokens.now }
    ensures numbered { OnOk result ((trusted : Bool) (h : History)
        → Agrees trusted (inside buffer.old) h → ListsLive tokens.now h
        → AreNumberedTo trusted register.now h tokens.now (length tokens.now)
        numbers.new.items) }
    ensures shown { OnOk result (AreShown register.now numbers.old.items
        → AreShown register.now numbers.new.items) }
    ensures firsts { OnOk result (HaveFirsts tokens.now (length tokens.now)
        numbers.new.items) }
    ensures length { OnOk result (length numbers.new.items ≡ length numbers.old.items) }
    ensures reads { ReadsArticles (inside buffer.old) (inside buffer.new) result }
    // Only what holds no article under a token, or not all of it, is damaged.
    ensures refused { (h : History) → Agrees true (inside buffer.old) h
        → ListsLive tokens.now h → IfErr result (IsUnentered (AreArticles h)) }
{
    for token in tokens {
        let shown = enter_article(rt, alloc, register, buffer, token)?;
        numbers[token.first as usize] = Some(shown);
    }
    Ok(())
}

/// Enters a record for the article under a token, whose text is read and judged an article.
fn enter_article<S: BlockStore, R: Wait>(
    rt: &R,
    alloc: Global,
    register: &ArticleLog,
    buffer: &mut Unopened<S>,
    token: &Token,
) -> Result<RecordNumber, StartError>
    ensures { EntersArticle register.now (inside buffer.old) (inside buffer.new) token.now result }
{
    let text = read_text(alloc, buffer, token)?;
    judge(alloc, &text)?;
    match Record::enter_once(rt, register, token, false, &text) {
        Ok(shown) => Ok(shown),
        Err(_refused) => Err(StartError::Memory),
    }
}

/// The text of the article under a token, each block of which is read once.
fn read_text<S: BlockStore>(
    alloc: Global,
    buffer: &mut Unopened<S>,
    token: &Token,
) -> Result<Vec<u8>, StartError>
    ensures { ReadsText (inside buffer.old) (inside buffer.new) token.now result }
{
    let mut text = Vec::with_capacity(alloc, token.length as usize)?;
    let mut chunk = [0; CHUNK_OCTETS];
    for k in 0..size_of(token.length) {
        match buffer.read_block(token, k, &mut chunk) {
            Ok(Found::Chunk(octets)) => text.extend_from_slice(&chunk[..octets])?,
            Ok(Found::Gone(_)) => return Err(StartError::Damaged),
            Ok(Found::Unknown) => return Err(StartError::Damaged),
            Err(_) => return Err(StartError::Device),
        }
    }
    Ok(text)
}

/// Judges a text an article.
fn judge(alloc: Global, text: &[u8]) -> Result<(), StartError>
    ensures article { OnOk result ∥ IsArticle text.now ∥₁ }
    ensures refused { IfErr result (IsNoArticle text.now) }
{
    let _article = match Article::parse(alloc, text) {
        Ok(article) => article,
        Err(error) => return Err(told(error)),
    };
    Ok(())
}

/// Want of memory, or that a text is no article.
fn told(error: ArtError) -> StartError
    ensures { IsToldAs error result }
{
    match error {
        ArtError::Memory => StartError::Memory,
        ArtError::NoBlankLine
        | ArtError::BadHeader
        | ArtError::BareCrLf
        | ArtError::Nul
        | ArtError::Missing(_)
        | ArtError::Twice(_)
        | ArtError::EmptyField(_)
        | ArtError::BadId
        | ArtError::BadGroups => StartError::Damaged,
    }
}
