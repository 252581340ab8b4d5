//! The window that an article's date lies in.
ghost use Rattle.std.specs.Prelude.{◌≡◌, ◌≢◌, Err, IfOk};
ghost use Rattle.news_terms.specs.Article.{content_or_empty, name_of, Date};
ghost use Rattle.news_terms.specs.Dates as terms;
ghost use Rattle.article_parse.specs.Article.{article_view};
ghost use Rattle.date_rules.specs.Seconds.{second_of, JudgedAs};
ghost use Rattle.date_rules.specs.declared.window.DateError.TheVariants.{Memory};

use crate::reading::seconds;
use article_parse::Article;
use std::alloc::{AllocError, Global};

/// The seconds of a day, by which a date may be ahead (RFC 5537, section 3.6).
const DAY: i128 = 86_400;

/// Why an article's date is refused, in the order of trial.
#[derive(Clone, Copy, Debug)]
pub enum DateError {
    /// Memory ran out, which says nothing of the date.
    Memory,
    /// The content reads as no date.
    BadDate,
    /// The date is more than a day after now.
    Future,
    /// The date is more than the cutoff before now.
    TooOld,
}

impl From<AllocError> for DateError {
    ghost from_gives = { λ _ e. e ≡ Memory };

    fn from(_error: AllocError) -> DateError {
        DateError::Memory
    }
}

/// Whether the date that an article is judged by lies in the window of `cutoff` seconds before
/// `now` and a day after it; `now` in seconds since the first of 1970 (RFC 5537, section 3.6).
pub fn judge(alloc: Global, article: &Article<'_>, now: u64, cutoff: u64) -> Result<(), DateError>
    ensures { JudgedAs now cutoff
        (second_of (terms.judged_date (article_view article.now).fields)) result }
{
    let second = judged_second(alloc, article)?;
    in_window(second, now, cutoff)
}

/// The second of the date that an article is judged by.
fn judged_second(alloc: Global, article: &Article<'_>) -> Result<Option<i64>, AllocError>
    ensures { IfOk result (λ second. second
        ≡ second_of (terms.judged_date (article_view article.now).fields)) }
{
    seconds(alloc, judged_date(article))
}

/// The content of the date that an article is judged by: Injection-Date, or else Date (RFC 5537,
/// section 3.6).
fn judged_date<'a>(article: &Article<'a>) -> &'a [u8]
    ensures { result.now ≡ terms.judged_date (article_view article.now).fields }
{
    match article.field(b"Injection-Date") {
        Some(injected) => injected,
        None => date(article),
    }
}

/// The content of Date, empty where it isn't there.
fn date<'a>(article: &Article<'a>) -> &'a [u8]
    ensures { result.now ≡ content_or_empty (name_of Date) (article_view article.now).fields }
{
    match article.field(b"Date") {
        Some(content) => content,
        None => b"",
    }
}

/// Whether a second was read, and lies in the window.
fn in_window(second: Option<i64>, now: u64, cutoff: u64) -> Result<(), DateError>
    ensures judged { JudgedAs now cutoff second result }
    ensures no_memory { result ≢ Err DateError.Memory }
{
    let Some(second) = second else {
        return Err(DateError::BadDate);
    };
    let second = i128::from(second);
    let now = i128::from(now);
    if second > now + DAY {
        return Err(DateError::Future);
    }
    if second + i128::from(cutoff) < now {
        return Err(DateError::TooOld);
    }
    Ok(())
}
