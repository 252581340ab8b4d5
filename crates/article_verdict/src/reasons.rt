//! The reasons for which an article is refused, and those that its Path and its date give.
ghost use Rattle.std.specs.Prelude.{◌≡◌, is_some, IfOk};
ghost use Rattle.std.specs.Option.{option_map};
ghost use Rattle.article_parse.specs.Article.{article_view};
ghost use Rattle.article_verdict.specs.Verdict.{path_reason, reason_name, reason_view};
ghost use Rattle.date_rules.specs.Seconds.{second_of};
ghost use Rattle.news_terms.specs.Dates.{date_fault, judged_date};

use article_parse::Article;
use date_rules::{DateError, judge};
use path_rules::loops;
use std::alloc::{AllocError, Global};

/// Why an article is refused, in the order of trial (docs/PROTOCOL.md, Judging).
#[derive(Clone, Copy)]
pub enum Reason {
    /// The block was oversize: its text has more octets than an article may have.
    Size,
    /// The text is no article (RFC 5536, sections 2 and 3).
    Grammar,
    /// Its Message-ID differs from the offered id.
    IdMismatch,
    /// Its Path, white space left out, has an octet outside 0x21 to 0x7E (RFC 5536, section 3.1.5).
    BadPath,
    /// The own identity is among those of its Path (RFC 5537, sections 3.2 and 3.6).
    Loop,
    /// Its date reads as no date, is more than a day ahead or older than the cutoff (RFC 5537,
    /// sections 3.3 and 3.6).
    Date,
    /// No entry of storage.conf takes it.
    NoClass,
    /// It takes more blocks than the smallest buffer of its group has.
    TooLarge,
}

impl Reason {
    /// Its name.
    pub fn name(&self) -> &'static str
        ensures { result.now ≡ reason_name (reason_view self.now) }
    {
        match self {
            Reason::Size => "Size",
            Reason::Grammar => "Grammar",
            Reason::IdMismatch => "IdMismatch",
            Reason::BadPath => "BadPath",
            Reason::Loop => "Loop",
            Reason::Date => "Date",
            Reason::NoClass => "NoClass",
            Reason::TooLarge => "TooLarge",
        }
    }
}

/// The reason that a Path gives, if any; `own` is the own identity. It takes no memory.
pub(crate) fn path_reason(path: &[u8], own: &[u8]) -> Option<Reason>
    ensures { option_map reason_view result ≡ path_reason own.now path.now }
{
    match loops(path, own) {
        Err(_) => Some(Reason::BadPath),
        Ok(true) => Some(Reason::Loop),
        Ok(false) => None,
    }
}

/// Whether an article's date is refused, at the moment `now` in seconds since the first of 1970
/// and with this cutoff in seconds.
pub(crate) fn has_date_fault(
    alloc: Global,
    article: &Article<'_>,
    now: u64,
    cutoff: u64,
) -> Result<bool, AllocError>
    ensures { IfOk result (λ refused. refused ≡ is_some (date_fault now cutoff
        (second_of (judged_date (article_view article.now).fields)))) }
{
    match judge(alloc, article, now, cutoff) {
        Ok(()) => Ok(false),
        Err(DateError::Memory) => Err(AllocError),
        Err(DateError::BadDate | DateError::Future | DateError::TooOld) => Ok(true),
    }
}
