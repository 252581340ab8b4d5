//! The faults of a text that is no article.
ghost use Rattle.std.specs.Prelude.{◌≡◌, length, map};
ghost use Rattle.std.specs.List.{list_any};
ghost use Rattle.news_terms.specs.Article.{contents_of, is_empty, trimmed, name_of};
ghost use Rattle.news_terms.specs.Article as terms;
ghost use Rattle.article_parse.specs.Header.{field_view, is_named};
ghost use Rattle.article_parse.specs.Faults.{FaultGives, first_that, is_wrong, faults_of};
ghost use Rattle.article_parse.specs.Faults.{optional_faults_of, named_faults, name_view};
ghost use Rattle.article_parse.specs.declared.faults.ArtError.TheVariants.{Memory};

use crate::content::is_blank;
use crate::header::Field;
use std::alloc::AllocError;

/// The fields that a relaying agent looks at, in the order of trial (RFC 5536, sections 3.1 and
/// 3.2.7).
#[derive(Clone, Copy, Debug)]
pub enum FieldName {
    Date,
    From,
    MessageId,
    Newsgroups,
    Path,
    Subject,
    InjectionDate,
}

/// Why a text is no article. They are tried in the order Nul, BareCrLf, NoBlankLine, BadHeader,
/// then for Date, From, Message-ID, Newsgroups, Path, Subject, Injection-Date in turn Missing,
/// Twice, EmptyField (Missing not for Injection-Date), then BadId, BadGroups (docs/FORMATS.md,
/// Articles).
#[derive(Clone, Copy, Debug)]
pub enum ArtError {
    /// Memory ran out, which says nothing of the text.
    Memory,
    /// The text has no empty line.
    NoBlankLine,
    /// A line before the empty line neither begins a field nor continues one.
    BadHeader,
    /// A CR stands without its LF, or an LF without its CR.
    BareCrLf,
    /// An octet 0 stands in the text.
    Nul,
    /// No field has this name.
    Missing(FieldName),
    /// Two fields or more have this name.
    Twice(FieldName),
    /// A field of this name has nothing but white space.
    EmptyField(FieldName),
    /// The trimmed Message-ID is no message-id.
    BadId,
    /// The trimmed Newsgroups is no list of newsgroup names.
    BadGroups,
}

impl From<AllocError> for ArtError {
    ghost from_gives = { λ _ e. e ≡ Memory };

    fn from(_error: AllocError) -> ArtError {
        ArtError::Memory
    }
}

/// The name as it is written.
pub(crate) fn spelled(name: FieldName) -> &'static [u8]
    ensures { result.now ≡ name_of (name_view name) }
{
    match name {
        FieldName::Date => b"Date",
        FieldName::From => b"From",
        FieldName::MessageId => b"Message-ID",
        FieldName::Newsgroups => b"Newsgroups",
        FieldName::Path => b"Path",
        FieldName::Subject => b"Subject",
        FieldName::InjectionDate => b"Injection-Date",
    }
}

/// Tries the faults of the fields by their names.
pub(crate) fn try_names(fields: &[Field<'_>]) -> Result<(), ArtError>
    ensures { FaultGives result (first_that (is_wrong (map field_view fields.now)) named_faults) }
{
    try_mandatory(fields, FieldName::Date)?;
    try_mandatory(fields, FieldName::From)?;
    try_mandatory(fields, FieldName::MessageId)?;
    try_mandatory(fields, FieldName::Newsgroups)?;
    try_mandatory(fields, FieldName::Path)?;
    try_mandatory(fields, FieldName::Subject)?;
    try_optional(fields, FieldName::InjectionDate)
}

/// Tries the faults of a field that has to be there.
fn try_mandatory(fields: &[Field<'_>], name: FieldName) -> Result<(), ArtError>
    ensures { FaultGives result (first_that (is_wrong (map field_view fields.now))
        (faults_of (name_view name))) }
{
    if times(fields, spelled(name)) == 0 {
        return Err(ArtError::Missing(name));
    }
    try_optional(fields, name)
}

/// Tries the faults of a field that may be missing.
fn try_optional(fields: &[Field<'_>], name: FieldName) -> Result<(), ArtError>
    ensures { FaultGives result (first_that (is_wrong (map field_view fields.now))
        (optional_faults_of (name_view name))) }
{
    if times(fields, spelled(name)) >= 2 {
        return Err(ArtError::Twice(name));
    }
    if leaves_empty(fields, spelled(name)) {
        return Err(ArtError::EmptyField(name));
    }
    Ok(())
}

/// How many fields have the name.
fn times(fields: &[Field<'_>], name: &[u8]) -> usize
    ensures { result ≡ length (contents_of name.now (map field_view fields.now)) }
{
    let mut times = 0;
    for field in fields {
        if is_named(field, name) {
            times += 1;
        }
    }
    times
}

/// Whether a field of the name has nothing but white space.
fn leaves_empty(fields: &[Field<'_>], name: &[u8]) -> bool
    ensures { result ≡ list_any (λ c. is_empty (trimmed c))
        (contents_of name.now (map field_view fields.now)) }
{
    for field in fields {
        if is_named(field, name) && is_blank(field.content) {
            return true;
        }
    }
    false
}

/// Whether the field has the name, without regard to ASCII case (RFC 5536, section 2.2).
pub(crate) fn is_named(field: &Field<'_>, name: &[u8]) -> bool
    ensures { result ≡ is_named name.now field.now }
{
    field.name.eq_ignore_ascii_case(name)
}
