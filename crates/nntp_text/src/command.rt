//! What a command line asks.
ghost use Rattle.std.specs.Prelude.{◌≡◌, IfOk, IfErr, IsTrue};
ghost use Rattle.news_terms.specs.Command.{alone, capabilities_with, command_of, command_with};
ghost use Rattle.news_terms.specs.Command.{fetch_with, is_id, mode_with, takethis_with, words};
ghost use Rattle.news_terms.specs.Command.{xfetch_with, xtake_with};
ghost use Rattle.news_terms.specs.Command as terms;
ghost use Rattle.nntp_text.specs.Command.{CommandGives, OneId, command_view, id_among};
ghost use Rattle.nntp_text.specs.Command.{is_numeric_for, keyword_view, part_view};
ghost use Rattle.nntp_text.specs.declared.command.CmdError.TheVariants.{Memory};

use crate::id::{IdError, MsgId};
use crate::keyword::{Keyword, keyword_of};
use crate::words::{Arguments, words_after};
use line_words::{Between, first_word, has_only_digits, number_within, one_part, two_parts};
use std::alloc::{AllocError, Global};

/// Which part of an article a command asks for.
#[derive(Clone, Copy, Debug)]
pub enum Part {
    /// ARTICLE: the whole text (RFC 3977 section 6.2.1).
    WholeText,
    /// HEAD: the lines before the empty line (RFC 3977 section 6.2.2).
    Header,
    /// BODY: the lines after the empty line (RFC 3977 section 6.2.3).
    BodyLines,
    /// OVER: the overview line (RFC 3977 section 8.3).
    OverviewLine,
    /// STAT: whether it is there (RFC 3977 section 6.2.4).
    Presence,
}

/// What a command line asks.
#[derive(Debug, Drop)]
pub enum Command<'a> {
    /// CAPABILITIES: what the server can do (RFC 3977 section 5.2).
    AskCapabilities,
    /// HELP: which commands there are (RFC 3977 section 7.2).
    AskHelp,
    /// DATE: the moment in UTC (RFC 3977 section 7.1).
    AskDate,
    /// QUIT: the end of the session (RFC 3977 section 5.4).
    Quit,
    /// MODE STREAM (RFC 4644 section 2.3).
    ModeStream,
    /// MODE READER (RFC 3977 section 5.3).
    ModeReader,
    /// CHECK: whether the article of this message-id is wanted (RFC 4644 section 2.4).
    Check(MsgId),
    /// IHAVE: the same, and the article follows where it is (RFC 3977 section 6.3.2).
    Ihave(MsgId),
    /// TAKETHIS: that a block follows; the message-id is there only where exactly one word follows
    /// and is one (RFC 4644 section 2.5).
    TakeThis(Option<MsgId>),
    /// ARTICLE, HEAD, BODY, STAT or OVER of a message-id.
    Fetch(Part, MsgId),
    /// One of these of the current article or by number: it wants a group, and none is ever
    /// selected.
    NeedsGroup,
    /// XTAKE: at most so many tokens of the peer's feed, 1 to 1,000.
    TakeQueue(u16),
    /// XFETCH: the article of a token. The word isn't looked at yet.
    FetchToken(&'a [u8]),
}

/// Why a line is no command, in the order of trial.
#[derive(Clone, Copy, Debug)]
pub enum CmdError {
    /// Memory ran out for the message-id of the command that the line asks.
    Memory,
    /// The line has no word, or its first word is no keyword.
    Unknown,
    /// The keyword is followed by other words than it takes.
    Syntax,
}

impl From<AllocError> for CmdError {
    ghost from_gives = { λ _ e. e ≡ Memory };

    fn from(_error: AllocError) -> CmdError {
        CmdError::Memory
    }
}

impl<'a> Command<'a> {
    /// Reads a line, given without its CRLF (docs/FORMATS.md, Command lines). Of memory it takes
    /// that of a message-id alone.
    pub fn parse(alloc: Global, line: &'a [u8]) -> Result<Command<'a>, CmdError>
        ensures { CommandGives result (command_of line.now) }
    {
        let Some((word, rest)) = first_word(line, Between::White) else {
            return Err(CmdError::Unknown);
        };
        match keyword_of(word) {
            None => Err(CmdError::Unknown),
            Some(keyword) => with_words(alloc, keyword, rest),
        }
    }
}

/// What a keyword asks with the words that follow it.
fn with_words(alloc: Global, keyword: Keyword, rest: &[u8]) -> Result<Command<'_>, CmdError>
    ensures { CommandGives result (command_with (keyword_view keyword) (words rest.now)) }
{
    match keyword {
        Keyword::Capabilities => capabilities(rest),
        Keyword::Help => alone(rest, Command::AskHelp),
        Keyword::Date => alone(rest, Command::AskDate),
        Keyword::Quit => alone(rest, Command::Quit),
        Keyword::Mode => mode(rest),
        Keyword::Check => Ok(Command::Check(one_id(alloc, rest)?)),
        Keyword::Ihave => Ok(Command::Ihave(one_id(alloc, rest)?)),
        Keyword::TakeThis => takethis(alloc, rest),
        Keyword::Article => fetch(alloc, Part::WholeText, rest),
        Keyword::Head => fetch(alloc, Part::Header, rest),
        Keyword::Body => fetch(alloc, Part::BodyLines, rest),
        Keyword::Stat => fetch(alloc, Part::Presence, rest),
        Keyword::Over => fetch(alloc, Part::OverviewLine, rest),
        Keyword::Xtake => xtake(rest),
        Keyword::Xfetch => xfetch(rest),
    }
}

/// A command that takes no word.
fn alone<'a>(rest: &'a [u8], command: Command<'a>) -> Result<Command<'a>, CmdError>
    ensures { CommandGives result (alone (command_view command.entry) (words rest.now)) }
{
    match first_word(rest, Between::White) {
        None => Ok(command),
        Some(_) => Err(CmdError::Syntax),
    }
}

/// CAPABILITIES with the words that follow it: one at most, which is ignored.
fn capabilities(rest: &[u8]) -> Result<Command<'_>, CmdError>
    ensures { CommandGives result (capabilities_with (words rest.now)) }
{
    match words_after(rest) {
        Arguments::Absent | Arguments::One(_) => Ok(Command::AskCapabilities),
        Arguments::Several => Err(CmdError::Syntax),
    }
}

/// MODE with the words that follow it: STREAM or READER, without regard to ASCII case.
fn mode(rest: &[u8]) -> Result<Command<'_>, CmdError>
    ensures { CommandGives result (mode_with (words rest.now)) }
{
    match words_after(rest) {
        Arguments::One(word) if word.eq_ignore_ascii_case(b"STREAM") => Ok(Command::ModeStream),
        Arguments::One(word) if word.eq_ignore_ascii_case(b"READER") => Ok(Command::ModeReader),
        Arguments::Absent | Arguments::One(_) | Arguments::Several => Err(CmdError::Syntax),
    }
}

/// The one word that follows CHECK or IHAVE, a message-id.
fn one_id(alloc: Global, rest: &[u8]) -> Result<MsgId, CmdError>
    ensures { OneId result (words rest.now) }
{
    match words_after(rest) {
        Arguments::One(word) => match id_of(alloc, word)? {
            Some(id) => Ok(id),
            None => Err(CmdError::Syntax),
        },
        Arguments::Absent | Arguments::Several => Err(CmdError::Syntax),
    }
}

/// TAKETHIS with the words that follow it: any, since a block follows whatever they are.
fn takethis(alloc: Global, rest: &[u8]) -> Result<Command<'_>, CmdError>
    ensures { CommandGives result (takethis_with (words rest.now)) }
{
    match words_after(rest) {
        Arguments::One(word) => Ok(Command::TakeThis(id_of(alloc, word)?)),
        Arguments::Absent | Arguments::Several => Ok(Command::TakeThis(None)),
    }
}

/// A fetch with the words that follow it: a message-id, what stands for numbers, or none.
fn fetch(alloc: Global, part: Part, rest: &[u8]) -> Result<Command<'_>, CmdError>
    ensures { CommandGives result
        (fetch_with (part_view part) (is_numeric_for part) (words rest.now)) }
{
    match words_after(rest) {
        Arguments::Absent => Ok(Command::NeedsGroup),
        Arguments::One(word) => match id_of(alloc, word)? {
            Some(id) => Ok(Command::Fetch(part, id)),
            None if is_numeric(part, word) => Ok(Command::NeedsGroup),
            None => Err(CmdError::Syntax),
        },
        Arguments::Several => Err(CmdError::Syntax),
    }
}

/// XTAKE with the words that follow it: a number from 1 to 1,000.
fn xtake(rest: &[u8]) -> Result<Command<'_>, CmdError>
    ensures { CommandGives result (xtake_with (words rest.now)) }
{
    match words_after(rest) {
        Arguments::One(word) => match number_within(1, 1000, word) {
            Some(most) => Ok(Command::TakeQueue(most as u16)),
            None => Err(CmdError::Syntax),
        },
        Arguments::Absent | Arguments::Several => Err(CmdError::Syntax),
    }
}

/// XFETCH with the words that follow it: one.
fn xfetch(rest: &[u8]) -> Result<Command<'_>, CmdError>
    ensures { CommandGives result (xfetch_with (words rest.now)) }
{
    match words_after(rest) {
        Arguments::One(word) => Ok(Command::FetchToken(word)),
        Arguments::Absent | Arguments::Several => Err(CmdError::Syntax),
    }
}

/// The message-id that the word is, or `None` where it is none.
fn id_of(alloc: Global, word: &[u8]) -> Result<Option<MsgId>, AllocError>
    ensures id { IfOk result (λ id. id ≡ id_among word.now) }
    ensures memory { IfErr result (λ _. IsTrue (is_id word.now)) }
{
    match MsgId::parse(alloc, word) {
        Ok(id) => Ok(Some(id)),
        Err(IdError::Memory) => Err(AllocError),
        Err(IdError::Length | IdError::Brackets | IdError::Octet) => Ok(None),
    }
}

/// Whether the word stands for article numbers, as a fetch of this part takes them: a range of
/// numbers where it is the overview, else one number.
fn is_numeric(part: Part, word: &[u8]) -> bool
    ensures { result ≡ is_numeric_for part word.now }
{
    match part {
        Part::OverviewLine => is_range(word),
        Part::WholeText | Part::Header | Part::BodyLines | Part::Presence => is_number(word),
    }
}

/// Whether the word is an article number: 1 to 16 digits (RFC 3977 section 6).
fn is_number(word: &[u8]) -> bool
    ensures { result ≡ terms.is_number word.now }
{
    !word.is_empty() && word.len() <= 16 && has_only_digits(word)
}

/// Whether the word is an article number, or a range: a number, a hyphen, and a second number or
/// nothing (RFC 3977 section 8.3).
fn is_range(word: &[u8]) -> bool
    ensures { result ≡ terms.is_range word.now }
{
    if let Some(number) = one_part(Some(word), b'-') {
        return is_number(number);
    }
    match two_parts(Some(word), b'-') {
        Some((low, high)) => is_number(low) && (high.is_empty() || is_number(high)),
        None => false,
    }
}
