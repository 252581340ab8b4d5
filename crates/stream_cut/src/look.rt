//! How far the unread octets were looked through for the end of a line and of a block.
ghost use Rattle.std.specs.Prelude.{◌≡◌, drop, None, MatchBool, MatchOption};
ghost use Rattle.news_terms.specs.Lines.{first_line};
ghost use Rattle.stream_cut.specs.Look.{ClosesAt, EndsLast, IsLooked, IsPassed, IsUnclosed};
ghost use Rattle.stream_cut.specs.Dots.{DotsAt, HasNoInnerDot, dot_of};
ghost use Rattle.stream_cut.specs.Look.{FindsBlock, FindsLine, LineEnds};

use memchr::memmem;

/// How far unread octets were looked through.
#[derive(Clone, Copy)]
pub(crate) struct Progress {
    /// The octets of whole lines that belong to a block.
    pub(crate) passed: usize,
    /// The octets after those among which no CRLF begins.
    pub(crate) looked: usize,
    /// How many of the lines begin with a dot.
    pub(crate) dots: usize,
}

impl Progress {
    /// Nothing was looked at.
    pub(crate) fn none() -> Progress
        ensures { result ≡ record { passed = 0; looked = 0; dots = 0 } }
    {
        Progress {
            passed: 0,
            looked: 0,
            dots: 0,
        }
    }
}

/// What stands where a line is wanted.
pub(crate) enum LineLook {
    /// A line that ends at this place.
    Ends(usize),
    /// No line within the limit.
    TooLong,
    /// No line so far.
    Incomplete(Progress),
}

/// What stands where a block is wanted.
pub(crate) enum BlockLook {
    /// Lines, and after them the lone dot.
    Closed(Progress),
    /// No lone dot so far.
    Open(Progress),
}

/// The most octets of a command line with its CRLF (RFC 3977 section 3.1).
const LINE_LIMIT: usize = 512;

/// Where the first line ends, if no CRLF begins among the octets looked at before.
pub(crate) fn line_end(octets: &[u8], looked: usize) -> Option<usize>
    requires { IsLooked octets.now looked }
    ensures { MatchOption result (first_line octets.now ≡ None) (LineEnds octets.now) }
{
    match memmem::find(&octets[looked..], b"\r\n") {
        Some(k) => Some(looked + k),
        None => None,
    }
}

/// Looks at as many octets as a line may have.
pub(crate) fn look_for_line(octets: &[u8], progress: Progress) -> LineLook
    requires { IsPassed octets.now progress.passed progress.looked progress.dots }
    ensures { FindsLine octets.now result }
{
    let seen = octets.len().min(LINE_LIMIT);
    let looked = if progress.passed == 0 {
        progress.looked
    } else {
        0
    };
    let window = &octets[..seen];
    if let Some(end) = line_end(window, looked.min(seen.saturating_sub(1))) {
        return LineLook::Ends(end);
    }
    if seen == LINE_LIMIT {
        return LineLook::TooLong;
    }
    LineLook::Incomplete(Progress {
        passed: 0,
        looked: seen.saturating_sub(1),
        dots: 0,
    })
}

/// Where the first line behind the first one begins that begins with a dot, if no CRLF begins among
/// the octets looked at before. What stands before is stuffed, and unstuffed, as one line is.
pub(crate) fn inner_dot(octets: &[u8], looked: usize) -> Option<usize>
    requires { IsLooked octets.now looked }
    ensures { MatchOption result (HasNoInnerDot octets.now) (DotsAt octets.now) }
{
    match memmem::find(&octets[looked..], b"\r\n.") {
        Some(k) => Some(looked + k + 2),
        None => None,
    }
}

/// Where the last whole line ends, if no CRLF begins among the octets looked at before.
fn last_end(octets: &[u8], looked: usize) -> Option<usize>
    requires { IsLooked octets.now looked }
    ensures { MatchOption result (first_line octets.now ≡ None) (EndsLast octets.now) }
{
    match memmem::rfind(&octets[looked..], b"\r\n") {
        Some(k) => Some(looked + k + 2),
        None => None,
    }
}

/// Whether the lone dot comes next.
fn is_closed(octets: &[u8]) -> bool
    ensures { MatchBool result (ClosesAt octets.now 0) (IsUnclosed octets.now) }
{
    octets.starts_with(b".\r\n".as_slice())
}

/// Passes whole lines up to the lone dot that closes the block, or up to the last whole line: at
/// once those up to one that begins with a dot.
pub(crate) fn look_for_block(octets: &[u8], progress: Progress) -> BlockLook
    requires { IsPassed octets.now progress.passed progress.looked progress.dots }
    ensures { FindsBlock octets.now result }
{
    let mut progress = progress;
    while !is_closed(&octets[progress.passed..]) {
        let left = &octets[progress.passed..];
        let Some(end) = inner_dot(left, progress.looked) else {
            return BlockLook::Open(pass_last(octets, progress));
        };
        progress = Progress {
            passed: progress.passed + end,
            looked: 0,
            dots: progress.dots + dots(left),
        };
    }
    BlockLook::Closed(progress)
}

/// Passes whole lines of which the first alone may begin with a dot.
fn pass_last(octets: &[u8], progress: Progress) -> Progress
    requires passed { IsPassed octets.now progress.passed progress.looked progress.dots }
    requires dots { HasNoInnerDot (drop progress.passed octets.now) }
    requires open { IsUnclosed (drop progress.passed octets.now) }
    ensures { IsPassed octets.now result.passed result.looked result.dots
        × (first_line (drop result.passed octets.now) ≡ None) }
{
    let left = &octets[progress.passed..];
    match last_end(left, progress.looked) {
        Some(end) => Progress {
            passed: progress.passed + end,
            looked: (left.len() - end).saturating_sub(1),
            dots: progress.dots + dots(left),
        },
        None => Progress {
            looked: left.len().saturating_sub(1),
            ..progress
        },
    }
}

/// One where a line begins with a dot, else none.
fn dots(line: &[u8]) -> usize
    ensures { result ≡ dot_of line.now }
{
    usize::from(line.first() == Some(&b'.'))
}
