//! Sets of octets, as they stand between their brackets.
ghost use Rattle.std.specs.Prelude.{◌≡◌, [], MatchOption};
ghost use Rattle.std.specs.Option.{option_map};
ghost use Rattle.news_terms.specs.Pattern as terms;
ghost use Rattle.uwild.specs.Sets.{IsFirstRange, range_view, fault_view};

/// The octets from `low` to `high`, both included (docs/FORMATS.md, Patterns).
#[derive(Clone, Copy)]
pub(crate) struct Range {
    low: u8,
    high: u8,
}

/// Why octets between brackets are no set.
#[derive(Clone, Copy)]
pub(crate) enum SetFault {
    /// A range whose first octet is above its second.
    BadRange,
    /// An octet past ASCII.
    NonAscii,
}

/// Whether the octet is of the set (docs/FORMATS.md, Patterns).
pub(crate) fn is_of_set(set: &[u8], octet: u8) -> bool
    ensures { result ≡ terms.is_of_set set.now octet }
{
    let mut rest = set;
    while let Some((range, more)) = first_range(rest) {
        if range.low <= octet && octet <= range.high {
            return true;
        }
        rest = more;
    }
    false
}

/// The first fault of the octets between brackets (docs/FORMATS.md, Patterns).
pub(crate) fn set_fault(set: &[u8]) -> Option<SetFault>
    ensures { option_map fault_view result ≡ terms.set_fault set.now }
{
    let mut rest = set;
    while let Some((range, more)) = first_range(rest) {
        if range.low > range.high {
            return Some(SetFault::BadRange);
        }
        if range.high >= 0x80 {
            return Some(SetFault::NonAscii);
        }
        rest = more;
    }
    None
}

/// The range that a set begins with, and the octets behind it. An octet that begins no range stands
/// for itself.
fn first_range(set: &[u8]) -> Option<(Range, &[u8])>
    ensures { MatchOption result (set.now ≡ []) (IsFirstRange set.now) }
{
    match set {
        [] => None,
        [low, b'-', high, more @ ..] => Some((
            Range {
                low: *low,
                high: *high,
            },
            more,
        )),
        [only, more @ ..] => Some((
            Range {
                low: *only,
                high: *only,
            },
            more,
        )),
    }
}
