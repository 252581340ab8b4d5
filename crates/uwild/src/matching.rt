//! Whether a pattern matches a name: one walk over both that goes back to the last star alone.
ghost use Rattle.std.specs.Prelude.{◌≡◌, map};
ghost use Rattle.news_terms.specs.Pattern as terms;
ghost use Rattle.uwild.specs.Expression.{item_view};
ghost use Rattle.uwild.specs.Walks.{StepGives, FurtherGives};

use crate::item::Item;

/// What is left of a pattern and of a name.
#[derive(Clone, Copy)]
struct Rest<'a> {
    items: &'a [Item],
    name: &'a [u8],
}

/// What comes next of a walk.
#[derive(Clone, Copy)]
enum Step<'a> {
    /// Both are at their ends: the pattern matches.
    Matched,
    /// Behind a star this is left.
    BehindStar(Rest<'a>),
    /// The first part takes the first octet, and behind the two this is left.
    BehindOctet(Rest<'a>),
    /// The first part doesn't take the first octet, or one of the two isn't there.
    Stuck,
}

/// Whether the pattern matches the whole name (docs/FORMATS.md, Patterns).
pub(crate) fn matches(items: &[Item], name: &[u8]) -> bool
    ensures { result ≡ terms.matches (map item_view items.now) name.now }
{
    let mut at = Rest { items, name };
    // What was left where the last star was tried. An earlier star needn't be tried again: with
    // more octets it would only leave fewer to the last one.
    let mut star = None;
    loop {
        match next_step(at) {
            Step::Matched => return true,
            Step::BehindOctet(rest) => at = rest,
            Step::BehindStar(rest) => {
                star = Some(rest);
                at = rest;
            }
            Step::Stuck => {
                let Some(rest) = further(star) else {
                    return false;
                };
                star = Some(rest);
                at = rest;
            }
        }
    }
}

/// The next step of a walk.
fn next_step(at: Rest<'_>) -> Step<'_>
    ensures { StepGives at.entry result }
{
    let Some((item, items)) = at.items.split_first() else {
        return if at.name.is_empty() {
            Step::Matched
        } else {
            Step::Stuck
        };
    };
    if let Item::Star = item {
        return Step::BehindStar(Rest {
            items,
            name: at.name,
        });
    }
    match at.name.split_first() {
        Some((octet, name)) if item.takes(*octet) => Step::BehindOctet(Rest { items, name }),
        _ => Step::Stuck,
    }
}

/// What is left where the last star has one octet more.
fn further(star: Option<Rest<'_>>) -> Option<Rest<'_>>
    ensures { FurtherGives star.entry result }
{
    let star = star?;
    let (_, name) = star.name.split_first()?;
    Some(Rest {
        items: star.items,
        name,
    })
}
