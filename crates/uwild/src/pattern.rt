//! Patterns with their marks, read from a text.
ghost use Rattle.uwild.specs.Expression.{verdict_view};
ghost use Rattle.uwild.specs.Reads.{PatternGives, ItemsGives, IsMarkCut};

use crate::expression::{Verdict, WildError};
use crate::item::{Front, Item, read_front};
use std::alloc::Global;

/// A pattern and its mark: Match where it has none (docs/FORMATS.md, Patterns).
#[derive(Drop)]
pub(crate) struct Pattern {
    pub(crate) mark: Verdict,
    pub(crate) items: Vec<Item>,
}

/// A pattern at the front of a text, and what follows its comma.
#[derive(Drop)]
pub(crate) struct PatternCut<'a> {
    pub(crate) pattern: Pattern,
    pub(crate) more: Option<&'a [u8]>,
}

/// The parts of a pattern at the front of a text, and what follows its comma.
#[derive(Drop)]
struct ItemsCut<'a> {
    items: Vec<Item>,
    more: Option<&'a [u8]>,
}

/// Reads a pattern up to its comma, or to the end of the text.
pub(crate) fn read_pattern(alloc: Global, text: &[u8]) -> Result<PatternCut<'_>, WildError>
    ensures { PatternGives text.now result }
{
    let (mark, rest) = read_mark(text);
    let cut = read_items(alloc, rest)?;
    Ok(PatternCut {
        pattern: Pattern {
            mark,
            items: cut.items,
        },
        more: cut.more,
    })
}

/// The mark that a text begins with, and what follows it.
fn read_mark(text: &[u8]) -> (Verdict, &[u8])
    ensures { IsMarkCut text.now (verdict_view result.0) result.1.now }
{
    match text {
        [b'!', rest @ ..] => (Verdict::Fail, rest),
        [b'@', rest @ ..] => (Verdict::Poison, rest),
        _ => (Verdict::Match, text),
    }
}

/// Reads the parts of a pattern up to its comma, or to the end of the text.
fn read_items(alloc: Global, text: &[u8]) -> Result<ItemsCut<'_>, WildError>
    ensures { ItemsGives text.now result }
{
    let mut items = Vec::new(alloc);
    let mut rest = text;
    loop {
        match read_front(alloc, rest)? {
            Front::Item(item, after) => {
                items.push(item)?;
                rest = after;
            }
            Front::Comma(after) => {
                return Ok(ItemsCut {
                    items,
                    more: Some(after),
                });
            }
            Front::End => return Ok(ItemsCut { items, more: None }),
        }
    }
}
