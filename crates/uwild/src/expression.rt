//! Expressions: patterns with their marks.
ghost use Rattle.std.specs.Prelude.{◌≡◌, IfOk, IfErr};
ghost use Rattle.news_terms.specs.Pattern as terms;
ghost use Rattle.uwild.specs.Expression.{verdict_view, IsFault};
ghost use Rattle.uwild.specs.declared.expression.WildError.TheVariants.{Memory};

use crate::matching::matches;
use crate::pattern::{Pattern, read_pattern};
use std::alloc::{AllocError, AllocFailed, Global};
use std::marker::Model;

/// What an expression says of a newsgroup name (docs/FORMATS.md, Patterns).
#[derive(Clone, Copy, Debug)]
pub enum Verdict {
    /// The last pattern that matches has no mark.
    Match,
    /// The last pattern that matches is marked `!`, or none matches.
    Fail,
    /// The last pattern that matches is marked `@`.
    Poison,
}

/// Why a text is no expression: its leftmost fault, and of two at one octet the one listed first
/// (docs/FORMATS.md, Patterns).
#[derive(Clone, Copy, Debug)]
pub enum WildError {
    /// Memory ran out, which says nothing of the text.
    Memory,
    /// A `[` without a `]` behind it.
    OpenSet,
    /// `[]` or `[^]`.
    EmptySet,
    /// A range whose first octet is above its second.
    BadRange,
    /// A `\` at the end.
    DanglingEscape,
    /// An octet past ASCII.
    NonAscii,
}

impl From<AllocError> for WildError {
    ghost from_gives = { λ _ e. e ≡ Memory };

    fn from(_error: AllocError) -> WildError {
        WildError::Memory
    }
}

impl<T: Drop> From<AllocFailed<T>> for WildError {
    ghost from_gives = { λ _ e. e ≡ Memory };

    fn from(_error: AllocFailed<T>) -> WildError {
        WildError::Memory
    }
}

/// An expression over newsgroup names (uwildmat(3) of INN; docs/FORMATS.md, Patterns).
pub struct Expr {
    patterns: Vec<Pattern>,
}

// Written out, so that no crate above proves anew how each part is let go.
impl Drop for Expr {
    fn drop(self) {
        let Expr { patterns: _ } = self;
    }
}

impl Model for Expr {
    ghost use Rattle.std.specs.Prelude.{List, map};
    ghost use Rattle.news_terms.specs.Pattern.{Marked};

    ghost Value = { List Marked };

    ghost use Rattle.uwild.specs.Expression.{pattern_view};

    ghost view = { λ e. map pattern_view e.patterns.items };
}

impl Expr {
    /// Reads an expression; the whole text is one.
    pub fn parse(alloc: Global, text: &[u8]) -> Result<Expr, WildError>
        ensures read { IfOk result (λ e. terms.IsExpressionText text.now e) }
        ensures fault { IfErr result (IsFault (terms.HasLeftmostFault text.now)) }
    {
        let mut patterns = Vec::new(alloc);
        let mut rest = text;
        loop {
            let cut = read_pattern(alloc, rest)?;
            patterns.push(cut.pattern)?;
            match cut.more {
                Some(more) => rest = more,
                None => return Ok(Expr { patterns }),
            }
        }
    }

    /// What the expression says of a newsgroup name. It takes no memory, and for each pattern at
    /// most as many steps as the octets of the pattern times those of the name.
    pub fn judge(&self, name: &[u8]) -> Verdict
        ensures { verdict_view result ≡ terms.verdict self.now name.now }
    {
        let mut left = self.patterns.as_slice();
        while let Some((last, before)) = left.split_last() {
            if matches(&last.items, name) {
                return last.mark;
            }
            left = before;
        }
        Verdict::Fail
    }
}
