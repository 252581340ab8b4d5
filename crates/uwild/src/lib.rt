//! Expressions over newsgroup names (uwildmat(3) of INN; docs/FORMATS.md, Patterns): which names a
//! feed or a storage class speaks of.
#![tactic(auto)]

mod expression;
mod item;
pub mod laws;
mod matching;
mod pattern;
mod set;

pub use expression::{Expr, Verdict, WildError};
