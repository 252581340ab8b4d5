//! The definitions of a Netnews relay's texts and numbers: lines, blocks, message-ids, commands,
//! replies, articles, Path, dates, patterns, storage classes, tokens, places, block images, rings
//! and the overview. Contracts of the other crates cite them; nothing but reading, the laws and the
//! worked examples here checks them, so each has one sentence above it, in specs/.
//!
//! There is no code: the functions are laws and worked examples,
//! each the contract of an empty body.
#![tactic(auto)]

pub mod articles;
pub mod classes;
pub mod commands;
pub mod courses;
pub mod cutting;
pub mod dates;
pub mod fronts;
pub mod heads;
pub mod ids;
pub mod images;
pub mod overviews;
pub mod paths;
pub mod patterns;
pub mod picks;
pub mod places;
pub mod replies;
pub mod rings;
pub mod settings;
