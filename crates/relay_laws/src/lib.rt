//! The laws over the relay's definitions: what holds after every list of events, whatever they are
//! answered, and laws of single rules, each for a wrong rule that those let through. Each is the
//! contract of a public function with no parameters and an empty body.
//!
//! Computed runs of the relay's definitions: events, and what they are answered, in no other way
//! where memory is there and no device fails. There is no code: each function has an empty body,
//! and its contract is what is proved.
#![tactic(auto)]

pub mod claims;
pub mod devices;
pub mod feeds;
pub mod figure_runs;
pub mod figures;
pub mod forgetting;
pub mod hash_feeds;
pub mod judgements;
pub mod judging;
pub mod places;
pub mod records;
pub mod rows;
pub mod rule_rows;
pub mod rules;
pub mod states;
pub mod stores;
pub mod transfers;
pub mod worlds;
pub mod writes;
