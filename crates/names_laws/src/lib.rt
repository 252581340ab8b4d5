//! Laws of histories that are taken by name, and worked examples. There is no code: each function
//! has an empty body, and its contract is what is proved.
#![tactic(auto)]

pub mod feeds;
pub mod histories;
pub mod positions;
pub mod rows;
