//! The Path of an article (RFC 5536, section 3.1.5; RFC 5537, sections 3.2 and 3.6;
//! docs/FORMATS.md, Path): the identities in it, whether the article has been here, and the article
//! with its Path updated by a relaying agent.
#![tactic(auto)]

mod pieces;
mod rules;
mod update;
mod words;

pub use rules::{Identity, PathError, has_identity, identities, loops};
pub use update::{update_parses, updated, updated_octets, updated_text};
