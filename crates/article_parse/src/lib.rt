//! The grammar of articles (RFC 5536, sections 2 and 3; docs/FORMATS.md, Articles): what the
//! content of a field says.
#![tactic(auto)]

mod article;
mod content;
mod faults;
mod groups;
mod header;
pub mod laws;
mod lines;

pub use article::Article;
pub use content::{begins_white, is_blank, unfolded};
pub use faults::{ArtError, FieldName};
pub use header::{Field, Front, front_of};
pub use lines::{has_nul, is_paired};
