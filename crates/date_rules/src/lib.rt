//! The dates of articles (RFC 5537, section 3.6; docs/FORMATS.md, Dates): how the content of a date
//! is read, and whether its second lies in the window that a relay takes articles from; and the
//! moment that a relay tells as fourteen digits (RFC 3977, section 7.1).
#![tactic(auto)]

mod reading;
mod stamps;
mod window;

pub use reading::seconds;
pub use stamps::stamp;
pub use window::{DateError, judge};
