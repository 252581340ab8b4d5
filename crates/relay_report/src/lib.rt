//! The operator's report: a line for each buffer, for each feed and for the message-ids, of the
//! relay as it is (docs/FORMATS.md, Report).
//!
//! What is reported are figures: those of a relay that is one machine are relay_core's to say
//! (`System::figures`), those of threads relay_serve's. Here they become a text, which alone takes
//! memory.
//!
//! What serving a relay on ports answers (docs/PROTOCOL.md, `serve`): why it fails, with the text
//! of each failure, and what is printed where it ends well.
//!
//! The program's words ask whatever serves that answers rightly (`AnswersRightly`): what serves on
//! the machine's ports and files is relay_serve's, and rows of tests have what serves nothing.
#![tactic(auto)]

mod columns;
pub mod examples;
mod fault;
mod figures;
mod keeping;
pub mod laws;
mod printing;
mod reason;
mod text;
mod totals;
mod written;

pub use fault::{LostFile, LostPort, ServeError};
pub use figures::{FeedFigures, Figures, NamedBuffer, NamedFeed};
pub use keeping::{BufferFault, HistoryFault, StartFault, StopFault};
pub use printing::print_totals;
pub use reason::Reason;
pub use text::text_of;
pub use totals::{Totals, report_totals};
pub use written::{Unwritten, put, put_all};
