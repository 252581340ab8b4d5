//! Lines of what became of articles, in the form of INN's `news` log file: how a line reads, where
//! it waits, and how what waits is written.
//!
//! Whoever refuses or accepts an article puts its line into a `PendingLines`, whose lock is held as
//! long as the line takes to be copied, and no other lock while it is. One thread takes what waits
//! and appends it to the file. All memory for what waits is taken before: where there is no room a
//! line is lost, and counted, and that is told.
#![tactic(auto)]

mod feeds;
mod host_news;
pub mod laws;
mod lines;
mod moments;
mod news_file;
mod news_lines;
mod pending;
mod stamps;
mod waiting;
mod writer;
mod writing;

pub use host_news::{HostNews, Opening};
pub use lines::{accepted_line, refused_line};
pub use moments::{Moment, moment_of};
pub use news_file::NewsFile;
pub use news_lines::{NewsLine, NewsLines, PrintedNewsLines};
pub use pending::PendingLines;
pub use waiting::Lines;
pub use writer::NewsWriter;
pub use writing::{NewsWriting, ROOM};
