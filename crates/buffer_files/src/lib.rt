//! The files of a relay's buffers, and from what it begins over them (docs/PROTOCOL.md, `serve`,
//! Clean stop and start).
//!
//! The files are held and fitted (`hold_files`, `fit_files`), and it is found out from what a relay
//! begins (`begin_over`): from nothing, or from what it was stopped with. A store may say whether
//! its device has what was written (`Synced`). Why a file, the history or the system's random
//! numbers can't be had is told by name. Neither heads nor texts are read here.
#![tactic(auto)]

mod begun;
mod files;
mod history;
mod reasons;
mod seed;
mod streams;
mod synced;

pub use begun::{Beginning, Looked, Unbegun, begin_over};
pub use files::{
    are_blank, fit_files, flusher_of, hold_files, is_of_earlier, path_of, unfit, unformatted,
    unusable,
};
pub use history::{keep_history, unread};
pub use reasons::reason_of;
pub use seed::{hasher_of, unbegun};
pub use streams::fill_streams;
pub use synced::Synced;
