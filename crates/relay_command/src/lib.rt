//! What the program does with its words (docs/PROTOCOL.md, Program): it runs a drill, says what a
//! configuration has, what it does, or what a token stands for, has a relay served on ports, or
//! buffers added to one that was stopped, or asks one that is served to end, for its report, or to
//! go on with the configuration as it is now; and why it ends where it fails, with the status.
//!
//! The words decide which of these is done, on which streams and with which failure (`run`). Where
//! the words and the streams come from is the program's, and so is what serves, adds and asks.
#![tactic(auto)]

mod add;
mod ask;
mod check;
mod command_line;
mod explain;
mod failure;
mod file;
mod gathered;
mod help;
mod hints;
mod load;
mod look;
mod program;
mod question;
mod reload;
mod serve;
mod sources;
mod token;
mod version;
mod words;

pub use ask::{AskError, Request};
pub use explain::Unexplained;
pub use failure::{Failure, Unbegun, exit_code, print_failure, told_text};
pub use gathered::gathering;
pub use hints::hint;
pub use load::{CheckError, ConfFile, load as load_config};
pub use program::{program_words, run};
pub use token::TokenFault;
pub use version::VERSION;
