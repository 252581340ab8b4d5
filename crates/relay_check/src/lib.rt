//! How the relay of a folder stands is told (`stand_on`; docs/PROTOCOL.md, `check`), and buffers
//! are added to one that was stopped (`add_on`; docs/PROTOCOL.md, `add-buffer`), or between two of
//! its lives (`add_between`), over the files of the machine. Both go by what a start would do: relay_startup.
#![tactic(auto)]

mod adding;
mod looking;
mod seen_file;
mod standing;

pub use adding::{add_between, add_on};
pub use looking::stand_on;
