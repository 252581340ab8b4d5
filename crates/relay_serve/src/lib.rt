//! A relay that is served on ports, over files (docs/PROTOCOL.md, `serve`).
//!
//! `serve_on` opens the files of a configuration's buffers, the ports of its peers and the socket
//! by which it is asked, runs the relay over them until it is told to stop, from nothing or from
//! what it was stopped with, keeps what the next start needs, and writes the report. `run_relay`
//! runs a relay in threads over any stores, and says what was counted once all threads have ended.
//! What a start does before that, over files and history, is relay_startup's.
#![tactic(auto)]

mod beginning;
mod figures;
mod filled;
mod keeping;
mod lives;
mod pausing;
mod run_totals;
mod running;
mod served;
mod serving;

pub use serving::serve_on;
