//! What a start does before a relay is served, over the stores of its buffers and its history
//! (docs/PROTOCOL.md, `serve`, Crashes and Clean stop and start).
//!
//! A first start that was cut short is completed (`complete_first`). Whether a relay was left
//! without a stop is asked of the heads, by the names of the configuration (`left_by_name`), and
//! what a repair of it goes by, reads and keeps is here too (`last_history`, `with_heads`,
//! `keep_repaired`). No thread is started.
//!
//! Where there is no history of a relay of the configuration, the cause is told (`causes`); `laws`
//! says that it is told exactly where a start refuses the text.
#![tactic(auto)]

mod causes;
mod completing;
mod folding;
mod found_heads;
mod keeping;
pub mod laws;
mod lost;
mod naming;
mod recovered;
mod starting;
mod stop_number;
mod synced;
mod unsaved;
mod unstopped;

pub use completing::complete_first;
pub use folding::last_history;
pub use found_heads::with_heads;
pub use keeping::{keep_repaired, keep_stopped};
pub use naming::{LeftByName, left_by_name, tell_changes};
pub use recovered::{tell_recovered, tell_recovering};
pub use starting::{refusal, unstarted};
pub use stop_number::{stop_begun, stop_kept};
pub use unsaved::without_unsaved;
pub use unstopped::{history_of, is_unstopped};
