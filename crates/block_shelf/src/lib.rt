//! All buffers with their groups: the store of the relay, in the relay's own words. What is above
//! speaks of what was begun, of texts that are whole and of tokens, and never of blocks, stamps or
//! rings.
#![tactic(auto)]

mod arming;
mod beginning;
mod buffer_set;
mod figures;
mod filling;
mod giving;
mod killing;
mod opening;
mod picking;
mod restarting;
mod resuming;
mod starting;
mod stopping;

pub use beginning::{BeginError, unbegun};
pub use buffer_set::{Begun, BufferSet, PlacedGroup, WriteError};
pub use figures::BufferFigures;
pub use filling::{BufferSetError, new_placed_groups, unformatted};
pub use opening::UnopenedBufferSet;
pub use picking::Place;
pub use restarting::RestartFault;
pub use resuming::{resume_placed_groups, used_in};
pub use starting::{StopFault, Unstarted, blamed, fault_of, first_other, start};
pub use stopping::{Unshut, number_of};
