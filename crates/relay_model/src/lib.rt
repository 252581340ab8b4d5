//! The relay that a person can read: its state, its steps, its runs. There is no code; the
//! definitions are in specs/, and the contracts of the crates above cite them.
//!
//! Read specs/Claims.antt first (what is known of a message-id), then specs/State.antt and
//! specs/World.antt; specs/Asks.antt, specs/Shares.antt and specs/Hears.antt are a Turn,
//! specs/Writers.antt is a Write, and specs/Run.antt puts them together. What holds of every world
//! that a run leads to stands in specs/Invariants.antt and specs/Awaited.antt.
//!
//! `relay_facts` and `relay_laws` prove what follows from these definitions alone.
#![tactic(auto)]
