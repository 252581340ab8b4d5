//! What follows from what the buffers and the desks say of a relay that is found again. There is no
//! code: each function has an empty body, and its contract is what is proved.
#![tactic(auto)]

pub mod laws;
