//! The texts of the protocol: message-ids, command lines and replies (RFC 3977, RFC 4644;
//! docs/FORMATS.md, Command lines and Replies).
//!
//! A message-id is accepted exactly where it is one, a line is read as the grammar says, and the
//! octets of a reply are those of the format. Nothing here keeps a state.
#![tactic(auto)]

mod command;
mod id;
mod keyword;
mod parts;
mod reply;
mod words;

pub use command::{CmdError, Command, Part};
pub use id::{IdError, MsgId};
pub use reply::{ITEM_ROOM, REPLY_ROOM, Reply, put_reply, reply_bytes};
