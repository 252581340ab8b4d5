//! One history of the posts of a relay, for contracts alone: the desk under its lock knows all of
//! it, and each shard under its own lock a beginning, in which all posts of its ids stand.
//!
//! A post goes behind all others while both locks are held, where desk and shard have as many posts
//! of the shard's ids. So a shard whose count is the desk's knows all of them, and by what it
//! remembers no two of these are of one message-id, but where it may have forgotten the first.
#![tactic(auto)]

mod audit;
mod book;
mod desk;
pub mod laws;
mod making;
mod passing;
mod post;
mod remembering;

pub use audit::all_once;
pub use book::{Naming, Opened, PostBook, PostHistory};
pub use desk::{AllPosts, DeskPosts, ShardPosts, Unposted};
pub use making::remember_all;
pub use passing::{are_in_order, are_later};
pub use post::Post;
pub use remembering::RememberingShard;
