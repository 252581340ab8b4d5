//! Shards before the first post.
ghost use Rattle.std.specs.Prelude.{◌≡◌, ◌≤◌, [], All, IfOk, length, map, vec_capacity};
ghost use Rattle.std.specs.List.{range_with_len};
ghost use Rattle.post_history.specs.Began.{TakeAll};
ghost use Rattle.post_history.specs.Shards.{shards_in};

use crate::book::Naming;
use crate::desk::DeskPosts;
use crate::remembering::RememberingShard;
use id_history::Shard;
use std::alloc::{AllocError, Global};

/// The shards, which have the ids that the relay began with, each with the number of its place and
/// room for the fronts of so many buffers, before the first post.
pub fn remember_all<J: Naming>(
    alloc: Global,
    shards: Vec<Shard>,
    desk: &DeskPosts<J>,
    buffers: usize,
) -> Result<Vec<RememberingShard<J>>, AllocError>
    requires none { desk.now.all.history ≡ [] }
    requires take { TakeAll J.began shards.items }
    ensures shards { IfOk result (λ remembering. shards_in remembering.items ≡ shards.items) }
    ensures numbers { IfOk result (λ remembering. map (λ one. one.posts.number) remembering.items
        ≡ range_with_len 0 (length shards.items)) }
    ensures room { IfOk result (λ remembering.
        All (λ one. buffers ≤ vec_capacity one.posts.used) remembering.items) }
{
    let mut remembering = Vec::with_capacity(alloc, shards.len())?;
    for shard in shards {
        let number = remembering.len() as u64;
        let history = desk.all.history.again();
        let one = RememberingShard::over(alloc, number, shard, history, buffers)?;
        remembering.push_reserved(one);
    }
    Ok(remembering)
}
