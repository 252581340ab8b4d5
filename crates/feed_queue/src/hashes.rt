//! The part of the articles that a hash feed may have (INN's newsfeeds(5), flag Q).
ghost use Rattle.std.specs.Prelude.{◌≡◌, ◌≤◌, ◌+◌, ◌%◌, ◌&&◌, nat_le, option_map, IfSome};
ghost use Rattle.relay_model.specs.HashFeeds.{in_hash_feed};
ghost use Rattle.relay_model.specs.HashFeeds as terms;
ghost use Rattle.feed_queue.specs.Permission.{hash_view};

use md5::{Digest, Md5};
use relay_conf::HashFeed;

/// Whether a message-id falls in the part; in each where none is set. `hash` is the hash of the
/// message-id from the first part on that is asked for.
pub(crate) fn falls_in(part: Option<HashFeed>, id: &[u8], hash: &mut Option<u32>) -> bool
    requires known { IfSome hash.old (λ number. number ≡ terms.hash_of id.now) }
    ensures falls { result ≡ in_hash_feed (option_map hash_view part) id.now }
    ensures known { IfSome hash.new (λ number. number ≡ terms.hash_of id.now) }
{
    match part {
        Some(part) => has_place(part, place_of(known_hash(id, hash), part.parts)),
        None => true,
    }
}

/// Whether the part has the place.
fn has_place(part: HashFeed, place: u64) -> bool
    ensures { result ≡ nat_le part.first place && nat_le place part.last }
{
    u64::from(part.first) <= place && place <= u64::from(part.last)
}

/// The place among so many of a message-id of this hash, from 1 on.
fn place_of(hash: u32, parts: u32) -> u64
    requires { 1 ≤ parts }
    ensures { result ≡ hash % parts + 1 }
{
    u64::from(hash % parts) + 1
}

/// The hash of a message-id, which is made where it isn't known.
fn known_hash(id: &[u8], hash: &mut Option<u32>) -> u32
    requires known { IfSome hash.old (λ number. number ≡ terms.hash_of id.now) }
    ensures hash { result ≡ terms.hash_of id.now }
    ensures known { IfSome hash.new (λ number. number ≡ terms.hash_of id.now) }
{
    match *hash {
        Some(number) => number,
        None => {
            let number = hash_of(id);
            *hash = Some(number);
            number
        }
    }
}

/// The last four octets of the MD5 digest of a message-id, as a number (highest octet first).
fn hash_of(id: &[u8]) -> u32
    ensures { result ≡ terms.hash_of id.now }
{
    let digest = Md5::digest(id);
    u32::from_be_bytes([digest[12], digest[13], digest[14], digest[15]])
}
