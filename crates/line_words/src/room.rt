//! Octets put into room that is there: nothing here takes memory.
ghost use Rattle.std.specs.Prelude.{◌≡◌, ◌+◌, ◌≤◌, ◌++◌, length, decimal, vec_len, vec_capacity};

use itoa::Buffer;
use std::mem;

/// Puts octets behind what the room has. The kit's bulk append doesn't say that the capacity stays,
/// so they are put one by one, into a `Vec` of this call's own while they are: the compiler knows
/// then that no octet is written over its length, and copies them at once.
pub fn put_octets(room: &mut Vec<u8>, octets: &[u8])
    requires { vec_len room.old + length octets.now ≤ vec_capacity room.old }
    ensures items { room.new.items ≡ room.old.items ++ octets.now }
    ensures len { vec_len room.new ≡ vec_len room.old + length octets.now }
    ensures capacity { vec_capacity room.new ≡ vec_capacity room.old }
{
    let empty = Vec::new(*room.allocator());
    let mut own = mem::replace(room, empty);
    for octet in octets {
        own.push_reserved(*octet);
    }
    *room = own;
}

/// Puts a number in decimal behind what the room has.
pub fn put_decimal(room: &mut Vec<u8>, number: u64)
    requires { vec_len room.old + length (decimal number) ≤ vec_capacity room.old }
    ensures items { room.new.items ≡ room.old.items ++ decimal number }
    ensures len { vec_len room.new ≡ vec_len room.old + length (decimal number) }
    ensures capacity { vec_capacity room.new ≡ vec_capacity room.old }
{
    let mut digits = Buffer::new();
    put_octets(room, digits.format(number).as_bytes());
}
