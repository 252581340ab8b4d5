//! The connections that an end serves.
ghost use Rattle.std.specs.Prelude.{◌≡◌, [], IfSome};

use crate::wire::{Hears, Says};
use std::net::Ipv6Addr;

/// The connections of an end, one after the other.
pub trait Connections<R> {
    type Reader: Hears + Drop;

    type Writer: Says + Drop;

    /// The next connection: its reader, from which nothing was read, and its writer, to which
    /// nothing was written. It waits until there is one; `None` where none comes any more.
    fn next_one(&mut self, rt: &R) -> Option<(Self::Reader, Self::Writer)>
        ensures { IfSome result (λ pair. (Self.Reader.heard pair.0 ≡ [])
            × (Self.Writer.said pair.1 ≡ [])) };

    /// The address that a connection comes from.
    fn caller(&self, reader: &Self::Reader) -> Ipv6Addr;

    /// Lets go of a connection whose session has ended, in an order in which its last reply
    /// arrives.
    fn let_go(&mut self, _rt: &R, _reader: Self::Reader, _writer: Self::Writer) {}

    /// Is told that these connections won't be served, since a thread couldn't be started.
    fn give_up(&mut self, _rt: &R) {}
}
