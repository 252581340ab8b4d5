//! The sockets on which a port listens.
ghost use Rattle.std.specs.Prelude.{◌≡◌, ◌≤◌, length, IfOk};

use crate::line::is_wait;
use libc::net::{POLLIN, poll};
use libc::types::pollfd;
use std::alloc::Global;
use std::io;
use std::io::ErrorKind;
use std::net::{Ipv6Addr, Net, SocketAddr, TcpListener, TcpStream};
use std::os::fd::AsRawFd;
use std::sync::atomic::{AtomicUsize, Ordering};

/// The sockets of a port, one for each address on which it listens.
pub(crate) struct Listeners {
    sockets: Vec<TcpListener>,
    /// Which of them is asked first for the next connection, so that none is asked last for good.
    turn: AtomicUsize,
    alloc: Global,
}

// Written out, so that no crate above proves anew how each part is let go.
impl Drop for Listeners {
    fn drop(self) {
        let Listeners {
            sockets: _,
            turn: _,
            alloc: _,
        } = self;
    }
}

impl Listeners {
    /// Listens on this port of each of these addresses, sixteen octets each. The error is the
    /// system's, or want of memory.
    pub(crate) fn bind<N: Net<Listener = TcpListener, Stream = TcpStream>>(
        net: &N,
        alloc: Global,
        addresses: &[[u8; 16]],
        port: u16,
    ) -> io::Result<Listeners>
        ensures { IfOk result (λ listeners.
            length listeners.sockets.items ≡ length addresses.now) }
    {
        let mut sockets = Vec::new(alloc);
        for address in addresses {
            sockets.push(bind_one(net, *address, port)?)?;
        }
        Ok(Listeners::of(alloc, sockets))
    }

    /// The same sockets for a further end. The error is the system's, or want of memory.
    pub(crate) fn try_clone(&self) -> io::Result<Listeners>
        ensures { IfOk result (λ listeners.
            length listeners.sockets.items ≡ length self.now.sockets.items) }
    {
        let mut sockets = Vec::new(self.alloc);
        for socket in &self.sockets {
            sockets.push(socket.try_clone()?)?;
        }
        Ok(Listeners::of(self.alloc, sockets))
    }

    /// These sockets, of which the first is asked first.
    fn of(alloc: Global, sockets: Vec<TcpListener>) -> Listeners
        ensures { result.sockets ≡ sockets }
    {
        Listeners {
            sockets,
            turn: AtomicUsize::new(0),
            alloc,
        }
    }

    /// Whether a connection has come, once one has or so many milliseconds have passed. The error
    /// is that the wait failed, or want of memory.
    pub(crate) fn has_one(&self, milliseconds: i32) -> io::Result<bool> {
        let mut watched = Vec::new(self.alloc);
        for socket in &self.sockets {
            watched.push(pollfd {
                fd: socket.as_raw_fd(),
                events: POLLIN,
                revents: 0,
            })?;
        }
        let count = poll(&mut watched, milliseconds);
        if count < 0 {
            return Err(io::Error::from(ErrorKind::Interrupted));
        }
        Ok(count > 0)
    }

    /// A connection that has come, and the address that it comes from. Each socket is asked, the
    /// one behind the last that gave one first. The error of a socket where none has come is
    /// WouldBlock.
    pub(crate) fn accept(&self) -> io::Result<(TcpStream, Ipv6Addr)> {
        match self.accept_from(self.turn.load(Ordering::SeqCst)) {
            Err(error) if is_wait(&error) => self.accept_from(0),
            taken => taken,
        }
    }

    /// The same, of the sockets from this one on.
    fn accept_from(&self, first: usize) -> io::Result<(TcpStream, Ipv6Addr)> {
        for at in first..self.sockets.len() {
            match self.sockets[at].accept() {
                Ok((stream, address)) => {
                    self.turn.store(at + 1, Ordering::SeqCst);
                    return Ok((stream, origin(address)));
                }
                Err(error) if is_wait(&error) => {}
                Err(error) => return Err(error),
            }
        }
        Err(io::Error::from(ErrorKind::WouldBlock))
    }

    /// The number of the port, where the system chose it.
    pub(crate) fn number(&self) -> io::Result<u16> {
        match self.sockets.first() {
            Some(socket) => Ok(socket.local_addr()?.port()),
            None => Err(io::Error::from(ErrorKind::NotFound)),
        }
    }
}

/// Listens on this port of one address.
fn bind_one<N: Net<Listener = TcpListener, Stream = TcpStream>>(
    net: &N,
    address: [u8; 16],
    port: u16,
) -> io::Result<TcpListener> {
    let address = Ipv6Addr::from_octets(address).to_canonical();
    let socket = TcpListener::bind(net, SocketAddr::from((address, port)))?;
    // Of several ends behind it that find the same connection one gets it.
    socket.set_nonblocking(true)?;
    Ok(socket)
}

/// The address that a connection comes from; one of IPv4 is the IPv6 address that stands for it
/// (RFC 4291 section 2.5.5.2), as it is where a socket of IPv6 takes it.
fn origin(address: SocketAddr) -> Ipv6Addr {
    match address {
        SocketAddr::V4(address) => address.ip().to_ipv6_mapped(),
        SocketAddr::V6(address) => *address.ip(),
    }
}
