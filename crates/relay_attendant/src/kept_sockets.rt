//! Listening sockets that stay open from one life of a relay to the next.
use std::alloc::Global;
use std::io;
use std::net::{Net, SocketAddr, TcpListener, TcpStream};
use std::sync::{Mutex, Wait};

/// A socket that listens, and which port may have.
#[derive(Drop)]
struct KeptSocket {
    address: SocketAddr,
    socket: TcpListener,
    /// Whether a port of this life has it.
    is_had: bool,
}

/// The sockets on which the ports of a relay listen. While the relay ends and begins again each
/// stays open, so that whoever connects meanwhile waits.
pub struct KeptSockets {
    alloc: Global,
    sockets: Mutex<Vec<KeptSocket>>,
}

// Written out, so that no crate above proves anew how each part is let go.
impl Drop for KeptSockets {
    fn drop(self) {
        let KeptSockets {
            alloc: _,
            sockets: _,
        } = self;
    }
}

impl KeptSockets {
    /// None yet.
    pub fn new(alloc: Global) -> KeptSockets {
        KeptSockets {
            alloc,
            sockets: Mutex::new(Vec::new(alloc)),
        }
    }

    /// A life begins: none of its ports has a socket yet.
    pub fn begin<R: Wait>(&self, rt: &R) {
        let mut sockets = self.sockets.lock(rt);
        for kept in sockets.iter_mut() {
            kept.is_had = false;
        }
    }

    /// A socket that listens at this address: one that was kept and that no other port of this life
    /// has, or a new one, which is kept. The error is the system's, or want of memory.
    fn listen<R>(&self, rt: &R, address: SocketAddr) -> io::Result<TcpListener>
    where
        R: Wait + Net<Listener = TcpListener, Stream = TcpStream>,
    {
        let mut sockets = self.sockets.lock(rt);
        for kept in sockets.iter_mut() {
            if !kept.is_had && kept.address == address {
                let socket = kept.socket.try_clone()?;
                kept.is_had = true;
                return Ok(socket);
            }
        }
        let socket = TcpListener::bind(rt, address)?;
        let own = socket.try_clone()?;
        sockets.push(KeptSocket {
            address,
            socket,
            is_had: true,
        })?;
        Ok(own)
    }

    /// Closes those that no port of this life has.
    pub(crate) fn close_others<R: Wait>(&self, rt: &R) {
        self.sockets.lock(rt).retain(|kept| kept.is_had);
    }
}

/// The network, of which each listening socket is kept.
#[derive(Drop)]
pub struct KeepingNet<'a, R> {
    rt: &'a R,
    kept: &'a KeptSockets,
}

impl<'a, R> KeepingNet<'a, R> {
    /// The same network, of which these have the sockets.
    pub fn new(rt: &'a R, kept: &'a KeptSockets) -> KeepingNet<'a, R> {
        KeepingNet { rt, kept }
    }
}

impl<R> Net for KeepingNet<'_, R>
where
    R: Wait + Net<Listener = TcpListener, Stream = TcpStream>,
{
    type Stream = TcpStream;

    type Listener = TcpListener;

    fn bind(&self, address: SocketAddr) -> io::Result<TcpListener> {
        self.kept.listen(self.rt, address)
    }

    fn connect(&self, address: SocketAddr) -> io::Result<TcpStream> {
        TcpStream::connect(self.rt, address)
    }
}
