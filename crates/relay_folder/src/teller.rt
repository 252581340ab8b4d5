//! Whoever asked a relay.
use std::io::Write;
use std::os::unix::net::UnixStream;
use std::time::{Clock, Duration, Instant};

/// How many octets he is told at once, at most.
const PIECE: usize = 16_384;

/// How many milliseconds it waits at once until he takes what he is told.
const HIS_PART: u64 = 250;

/// For how many seconds he is told, at most.
const TELLING: u64 = 1;

/// Whoever asked. He hears the end of what he is told once this is let go.
pub struct Teller {
    stream: UnixStream,
}

// Written out, so that no crate above proves anew how each part is let go.
impl Drop for Teller {
    fn drop(self) {
        let Teller { stream: _ } = self;
    }
}

impl Teller {
    /// Whoever asked over this connection.
    pub(crate) fn new(stream: UnixStream) -> Teller {
        Teller { stream }
    }

    /// Whoever asked over this connection, on which nothing was waited for; nobody where it can't
    /// be bounded how long he is waited for.
    pub(crate) fn of_asker(stream: UnixStream) -> Option<Teller> {
        let part = Some(Duration::from_millis(HIS_PART));
        if stream.set_nonblocking(false).is_err() || stream.set_write_timeout(part).is_err() {
            return None;
        }
        Some(Teller { stream })
    }

    /// Tells him this, at most for some seconds: where he is gone, or reads too slowly, the rest is
    /// not told.
    pub fn tell<C: Clock>(&self, clock: &C, octets: &[u8]) {
        let Ok(begun) = Instant::now(clock) else {
            return;
        };
        for piece in octets.chunks(PIECE) {
            let mut stream = &self.stream;
            if stream.write_all(piece).is_err() {
                return;
            }
            match begun.elapsed(clock) {
                Ok(passed) => {
                    if passed.as_secs() >= TELLING {
                        return;
                    }
                }
                Err(_) => return,
            }
        }
    }
}
