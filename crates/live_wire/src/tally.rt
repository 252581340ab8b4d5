//! What a session said and read, in numbers.
ghost use Rattle.std.specs.Prelude.{◌≡◌, ◌||◌, take};
ghost use Rattle.std.specs.Str.{bytes_eq};
ghost use Rattle.live_wire.specs.Tally.{after_octets, after_reply, no_tally, tally_sum, worth_of};

/// How many replies of each kind a session said, and how many octets it read. Each number counts
/// modulo 2^64.
#[derive(Clone, Copy)]
pub struct Tally {
    /// Articles that were taken: 239, 235.
    pub accepted: u64,
    /// Articles that were there, when they were offered (438, 435) or sent (439, 437).
    pub known: u64,
    /// Articles that were refused: 439, 437 otherwise.
    pub refused: u64,
    /// Articles that are to be offered later: 431, 436.
    pub later: u64,
    /// Octets that were read.
    pub octets: u64,
}

impl Tally {
    /// Of a session that said and read nothing.
    pub fn none() -> Tally
        ensures { result ≡ no_tally }
    {
        Tally {
            accepted: 0,
            known: 0,
            refused: 0,
            later: 0,
            octets: 0,
        }
    }

    /// Counts a reply by its code (RFC 4644 section 2, RFC 3977 section 6.3.2), but one to an
    /// article that was known when it was sent, whatever its code.
    pub fn add_reply(&mut self, said: &[u8], was_known: bool)
        ensures { self.new ≡ after_reply was_known said.now self.old }
    {
        if was_known {
            self.known = self.known.wrapping_add(1);
            return;
        }
        let code = &said[..said.len().min(3)];
        self.accepted = self.accepted.wrapping_add(worth(code, b"239", b"235"));
        self.known = self.known.wrapping_add(worth(code, b"438", b"435"));
        self.refused = self.refused.wrapping_add(worth(code, b"439", b"437"));
        self.later = self.later.wrapping_add(worth(code, b"431", b"436"));
    }

    /// Counts octets that were read.
    pub fn add_octets(&mut self, octets: usize)
        ensures { self.new ≡ after_octets octets self.old }
    {
        self.octets = self.octets.wrapping_add(octets as u64);
    }

    /// Counts what another one has counted.
    pub fn add(&mut self, more: &Tally)
        ensures { self.new ≡ tally_sum self.old more.now }
    {
        self.accepted = self.accepted.wrapping_add(more.accepted);
        self.known = self.known.wrapping_add(more.known);
        self.refused = self.refused.wrapping_add(more.refused);
        self.later = self.later.wrapping_add(more.later);
        self.octets = self.octets.wrapping_add(more.octets);
    }
}

/// A reply of one of two codes counts as one.
fn worth(code: &[u8], one: &[u8], other: &[u8]) -> u64
    ensures { result ≡ worth_of code.now one.now other.now }
{
    if code == one || code == other { 1 } else { 0 }
}
