//! The check of an entry: FNV-1a of 32 bits, which is never 0 here.
ghost use Rattle.std.specs.Prelude.{◌≡◌};
ghost use Rattle.relay_log.specs.Check.{not_zero, sum_on, check};

/// The sum of no octets, as FNV-1a has it.
pub(crate) const BASIS: u32 = 0x811C_9DC5;

/// What the sum is multiplied by behind each octet, as FNV-1a has it.
const PRIME: u32 = 0x0100_0193;

/// The sum with these octets more.
pub(crate) fn sum_on(sum: u32, octets: &[u8]) -> u32
    ensures { result ≡ sum_on sum octets.now }
{
    let mut all = sum;
    for octet in octets {
        all = (all ^ u32::from(*octet)).wrapping_mul(PRIME);
    }
    all
}

/// The sum as a check, of which none is 0.
pub(crate) fn not_zero(sum: u32) -> u32
    ensures { result ≡ not_zero sum }
{
    if sum == 0 { 1 } else { sum }
}

/// The check of the octets.
#[tactic(auto, unfolding(crate::specs::Check::check))]
pub(crate) fn check(octets: &[u8]) -> u32
    ensures { result ≡ check octets.now }
{
    not_zero(sum_on(BASIS, octets))
}
