//! Numbers in the octets of a block.
ghost use Rattle.std.specs.Prelude.{◌≡◌, ◌≤◌, ◌+◌, ◌∷◌, [], get_or};
ghost use Rattle.std.specs.Int.{from_be_bytes, w32, w64};
ghost use Rattle.cyc_block.specs.declared.TheConstants.{BLOCK_OCTETS};

use crate::BLOCK_OCTETS;

/// The number that the four octets from one on say.
pub(crate) fn number32(image: &[u8; BLOCK_OCTETS], at: usize) -> u32
    requires { at + 4 ≤ BLOCK_OCTETS }
    ensures { result ≡ from_be_bytes w32 (get_or image.now at 0 ∷ get_or image.now (at + 1) 0
        ∷ get_or image.now (at + 2) 0 ∷ get_or image.now (at + 3) 0 ∷ []) }
{
    u32::from_be_bytes([image[at], image[at + 1], image[at + 2], image[at + 3]])
}

/// The number that the eight octets from one on say.
pub(crate) fn number64(image: &[u8; BLOCK_OCTETS], at: usize) -> u64
    requires { at + 8 ≤ BLOCK_OCTETS }
    ensures { result ≡ from_be_bytes w64 (get_or image.now at 0 ∷ get_or image.now (at + 1) 0
        ∷ get_or image.now (at + 2) 0 ∷ get_or image.now (at + 3) 0
        ∷ get_or image.now (at + 4) 0 ∷ get_or image.now (at + 5) 0
        ∷ get_or image.now (at + 6) 0 ∷ get_or image.now (at + 7) 0 ∷ []) }
{
    u64::from_be_bytes([
        image[at],
        image[at + 1],
        image[at + 2],
        image[at + 3],
        image[at + 4],
        image[at + 5],
        image[at + 6],
        image[at + 7],
    ])
}
