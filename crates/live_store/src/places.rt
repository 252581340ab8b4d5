//! Where a number's place is.
ghost use Rattle.std.specs.Prelude.{◌≡◌, ◌+◌, ◌*◌, ◌<◌, ◌^◌};
ghost use Rattle.live_store.specs.Places.{span, IsAt};

/// Octaves of buckets. Of each there are sixteen.
pub(crate) const OCTAVES: usize = 54;

/// Buckets of an octave.
pub(crate) const PARTS: usize = 16;

/// One past the highest number.
pub(crate) const LIMIT: usize = 0x7fff_ffff_ffff_fe00;

/// Where a place is: in a part of an octave, at a number there.
#[derive(Drop)]
pub(crate) struct At {
    pub(crate) octave: usize,
    pub(crate) part: usize,
    pub(crate) place: usize,
}

/// How many places a bucket of the octave has.
pub(crate) fn width(octave: usize) -> usize
    requires { octave < 54 }
    ensures places { result ≡ span octave }
    ensures few { 32 * result < 2 ^ 64 }
{
    32 << octave
}

/// Where the place of a number is.
pub(crate) fn locate(index: usize) -> At
    requires { index + 512 < 2 ^ 63 }
    ensures { IsAt index result.octave result.part result.place }
{
    let count = index + 512;
    let octave = count.ilog2() as usize - 9;
    let width = width(octave);
    At {
        octave,
        part: count / width - 16,
        place: count % width,
    }
}
