//! Whether a group of buffers has room for an article.
ghost use Rattle.std.specs.Prelude.{◌≡◌, nat_le, filter_map, slice_get};
ghost use Rattle.std.specs.List.{list_all};
ghost use Rattle.news_terms.specs.Places.{size_of};
ghost use Rattle.relay_conf.specs.Places.{numbered_buffers};
ghost use Rattle.relay_conf.specs.Settings.{places_of_groups};
ghost use Rattle.relay_model.specs.Judging.{fits};

use relay_conf::{BufferConf, Buffers};

/// The octets of an article that one block has room for (docs/FORMATS.md, Blocks on the device).
const CHUNK: u64 = 480;

/// Whether each buffer of the group of this number has room for so many octets; none has where
/// there is no such group. It takes no memory.
pub(crate) fn has_room(settings: &Buffers, group: usize, octets: u64) -> bool
    ensures { result ≡ fits (slice_get (places_of_groups settings.now) group) (size_of octets) }
{
    match settings.groups.get(group) {
        Some(group) => have_room(&settings.buffers, &group.buffers, blocks_of(octets)),
        None => false,
    }
}

/// The blocks that an article of so many octets takes.
fn blocks_of(octets: u64) -> u64
    ensures { result ≡ size_of octets }
{
    octets.div_ceil(CHUNK)
}

/// Whether those of the buffers that have these numbers have so many blocks.
fn have_room(all: &[BufferConf], numbers: &[usize], blocks: u64) -> bool
    ensures { result ≡ list_all (λ buffer. nat_le blocks buffer.blocks)
        (filter_map (slice_get (numbered_buffers all.now)) numbers.now) }
{
    for number in numbers {
        let Some(buffer) = all.get(*number) else {
            continue;
        };
        if blocks > u64::from(buffer.blocks) {
            return false;
        }
    }
    true
}
