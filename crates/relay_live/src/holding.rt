//! Which buffers a group has.
ghost use Rattle.std.specs.Prelude.{◌≡◌};
ghost use Rattle.relay_live.specs.Holding as words;

use relay_conf::Buffers;

/// Whether the group of this number has the buffer of this number.
pub(crate) fn has_buffer(settings: &Buffers, group: u16, buffer: u8) -> bool
    ensures { result ≡ words.has_buffer settings.now group buffer }
{
    match settings.groups.get(usize::from(group)) {
        Some(conf) => conf.buffers.contains(&usize::from(buffer)),
        None => false,
    }
}
