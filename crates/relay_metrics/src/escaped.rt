//! The value of a label, as it stands between its quotes.
ghost use Rattle.std.specs.Prelude.{◌≡◌, ◌++◌, OnOk};
ghost use Rattle.relay_metrics.specs.Labels.{escaped, escaped_octet};

use std::alloc::AllocError;

/// Puts a label's value behind what is there, as it stands between quotes.
pub(crate) fn put_escaped(text: &mut Vec<u8>, value: &[u8]) -> Result<(), AllocError>
    ensures { OnOk result (text.new.items ≡ text.old.items ++ escaped value.now) }
{
    for octet in value {
        put_octet(text, *octet)?;
    }
    Ok(())
}

/// Puts an octet of such a value.
fn put_octet(text: &mut Vec<u8>, octet: u8) -> Result<(), AllocError>
    ensures { OnOk result (text.new.items ≡ text.old.items ++ escaped_octet octet) }
{
    match octet {
        b'\\' => text.extend_from_slice(b"\\\\"),
        b'"' => text.extend_from_slice(b"\\\""),
        b'\n' => text.extend_from_slice(b"\\n"),
        _ => {
            text.push(octet)?;
            Ok(())
        }
    }
}
