//! A name as text of a page.
ghost use Rattle.std.specs.Prelude.{◌≡◌, ◌++◌, OnOk};
ghost use Rattle.relay_page.specs.Text.{escaped, escaped_octet};

use std::alloc::AllocError;

/// Puts a name behind what is there, as text of a page.
pub(crate) fn put_escaped(text: &mut Vec<u8>, name: &[u8]) -> Result<(), AllocError>
    ensures { OnOk result (text.new.items ≡ text.old.items ++ escaped name.now) }
{
    for octet in name {
        put_octet(text, *octet)?;
    }
    Ok(())
}

/// Puts an octet of such a name.
fn put_octet(text: &mut Vec<u8>, octet: u8) -> Result<(), AllocError>
    ensures { OnOk result (text.new.items ≡ text.old.items ++ escaped_octet octet) }
{
    match octet {
        b'&' => text.extend_from_slice(b"&amp;"),
        b'<' => text.extend_from_slice(b"&lt;"),
        b'>' => text.extend_from_slice(b"&gt;"),
        b'"' => text.extend_from_slice(b"&quot;"),
        b'\'' => text.extend_from_slice(b"&#39;"),
        _ => {
            text.push(octet)?;
            Ok(())
        }
    }
}
