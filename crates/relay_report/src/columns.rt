//! Names and numbers in columns.
ghost use Rattle.std.specs.Prelude.{◌≡◌, ◌++◌, OnOk, decimal};
ghost use Rattle.relay_report.specs.Text.{left_in, numbers_line, right_in, spaces};

use itoa::Buffer;
use std::alloc::AllocError;

/// Puts a name left into so many places behind what is there; a longer one stands in full.
pub(crate) fn put_name(text: &mut Vec<u8>, name: &[u8], places: usize) -> Result<(), AllocError>
    ensures { OnOk result (text.new.items ≡ text.old.items ++ left_in places name.now) }
{
    text.extend_from_slice(name)?;
    put_spaces(text, places.saturating_sub(name.len()))
}

/// Puts numbers in decimal behind what is there, each right into so many places, and ends the line;
/// one that is longer stands in full.
pub(crate) fn put_numbers(text: &mut Vec<u8>, columns: &[(u128, usize)]) -> Result<(), AllocError>
    ensures { OnOk result (text.new.items
        ≡ text.old.items ++ numbers_line columns.now) }
{
    for column in columns {
        put_number(text, column.0, column.1)?;
    }
    text.extend_from_slice(b"\n")
}

/// Puts a number in decimal right into so many places behind what is there.
fn put_number(text: &mut Vec<u8>, number: u128, places: usize) -> Result<(), AllocError>
    ensures { OnOk result (text.new.items ≡ text.old.items ++ right_in places (decimal number)) }
{
    let mut buffer = Buffer::new();
    let digits = buffer.format(number).as_bytes();
    put_spaces(text, places.saturating_sub(digits.len()))?;
    text.extend_from_slice(digits)
}

/// Puts so many spaces behind what is there.
fn put_spaces(text: &mut Vec<u8>, count: usize) -> Result<(), AllocError>
    ensures { OnOk result (text.new.items ≡ text.old.items ++ spaces count) }
{
    for _ in 0..count {
        text.push(b' ')?;
    }
    Ok(())
}
