//! A bar: how much one number is of another.
ghost use Rattle.std.specs.Prelude.{◌≡◌, ◌++◌, OnOk, decimal};
ghost use Rattle.relay_metrics.specs.Lines.{line_view};
ghost use Rattle.relay_page.specs.Bars.{bar_text};
ghost use Rattle.relay_page.specs.Bars as terms;

use itoa::Buffer;
use line_words::number_within;
use relay_metrics::Line;
use std::alloc::AllocError;

/// How many hundredths of a whole a part is, cut to a number, and no more than all of them; none of
/// a whole that is 0.
pub(crate) fn hundredths(part: u64, whole: u64) -> Option<u64>
    ensures { result ≡ terms.hundredths part whole }
{
    if whole == 0 {
        return None;
    }
    if whole <= part {
        return Some(100);
    }
    Some((u128::from(part) * 100 / u128::from(whole)) as u64)
}

/// The number at this place of a line, where it is below 2^64.
pub(crate) fn number_at(line: &Line<'_>, place: usize) -> Option<u64>
    ensures { result ≡ terms.number_at (line_view line.now) place }
{
    match line.numbers.get(place) {
        Some(number) => number_within(0, u64::MAX, number),
        None => None,
    }
}

/// Puts a bar of so many hundredths, where there are some.
pub(crate) fn put_bar(text: &mut Vec<u8>, hundredths: Option<u64>) -> Result<(), AllocError>
    ensures { OnOk result (text.new.items ≡ text.old.items ++ bar_text hundredths) }
{
    match hundredths {
        None => Ok(()),
        Some(hundredths) => put_box(text, hundredths),
    }
}

/// Puts the box of a bar, and in it one that is so many hundredths as wide.
fn put_box(text: &mut Vec<u8>, hundredths: u64) -> Result<(), AllocError>
    ensures { OnOk result (text.new.items ≡ text.old.items ++ terms.box_text hundredths) }
{
    text.extend_from_slice(b"<div class=\"bar\"><div style=\"width:")?;
    put_number(text, hundredths)?;
    text.extend_from_slice(b"%\"></div></div>\n")
}

/// Puts a number.
pub(crate) fn put_number(text: &mut Vec<u8>, number: u64) -> Result<(), AllocError>
    ensures { OnOk result (text.new.items ≡ text.old.items ++ decimal number) }
{
    let mut digits = Buffer::new();
    text.extend_from_slice(digits.format(number).as_bytes())
}
