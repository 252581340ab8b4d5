//! What lies where the file of a buffer is to be.
ghost use Rattle.std.specs.Prelude.{◌≡◌, ◌++◌, ◌==◌, Some, codes};
ghost use Rattle.std.specs.List.{list_all};
ghost use Rattle.std.specs.Option.{option_copied};
ghost use Rattle.relay_explain.specs.Found.{cycbuff, device_told, found_text, odd_file};
ghost use Rattle.relay_explain.specs.Lines.{told_line};
ghost use Rattle.relay_explain.specs.Found as terms;
ghost use Rattle.relay_explain.specs.Text.{Adds};

use crate::text::{Text, begin_line, put_line};

/// The file in which buffers and groups are said.
pub(crate) const CYCBUFF: &[u8] = b"cycbuff.conf";

/// What lies where the file of a buffer is to be (docs/FORMATS.md, Blocks on the device).
#[derive(Clone, Copy)]
pub enum Found {
    /// A file that begins as one of this program, with a block or with zeros, or is empty.
    Fit,
    /// Nothing, in a folder that is there.
    Absent,
    /// Nothing, and its folder isn't there either.
    NoFolder,
    /// A buffer of INN.
    Inn,
    /// A file of something else.
    Other,
    /// A block device of so many octets, which begins as one of this program, or with zeros.
    Device(u64),
    /// A block device of so many octets, fewer than the buffer takes.
    SmallDevice(u64),
    /// A block device of so many octets, which begins with something else.
    OtherDevice(u64),
    /// Neither a regular file nor a block device, as a folder, a pipe or a terminal.
    NotRegular,
    /// What can't be looked at.
    Unseen,
}

/// What a file is that begins with these octets: the first 512, or all where it has fewer.
pub fn found_of(front: &[u8]) -> Found
    ensures { result ≡ terms.found_of front.now }
{
    if is_own(front) {
        Found::Fit
    } else if front.starts_with(b"CBuf") || front.starts_with(b"Cycbuff") {
        Found::Inn
    } else {
        Found::Other
    }
}

/// What a block device of so many octets is, for a buffer that takes so many, and that begins with
/// these octets. What another program keeps there may begin behind zeros.
pub fn found_device(octets: u64, size: u64, front: &[u8]) -> Found
    ensures { result ≡ terms.found_device octets size front.now }
{
    if octets < size {
        Found::SmallDevice(octets)
    } else if is_own(front) {
        Found::Device(octets)
    } else {
        Found::OtherDevice(octets)
    }
}

/// Whether a buffer of this program begins with these octets.
fn is_own(front: &[u8]) -> bool
    ensures { result ≡ terms.is_own front.now }
{
    front.starts_with(b"CNB1") || has_zeros_alone(front)
}

/// Whether each octet is zero.
fn has_zeros_alone(front: &[u8]) -> bool
    ensures { result ≡ list_all (λ c. c == 0) front.now }
{
    for octet in front {
        if *octet != 0 {
            return false;
        }
    }
    true
}

/// Puts what is told of the file of a buffer, which this line names, by what lies there.
#[tactic(auto, unfolding(crate::specs::Found::found_text))]
pub(crate) fn put_found(text: Text, line: usize, file: &[u8], found: Option<&Found>) -> Text
    ensures { Adds text result (found_text line file.now (option_copied found.entry)) }
{
    match found {
        None => text,
        Some(found) => put_lying(text, line, file, *found),
    }
}

/// Puts what is told of the file of a buffer, which this line names, where this lies there.
#[tactic(auto, unfolding(crate::specs::Found::found_text))]
fn put_lying(text: Text, line: usize, file: &[u8], found: Found) -> Text
    ensures { Adds text result (found_text line file.now (Some found)) }
{
    match found {
        Found::Fit => text,
        Found::Absent => {
            let told = b" isn't there: a start makes it".as_slice();
            put_line(text, CYCBUFF, line, &[b"file ", file, told])
        }
        Found::NoFolder => {
            put_odd_file(text, line, file, b" can't be made: its folder isn't there")
        }
        Found::Inn => put_odd_file(
            text,
            line,
            file,
            b" is a buffer of INN, over whose articles a start writes",
        ),
        Found::Other => put_odd_file(
            text,
            line,
            file,
            b" is no buffer of this program, and a start writes over it",
        ),
        Found::Device(octets) => put_device(text, line, file, octets, b" octets"),
        Found::SmallDevice(octets) => {
            put_odd_device(
                text,
                line,
                file,
                octets,
                b" octets, smaller than the buffer",
            )
        }
        Found::OtherDevice(octets) => put_odd_device(
            text,
            line,
            file,
            octets,
            b" octets with something else on it, which a start without --fresh refuses",
        ),
        Found::NotRegular => put_odd_file(text, line, file, b" is no regular file"),
        Found::Unseen => put_odd_file(text, line, file, b" can't be read"),
    }
}

/// Puts that the file of a buffer, which this line names, is a block device of so many octets.
#[tactic(auto, unfolding(crate::specs::Lines::told_line))]
fn put_device(text: Text, line: usize, file: &[u8], octets: u64, told: &[u8]) -> Text
    ensures { Adds text result (told_line cycbuff line
        (codes "file " ++ file.now ++ device_told octets told.now)) }
{
    begin_line(text, CYCBUFF, line)
        .add(b"file ")
        .add(file)
        .add(b" is a block device of ")
        .add_number(octets as u128)
        .add(told)
        .add(b"\n")
}

/// Puts what is odd of the file of a buffer, which this line names, and is a block device of so
/// many octets.
#[tactic(auto, unfolding(crate::specs::Lines::odd_line, crate::specs::Lines::told_line))]
fn put_odd_device(text: Text, line: usize, file: &[u8], octets: u64, told: &[u8]) -> Text
    ensures { Adds text result (odd_file line file.now (device_told octets told.now)) }
{
    begin_line(text, CYCBUFF, line)
        .add(b"odd: ")
        .add(b"file ")
        .add(file)
        .add(b" is a block device of ")
        .add_number(octets as u128)
        .add(told)
        .add(b"\n")
}

/// Puts what is odd of the file of a buffer, which this line names.
fn put_odd_file(text: Text, line: usize, file: &[u8], told: &[u8]) -> Text
    ensures { Adds text result (odd_file line file.now told.now) }
{
    put_line(text, CYCBUFF, line, &[b"odd: file ", file, told])
}
