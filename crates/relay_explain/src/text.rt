//! The text that is told, and its lines.
ghost use Rattle.std.specs.Prelude.{◌≡◌, ◌++◌, ℕ, List, [], decimal, map, true, IfOk, Some};
ghost use Rattle.std.specs.Option.{option_copied};
ghost use Rattle.relay_explain.specs.Lines.{joined, line_head, odd_line, shared_line, told_line};
ghost use Rattle.relay_explain.specs.Text.{Adds};

use itoa::Buffer;
use std::alloc::{AllocError, Global};
use std::marker::Model;

/// A text that is put together. That memory ran out is noted, and told at the end: so what puts
/// something gives the text again and no error, and nothing has to be looked at in between. A
/// contract sees what is there, or that memory ran out.
#[derive(Drop)]
pub(crate) struct Text {
    octets: Vec<u8>,
    done: Result<(), AllocError>,
}

impl Model for Text {
    ghost use Rattle.std.specs.Prelude.{ℕ, is_ok, List, None, Option, Some};
    ghost use Rattle.std.specs.Prelude.{if◌then◌else◌};

    ghost Value = { Option (List ℕ) };

    ghost view = { λ text. if is_ok text.done then Some text.octets.items else None };
}

impl Text {
    /// Nothing is put.
    pub(crate) fn new(alloc: Global) -> Text
        ensures { result ≡ Some [] }
    {
        Text {
            octets: Vec::new(alloc),
            done: Ok(()),
        }
    }

    /// Puts octets behind what is there.
    pub(crate) fn add(mut self, octets: &[u8]) -> Text
        ensures { Adds self result octets.now }
    {
        if self.done.is_ok() {
            self.done = self.octets.extend_from_slice(octets);
        }
        self
    }

    /// Puts a number behind what is there.
    pub(crate) fn add_number(self, number: u128) -> Text
        ensures { Adds self result (decimal number) }
    {
        let mut digits = Buffer::new();
        self.add(digits.format(number).as_bytes())
    }

    /// Notes that memory ran out before something could be put.
    pub(crate) fn fail(mut self, error: AllocError) -> Text
        ensures { (more : List ℕ) → Adds self result more }
    {
        self.done = Err(error);
        self
    }

    /// What is there, where memory didn't run out.
    pub(crate) fn whole(self) -> Result<Vec<u8>, AllocError>
        ensures { IfOk result (λ whole. self ≡ Some whole.items) }
    {
        self.done?;
        Ok(self.octets)
    }
}

/// Puts these texts behind what is there, in their order.
pub(crate) fn put(mut text: Text, parts: &[&[u8]]) -> Text
    ensures { Adds text result (joined (map (λ part. part.now) parts.now)) }
{
    for part in parts {
        text = text.add(part);
    }
    text
}

/// Puts what a line is begun with that tells of a line of a file.
pub(crate) fn begin_line(text: Text, file: &[u8], line: usize) -> Text
    ensures { Adds text result (line_head file.now line) }
{
    text.add(file).add(b":").add_number(line as u128).add(b": ")
}

/// Puts what is told of what a line of a file says.
#[tactic(auto, unfolding(crate::specs::Lines::told_line))]
pub(crate) fn put_line(text: Text, file: &[u8], line: usize, told: &[&[u8]]) -> Text
    ensures { Adds text result
        (told_line file.now line (joined (map (λ part. part.now) told.now))) }
{
    let text = begin_line(text, file, line);
    put(text, told).add(b"\n")
}

/// Puts what is odd in what a line of a file says, where that is so.
#[tactic(auto, unfolding(crate::specs::Lines::odd_line))]
pub(crate) fn put_odd(text: Text, is_odd: bool, file: &[u8], line: usize, told: &[u8]) -> Text
    ensures { Adds text result (odd_line is_odd file.now line told.now) }
{
    if !is_odd {
        return text;
    }
    put_line(text, file, line, &[b"odd: ", told])
}

/// Puts what is odd in what a line of a file says, with a number in it.
#[tactic(auto, unfolding(crate::specs::Lines::odd_line, crate::specs::Lines::told_line))]
pub(crate) fn put_odd_number(
    text: Text,
    file: &[u8],
    line: usize,
    before: &[u8],
    number: u128,
    after: &[u8],
) -> Text
    ensures { Adds text result
        (odd_line true file.now line (before.now ++ decimal number ++ after.now)) }
{
    begin_line(text, file, line)
        .add(b"odd: ")
        .add(before)
        .add_number(number)
        .add(after)
        .add(b"\n")
}

/// Puts what is odd where an earlier one, of this name, has the same.
#[tactic(auto, unfolding(crate::specs::Lines::shared_line))]
pub(crate) fn put_shared(
    text: Text,
    file: &[u8],
    line: usize,
    shared: &[u8],
    name: Option<&[u8]>,
) -> Text
    ensures { Adds text result
        (shared_line file.now line shared.now (option_copied name.entry)) }
{
    match name {
        None => text,
        Some(name) => put_line(text, file, line, &[b"odd: ", shared, name]),
    }
}
