//! Where the files of a configuration say what they say.
ghost use Rattle.std.specs.Prelude.{◌≡◌, map};
ghost use Rattle.relay_explain.specs.Lines.{begins, begins_with, parts_in, words_in};
ghost use Rattle.relay_explain.specs.Lines as terms;

use line_words::{Between, cut, first_word, is, trim};

/// The line of cycbuff.conf that says a buffer or a group, by its name.
pub(crate) fn named_line(lines: &[&[u8]], key: &[u8], name: &[u8]) -> usize
    ensures { result ≡ terms.named_line key.now name.now (map (λ line. line.now) lines.now) }
{
    for (at, line) in lines.iter().enumerate() {
        if has_parts(line, key, name) {
            return at + 1;
        }
    }
    lines.len() + 1
}

/// Whether the first two parts of a line are these.
fn has_parts(line: &[u8], key: &[u8], name: &[u8]) -> bool
    ensures { result ≡ begins_with key.now name.now (parts_in line.now) }
{
    let (first, rest) = cut(trim(line), b':');
    match rest {
        None => false,
        Some(rest) => {
            let (second, _) = cut(rest, b':');
            is(key, first) && is(name, second)
        }
    }
}

/// The line of relay.conf that says something of a peer, by its name.
pub(crate) fn peer_line(lines: &[&[u8]], key: &[u8], name: &[u8]) -> usize
    ensures { result ≡ terms.peer_line key.now name.now (map (λ line. line.now) lines.now) }
{
    for (at, line) in lines.iter().enumerate() {
        if has_words(line, key, name) {
            return at + 1;
        }
    }
    lines.len() + 1
}

/// Whether the first two words of a line are these.
pub(crate) fn has_words(line: &[u8], key: &[u8], name: &[u8]) -> bool
    ensures { result ≡ begins_with key.now name.now (words_in line.now) }
{
    let Some((first, rest)) = first_word(trim(line), Between::Spaces) else {
        return false;
    };
    match first_word(rest, Between::Spaces) {
        None => false,
        Some((second, _)) => is(key, first) && is(name, second),
    }
}

/// The line of relay.conf that says a setting of the relay itself.
pub(crate) fn key_line(lines: &[&[u8]], key: &[u8]) -> usize
    ensures { result ≡ terms.key_line key.now (map (λ line. line.now) lines.now) }
{
    for (at, line) in lines.iter().enumerate() {
        if has_word(line, key) {
            return at + 1;
        }
    }
    lines.len() + 1
}

/// Whether the first word of a line is this.
pub(crate) fn has_word(line: &[u8], key: &[u8]) -> bool
    ensures { result ≡ begins key.now (words_in line.now) }
{
    match first_word(trim(line), Between::Spaces) {
        None => false,
        Some((first, _)) => is(key, first),
    }
}

/// The line of a number from 0, empty where there is none.
pub(crate) fn line_at<'a>(lines: &[&'a [u8]], number: usize) -> &'a [u8]
    ensures { result.now ≡ terms.line_at number (map (λ line. line.now) lines.now) }
{
    match lines.get(number) {
        Some(line) => line,
        None => b"",
    }
}
