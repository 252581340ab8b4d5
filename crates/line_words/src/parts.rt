//! The parts of a text between octets of one value.
ghost use Rattle.std.specs.Prelude.{◌≡◌, ◌∷◌, option_map};
ghost use Rattle.std.specs.Option.{option_copied};
ghost use Rattle.line_words.specs.Parts.{parts, parts_after, one_of, two_of, three_of};

/// The octets before the first of this value, and what follows that one where it is there.
pub fn cut(text: &[u8], octet: u8) -> (&[u8], Option<&[u8]>)
    ensures { parts octet text.now ≡ result.0.now ∷ parts_after octet result.1 }
{
    match text.iter().position(|other| *other == octet) {
        Some(at) => (&text[..at], Some(&text[at + 1..])),
        None => (text, None),
    }
}

/// The one part of what follows such an octet, where it is just one.
pub fn one_part<'a>(rest: Option<&'a [u8]>, octet: u8) -> Option<&'a [u8]>
    ensures { option_copied result ≡ one_of (parts_after octet rest.entry) }
{
    match cut(rest?, octet) {
        (word, None) => Some(word),
        (_, Some(_)) => None,
    }
}

/// The two parts of what follows such an octet, where they are just two.
pub fn two_parts<'a>(rest: Option<&'a [u8]>, octet: u8) -> Option<(&'a [u8], &'a [u8])>
    ensures { option_map (λ two. (two.0.now, two.1.now)) result
        ≡ two_of (parts_after octet rest.entry) }
{
    let (first, rest) = cut(rest?, octet);
    Some((first, one_part(rest, octet)?))
}

/// The three parts of what follows such an octet, where they are just three.
pub fn three_parts<'a>(rest: Option<&'a [u8]>, octet: u8) -> Option<(&'a [u8], &'a [u8], &'a [u8])>
    ensures { option_map (λ three. (three.0.now, three.1.now, three.2.now)) result
        ≡ three_of (parts_after octet rest.entry) }
{
    let (first, rest) = cut(rest?, octet);
    let (second, third) = two_parts(rest, octet)?;
    Some((first, second, third))
}
