ghost use Rattle.std.specs.Prelude.{◌≡◌, ◌↔◌, None, Some, length, is_some, IfOk, IfErr};
ghost use Rattle.std.specs.Prelude.{IfSome, IsErrOf};
ghost use Rattle.std.specs.Char.{is_ascii_lowercase};
ghost use Rattle.std.specs.List.{flat_map, list_all, list_any};
ghost use Rattle.hex.specs.Hex.{decode_pairs, is_hex_digit};
ghost use Rattle.news_terms.specs.Token.{IsToken, token_text, token_octets, octet_digits};
ghost use Rattle.cyc_token.specs.Faults.{token_fault, digits_of};
ghost use Rattle.cyc_token.specs.Faults.{HasOtherLength, LacksMarks, HasOtherDigit, HasLowerCase};
ghost use Rattle.cyc_token.specs.Token.{token_view};
ghost use Rattle.cyc_token.specs.declared.Token.{Token};

use crate::Token;

/// The octets of a token's text: `@`, two digits for each octet of its parts, `@`.
const TEXT_OCTETS: usize = 30;

/// The octets of a token's parts, high first.
const PART_OCTETS: usize = 14;

/// Why a text is no token's, in the order of trial (docs/FORMATS.md, Tokens).
#[derive(Clone, Copy)]
pub enum TokenError {
    /// The text has not 30 octets.
    Length,
    /// The text doesn't begin and end with `@`.
    Marks,
    /// An octet between the marks is no hexadecimal digit.
    Digit,
    /// All is right but that a digit is a lower case letter.
    LowerCase,
}

impl Token {
    /// The one text of the token (docs/FORMATS.md, Tokens).
    pub fn to_text(&self) -> [u8; 30]
        ensures { result ≡ token_text (token_view self.now) }
    {
        let mut text = [b'@'; TEXT_OCTETS];
        let digits = upper_digits(&self.octets());
        text[1..TEXT_OCTETS - 1].copy_from_slice(&digits);
        text
    }

    /// Reads the text of a token; nothing may stand before or after it.
    pub fn parse(text: &[u8]) -> Result<Token, TokenError>
        ensures token { (t : Token) → (result ≡ Ok t)
            ↔ (IsToken (token_view t) × (text.now ≡ token_text (token_view t))) }
        ensures length { IsErrOf result TokenError.Length ↔ HasOtherLength text.now }
        ensures marks { IsErrOf result TokenError.Marks ↔ LacksMarks text.now }
        ensures digit { IsErrOf result TokenError.Digit ↔ HasOtherDigit text.now }
        ensures lower_case { IsErrOf result TokenError.LowerCase ↔ HasLowerCase text.now }
    {
        let octets = read_octets(text)?;
        Ok(Token::from_octets(&octets))
    }

    /// The octets of the parts, high first.
    pub fn octets(self) -> [u8; 14]
        ensures octets { result ≡ token_octets (token_view self) }
        ensures parts { IsToken (token_view self) }
    {
        let cycle = self.cycle.to_be_bytes();
        let first = self.first.to_be_bytes();
        let length = self.length.to_be_bytes();
        [
            self.class,
            self.buffer,
            cycle[0],
            cycle[1],
            cycle[2],
            cycle[3],
            first[0],
            first[1],
            first[2],
            first[3],
            length[0],
            length[1],
            length[2],
            length[3],
        ]
    }

    /// The token whose parts have these octets.
    pub fn from_octets(octets: &[u8; 14]) -> Token
        ensures octets { token_octets (token_view result) ≡ octets.now }
        ensures parts { IsToken (token_view result) }
    {
        Token {
            class: octets[0],
            buffer: octets[1],
            cycle: u32::from_be_bytes([octets[2], octets[3], octets[4], octets[5]]),
            first: u32::from_be_bytes([octets[6], octets[7], octets[8], octets[9]]),
            length: u32::from_be_bytes([octets[10], octets[11], octets[12], octets[13]]),
        }
    }
}

/// The digits of the octets, in upper case.
fn upper_digits(octets: &[u8; 14]) -> [u8; 28]
    ensures { result ≡ flat_map octet_digits octets.now }
{
    let mut digits = [0u8; 2 * PART_OCTETS];
    hex::encode_to_slice(octets.as_slice(), &mut digits).unwrap();
    digits.make_ascii_uppercase();
    digits
}

/// The octets that the text of a token spells.
fn read_octets(text: &[u8]) -> Result<[u8; 14], TokenError>
    ensures fault { IfErr result (λ e. token_fault text.now ≡ Some e) }
    ensures none { IfOk result (λ octets. token_fault text.now ≡ None) }
    ensures spelled { IfOk result (λ octets. digits_of text.now ≡ flat_map octet_digits octets) }
{
    if text.len() != TEXT_OCTETS {
        return Err(TokenError::Length);
    }
    if text[0] != b'@' || text[TEXT_OCTETS - 1] != b'@' {
        return Err(TokenError::Marks);
    }
    let digits = &text[1..TEXT_OCTETS - 1];
    let Some(octets) = decoded(digits) else {
        return Err(TokenError::Digit);
    };
    if has_lower_case(digits) {
        return Err(TokenError::LowerCase);
    }
    Ok(octets)
}

/// The octets of the digits, of either case; none where an octet is no hexadecimal digit.
fn decoded(digits: &[u8]) -> Option<[u8; 14]>
    requires { length digits.now ≡ 28 }
    ensures digits { list_all is_hex_digit digits.now ≡ is_some result }
    ensures octets { IfSome result (λ octets. decode_pairs 0 digits.now ≡ Ok octets) }
{
    let mut octets = [0u8; PART_OCTETS];
    match hex::decode_to_slice(digits, &mut octets) {
        Ok(()) => Some(octets),
        Err(_) => None,
    }
}

/// Whether some digit is a lower case letter.
fn has_lower_case(digits: &[u8]) -> bool
    ensures { result ≡ list_any is_ascii_lowercase digits.now }
{
    digits.iter().any(|digit| digit.is_ascii_lowercase())
}
