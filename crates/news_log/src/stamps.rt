//! How a line begins with a moment.
ghost use Rattle.std.specs.Prelude.{◌≡◌, ◌<◌};
ghost use Rattle.news_log.specs.Digits.{HasMonth};
ghost use Rattle.news_log.specs.Digits as digits_terms;
ghost use Rattle.news_log.specs.Lines as terms;
ghost use Rattle.news_log.specs.Lines.{IsNewsStamp};

use crate::moments::Moment;
use date_rules::stamp;

/// The names of the months, in their order (RFC 5322, section 3.3).
const MONTHS: [[u8; 3]; 12] = [
    *b"Jan", *b"Feb", *b"Mar", *b"Apr", *b"May", *b"Jun", *b"Jul", *b"Aug", *b"Sep", *b"Oct",
    *b"Nov", *b"Dec",
];

/// The moment as a line begins with it: month, day, time of day in UTC and thousandths of a second.
pub(crate) fn news_stamp(moment: &Moment) -> [u8; 19]
    ensures { IsNewsStamp moment.now result }
{
    let digits = stamp(moment.second);
    stamp_of(digits, moment.millis)
}

/// How a line begins with the moment of these fourteen digits and thousandths of a second.
fn stamp_of(digits: [u8; 14], millis: u32) -> [u8; 19]
    requires month { HasMonth digits }
    requires thousandth { millis < 1000 }
    ensures { result ≡ terms.news_stamp digits millis }
{
    let [_, _, _, _, m1, m2, d1, d2, h1, h2, n1, n2, s1, s2] = digits;
    let [a, b, c] = month_name(m1, m2);
    let day = with_space(d1);
    let [t1, t2, t3] = three_digits(millis);
    [
        a, b, c, b' ', day, d2, b' ', h1, h2, b':', n1, n2, b':', s1, s2, b'.', t1, t2, t3,
    ]
}

/// The first digit of two, a space in place of a zero.
fn with_space(first: u8) -> u8
    ensures { result ≡ digits_terms.spaced_digit first }
{
    if first == b'0' { b' ' } else { first }
}

/// The name of the month of this number, of two digits.
fn month_name(tens: u8, ones: u8) -> [u8; 3]
    requires { digits_terms.IsMonth tens ones }
    ensures { result ≡ digits_terms.month_of tens ones }
{
    MONTHS[((tens - b'0') * 10 + (ones - b'0') - 1) as usize]
}

/// The three decimal digits of a number.
fn three_digits(number: u32) -> [u8; 3]
    requires { number < 1000 }
    ensures { result ≡ terms.three_digits number }
{
    [
        b'0' + (number / 100) as u8,
        b'0' + (number % 100 / 10) as u8,
        b'0' + (number % 10) as u8,
    ]
}
