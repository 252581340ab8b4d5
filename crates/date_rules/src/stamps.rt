//! The moment that a relay tells as fourteen digits.
ghost use Rattle.std.specs.Prelude.{◌≡◌, ◌<◌, ◌≤◌, pos, ◌*ℤ◌};
ghost use Rattle.news_terms.specs.Dates as terms;
ghost use Rattle.news_terms.specs.Stamps.{IsStamp};
ghost use Rattle.jiff_core.specs.DateTime.{civil_nanos};
ghost use Rattle.date_rules.specs.Stamps.{civil_time};

use jiff_core::civil::DateTime;

/// The nanoseconds of a second.
const NANOSECONDS: i128 = 1_000_000_000;

/// The fourteen digits of a moment in UTC, in seconds since the first of 1970 and at most the last
/// of the year 9998: year (4), month, day, hour, minute, second (2 each) (RFC 3977, section 7.1).
/// It takes no memory.
pub fn stamp(now: u64) -> [u8; 14]
    requires { now ≤ 253_370_764_799 }
    ensures { IsStamp now result }
{
    digits(datetime(now))
}

/// The date and time of day in UTC of a moment.
fn datetime(now: u64) -> DateTime
    requires { now ≤ 253_370_764_799 }
    ensures { civil_nanos result ≡ pos now *ℤ pos 1_000_000_000 }
{
    DateTime::from_nanosecond_in_range(i128::from(now) * NANOSECONDS)
}

/// The fourteen digits of a date and a time of day.
fn digits(datetime: DateTime) -> [u8; 14]
    ensures { result ≡ terms.fourteen_digits (civil_time datetime) }
{
    let year = datetime.date.year.unsigned_abs();
    let [y1, y2] = two_digits((year / 100) as u8);
    let [y3, y4] = two_digits((year % 100) as u8);
    let [m1, m2] = two_digits(datetime.date.month);
    let [d1, d2] = two_digits(datetime.date.day);
    let [h1, h2] = two_digits(datetime.time.hour);
    let [n1, n2] = two_digits(datetime.time.minute);
    let [s1, s2] = two_digits(datetime.time.second);
    [y1, y2, y3, y4, m1, m2, d1, d2, h1, h2, n1, n2, s1, s2]
}

/// The two decimal digits of a number.
fn two_digits(number: u8) -> [u8; 2]
    requires { number < 100 }
    ensures { result ≡ terms.two_digits number }
{
    [b'0' + number / 10, b'0' + number % 10]
}
