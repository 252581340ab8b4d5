ghost use Rattle.news_terms.specs.Command.{words};
ghost use Rattle.nntp_text.specs.Words.{StandsFor};

use line_words::{Between, first_word};

/// The words that follow a keyword, as far as a command tells them apart.
pub enum Arguments<'a> {
    /// No word follows.
    Absent,
    /// One word follows.
    One(&'a [u8]),
    /// Two words or more follow.
    Several,
}

/// The words of what follows a keyword.
pub fn words_after(rest: &[u8]) -> Arguments<'_>
    ensures { StandsFor result (words rest.now) }
{
    let Some((word, rest)) = first_word(rest, Between::White) else {
        return Arguments::Absent;
    };
    match first_word(rest, Between::White) {
        None => Arguments::One(word),
        Some(_) => Arguments::Several,
    }
}
