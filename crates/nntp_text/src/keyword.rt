//! The first words of the commands.
ghost use Rattle.std.specs.Prelude.{◌≡◌, map};
ghost use Rattle.std.specs.Option.{option_map};
ghost use Rattle.std.specs.Str.{str_eq_ignore_ascii_case};
ghost use Rattle.news_terms.specs.Command as terms;
ghost use Rattle.nntp_text.specs.Command.{keyword_view};

/// The first word of a command (RFC 3977, RFC 4644; docs/FORMATS.md, Command lines).
#[derive(Clone, Copy)]
pub(crate) enum Keyword {
    Capabilities,
    Help,
    Date,
    Quit,
    Mode,
    Check,
    Ihave,
    TakeThis,
    Article,
    Head,
    Body,
    Stat,
    Over,
    Xtake,
    Xfetch,
}

/// The keyword that a word spells, without regard to ASCII case.
pub(crate) fn keyword_of(word: &[u8]) -> Option<Keyword>
    ensures { option_map keyword_view result ≡ terms.keyword_of word.now }
{
    look_up(
        word,
        &[
            (b"CAPABILITIES", Keyword::Capabilities),
            (b"HELP", Keyword::Help),
            (b"DATE", Keyword::Date),
            (b"QUIT", Keyword::Quit),
            (b"MODE", Keyword::Mode),
            (b"CHECK", Keyword::Check),
            (b"IHAVE", Keyword::Ihave),
            (b"TAKETHIS", Keyword::TakeThis),
            (b"ARTICLE", Keyword::Article),
            (b"HEAD", Keyword::Head),
            (b"BODY", Keyword::Body),
            (b"STAT", Keyword::Stat),
            (b"OVER", Keyword::Over),
            (b"XTAKE", Keyword::Xtake),
            (b"XFETCH", Keyword::Xfetch),
        ],
    )
}

/// What the first spelling of a table stands for that is the word's, without regard to ASCII case.
fn look_up(word: &[u8], table: &[(&[u8], Keyword)]) -> Option<Keyword>
    ensures { option_map keyword_view result
        ≡ terms.look_up (map (λ entry. (entry.0.now, keyword_view entry.1)) table.now) word.now }
{
    for entry in table {
        if is_spelled(word, entry.0) {
            return Some(entry.1);
        }
    }
    None
}

/// Whether the word is spelled so, without regard to ASCII case.
fn is_spelled(word: &[u8], spelling: &[u8]) -> bool
    ensures { result ≡ str_eq_ignore_ascii_case word.now spelling.now }
{
    word.eq_ignore_ascii_case(spelling)
}
