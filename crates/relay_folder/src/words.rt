//! What a relay is asked for, and how.
ghost use Rattle.std.specs.Prelude.{◌≡◌, ◌≢◌, None, IfSome};
ghost use Rattle.relay_folder.specs.Words.{line_of};
ghost use Rattle.relay_folder.specs.declared.words.Word.{Word};

/// What a relay is asked for.
#[derive(Clone, Copy)]
pub enum Word {
    /// To end, as soon as each port has ended.
    Stop,
    /// What it holds.
    Report,
    /// To take no new articles for now.
    Pause,
    /// To take them again.
    Go,
    /// To go on with the configuration that stands in its folder now.
    Reload,
}

/// The most octets of a line that is a word, with its end.
pub(crate) const LONGEST: usize = 7;

impl Word {
    /// The line by which it is asked for.
    pub(crate) fn line(self) -> &'static [u8]
        ensures { result.now ≡ line_of self }
    {
        match self {
            Word::Stop => b"stop\n",
            Word::Report => b"report\n",
            Word::Pause => b"pause\n",
            Word::Go => b"go\n",
            Word::Reload => b"reload\n",
        }
    }
}

/// The word of a line, none where the line is no word.
pub(crate) fn word_of(line: &[u8]) -> Option<Word>
    ensures some { IfSome result (λ word. line.now ≡ line_of word) }
    ensures none { result ≡ None → (word : Word) → line.now ≢ line_of word }
{
    if line == b"stop\n".as_slice() {
        return Some(Word::Stop);
    }
    if line == b"report\n".as_slice() {
        return Some(Word::Report);
    }
    if line == b"pause\n".as_slice() {
        return Some(Word::Pause);
    }
    if line == b"go\n".as_slice() {
        return Some(Word::Go);
    }
    if line == b"reload\n".as_slice() {
        return Some(Word::Reload);
    }
    None
}
