//! A text that is found again.
ghost use Rattle.std.specs.Prelude.{◌≡◌};

use cyc_token::Token;
use nntp_text::MsgId;

/// A text that was found whole.
pub struct FoundText {
    pub token: Token,
    /// Its message-id; `None` where it is no id's.
    pub id: Option<MsgId>,
    /// The numbers of the feeds that may have it.
    pub feeds: Vec<u16>,
}

// Written out, so that no crate above proves anew how each part is let go.
impl Drop for FoundText {
    fn drop(self) {
        let FoundText {
            token: _,
            id: _,
            feeds: _,
        } = self;
    }
}

impl FoundText {
    ghost use Rattle.std.specs.Prelude.{not, if◌then◌else◌};
    ghost use Rattle.news_terms.specs.Article.{is_empty};
    ghost use Rattle.found_again.specs.Claiming.{without_id};
    ghost use Rattle.found_again.specs.Texts.{octets_of};

    /// Whether it is some id's.
    pub(crate) fn is_claimed(&self) -> bool
        ensures { result ≡ not (is_empty (octets_of self.now.id)) }
    {
        match &self.id {
            Some(id) => {
                let _octets = id.as_bytes();
                true
            }
            None => false,
        }
    }

    /// The text, as no id's where its id is had by a later one.
    pub(crate) fn unless_had(self, had: bool) -> FoundText
        ensures { result ≡ (if had then without_id self else self) }
    {
        if had { self.without_id() } else { self }
    }

    /// The text, as no id's.
    fn without_id(self) -> FoundText
        ensures { result ≡ without_id self }
    {
        let FoundText {
            token,
            id: _,
            feeds,
        } = self;
        FoundText {
            token,
            id: None,
            feeds,
        }
    }
}
