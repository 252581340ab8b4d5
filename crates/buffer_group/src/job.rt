ghost use Rattle.std.specs.Prelude.{◌<◌, ◌^◌, length};
ghost use Rattle.news_terms.specs.ArticleTexts.{IsArticle};

use cyc_buffer::size_of;
use line_words::Octets;
use nntp_text::MsgId;

/// An article that was judged and accepted, with the text that is stored.
pub struct Accepted {
    /// The number of its storage class.
    pub class: u8,
    /// The number of the group of buffers that it goes to.
    pub group: u16,
    /// The numbers of the feeds that it is permitted for.
    pub permitted: Vec<u16>,
    pub text: Octets,
    // A token has room for its length.
    ghost has_length: { length text < 2 ^ 32 },
    // What is stored is an article, whatever was received.
    ghost is_article: { ∥ IsArticle text ∥₁ },
}

// Written out, so that no crate above proves anew how each part is let go.
impl Drop for Accepted {
    fn drop(self) {
        let Accepted {
            class: _,
            group: _,
            permitted: _,
            text: _,
        } = self;
    }
}

impl Accepted {
    ghost use Rattle.std.specs.Prelude.{◌≡◌, length};
    ghost use Rattle.news_terms.specs.Places.{size_of};

    /// The octets of the text.
    pub fn length(&self) -> u32
        ensures { result ≡ length self.now.text }
    {
        self.text.as_slice().len() as u32
    }

    /// The blocks that the text takes in a buffer.
    pub fn blocks(&self) -> u32
        ensures { result ≡ size_of (length self.now.text) }
    {
        size_of(self.length())
    }
}

/// An accepted article on its way to the writer of its group, with the session that brought it.
#[derive(Drop)]
pub struct Job {
    pub session: u64,
    pub id: MsgId,
    pub article: Accepted,
}
