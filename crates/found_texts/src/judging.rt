//! Whether a text that is found is an article.
ghost use Rattle.std.specs.Prelude.{◌≢◌, IfOk, OnOk};
ghost use Rattle.found_texts.specs.Judging.{Judges};
ghost use Rattle.found_texts.specs.Reading.{HasToken};

use article_parse::{ArtError, Article};
use cyc_token::Token;
use feed_queue::permitted;
use found_again::FoundText;
use relay_conf::Relay;
use std::alloc::{AllocError, Global};

/// What the program has of a text that is found whole under a token, where it is an article. Its
/// feeds are those of an article that no peer brought.
pub(crate) fn judge(
    alloc: Global,
    token: Token,
    text: &[u8],
    relay: &Relay,
) -> Result<Option<FoundText>, AllocError>
    ensures judged { IfOk result (λ one. Judges relay.now token text.now one) }
    ensures token { IfOk result (λ one. HasToken token one) }
{
    match Article::parse(alloc, text) {
        Ok(article) => {
            let id = article.id().copied(alloc)?;
            let feeds = permitted(
                alloc,
                &article,
                &relay.peers,
                &relay.feeds,
                relay.peers.len(),
            )?;
            Ok(Some(FoundText {
                token,
                id: Some(id),
                feeds,
            }))
        }
        Err(error) => {
            unless_memory(error)?;
            Ok(None)
        }
    }
}

/// A fault of a text, unless it is want of memory, which says nothing of the text.
fn unless_memory(error: ArtError) -> Result<(), AllocError>
    ensures { OnOk result (error ≢ ArtError.Memory) }
{
    match error {
        ArtError::Memory => Err(AllocError),
        _ => Ok(()),
    }
}
