//! The names of the peers to which an article goes.
ghost use Rattle.std.specs.Prelude.{◌≡◌, ◌++◌, OnOk, option_map};
ghost use Rattle.news_log.specs.Lines.{feed_words, name_of_feed, spaced_word};

use relay_conf::Relay;
use std::alloc::AllocError;

/// Puts the names of the peers of the feeds of these numbers behind a line.
pub(crate) fn put_feeds(line: &mut Vec<u8>, relay: &Relay, feeds: &[u16]) -> Result<(), AllocError>
    ensures { OnOk result (line.new.items ≡ line.old.items ++ feed_words relay.now feeds.now) }
{
    for number in feeds {
        put_word(line, peer_of(relay, *number))?;
    }
    Ok(())
}

/// Puts a word behind a line, where there is one.
fn put_word(line: &mut Vec<u8>, word: Option<&[u8]>) -> Result<(), AllocError>
    ensures { OnOk result (line.new.items
        ≡ line.old.items ++ spaced_word (option_map (λ octets. octets.now) word.entry)) }
{
    if let Some(word) = word {
        line.push(b' ')?;
        line.extend_from_slice(word)?;
    }
    Ok(())
}

/// The name of the peer of the feed of a number, where there is one.
fn peer_of(relay: &Relay, number: u16) -> Option<&[u8]>
    ensures { option_map (λ octets. octets.now) result ≡ name_of_feed relay.now number }
{
    let feed = relay.feeds.get(usize::from(number))?;
    let peer = relay.peers.get(usize::from(feed.peer))?;
    Some(peer.name.as_slice())
}
