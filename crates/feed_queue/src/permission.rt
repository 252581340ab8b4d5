//! Which feeds may have an article (RFC 5537, section 3.6; docs/PROTOCOL.md, Judging).
ghost use Rattle.std.specs.Prelude.{◌≡◌, ◌≤◌, [], length, map, slice_get, take, unwrap_or, IfOk};
ghost use Rattle.std.specs.Prelude.{IfSome};
ghost use Rattle.article_parse.specs.Article.{article_view};
ghost use Rattle.news_terms.specs.Pattern.{permits};
ghost use Rattle.news_terms.specs.Article as articles;
ghost use Rattle.relay_model.specs.HashFeeds.{hash_of};
ghost use Rattle.relay_model.specs.Judging.{is_permitted};
ghost use Rattle.relay_model.specs.Judging as terms;
ghost use Rattle.relay_model.specs.Terms.{Terms};
ghost use Rattle.feed_queue.specs.Permission.{HasFeeds, HasParts, octets_of, identity_view};
ghost use Rattle.feed_queue.specs.Permission.{feed_view};

use crate::hashes::falls_in;
use article_parse::Article;
use path_rules::has_identity;
use relay_conf::{Feed, Peer};
use std::alloc::{AllocError, Global};
use uwild::{Expr, Verdict};

/// How many feeds have a number.
const MOST_FEEDS: usize = 65_536;

/// The numbers of the feeds that may have an article which came from the peer of this number, in
/// rising order: those whose expression permits the newsgroups, whose peer isn't in the received
/// Path and isn't that peer, and in whose part the message-id falls. Feeds past the 65,536th have no
/// number, and none of them is named.
pub fn permitted(
    alloc: Global,
    article: &Article<'_>,
    peers: &[Peer],
    feeds: &[Feed],
    from: usize,
) -> Result<Vec<u16>, AllocError>
    ensures { IfOk result (λ numbers. (w : Terms) → HasFeeds w peers.now (take 65536 feeds.now)
        → numbers.items ≡ terms.permitted w from (article_view article.now)) }
{
    let groups = article.groups(alloc)?;
    let path = article.field(b"Path").unwrap_or(b"");
    let id = article.id().as_bytes();
    let numbered = &feeds[..feeds.len().min(MOST_FEEDS)];
    let numbers = numbers_of(alloc, &groups, path, id, peers, numbered, from)?;
    Ok(numbers)
}

/// The numbers of the feeds that may have an article of these newsgroups, this Path and this
/// message-id.
fn numbers_of(
    alloc: Global,
    groups: &[&[u8]],
    path: &[u8],
    id: &[u8],
    peers: &[Peer],
    feeds: &[Feed],
    from: usize,
) -> Result<Vec<u16>, AllocError>
    requires { length feeds.now ≤ 65536 }
    ensures { IfOk result (λ numbers. (w : Terms) (a : articles.Article)
        → HasFeeds w peers.now feeds.now
        → HasParts a (map octets_of groups.now) path.now id.now
        → numbers.items ≡ terms.permitted w from a) }
{
    let mut numbers = Vec::new(alloc);
    let mut hash = None;
    for (number, feed) in feeds.iter().enumerate() {
        if may_have(feed, groups, path, id, &mut hash, peers, from) {
            numbers.push(number as u16)?;
        }
    }
    Ok(numbers)
}

/// Whether the feed may have an article of these newsgroups, this Path and this message-id, whose
/// hash is known from the first feed on that asks for it.
fn may_have(
    feed: &Feed,
    groups: &[&[u8]],
    path: &[u8],
    id: &[u8],
    hash: &mut Option<u32>,
    peers: &[Peer],
    from: usize,
) -> bool
    requires known { IfSome hash.old (λ number. number ≡ hash_of id.now) }
    ensures may { (w : Terms) (a : articles.Article) → w.peers ≡ map identity_view peers.now
        → HasParts a (map octets_of groups.now) path.now id.now
        → result ≡ is_permitted w from a (feed_view feed.now) }
    ensures known { IfSome hash.new (λ number. number ≡ hash_of id.now) }
{
    is_wanted(&feed.expression, groups)
        && !has_identity(path, identity_of(peers, feed.peer))
        && usize::from(feed.peer) != from
        && falls_in(feed.hash, id, hash)
}

/// Whether at least one newsgroup is Match and none Poison.
fn is_wanted(expression: &Expr, groups: &[&[u8]]) -> bool
    ensures { result ≡ permits expression.now (map octets_of groups.now) }
{
    let mut has_match = false;
    for group in groups {
        match expression.judge(group) {
            Verdict::Match => has_match = true,
            Verdict::Fail => {}
            Verdict::Poison => return false,
        }
    }
    has_match
}

/// The identity of the peer of this number; without such a peer the empty one, which no Path has.
fn identity_of(peers: &[Peer], number: u16) -> &[u8]
    ensures { result.now ≡ unwrap_or (slice_get (map identity_view peers.now) number) [] }
{
    match peers.get(usize::from(number)) {
        Some(peer) => peer.identity.as_slice(),
        None => b"",
    }
}
