//! What is stored of an article that has no fault: its class, its group, its feeds and its text.
ghost use Rattle.std.specs.Prelude.{◌≡◌, ◌≤◌, ◌<◌, ◌-◌, ◌^◌, [], length, map};
ghost use Rattle.std.specs.Prelude.{slice_get, unwrap_or, IfOk, IfErr};
ghost use Rattle.std.specs.Option.{option_map};
ghost use Rattle.article_parse.specs.Article.{article_view};
ghost use Rattle.article_verdict.specs.Config.{terms_of};
ghost use Rattle.article_verdict.specs.Verdict.{chosen_for, class_of, verdict_view, stored_as};
ghost use Rattle.buffer_group.specs.Jobs as jobs;
ghost use Rattle.feed_queue.specs.Permission.{identity_view};
ghost use Rattle.relay_model.specs.Judging.{classed};
ghost use Rattle.relay_model.specs.Judging as terms;
ghost use Rattle.relay_conf.specs.Choice.{given};

use crate::reasons::Reason;
use crate::room::has_room;
use article_parse::Article;
use buffer_group::Accepted;
use feed_queue::permitted;
use path_rules::{updated_octets, updated_text};
use relay_conf::{Config, Octets, Peer, choose};
use std::alloc::{AllocError, Global};

/// The verdict on an article by its storage class and by the room of its group. Both go by the
/// octets of the updated text, which is built only where the article is accepted.
pub(crate) fn classed(
    alloc: Global,
    config: &Config,
    peer: usize,
    article: &Article<'_>,
) -> Result<Result<Accepted, Reason>, AllocError>
    ensures { IfOk result (λ verdict. verdict_view verdict
        ≡ classed (terms_of config.now) peer (article_view article.now)
        (class_of (terms_of config.now) peer (article_view article.now))) }
{
    let octets = stored_octets(config, peer, article)?;
    let Some((class, group)) = chosen_class(alloc, config, article, octets)? else {
        return Ok(Err(Reason::NoClass));
    };
    if !has_room(&config.buffers, usize::from(group), octets) {
        return Ok(Err(Reason::TooLarge));
    }
    let accepted = stored(alloc, config, peer, article, class, group)?;
    Ok(Ok(accepted))
}

/// The class and the group of an article whose updated text has so many octets.
fn chosen_class(
    alloc: Global,
    config: &Config,
    article: &Article<'_>,
    octets: u64,
) -> Result<Option<(u8, u16)>, AllocError>
    ensures { IfOk result (λ class. class
        ≡ option_map given (chosen_for config.now (article_view article.now) octets)) }
{
    let groups = article.groups(alloc)?;
    let class = choose(&config.storage_entries, &groups, octets);
    Ok(class)
}

/// The article as it is stored in this class and group, for the feeds that may have it.
fn stored(
    alloc: Global,
    config: &Config,
    peer: usize,
    article: &Article<'_>,
    class: u8,
    group: u16,
) -> Result<Accepted, AllocError>
    requires { length (terms.stored_text (terms_of config.now) peer (article_view article.now))
        < 2 ^ 32 }
    ensures { IfOk result (λ accepted. jobs.article_view accepted
        ≡ stored_as (terms_of config.now) peer (article_view article.now) class group) }
{
    let feeds = feeds_of(alloc, config, peer, article)?;
    let text = stored_text(alloc, config, peer, article)?;
    Ok(Accepted {
        class,
        group,
        permitted: feeds,
        text: Octets::new(text),
    })
}

/// The numbers of the feeds that may have the article.
fn feeds_of(
    alloc: Global,
    config: &Config,
    peer: usize,
    article: &Article<'_>,
) -> Result<Vec<u16>, AllocError>
    ensures { IfOk result (λ numbers. numbers.items
        ≡ terms.permitted (terms_of config.now) peer (article_view article.now)) }
{
    let relay = &config.relay;
    let numbers = permitted(alloc, article, &relay.peers, &relay.feeds, peer)?;
    Ok(numbers)
}

/// The updated text, in memory that is taken once.
fn stored_text(
    alloc: Global,
    config: &Config,
    peer: usize,
    article: &Article<'_>,
) -> Result<Vec<u8>, AllocError>
    ensures { IfOk result (λ text. text.items
        ≡ terms.stored_text (terms_of config.now) peer (article_view article.now)) }
{
    let source = identity_of(&config.relay.peers, peer);
    updated_text(alloc, article, config.relay.own.as_slice(), source)
}

/// The octets of the updated text, told without building it. A text of more octets than a number
/// can say is more than any memory has room for.
fn stored_octets(config: &Config, peer: usize, article: &Article<'_>) -> Result<u64, AllocError>
    ensures octets { IfOk result (λ octets. octets
        ≡ length (terms.stored_text (terms_of config.now) peer (article_view article.now))) }
    ensures most { IfErr result (λ error. 2 ^ 64 - 1
        ≤ length (terms.stored_text (terms_of config.now) peer (article_view article.now))) }
{
    let source = identity_of(&config.relay.peers, peer);
    let octets = updated_octets(article, config.relay.own.as_slice(), source);
    if octets == usize::MAX {
        return Err(AllocError);
    }
    Ok(octets as u64)
}

/// The identity of the peer of this number; without such a peer the empty one, which no Path has.
fn identity_of(peers: &[Peer], number: usize) -> &[u8]
    ensures { result.now ≡ unwrap_or (slice_get (map identity_view peers.now) number) [] }
{
    match peers.get(number) {
        Some(peer) => peer.identity.as_slice(),
        None => b"",
    }
}
