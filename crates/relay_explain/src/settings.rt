//! What is told of the settings of relay.conf that are of the relay itself.
ghost use Rattle.std.specs.Prelude.{◌≡◌, ◌++◌, codes, decimal, map, string_bytes, IfOk, OnOk};
ghost use Rattle.relay_explain.specs.Settings as terms;
ghost use Rattle.relay_explain.specs.Text.{Adds};

use crate::lines::key_line;
use crate::text::{Text, put, put_line, put_odd};
use itoa::Buffer;
use relay_conf::{NewsLog, Relay};
use std::alloc::{AllocError, Global};
use std::net::Ipv6Addr;

/// The file in which the relay and its peers are said.
pub(crate) const RELAY: &[u8] = b"relay.conf";

/// The seconds that the date of an article may lie ahead.
const DAY: u128 = 86_400;

/// What is told where an id may be forgotten while its article would still be taken.
const SOON_FORGOTTEN: &[u8] = b"an article of a message-id that is forgotten may come again: \
    remember isn't above cutoff by more than 86400";

/// Puts what is told of the relay itself.
#[tactic(auto, unfolding(crate::specs::Settings::settings_text))]
pub(crate) fn put_settings(alloc: Global, text: Text, relay: &Relay, lines: &[&[u8]]) -> Text
    ensures { Adds text result
        (terms.settings_text relay.now (map (λ line. line.now) lines.now)) }
{
    let own = relay.own.as_slice();
    let text = put_setting(text, lines, b"own", own, b"the relay's identity");
    let text = put_number(
        text,
        lines,
        b"maxart",
        relay.max_article as u64,
        b"octets of the largest article that is received",
    );
    let text = put_number(
        text,
        lines,
        b"cutoff",
        relay.cutoff,
        b"seconds past which an article is too old",
    );
    let text = put_remember(text, lines, relay.cutoff, relay.remember);
    let text = put_number(
        text,
        lines,
        b"patience",
        relay.patience as u64,
        b"seconds for which a silent peer is waited for",
    );
    let text = put_sync(text, lines, relay.sync);
    let text = put_offers(text, lines, relay.offers);
    let text = put_log(alloc, text, lines, &relay.log);
    put_addresses(alloc, text, lines, &relay.binds)
}

/// Puts what is told of the addresses on which its ports listen.
fn put_addresses(alloc: Global, text: Text, lines: &[&[u8]], addresses: &[[u8; 16]]) -> Text
    ensures { Adds text result
        (terms.setting_text (map (λ line. line.now) lines.now) (codes "bind")
        (terms.addresses_text addresses.now)
        (codes "the addresses on which ports listen, 0.0.0.0 for all of IPv4, :: for all")) }
{
    let told = b"the addresses on which ports listen, 0.0.0.0 for all of IPv4, :: for all";
    match addresses_text(alloc, addresses) {
        Ok(addresses) => put_setting(text, lines, b"bind", addresses.as_slice(), told),
        Err(error) => text.fail(error),
    }
}

/// Addresses as they are written, a space between two.
fn addresses_text(alloc: Global, addresses: &[[u8; 16]]) -> Result<Vec<u8>, AllocError>
    ensures { IfOk result (λ text. text.items ≡ terms.addresses_text addresses.now) }
{
    let mut text = Vec::new(alloc);
    let Some((first, more)) = addresses.split_first() else {
        return Ok(text);
    };
    add_address(alloc, &mut text, b"", *first)?;
    for address in more {
        add_address(alloc, &mut text, b" ", *address)?;
    }
    Ok(text)
}

/// Adds an address as it is written, behind what is to stand before it.
fn add_address(
    alloc: Global,
    text: &mut Vec<u8>,
    before: &[u8],
    address: [u8; 16],
) -> Result<(), AllocError>
    ensures { OnOk result
        (text.new.items ≡ text.old.items ++ (before.now ++ terms.address_text address)) }
{
    let address = address_text(alloc, address)?;
    text.extend_from_slice(before)?;
    text.extend_from_slice(address.as_bytes())?;
    Ok(())
}

/// An address as it is written.
#[tactic(auto, unfolding(crate::specs::Settings::segments_text))]
pub(crate) fn address_text(alloc: Global, address: [u8; 16]) -> Result<String, AllocError>
    ensures { IfOk result (λ text. string_bytes text ≡ terms.address_text address) }
{
    let address = Ipv6Addr::from_octets(address);
    match address.to_ipv4_mapped() {
        Some(address) => format!(in alloc; "{address}"),
        None => format!(in alloc; "{address}"),
    }
}

/// Puts what is told of how long ids are remembered.
#[tactic(auto, unfolding(crate::specs::Settings::remember_text))]
fn put_remember(text: Text, lines: &[&[u8]], cutoff: u64, remember: Option<u64>) -> Text
    ensures { Adds text result
        (terms.remember_text (map (λ line. line.now) lines.now) cutoff remember) }
{
    match remember {
        None => text.add(b"relay.conf: remember (no line says it): no message-id is forgotten\n"),
        Some(seconds) => {
            let told = b"seconds for which a message-id is remembered at least".as_slice();
            let text = put_number(text, lines, b"remember", seconds, told);
            put_odd(
                text,
                is_soon_forgotten(cutoff, seconds),
                RELAY,
                key_line(lines, b"remember"),
                SOON_FORGOTTEN,
            )
        }
    }
}

/// Puts what is told of how often files are flushed while the relay is served.
#[tactic(auto, unfolding(crate::specs::Settings::sync_text))]
fn put_sync(text: Text, lines: &[&[u8]], sync: Option<u64>) -> Text
    ensures { Adds text result (terms.sync_text (map (λ line. line.now) lines.now) sync) }
{
    match sync {
        None => text.add(
            b"relay.conf: sync (no line says it): articles are flushed when the relay stops\n",
        ),
        Some(seconds) => {
            let told = b"seconds between two flushes of the files of buffers".as_slice();
            put_number(text, lines, b"sync", seconds, told)
        }
    }
}

/// Puts what is told of how long an offer lasts.
#[tactic(auto, unfolding(crate::specs::Settings::offers_text))]
fn put_offers(text: Text, lines: &[&[u8]], offers: Option<u64>) -> Text
    ensures { Adds text result (terms.offers_text (map (λ line. line.now) lines.now) offers) }
{
    match offers {
        None => text.add(b"relay.conf: offers (no line says it): no offer runs out\n"),
        Some(seconds) => {
            let told = b"seconds after which an offer runs out".as_slice();
            put_number(text, lines, b"offers", seconds, told)
        }
    }
}

/// Puts what is told of the news log.
#[tactic(auto, unfolding(crate::specs::Settings::log_text))]
fn put_log(alloc: Global, text: Text, lines: &[&[u8]], log: &Option<NewsLog>) -> Text
    ensures { Adds text result (terms.log_text (map (λ line. line.now) lines.now) log.now) }
{
    match log {
        None => text.add(b"relay.conf: log (no line says it): nothing is logged\n"),
        Some(log) => put_news_log(alloc, text, lines, log),
    }
}

/// Puts what is told of the news log that there is.
fn put_news_log(alloc: Global, text: Text, lines: &[&[u8]], log: &NewsLog) -> Text
    ensures { Adds text result
        (terms.setting_text (map (λ line. line.now) lines.now) (codes "log")
        (terms.log_value log.now) (terms.log_meaning log.now.all)) }
{
    match log_value(alloc, log) {
        Ok(value) => put_setting(text, lines, b"log", value.as_slice(), log_meaning(log.all)),
        Err(error) => text.fail(error),
    }
}

/// The news log as a line says it.
fn log_value(alloc: Global, log: &NewsLog) -> Result<Vec<u8>, AllocError>
    ensures { IfOk result (λ text. text.items ≡ terms.log_value log.now) }
{
    let mut text = Vec::new(alloc);
    text.extend_from_slice(log_articles(log.all))?;
    text.extend_from_slice(log.path.as_slice())?;
    Ok(text)
}

/// The word that says of which articles the news log has lines, and a space.
fn log_articles(all: bool) -> &'static [u8]
    ensures { result.now ≡ terms.log_articles all }
{
    if all { b"all " } else { b"refused " }
}

/// What the news log has.
fn log_meaning(all: bool) -> &'static [u8]
    ensures { result.now ≡ terms.log_meaning all }
{
    if all {
        b"the file with a line for each article that is accepted or refused"
    } else {
        b"the file with a line for each article that is refused"
    }
}

/// Whether an id may be forgotten while its article would still be taken.
fn is_soon_forgotten(cutoff: u64, seconds: u64) -> bool
    ensures { result ≡ terms.is_soon_forgotten cutoff seconds }
{
    u128::from(seconds) <= u128::from(cutoff) + DAY
}

/// Puts a setting that is a number, and what it means.
fn put_number(text: Text, lines: &[&[u8]], key: &[u8], number: u64, meaning: &[u8]) -> Text
    ensures { Adds text result
        (terms.setting_text (map (λ line. line.now) lines.now) key.now (decimal number)
        meaning.now) }
{
    let mut digits = Buffer::new();
    put_setting(text, lines, key, digits.format(number).as_bytes(), meaning)
}

/// Puts a setting, its value, and what it means.
#[tactic(auto, unfolding(crate::specs::Settings::setting_text))]
fn put_setting(text: Text, lines: &[&[u8]], key: &[u8], value: &[u8], meaning: &[u8]) -> Text
    ensures { Adds text result
        (terms.setting_text (map (λ line. line.now) lines.now) key.now value.now meaning.now) }
{
    let line = key_line(lines, key);
    if lines.len() < line {
        return put(
            text,
            &[
                b"relay.conf: ",
                key,
                b" ",
                value,
                b" (no line says it): ",
                meaning,
                b"\n",
            ],
        );
    }
    put_line(text, RELAY, line, &[key, b" ", value, b": ", meaning])
}
