//! What has changed by name between a history and the configuration is told.
ghost use Rattle.std.specs.Prelude.{◌≡◌, ◌++◌, ◌∷◌, [], List, codes, decimal, IfOk, OnOk, flat_map};
ghost use Rattle.std.specs.Prelude.{map, option_map, ℕ};
ghost use Rattle.history_names.specs.Changes as terms;
ghost use Rattle.history_names.specs.Changes.{Adds, changes_of, ended, group_names};
ghost use Rattle.id_history.specs.Views.{feed_view, history_view};
ghost use Rattle.relay_names.specs.Views.{group_view, names_view};

use id_history::{History, KeptFeed};
use itoa::Buffer;
use line_words::Octets;
use relay_names::{GroupNames, Names};
use std::alloc::{AllocError, Global};

/// The lines that tell what has changed by name, where a history with these names goes on with
/// those of a configuration, whose feeds have these rings. Where nothing has changed there is none.
/// Names are looked for one by one, which for 1,024 feeds takes a million comparisons.
pub fn told_changes(
    alloc: Global,
    known: &Names,
    own: &Names,
    rings: &[u32],
    history: &History,
) -> Result<Vec<u8>, AllocError>
    ensures { IfOk result (λ text. text.items ≡ flat_map ended (changes_of (names_view known.now)
        (names_view own.now) rings.now (history_view history.now))) }
{
    let mut out = Vec::new(alloc);
    put_feeds(
        alloc,
        &mut out,
        &known.feeds,
        &history.feeds,
        &own.feeds,
        rings,
    )?;
    put_gone_feeds(alloc, &mut out, &own.feeds, &known.feeds, &history.feeds)?;
    put_groups(alloc, &mut out, &known.groups, b" new", &own.groups)?;
    put_groups(alloc, &mut out, &own.groups, b" gone", &known.groups)?;
    Ok(out)
}

/// Tells of each feed of the configuration that it is new, or passes over some that wait.
#[tactic(auto, using(crate::proofs::Lines::adds_more, crate::proofs::Lines::adds_all))]
fn put_feeds(
    alloc: Global,
    out: &mut Vec<u8>,
    known: &[Octets],
    feeds: &[KeptFeed],
    own: &[Octets],
    rings: &[u32],
) -> Result<(), AllocError>
    ensures { OnOk result (Adds out.old.items out.new.items (terms.of_feeds known.now
        (map feed_view feeds.now) own.now rings.now)) }
{
    let mut names = own;
    let mut left = rings;
    while let Some((name, others)) = names.split_first() {
        let Some((ring, more)) = left.split_first() else {
            return Ok(());
        };
        put_feed(alloc, out, name, *ring, feed_of(known, feeds, name))?;
        names = others;
        left = more;
    }
    Ok(())
}

/// What is left of the feed of this name, the first that has it.
fn feed_of<'a>(names: &[Octets], feeds: &'a [KeptFeed], name: &Octets) -> Option<&'a KeptFeed>
    ensures { option_map (λ feed. feed_view feed.now) result
        ≡ terms.feed_of names.now (map feed_view feeds.now) name.now }
{
    let mut others = names;
    let mut left = feeds;
    while let Some((other, names)) = others.split_first() {
        let (feed, feeds) = left.split_first()?;
        if other.as_slice() == name.as_slice() {
            return Some(feed);
        }
        others = names;
        left = feeds;
    }
    None
}

/// Tells of a feed of the configuration that it is new, or passes over some that wait.
fn put_feed(
    alloc: Global,
    out: &mut Vec<u8>,
    name: &Octets,
    ring: u32,
    feed: Option<&KeptFeed>,
) -> Result<(), AllocError>
    ensures { OnOk result (Adds out.old.items out.new.items (terms.of_feed name.now ring
        (option_map (λ feed. feed_view feed.now) feed.entry))) }
{
    match feed {
        None => put_line(alloc, out, b"changed feed=", name, b" new"),
        Some(feed) => put_passed(alloc, out, name, ring as usize, feed.waiting.len()),
    }
}

/// Tells of a feed that it passes over those that have no room in its ring, of so many that wait.
#[tactic(auto, using(crate::proofs::Lines::adds_none))]
fn put_passed(
    alloc: Global,
    out: &mut Vec<u8>,
    name: &Octets,
    ring: usize,
    waiting: usize,
) -> Result<(), AllocError>
    ensures { OnOk result (Adds out.old.items out.new.items
        (terms.passed_over name.now ring waiting)) }
{
    if ring < waiting {
        put_count(alloc, out, name, b" passed=", waiting - ring)
    } else {
        Ok(())
    }
}

/// Tells of each feed that the configuration has no more how many wait in it.
#[tactic(auto, using(crate::proofs::Lines::adds_more, crate::proofs::Lines::adds_all))]
fn put_gone_feeds(
    alloc: Global,
    out: &mut Vec<u8>,
    own: &[Octets],
    known: &[Octets],
    feeds: &[KeptFeed],
) -> Result<(), AllocError>
    ensures { OnOk result (Adds out.old.items out.new.items (terms.gone_feeds own.now known.now
        (map feed_view feeds.now))) }
{
    let mut names = known;
    let mut left = feeds;
    while let Some((name, others)) = names.split_first() {
        let Some((feed, more)) = left.split_first() else {
            return Ok(());
        };
        put_gone_feed(alloc, out, is_among(own, name), name, feed.waiting.len())?;
        names = others;
        left = more;
    }
    Ok(())
}

/// Tells of a feed how many wait in it, unless it is among those of the configuration.
#[tactic(auto, using(crate::proofs::Lines::adds_none))]
fn put_gone_feed(
    alloc: Global,
    out: &mut Vec<u8>,
    is_among: bool,
    name: &Octets,
    waiting: usize,
) -> Result<(), AllocError>
    ensures { OnOk result (Adds out.old.items out.new.items
        (terms.gone_line is_among name.now waiting)) }
{
    if is_among {
        Ok(())
    } else {
        put_count(alloc, out, name, b" gone waiting=", waiting)
    }
}

/// Whether the name stands among these.
fn is_among(names: &[Octets], name: &Octets) -> bool
    ensures { result ≡ terms.is_among names.now name.now }
{
    names
        .iter()
        .any(|other| other.as_slice() == name.as_slice())
}

/// Tells a number of a feed.
fn put_count(
    alloc: Global,
    out: &mut Vec<u8>,
    name: &Octets,
    what: &[u8],
    count: usize,
) -> Result<(), AllocError>
    ensures { OnOk result (Adds out.old.items out.new.items
        ((codes "changed feed=" ++ (name.now ++ (what.now ++ decimal count))) ∷ [])) }
{
    let end = counted(alloc, what, count)?;
    put_line(alloc, out, b"changed feed=", name, &end)
}

/// A number behind what it counts.
fn counted(alloc: Global, what: &[u8], count: usize) -> Result<Vec<u8>, AllocError>
    ensures { IfOk result (λ text. text.items ≡ what.now ++ decimal count) }
{
    let mut digits = Buffer::new();
    [what, digits.format(count).as_bytes()].concat(alloc)
}

/// Puts a line of a name behind what is there.
fn put_line(
    alloc: Global,
    out: &mut Vec<u8>,
    before: &[u8],
    name: &Octets,
    after: &[u8],
) -> Result<(), AllocError>
    ensures { OnOk result (Adds out.old.items out.new.items
        ((before.now ++ (name.now ++ after.now)) ∷ [])) }
{
    let line = line_of(alloc, before, name.as_slice(), after)?;
    out.extend_from_slice(&line)
}

/// A line of three parts, with its end.
fn line_of(alloc: Global, before: &[u8], name: &[u8], after: &[u8]) -> Result<Vec<u8>, AllocError>
    ensures { IfOk result (λ line.
        line.items ≡ before.now ++ name.now ++ after.now ++ 10 ∷ []) }
{
    let mut line = Vec::from_slice(alloc, before)?;
    line.extend_from_slice(name)?;
    line.extend_from_slice(after)?;
    line.push(b'\n')?;
    Ok(line)
}

/// Tells of each group that isn't among the others.
#[tactic(auto, using(crate::proofs::Lines::adds_more, crate::proofs::Lines::adds_all))]
fn put_groups(
    alloc: Global,
    out: &mut Vec<u8>,
    others: &[GroupNames],
    end: &[u8],
    groups: &[GroupNames],
) -> Result<(), AllocError>
    ensures { OnOk result (Adds out.old.items out.new.items (terms.of_groups
        (group_names (map group_view others.now)) end.now
        (group_names (map group_view groups.now)))) }
{
    let mut left = groups;
    while let Some((group, more)) = left.split_first() {
        put_group(alloc, out, is_group(others, &group.name), end, &group.name)?;
        left = more;
    }
    Ok(())
}

/// Tells of a group, unless it is among the others.
#[tactic(auto, using(crate::proofs::Lines::adds_none))]
fn put_group(
    alloc: Global,
    out: &mut Vec<u8>,
    is_among: bool,
    end: &[u8],
    name: &Octets,
) -> Result<(), AllocError>
    ensures { OnOk result (Adds out.old.items out.new.items
        (terms.group_line is_among end.now name.now)) }
{
    if is_among {
        Ok(())
    } else {
        put_line(alloc, out, b"changed group=", name, end)
    }
}

/// Whether a group has this name.
fn is_group(groups: &[GroupNames], name: &Octets) -> bool
    ensures { result ≡ terms.is_among (group_names (map group_view groups.now)) name.now }
{
    let mut left = groups;
    while let Some((group, more)) = left.split_first() {
        if group.name.as_slice() == name.as_slice() {
            return true;
        }
        left = more;
    }
    false
}
