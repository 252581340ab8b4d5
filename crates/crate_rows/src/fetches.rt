//! Rows for fetches out of what the threads of a relay share, and for what is said to the journal
//! (relay_live), by one thread.
ghost use Rattle.std.specs.Prelude.{◌≡◌, ◌∷◌, [], true, All, length, map, IfOk};
ghost use Rattle.feed_queue.specs.Feeds.{ring_size};
ghost use Rattle.post_history.specs.Opening.{book_in};
ghost use Rattle.relay_conf.specs.K1.{IsK1};
ghost use Rattle.relay_live.specs.Holding.{has_buffer};

mod said;

use crate::fetches::said::put_said;
use crate::jobs::{article, job};
use crate::row_text::{Cells, Sheet};
use buffer_group::Job;
use cyc_block::{BlockStore, FailAt, MemoryBlocks};
use cyc_token::Token;
use id_history::Take;
use job_queue::Handed;
use line_words::is;
use live_jobs::{Store, StoreResult};
use live_journal::PendingJournal;
use live_session::{Clock, Shares};
use live_store::{ArticleLog, Fetched, StorePremises};
use post_history::{Naming, Opened};
use relay_conf::Config;
use relay_live::{Keeper, Shared};
use std::alloc::{AllocError, Global};
use std::marker::Brand;
use std::random::RandomSource;
use std::sync::Wait;
use std::sync::ledger::{Blank, Ledger, Share};

/// Blocks in memory, a call of which can fail.
type Device = FailAt<MemoryBlocks>;

/// A clock that stands at the first second of 2021.
struct Standing;

impl Clock for Standing {
    fn now(&self) -> u64 {
        1_609_459_200
    }
}

/// The articles of a row: how many there are, and how many octets each body has.
#[derive(Clone, Copy)]
struct Articles {
    count: u64,
    octets: u64,
}

/// What a row asks of a relay over K1.
#[derive(Clone, Copy)]
enum Asked {
    /// What is fetched under each of the last cells, of as many articles as the second cell says,
    /// with as many octets as the third one says.
    Fetched,
    /// What is said to a journal with room for as many octets as the second cell says, while what
    /// each of the last cells says is done.
    Said,
}

/// Writes the answer of a call. The call of the device that the first cell says fails; that which
/// writes the head block is call 1.
pub fn answer<R: RandomSource + Wait>(rt: &R, call: &[u8], cells: &Cells, sheet: &Sheet) {
    let asked = if is(call, b"fetched") {
        Asked::Fetched
    } else if is(call, b"said") {
        Asked::Said
    } else {
        return sheet.refuse();
    };
    match Config::k1(sheet.alloc) {
        Ok(config) => {
            put_over(rt, &config, asked, cells, sheet);
            drop(config);
        }
        Err(_) => sheet.lack(),
    }
}

/// Writes what is asked, over the device of K1.
fn put_over<R: RandomSource + Wait>(
    rt: &R,
    config: &Config,
    asked: Asked,
    cells: &Cells,
    sheet: &Sheet,
)
    requires { IsK1 config.now }
{
    let Ok(devices) = devices_of(sheet.read(cells.next()), sheet.alloc) else {
        return sheet.lack();
    };
    match ArticleLog::new(sheet.alloc) {
        Ok(register) => {
            let blank = Blank::new(1);
            let opened = Opened::new();
            put_of::<Brand, Brand, R>(
                rt, config, &register, devices, blank, opened, asked, cells, sheet,
            );
            drop(register);
        }
        Err(_) => sheet.lack(),
    }
}

/// The device of K1 alone, of which this call fails. It is honest all the same.
fn devices_of(failing: u64, alloc: Global) -> Result<Vec<Device>, AllocError>
    ensures blocks { IfOk result (λ devices.
        map (λ device. length (⟦<Device as BlockStore>⟧.blocks device)) devices.items ≡ 8 ∷ []) }
    ensures honest { IfOk result (λ devices.
        All ⟦<Device as BlockStore>⟧.honest devices.items) }
{
    let blocks = MemoryBlocks::new(alloc, 8)?;
    let mut devices = Vec::new(alloc);
    devices.push(FailAt::new(blocks, failing))?;
    Ok(devices)
}

/// Writes what is asked, over these devices, which are trusted.
fn put_of<J: StorePremises + Naming, L: Ledger, R: RandomSource + Wait>(
    rt: &R,
    config: &Config,
    register: &ArticleLog,
    devices: Vec<Device>,
    blank: Blank,
    opened: Opened,
    asked: Asked,
    cells: &Cells,
    sheet: &Sheet,
)
    requires config { IsK1 config.now }
    requires devices { map (λ device. length (⟦<Device as BlockStore>⟧.blocks device)) devices.items
        ≡ 8 ∷ [] }
    requires honest { All ⟦<Device as BlockStore>⟧.honest devices.items }
    requires premises { (register.now ≡ J.register) × (J.trusted ≡ true)
        × (J.holds ≡ has_buffer config.now.buffers) }
    requires posts { (book_in opened ≡ J.book) × (J.began ≡ [])
        × (J.rings ≡ map ring_size config.now.relay.feeds.items) }
    requires ledger { (blank.name ≡ L.name) × (blank.parts ≡ L.parts) × (L.parts ≡ 1) }
{
    let (book, share) = blank.open::<L>();
    let made: Result<Shared<Device, J, L>, _> = Shared::new(
        rt,
        sheet.alloc,
        config,
        devices,
        book,
        opened,
        0,
    );
    match made {
        Ok(shared) => {
            match asked {
                Asked::Fetched => put_shared(rt, config, register, &shared, share, cells, sheet),
                Asked::Said => put_said(rt, config, register, &shared, share, cells, sheet),
            }
            drop(shared);
        }
        Err(error) => {
            drop(error);
            sheet.refuse();
        }
    }
}

/// Writes what is fetched out of what is shared, once it has the articles.
fn put_shared<J: StorePremises + Naming, L: Ledger, R: Wait>(
    rt: &R,
    config: &Config,
    register: &ArticleLog,
    shared: &Shared<Device, J, L>,
    share: Share<L>,
    cells: &Cells,
    sheet: &Sheet,
)
    requires register { register.now ≡ J.register }
    requires holds { J.holds ≡ has_buffer config.now.buffers }
    requires part { share.parts ≡ 1 }
{
    let articles = Articles {
        count: sheet.read(cells.next()),
        octets: sheet.read(cells.next()),
    };
    let Ok(journal) = PendingJournal::new(sheet.alloc, 0) else {
        drop(share);
        return sheet.lack();
    };
    let keeper = Keeper::new(shared, register, &config.buffers, &Standing, &journal);
    if are_kept(rt, shared, &keeper, share, articles, sheet) {
        put_fetches(rt, shared, register, articles.octets, cells.rest(), sheet);
    } else {
        sheet.refuse();
    }
}

/// Stores articles, and says whether all are kept.
fn are_kept<J: StorePremises + Naming, L: Ledger, R: Wait>(
    rt: &R,
    shared: &Shared<Device, J, L>,
    keeper: &Keeper<'_, Device, J, L, Standing, ArticleLog>,
    mut share: Share<L>,
    articles: Articles,
    sheet: &Sheet,
) -> bool
    requires { share.parts ≡ 1 }
{
    for number in 1..=articles.count {
        let Some(job) = job(number, articles.octets, sheet) else {
            return false;
        };
        if !is_kept(rt, shared, keeper, &mut share, job) {
            return false;
        }
    }
    true
}

/// Stores the article of a job, where its session is to have it stored, and says whether it is
/// kept.
fn is_kept<J: StorePremises + Naming, L: Ledger, R: Wait>(
    rt: &R,
    shared: &Shared<Device, J, L>,
    keeper: &Keeper<'_, Device, J, L, Standing, ArticleLog>,
    share: &mut Share<L>,
    job: Job,
) -> bool
    requires { share.old.parts ≡ 1 }
    ensures { share.new.parts ≡ 1 }
{
    let handed = Handed {
        end: 0,
        number: 0,
        job,
    };
    match shared.take(rt, &handed.job.id, handed.job.session) {
        Ok(Take::Mine) => matches!(keeper.store(rt, share, &handed), StoreResult::Kept(..)),
        _ => false,
    }
}

/// Writes what is fetched under each of these tokens.
fn put_fetches<J: StorePremises + Naming, L: Ledger, R: Wait>(
    rt: &R,
    shared: &Shared<Device, J, L>,
    register: &ArticleLog,
    octets: u64,
    tokens: &[Vec<u8>],
    sheet: &Sheet,
)
    requires { register.now ≡ J.register }
{
    for word in tokens {
        let Ok(token) = Token::parse(word) else {
            return sheet.refuse();
        };
        if !sheet.is_empty() {
            sheet.put(b"; ");
        }
        match shared.fetch(rt, sheet.alloc, register, &token) {
            Ok(fetched) => put_fetched(fetched, octets, sheet),
            Err(_) => sheet.lack(),
        }
    }
}

/// Writes what a fetch found, and of a text whether it is that of the article that was stored as
/// its record.
fn put_fetched<J: StorePremises>(fetched: Fetched<J>, octets: u64, sheet: &Sheet) {
    match fetched {
        Fetched::Whole(whole) => {
            let record = whole.number() as u64;
            let text = article(record.saturating_add(1), octets, sheet);
            sheet.numbered(b"record ", record);
            sheet.put(b", the same text: ");
            sheet.debug(&is(whole.octets(), &text));
        }
        Fetched::Gone(front) => {
            sheet.put(b"gone, ");
            sheet.debug(&front);
        }
        Fetched::Unknown(_) => sheet.put(b"unknown"),
        Fetched::Device(fault) => {
            sheet.put(b"failed, ");
            sheet.debug(&fault);
        }
    }
}
