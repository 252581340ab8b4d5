//! Texts of histories.
ghost use Rattle.id_history.specs.Room.{HasRoom};

use crate::row_text::{Cells, Sheet, joined};
use crate::runs::{Change, number};
use crate::stops::octets::octets_by;
use crate::stops::steps::put_tokens;
use crate::texts::{Look, walk};
use id_history::{History, HistoryError, KeptFeed, KeptId, Setting, read, write};
use line_words::{cut, is};
use std::alloc::Global;
use std::mem;

/// The most that a number of a setting can be.
const MOST: u64 = 4_294_967_295;

/// A text, and the setting that it is read under.
#[derive(Drop)]
pub struct Texts {
    setting: Setting,
    text: Vec<u8>,
}

impl Texts {
    /// No text yet, and a setting of nothing.
    pub fn new(alloc: Global) -> Texts {
        Texts {
            setting: Setting {
                buffers: 0,
                groups: Vec::new(alloc),
                rings: Vec::new(alloc),
            },
            text: Vec::new(alloc),
        }
    }

    /// From here the setting is that of the cells.
    pub fn set(&mut self, cells: &Cells, sheet: &Sheet) {
        let setting = Setting {
            buffers: number(cells, sheet),
            groups: numbers_of(cells.next(), sheet),
            rings: numbers_of(cells.next(), sheet),
        };
        drop(mem::replace(&mut self.setting, setting));
        sheet.put(b"set");
    }

    /// From here the text is that whose digits stand in the cells.
    pub fn name(&mut self, cells: &Cells, sheet: &Sheet) {
        self.text = octets_by(&joined(cells.rest(), sheet), sheet);
        sheet.number(self.text.len() as u64);
    }

    /// Writes the history that the text says, or that it says none.
    pub fn put_history(&self, sheet: &Sheet) {
        match read(sheet.alloc, &self.text, &self.setting) {
            Ok(history) => {
                put_parts(&history, sheet);
                drop(history);
            }
            Err(error) => put_fault(error, sheet),
        }
    }

    /// Writes what the text gives with this change at each of its octets in turn.
    pub(crate) fn walk(&self, change: Change, sheet: &Sheet) {
        let look = Look::History(&self.setting);
        walk(look, &self.text, change, self.text.len(), sheet);
    }
}

/// The numbers that stand in a cell between commas.
fn numbers_of(cell: &[u8], sheet: &Sheet) -> Vec<u32> {
    let mut numbers = Vec::new(sheet.alloc);
    let mut unread = Some(cell);
    while let Some(rest) = unread {
        let (word, after) = cut(rest, b',');
        let number = sheet.read_up_to(MOST, word) as u32;
        if numbers.push(number).is_err() {
            sheet.lack();
        }
        unread = after;
    }
    numbers
}

/// Writes why a text says no history.
fn put_fault(error: HistoryError, sheet: &Sheet) {
    match error {
        HistoryError::Memory => sheet.lack(),
        HistoryError::BadHistory => sheet.put(b"BadHistory"),
    }
}

/// Writes the parts of a history.
fn put_parts(history: &History, sheet: &Sheet) {
    let numbers = [history.stop, history.newest];
    sheet.filled(b"stop # newest # positions", &numbers);
    put_positions(&history.positions, sheet);
    put_feeds(&history.feeds, sheet);
    put_ids(&history.ids, sheet);
}

/// Writes the places of groups' current buffers.
fn put_positions(positions: &[u32], sheet: &Sheet) {
    for position in positions {
        sheet.numbered(b" ", u64::from(*position));
    }
}

/// Writes what is left of feeds.
fn put_feeds(feeds: &[KeptFeed], sheet: &Sheet) {
    for feed in feeds {
        sheet.filled(b" feed # # #", &[feed.gained, feed.passed, feed.taken]);
        put_tokens(&feed.waiting, sheet);
    }
}

/// Writes what became of message-ids.
fn put_ids(ids: &[KeptId], sheet: &Sheet) {
    for id in ids {
        sheet.put(b" id");
        sheet.next(id.id.as_bytes());
        sheet.numbered(b" ", id.moment);
        match id.token {
            Some(token) => sheet.next(&token.to_text()),
            None => sheet.put(b" refused"),
        }
    }
}

/// Writes `read` where a text is that of the history that it says, else `other`, or its fault.
#[tactic(auto, using(crate::proofs::Rooms::room_of))]
pub(crate) fn put_kept(text: &[u8], setting: &Setting, sheet: &Sheet) {
    match read(sheet.alloc, text, setting) {
        Ok(history) => {
            put_written(&history, text, sheet);
            drop(history);
        }
        Err(error) => put_fault(error, sheet),
    }
}

/// Writes whether a text is that of a history.
fn put_written(history: &History, text: &[u8], sheet: &Sheet)
    requires { HasRoom history.now }
{
    match write(sheet.alloc, history) {
        Ok(octets) if is(&octets, text) => sheet.put(b"read"),
        Ok(_) => sheet.put(b"other"),
        Err(_) => sheet.lack(),
    }
}
