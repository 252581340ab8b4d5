//! The calls of `article_parse`, `path_rules`, `article_fetch` and `date_rules`.

use crate::row_text::Sheet;
use crate::runs::Change;
use crate::texts::lines::{put_first, put_made, put_some};
use crate::texts::walks::{Look, walk};
use article_fetch::{LINE_ROOM, line, put_line};
use article_parse::Article;
use date_rules::judge;
use path_rules::{identities, loops, updated};

/// Writes the answer of a call of a text, behind these cells.
pub fn of_text(call: usize, first: &[u8], second: &[u8], octets: &[u8], sheet: &Sheet) {
    let fronts = octets.len().saturating_add(1);
    match call {
        17 => sheet.cell(octets),
        18 => sheet.debug(&Article::parse(sheet.alloc, octets).err()),
        19 => walk(Look::Article, octets, Change::Cut, fronts, sheet),
        20 => walk(Look::Overview, octets, Change::Cut, fronts, sheet),
        25 => walk(Look::Article, octets, put_first(first), octets.len(), sheet),
        28 => put_behind(first, second, octets, sheet),
        _ => put_asked(call, first, second, octets, sheet),
    }
}

/// Writes what is asked of an article, or the text's fault.
fn put_asked(call: usize, first: &[u8], second: &[u8], octets: &[u8], sheet: &Sheet) {
    match Article::parse(sheet.alloc, octets) {
        Ok(article) => {
            put_of(call, first, second, &article, sheet);
            drop(article);
        }
        Err(error) => sheet.debug(&error),
    }
}

/// Writes what is asked of an article.
fn put_of(call: usize, first: &[u8], second: &[u8], article: &Article<'_>, sheet: &Sheet) {
    match call {
        21 => put_parts(article, sheet),
        22 => put_groups(article, sheet),
        23 => put_made(line(sheet.alloc, article), sheet),
        24 => put_some(article.field(first), sheet),
        26 => put_arrival(first, second, article, sheet),
        _ => {
            let now = sheet.read(first);
            let cutoff = sheet.read(second);
            sheet.debug(&judge(sheet.alloc, article, now, cutoff));
        }
    }
}

/// Writes the message-id of an article, the place of its body, and the body.
fn put_parts(article: &Article<'_>, sheet: &Sheet) {
    sheet.cell(article.id().as_bytes());
    sheet.numbered(b" ", article.body_at() as u64);
    sheet.next(article.body());
}

/// Writes the newsgroups of an article.
fn put_groups(article: &Article<'_>, sheet: &Sheet) {
    let Ok(groups) = article.groups(sheet.alloc) else {
        return sheet.lack();
    };
    sheet.put(b"[");
    for group in &groups {
        sheet.next(group);
    }
    sheet.put(b" ]");
}

/// Writes what becomes of an article that comes to the first agent from the second.
fn put_arrival(own: &[u8], expected: &[u8], article: &Article<'_>, sheet: &Sheet) {
    match loops(article.field(b"Path").unwrap_or(b""), own) {
        Ok(true) => sheet.put(b"Loop"),
        Ok(false) => put_updated(own, expected, article, sheet),
        Err(error) => sheet.debug(&error),
    }
}

/// Writes how many octets the article has with its Path updated, for how many there is room, and
/// the octets; or why the Path is refused.
fn put_updated(own: &[u8], expected: &[u8], article: &Article<'_>, sheet: &Sheet) {
    match updated(sheet.alloc, article, own, expected) {
        Ok(octets) => {
            let numbers = [octets.len() as u64, octets.capacity() as u64];
            sheet.filled(b"# #", &numbers);
            sheet.next(&octets);
        }
        Err(error) => sheet.debug(&error),
    }
}

/// Writes what a text gives: `Read(P, N)` for an article whose body has N octets at place P, or its
/// fault.
pub fn put_reading(octets: &[u8], sheet: &Sheet) {
    match Article::parse(sheet.alloc, octets) {
        Ok(article) => {
            let numbers = [article.body_at() as u64, article.body().len() as u64];
            sheet.filled(b"Read(#, #)", &numbers);
            drop(article);
        }
        Err(error) => {
            sheet.put(b"Refused(");
            sheet.debug(&error);
            sheet.put(b")");
        }
    }
}

/// Writes what a room has that had so many free octets behind these, once a line was put there, or
/// that behind why none was put.
fn put_behind(free: &[u8], before: &[u8], octets: &[u8], sheet: &Sheet) {
    let free = sheet.read(free) as usize;
    let mut room = room_of(before, free, sheet);
    match put_line(&mut room, octets) {
        Ok(()) => sheet.cell(&room),
        Err(error) => {
            sheet.debug(&error);
            sheet.next(&room);
        }
    }
}

/// A room that has these octets, and so many free ones behind them.
fn room_of(octets: &[u8], free: usize, sheet: &Sheet) -> Vec<u8> {
    match Vec::with_capacity(sheet.alloc, octets.len().saturating_add(free)) {
        Ok(mut room) => {
            if room.extend_from_slice(octets).is_err() {
                sheet.lack();
            }
            room
        }
        Err(_) => {
            sheet.lack();
            Vec::new(sheet.alloc)
        }
    }
}

/// Writes the overview line that a text gives in room that is enough, or why it gives none.
pub fn put_front_line(octets: &[u8], sheet: &Sheet) {
    let mut room = room_of(b"", octets.len().saturating_add(LINE_ROOM), sheet);
    match put_line(&mut room, octets) {
        Ok(()) => {
            sheet.put(b"Line(");
            sheet.cell(&room);
            sheet.put(b")");
        }
        Err(error) => sheet.debug(&error),
    }
}

/// Writes the identities of a Path, or why it is refused.
pub fn put_identities(path: &[u8], sheet: &Sheet) {
    match identities(sheet.alloc, path) {
        Ok(list) => {
            sheet.put(b"[");
            for identity in &list {
                sheet.next(identity.as_bytes());
            }
            sheet.put(b" ]");
        }
        Err(error) => sheet.debug(&error),
    }
}
