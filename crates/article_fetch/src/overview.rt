//! The overview line of an article, and of a text.
ghost use Rattle.std.specs.Prelude.{◌≡◌, ◌↔◌, ◌+◌, ◌<◌, ◌≤◌, ◌++◌, IsTrue, length, vec_len};
ghost use Rattle.std.specs.Prelude.{vec_capacity, Err, IfOk, OnOk, OnErr};
ghost use Rattle.news_terms.specs.Article as terms;
ghost use Rattle.news_terms.specs.Article.{IsLaidOut, article_text};
ghost use Rattle.news_terms.specs.Overview.{overview_line};
ghost use Rattle.article_parse.specs.Article.{article_view};

use crate::finding::{parts_in, parts_of};
use crate::puts::put_parts;
use article_parse::Article;
use std::alloc::{AllocError, Global};

/// The most octets that an overview line has beyond those of the header: the `0`, seven TABs, and
/// two numbers of at most 20 digits each.
pub const LINE_ROOM: usize = 48;

/// Why no overview line was put, in the order of trial.
#[derive(Clone, Copy, Debug)]
pub enum PutError {
    /// The text isn't laid out as an article: its fields, an empty line and a body (RFC 5536,
    /// sections 2.1 and 2.2).
    NoArticle,
    /// The free capacity is less than the octets of the header, its empty line included, and
    /// `LINE_ROOM` more.
    NoRoom,
}

/// The overview line of an article, without a line end (RFC 3977, section 8.3.2). Memory is taken
/// once, for as many octets as the header has, its empty line included, and `LINE_ROOM` more.
pub fn line(alloc: Global, article: &Article<'_>) -> Result<Vec<u8>, AllocError>
    ensures line { IfOk result (λ line. line.items ≡ overview_line (article_view article.now)) }
    ensures room { IfOk result (λ line. vec_capacity line + length (article_view article.now).body
        ≡ length (article_text (article_view article.now)) + LINE_ROOM) }
{
    let parts = parts_of(article);
    let Some(octets) = parts.header_octets().checked_add(LINE_ROOM) else {
        return Err(AllocError);
    };
    let mut room = Vec::with_capacity(alloc, octets)?;
    put_parts(&mut room, &parts);
    Ok(room)
}

/// Puts the overview line of an article's text behind what the room has (RFC 3977, section 8.3.2).
/// It takes no memory. Of the fields it asks no more than that they are fields: an absent one is
/// empty in the line, and of a repeated one the first counts.
pub fn put_line(room: &mut Vec<u8>, text: &[u8]) -> Result<(), PutError>
    ensures line { OnOk result ((a : terms.Article) → IsLaidOut text.now a
        → room.new.items ≡ room.old.items ++ overview_line a) }
    ensures unchanged { OnErr result (room.new ≡ room.old) }
    ensures no_article { (result ≡ Err PutError.NoArticle)
        ↔ ((a : terms.Article) → ¬ IsLaidOut text.now a) }
    ensures no_room { (result ≡ Err PutError.NoRoom)
        ↔ ((a : terms.Article) × IsLaidOut text.now a
        × (vec_capacity room.old + length a.body
        < vec_len room.old + length text.now + LINE_ROOM)) }
    ensures capacity { vec_capacity room.new ≡ vec_capacity room.old }
{
    let Some(parts) = parts_in(text) else {
        return Err(PutError::NoArticle);
    };
    if !has_room(room.capacity() - room.len(), parts.header_octets()) {
        return Err(PutError::NoRoom);
    }
    put_parts(room, &parts);
    Ok(())
}

/// Whether so many free octets are enough for a header of so many.
fn has_room(free: usize, header: usize) -> bool
    ensures { IsTrue result ↔ (header + LINE_ROOM ≤ free) }
{
    match free.checked_sub(LINE_ROOM) {
        Some(left) => header <= left,
        None => false,
    }
}
