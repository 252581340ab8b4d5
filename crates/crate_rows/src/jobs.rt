//! Jobs for the writer of K1's group (job_queue), and the articles that they bring.
ghost use Rattle.std.specs.Prelude.{◌≡◌, ◌<◌, ◌^◌, true, length};
ghost use Rattle.news_terms.specs.ArticleTexts.{IsArticle};

use crate::row_text::Sheet;
use article_parse::Article;
use buffer_group::{Accepted, Job};
use line_words::Octets;
use nntp_text::MsgId;
use std::alloc::Global;

/// The number of the session that brings the articles.
pub const SESSION: u64 = 1;

/// A(number, octets) of the first peer, as it is stored (docs/FORMATS.md, Example article).
pub fn article(number: u64, octets: u64, sheet: &Sheet) -> Vec<u8> {
    let text = Sheet::new(sheet.alloc);
    text.put(b"Path: relay.example!!one.example!not-for-mail\r\nFrom: a@x.example\r\n");
    text.put(b"Newsgroups: misc.test\r\nSubject: t\r\nMessage-ID: ");
    text.filled(b"<#@x>", &[number]);
    text.put(b"\r\nDate: Fri, 01 Jan 2021 00:00:00 +0000\r\n\r\n");
    for _octet in 0..octets {
        text.put(b"x");
    }
    text.put(b"\r\n");
    text.onto(sheet)
}

/// A job of the session with this article, for group 0 and no feed.
pub fn job(number: u64, octets: u64, sheet: &Sheet) -> Option<Job> {
    let id = id_of(number, sheet)?;
    let article = accepted(article(number, octets, sheet), sheet.alloc)?;
    Some(Job {
        session: SESSION,
        id,
        article,
    })
}

/// The message-id of the article of this number.
pub fn id_of(number: u64, sheet: &Sheet) -> Option<MsgId> {
    let name = Sheet::new(sheet.alloc);
    name.filled(b"<#@x>", &[number]);
    MsgId::parse(sheet.alloc, &name.onto(sheet)).ok()
}

/// A text as an accepted article of K1's class, where it is an article.
fn accepted(text: Vec<u8>, alloc: Global) -> Option<Accepted> {
    if !is_article(alloc, &text) {
        return None;
    }
    Some(Accepted {
        class: 1,
        group: 0,
        permitted: Vec::new(alloc),
        text: Octets::new(text),
    })
}

/// Whether a text is read as an article, and has fewer than 2^32 octets.
fn is_article(alloc: Global, text: &[u8]) -> bool
    ensures article { result ≡ true → ∥ IsArticle text.now ∥₁ }
    ensures length { result ≡ true → length text.now < 2 ^ 32 }
{
    match Article::parse(alloc, text) {
        Ok(article) => {
            drop(article);
            text.len() < 1 << 32
        }
        Err(_) => false,
    }
}
