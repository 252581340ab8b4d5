//! What is entered in the register, by a writer and by a start alone.
ghost use Rattle.news_terms.specs.ArticleTexts.{IsArticle};

use crate::buckets::Place;
use crate::record::{ArticleLog, RecordNumber};
use crate::steps::Entered;
use cyc_token::Token;
use std::alloc::AllocError;
use std::mem::size_of;
use std::snapshot::Snapshot;
use std::sync::Wait;
use std::thread;

/// An article that was begun, and has no record yet. A buffer's `begin` alone answers with one; it
/// can't be copied, and `store` uses it up by entering its record.
pub struct Begun {
    token: Token,
    fresh: bool,
}

impl Begun {
    ghost use Rattle.std.specs.Prelude.{◌≡◌};
    ghost use Rattle.live_store.specs.Handles.{begun_token, begun_fresh};

    /// The article that was begun under a token, at the front of a cycle where `fresh` says so.
    pub(crate) fn new(token: Token, fresh: bool) -> Begun
        ensures token { begun_token result ≡ token }
        ensures fresh { begun_fresh result ≡ fresh }
    {
        Begun { token, fresh }
    }
}

/// An article that was begun, for contracts alone: its token, whether it was begun at the front of
/// a cycle, and the octets of its text. Only `store` and a start make one, and enter it. It takes
/// no memory: what it is of is known by its number.
pub struct Record {
    /// The token that the article is finished under, if it is.
    token: Snapshot<Token>,
    /// The flag that its begin was called with; false of an article that a start read.
    fresh: Snapshot<bool>,
    /// The text that was handed in, or that a start read.
    text: Snapshot<Vec<u8>>,
    // So each number of the register is that of an article.
    ghost is_article: { ∥ IsArticle text.value.items ∥₁ },
}

// Written out, so that no crate above proves anew how each part is let go.
impl Drop for Record {
    fn drop(self) {
        let Record {
            token: _,
            fresh: _,
            text: _,
        } = self;
    }
}

// What the README says of the memory of a record, and of its place in the register.
const _: () = prove!(size_of::<Record>() == 0);

const _: () = prove!(size_of::<Place<Record>>() == 16);

impl Record {
    ghost use Rattle.std.specs.Prelude.{◌≡◌, length, IfOk};
    ghost use Rattle.boxcar.specs.Table.{Shows};
    ghost use Rattle.live_store.specs.Handles.{begun_token, begun_fresh, shown_of, written_with};
    ghost use Rattle.live_store.specs.Tied.{text_in, named_in, fresh_in};

    /// Enters an article under its token in the register. Where memory is refused it gives way and
    /// tries again: it answers with the record's number, or never.
    pub(super) fn enter<R: Wait>(
        rt: &R,
        register: &ArticleLog,
        begun: Begun,
        text: &Vec<u8>,
    ) -> Entered
        requires article { ∥ IsArticle text.now.items ∥₁ }
        requires long { length text.now.items ≡ (begun_token begun).length }
        ensures shown { Shows register.now (shown_of result) }
        ensures none { written_with result ≡ 0 }
        ensures token { named_in (shown_of result) ≡ begun_token begun }
        ensures fresh { fresh_in (shown_of result) ≡ begun_fresh begun }
        ensures text { text_in (shown_of result) ≡ text.now.items }
    {
        let Begun { token, fresh } = begun;
        for _ in rt.forever() {
            if let Ok(shown) = Record::enter_once(rt, register, &token, fresh, text) {
                return Entered::new(token, shown);
            }
            thread::yield_now();
        }
        unreachable!()
    }

    /// Enters an article under its token in the register. Where memory is refused it isn't
    /// entered.
    pub(super) fn enter_once<R: Wait>(
        rt: &R,
        register: &ArticleLog,
        token: &Token,
        fresh: bool,
        text: &Vec<u8>,
    ) -> Result<RecordNumber, AllocError>
        requires article { ∥ IsArticle text.now.items ∥₁ }
        ensures shown { IfOk result (Shows register.now) }
        ensures token { IfOk result (λ shown. named_in shown ≡ token.now) }
        ensures fresh { IfOk result (λ shown. fresh_in shown ≡ fresh) }
        ensures text { IfOk result (λ shown. text_in shown ≡ text.now.items) }
    {
        let record = Record {
            token: Snapshot::of(token),
            text: Snapshot::of(text),
            fresh: Snapshot::of(&fresh),
        };
        match register.enter(rt, record) {
            Ok(shown) => Ok(shown),
            Err(refused) => {
                drop(refused);
                Err(AllocError)
            }
        }
    }
}
