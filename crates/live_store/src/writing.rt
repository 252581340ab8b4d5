//! Storing a text, a step at a time, each under the lock.
ghost use Rattle.std.specs.Prelude.{◌≡◌, IfErr, OnOk};
ghost use Rattle.boxcar.specs.Table.{Shows};
ghost use Rattle.live_store.specs.Handles.{blocks_of, shown_of, written_with};
ghost use Rattle.live_store.specs.Tied.{text_in};
ghost use Rattle.live_store.specs.Steps.{IsWriteFault};
ghost use Rattle.live_store.specs.Stores.{IsBegunWith, IsGivenUp, IsStored};
ghost use Rattle.news_terms.specs.ArticleTexts.{IsArticle};

use crate::answers::WriteFault;
use crate::numbered::NumberedBuffer;
use crate::record::{ArticleLog, StorePremises};
use crate::steps::{Entered, octets_of};
use crate::stored::Stored;
use cyc_block::BlockStore;
use std::sync::{Mutex, Wait};

mod entering;
mod reading_back;

pub use entering::{Begun, Record};
pub(crate) use reading_back::enter_articles;

/// Stores an article in any thread: the buffer begins it, the register gets its record, each block
/// is written, and the buffer finishes it. Each step of the buffer takes the lock anew. Where
/// memory is refused to the register, the same step is tried again. What was begun is finished or
/// abandoned, whatever comes.
pub fn store<S: BlockStore, J: StorePremises, R: Wait>(
    rt: &R,
    buffer: &Mutex<NumberedBuffer<S, J>>,
    register: &ArticleLog,
    class: u8,
    fresh: bool,
    text: &Vec<u8>,
) -> Stored<J>
    requires register { register.now ≡ J.register }
    requires article { ∥ IsArticle text.now.items ∥₁ }
    ensures stored { IsStored class text.now.items result }
    ensures fresh { IsBegunWith fresh result }
{
    let octets = match octets_of(text) {
        Ok(octets) => octets,
        Err(conflict) => return Stored::Conflict(conflict),
    };
    let answer = buffer.lock(rt).begin_told(class, octets, fresh);
    let begun = match answer {
        Ok(begun) => begun,
        Err(told) => match told {
            Ok(fault) => return Stored::Failed(fault),
            Err(conflict) => return Stored::Conflict(conflict),
        },
    };
    let mut entered = Record::enter(rt, register, begun, text);
    if let Err(fault) = write_all(rt, buffer, register, &mut entered, text) {
        return give_up(rt, buffer, register, entered, fault);
    }
    let finished = buffer.lock(rt).finish(register, entered);
    match finished {
        Ok(finished) => Stored::Kept(finished),
        Err((conflict, entered)) => {
            give_up(
                rt,
                buffer,
                register,
                entered,
                WriteFault::Conflict(conflict),
            )
        }
    }
}

/// Writes all blocks of a record's text, each under the lock.
fn write_all<S: BlockStore, J: StorePremises, R: Wait>(
    rt: &R,
    buffer: &Mutex<NumberedBuffer<S, J>>,
    register: &ArticleLog,
    entered: &mut Entered,
    text: &[u8],
) -> Result<(), WriteFault>
    requires register { register.now ≡ J.register }
    requires shown { Shows J.register (shown_of entered.old) }
    requires text { text.now ≡ text_in (shown_of entered.old) }
    requires none { written_with entered.old ≡ 0 }
    ensures fault { IfErr result (IsWriteFault text.now) }
    ensures record { shown_of entered.new ≡ shown_of entered.old }
    ensures all { OnOk result (written_with entered.new ≡ blocks_of entered.new) }
{
    for _block in 0..entered.blocks() {
        let _last = buffer.lock(rt).write_next(register, entered, text)?;
    }
    Ok(())
}

/// Abandons a record's write, and tells why.
fn give_up<S: BlockStore, J: StorePremises, R: Wait>(
    rt: &R,
    buffer: &Mutex<NumberedBuffer<S, J>>,
    register: &ArticleLog,
    entered: Entered,
    fault: WriteFault,
) -> Stored<J>
    requires register { register.now ≡ J.register }
    requires shown { Shows J.register (shown_of entered) }
    ensures { IsGivenUp fault result }
{
    let _conflict = buffer.lock(rt).abandon(register, entered);
    match fault {
        WriteFault::Conflict(conflict) => Stored::Conflict(conflict),
        WriteFault::Device(fault) => Stored::Failed(fault),
    }
}
