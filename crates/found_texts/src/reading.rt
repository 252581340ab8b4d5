//! All texts that are found are read and judged.
ghost use Rattle.std.specs.Prelude.{◌∷◌, [], IfErr, IfOk, OnOk, slice_get};
ghost use Rattle.std.specs.Option.{option_to_list};
ghost use Rattle.buffer_repair.specs.Finding.{tokens_at};
ghost use Rattle.found_again.specs.Lists.{all_of};
ghost use Rattle.found_texts.specs.Held.{AreHeld, IsReadFault, NoneFailed};
ghost use Rattle.found_texts.specs.Judging.{ReadsOne};
ghost use Rattle.found_texts.specs.Reading.{AreAmong, AreByBuffer, HasToken, ReadsAll, ReadsEach};
ghost use Rattle.found_texts.specs.Reading.{ReadsFurther, StayAmong};

use crate::fault::ReadFault;
use crate::gathering::read_text;
use crate::judging::judge;
use buffer_repair::FoundBufferSet;
use cyc_block::BlockStore;
use cyc_token::Token;
use found_again::FoundText;
use relay_conf::Relay;
use std::alloc::Global;

/// Reads each text that was found, and judges whether it is an article: those that are, each
/// buffer's in the order of its tokens. What is none is rejected. Memory is taken for one text at a
/// time beside what is given.
pub fn read_texts<S: BlockStore + Drop>(
    alloc: Global,
    found_set: &mut FoundBufferSet<S>,
    relay: &Relay,
) -> Result<Vec<Vec<FoundText>>, ReadFault>
    // Whatever was kept under the tokens, the articles of it are given and kept on, and no others.
    ensures read { IfOk result (λ texts.
        ReadsAll relay.now found_set.old (all_of texts.items) found_set.new) }
    ensures buffers { IfOk result (λ texts. AreByBuffer found_set.old texts.items) }
    // Nothing is written, and no device has failed but the one that is told.
    ensures unfailed { OnOk result (NoneFailed found_set.old found_set.new) }
    ensures refused { IfErr result (λ fault. IsReadFault found_set.old fault found_set.new) }
    ensures held { AreHeld found_set.old found_set.new }
{
    let count = found_set.count();
    let mut texts = Vec::new(alloc);
    for number in 0..count {
        let buffer = read_buffer(alloc, found_set, relay, number as u8)?;
        texts.push(buffer)?;
    }
    Ok(texts)
}

/// Reads the texts of the buffer of this number, in the order of their tokens.
fn read_buffer<S: BlockStore + Drop>(
    alloc: Global,
    found_set: &mut FoundBufferSet<S>,
    relay: &Relay,
    number: u8,
) -> Result<Vec<FoundText>, ReadFault>
    ensures read { IfOk result (λ texts. ReadsEach relay.now (tokens_at found_set.old number)
        found_set.old texts.items found_set.new) }
    ensures among { IfOk result (λ texts.
        AreAmong (tokens_at found_set.old number) texts.items) }
    ensures unfailed { OnOk result (NoneFailed found_set.old found_set.new) }
    ensures refused { IfErr result (λ fault. IsReadFault found_set.old fault found_set.new) }
    ensures held { AreHeld found_set.old found_set.new }
{
    let mut texts = Vec::new(alloc);
    for place in 0..found_set.token_count(number) {
        read_at(alloc, found_set, relay, number, place, &mut texts)?;
    }
    Ok(texts)
}

/// Reads the text under the token at this place of the buffer of this number, where there is one.
fn read_at<S: BlockStore + Drop>(
    alloc: Global,
    found_set: &mut FoundBufferSet<S>,
    relay: &Relay,
    number: u8,
    place: usize,
    texts: &mut Vec<FoundText>,
) -> Result<(), ReadFault>
    ensures read { OnOk result (ReadsFurther relay.now
        (option_to_list (slice_get (tokens_at found_set.old number) place))
        found_set.old texts.old.items found_set.new texts.new.items) }
    ensures among { AreAmong (tokens_at found_set.old number) texts.old.items
        → OnOk result (AreAmong (tokens_at found_set.old number) texts.new.items) }
    ensures unfailed { OnOk result (NoneFailed found_set.old found_set.new) }
    ensures refused { IfErr result (λ fault. IsReadFault found_set.old fault found_set.new) }
    ensures held { AreHeld found_set.old found_set.new }
{
    match found_set.token(number, place) {
        Some(token) => read_under(alloc, found_set, relay, token, texts),
        None => Ok(()),
    }
}

/// Reads the text under a token. Where it is an article it is put behind the others, else it is
/// rejected.
fn read_under<S: BlockStore + Drop>(
    alloc: Global,
    found_set: &mut FoundBufferSet<S>,
    relay: &Relay,
    token: Token,
    texts: &mut Vec<FoundText>,
) -> Result<(), ReadFault>
    ensures read { OnOk result (ReadsFurther relay.now (token ∷ [])
        found_set.old texts.old.items found_set.new texts.new.items) }
    ensures among { OnOk result (StayAmong token texts.old.items texts.new.items) }
    ensures unfailed { OnOk result (NoneFailed found_set.old found_set.new) }
    ensures refused { IfErr result (λ fault. IsReadFault found_set.old fault found_set.new) }
    ensures held { AreHeld found_set.old found_set.new }
{
    match read_one(alloc, found_set, relay, token)? {
        Some(text) => texts.push(text)?,
        None => found_set.reject(&token),
    }
    Ok(())
}

/// Reads the text under a token, and judges it: what the program has of it where it is an article.
fn read_one<S: BlockStore + Drop>(
    alloc: Global,
    found_set: &mut FoundBufferSet<S>,
    relay: &Relay,
    token: Token,
) -> Result<Option<FoundText>, ReadFault>
    ensures read { IfOk result (λ text.
        ReadsOne relay.now token found_set.old text found_set.new) }
    ensures token { IfOk result (λ text. HasToken token text) }
    ensures unfailed { OnOk result (NoneFailed found_set.old found_set.new) }
    ensures refused { IfErr result (λ fault. IsReadFault found_set.old fault found_set.new) }
    ensures held { AreHeld found_set.old found_set.new }
{
    match read_text(alloc, found_set, token)? {
        Some(octets) => {
            let text = judge(alloc, token, &octets, relay)?;
            Ok(text)
        }
        None => Ok(None),
    }
}
