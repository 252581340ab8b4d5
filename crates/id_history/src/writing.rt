//! Writing the text of a history.
ghost use Rattle.std.specs.Prelude.{◌≡◌, ◌<◌, ◌^◌, ◌++◌, ⊤, ℕ, List, length, map, option_map};
ghost use Rattle.std.specs.Prelude.{IfOk, IfSome, OnOk};
ghost use Rattle.std.specs.Int.{to_be_bytes, w32, w64};
ghost use Rattle.std.specs.List.{All, AllByRecursion, flat_map};
ghost use Rattle.cyc_token.specs.Token.{token_view};
ghost use Rattle.news_terms.specs.Token.{IsToken, token_octets};
ghost use Rattle.news_terms.specs.Token as terms;
ghost use Rattle.id_history.specs.History.{fate_octets, id_octets, ids_octets, feed_octets, mark};
ghost use Rattle.id_history.specs.History.{history_octets, PositionFits, FeedFits, IdFits, Fits};
ghost use Rattle.id_history.specs.History as kept;
ghost use Rattle.id_history.specs.Room.{HasRoom};
ghost use Rattle.id_history.specs.Views.{id_view, feed_view, history_view};

use crate::kept::{History, KeptFeed, KeptId};
use crate::reading::MARK;
use cyc_token::Token;
use std::alloc::{AllocError, Global};

/// The text of the history.
pub fn write(alloc: Global, history: &History) -> Result<Vec<u8>, AllocError>
    requires { HasRoom history.now }
    ensures octets { IfOk result (λ text. text.items ≡ history_octets (history_view history.now)) }

    // Each part has room in the text, so that it can be read again.
    ensures fits { IfOk result (λ text. Fits (history_view history.now)) }
{
    let mut out = begun(alloc, history.stop, history.newest)?;
    put_counted(&mut out, &history.positions)?;
    put_counted(&mut out, &history.feeds)?;
    put_ids(&mut out, &history.ids)?;
    Ok(out)
}

/// The mark, and the numbers of the stop and of the newest session.
fn begun(alloc: Global, stop: u64, newest: u64) -> Result<Vec<u8>, AllocError>
    ensures { IfOk result (λ out. out.items
        ≡ mark ++ to_be_bytes w64 stop ++ to_be_bytes w64 newest) }
{
    [
        MARK.as_slice(),
        stop.to_be_bytes().as_slice(),
        newest.to_be_bytes().as_slice(),
    ]
    .concat(alloc)
}

/// A kind of which a history has many, one after the other.
trait Writable {
    // What one says.
    ghost Said: { Type 0 };

    // A value that says this.
    ghost said: { Self → Said };

    // Its octets.
    ghost octets: { Said → List ℕ };

    // Each part has room in the text.
    ghost Fits: { Said → Type 0 };

    // What is no part of its type: that the number of what it lists has room.
    ghost HasRoom: { Self → Type 0 };

    /// Puts the octets of one behind the others.
    fn put(&self, out: &mut Vec<u8>) -> Result<(), AllocError>
        requires { HasRoom self.now }
        ensures octets { OnOk result (out.new.items ≡ out.old.items ++ octets (said self.now)) }
        ensures fits { OnOk result (Fits (said self.now)) };
}

/// A number of four octets.
impl Writable for u32 {
    ghost Said = { ℕ };

    ghost said = { λ number. number };

    ghost octets = { to_be_bytes w32 };

    ghost Fits = { PositionFits };

    ghost HasRoom = { λ number. ⊤ };

    fn put(&self, out: &mut Vec<u8>) -> Result<(), AllocError> {
        out.extend_from_slice(&self.to_be_bytes())
    }
}

/// A number of eight octets.
fn put64(out: &mut Vec<u8>, number: u64) -> Result<(), AllocError>
    ensures { OnOk result (out.new.items ≡ out.old.items ++ to_be_bytes w64 number) }
{
    out.extend_from_slice(&number.to_be_bytes())
}

/// Those of a kind.
fn put_all<T: Writable>(out: &mut Vec<u8>, all: &[T]) -> Result<(), AllocError>
    requires { All T.HasRoom all.now }
    ensures octets { OnOk result
        (out.new.items ≡ out.old.items ++ flat_map T.octets (map T.said all.now)) }
    ensures fits { OnOk result (AllByRecursion T.Fits (map T.said all.now)) }
{
    for one in all {
        one.put(out)?;
    }
    Ok(())
}

/// Those of a kind, after their number of four octets.
fn put_counted<T: Writable>(out: &mut Vec<u8>, all: &[T]) -> Result<(), AllocError>
    requires number { length all.now < 2 ^ 32 }
    requires room { All T.HasRoom all.now }
    ensures octets { OnOk result (out.new.items ≡ out.old.items
        ++ (to_be_bytes w32 (length (map T.said all.now))
        ++ flat_map T.octets (map T.said all.now))) }
    ensures fits { OnOk result (AllByRecursion T.Fits (map T.said all.now)) }
{
    match (all.len() as u32).put(out) {
        Ok(()) => put_all(out, all),
        Err(error) => Err(error),
    }
}

/// A feed.
impl Writable for KeptFeed {
    ghost Said = { kept.KeptFeed };

    ghost said = { feed_view };

    ghost octets = { feed_octets };

    ghost Fits = { FeedFits };

    ghost HasRoom = { λ feed. length feed.waiting.items < 2 ^ 32 };

    fn put(&self, out: &mut Vec<u8>) -> Result<(), AllocError> {
        let counts = [
            self.gained.to_be_bytes(),
            self.passed.to_be_bytes(),
            self.taken.to_be_bytes(),
        ];
        match out.extend_from_slice(counts.as_flattened()) {
            Ok(()) => put_counted(out, &self.waiting),
            Err(error) => Err(error),
        }
    }
}

/// A token.
impl Writable for Token {
    ghost Said = { terms.Token };

    ghost said = { token_view };

    ghost octets = { token_octets };

    ghost Fits = { IsToken };

    ghost HasRoom = { λ token. ⊤ };

    fn put(&self, out: &mut Vec<u8>) -> Result<(), AllocError> {
        out.extend_from_slice(&self.octets())
    }
}

/// The message-ids, after their number of eight octets.
fn put_ids(out: &mut Vec<u8>, ids: &[KeptId]) -> Result<(), AllocError>
    ensures octets { OnOk result
        (out.new.items ≡ out.old.items ++ ids_octets (map id_view ids.now)) }
    ensures fits { OnOk result (AllByRecursion IdFits (map id_view ids.now)) }
{
    match put64(out, ids.len() as u64) {
        Ok(()) => put_all(out, ids),
        Err(error) => Err(error),
    }
}

/// A message-id, with what became of it.
impl Writable for KeptId {
    ghost Said = { kept.KeptId };

    ghost said = { id_view };

    ghost octets = { id_octets };

    ghost Fits = { IdFits };

    ghost HasRoom = { λ one. ⊤ };

    fn put(&self, out: &mut Vec<u8>) -> Result<(), AllocError> {
        let octets = self.id.as_bytes();
        out.push(octets.len() as u8)?;
        out.extend_from_slice(octets)?;
        put_fate(out, self.token, self.moment)
    }
}

/// What became of a message-id.
fn put_fate(out: &mut Vec<u8>, token: Option<Token>, moment: u64) -> Result<(), AllocError>
    ensures octets { OnOk result
        (out.new.items ≡ out.old.items ++ fate_octets (option_map token_view token) moment) }
    ensures token { OnOk result (IfSome (option_map token_view token) IsToken) }
    ensures moment { OnOk result (moment < 2 ^ 64) }
{
    match token {
        None => {
            out.push(1)?;
            put64(out, moment)
        }
        Some(token) => {
            out.push(2)?;
            put64(out, moment)?;
            token.put(out)
        }
    }
}
