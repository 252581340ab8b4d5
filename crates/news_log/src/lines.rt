//! The lines of articles that were refused or accepted.
ghost use Rattle.std.specs.Prelude.{◌≡◌, ◌++◌, IfOk, codes};
ghost use Rattle.news_log.specs.Lines.{IsAcceptedLine, IsRefusedLine};

use crate::feeds::put_feeds;
use crate::moments::Moment;
use crate::stamps::news_stamp;
use itoa::Buffer;
use relay_conf::Relay;
use std::alloc::{AllocError, Global};

/// How many octets have room in a line before more is asked for.
const LINE_OCTETS: usize = 256;

/// The line of an article that a peer offered or sent at this moment and that was refused: with the
/// code of the answer, and why.
pub fn refused_line(
    alloc: Global,
    moment: &Moment,
    peer: &[u8],
    id: &[u8],
    code: &str,
    why: &str,
) -> Result<Vec<u8>, AllocError>
    ensures { IfOk result (λ line. IsRefusedLine moment.now peer.now id.now code.now why.now
        line.items) }
{
    let stamp = news_stamp(moment);
    let mut line = begun(alloc, stamp, b" - ", peer, id)?;
    line.extend_from_slice(code.as_bytes())?;
    line.push(b' ')?;
    line.extend_from_slice(why.as_bytes())?;
    line.push(b'\n')?;
    Ok(line)
}

/// The line of an article of so many octets that a peer sent and that was accepted at this moment:
/// with the names of the peers of these feeds, to which it goes. A number of no feed adds nothing.
pub fn accepted_line(
    alloc: Global,
    moment: &Moment,
    peer: &[u8],
    id: &[u8],
    size: u64,
    relay: &Relay,
    feeds: &[u16],
) -> Result<Vec<u8>, AllocError>
    ensures { IfOk result (λ line. IsAcceptedLine moment.now peer.now id.now size relay.now
        feeds.now line.items) }
{
    let stamp = news_stamp(moment);
    let mut line = begun(alloc, stamp, b" + ", peer, id)?;
    let mut digits = Buffer::new();
    line.extend_from_slice(digits.format(size).as_bytes())?;
    put_feeds(&mut line, relay, feeds)?;
    line.push(b'\n')?;
    Ok(line)
}

/// The front of a line: the moment, what became of the article, the peer and the message-id, with a
/// space behind it.
fn begun(
    alloc: Global,
    stamp: [u8; 19],
    became: &[u8],
    peer: &[u8],
    id: &[u8],
) -> Result<Vec<u8>, AllocError>
    ensures { IfOk result (λ line. line.items
        ≡ stamp ++ (became.now ++ (peer.now ++ (codes " " ++ (id.now ++ codes " "))))) }
{
    let mut line = Vec::with_capacity(alloc, LINE_OCTETS)?;
    line.extend_from_slice(&stamp)?;
    line.extend_from_slice(became)?;
    line.extend_from_slice(peer)?;
    line.push(b' ')?;
    line.extend_from_slice(id)?;
    line.push(b' ')?;
    Ok(line)
}
