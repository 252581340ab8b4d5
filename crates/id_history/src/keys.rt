//! The texts by which the map of a shard is keyed: those of message-ids.
ghost use Rattle.std.specs.Prelude.{◌≡◌, None, IfOk, option_map};
ghost use Rattle.cyc_token.specs.Token.{token_view};
ghost use Rattle.id_history.specs.History.{IdFits};
ghost use Rattle.id_history.specs.Views.{id_view};
ghost use Rattle.news_terms.specs.MessageId.{id_fault};

use crate::kept::KeptId;
use cyc_token::Token;
use nntp_text::MsgId;
use std::alloc::{AllocError, Global};

/// The message-id of a text that is one.
pub(crate) fn id_of(alloc: Global, text: &str) -> Result<MsgId, AllocError>
    requires { id_fault text.now ≡ None }
    ensures { IfOk result (λ id. id ≡ text.now) }
{
    match MsgId::parse(alloc, text.as_bytes()) {
        Ok(id) => Ok(id),
        Err(_) => Err(AllocError),
    }
}

/// The text of a message-id, by which the map finds it.
pub(crate) fn text_of(id: &MsgId) -> &str
    ensures value { result.now ≡ id.now }
    ensures no_fault { id_fault id.now ≡ None }
{
    let _octets = id.as_bytes();
    id.as_str()
}

/// The message-id with what lasts of it, which has room in the text of a history.
pub(crate) fn kept(id: MsgId, token: Option<Token>, moment: u64) -> KeptId
    ensures value { id_view result
        ≡ record { id = id; token = option_map token_view token; moment = moment } }
    ensures fits { IdFits (id_view result) }
{
    let _octets = id.as_bytes();
    KeptId { id, token, moment }
}
