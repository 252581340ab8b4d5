//! A fetch out of the buffers that threads share.
ghost use Rattle.std.specs.Prelude.{◌≡◌};

use crate::shared::Shared;
use cyc_block::BlockStore;
use cyc_token::Token;
use live_store::{ArticleLog, Fetched, StorePremises, fetch};
use post_history::Naming;
use std::alloc::{AllocError, Global};
use std::sync::Wait;
use std::sync::ledger::Ledger;

impl<S: BlockStore + Drop, J: StorePremises + Naming, L: Ledger> Shared<S, J, L> {
    ghost use Rattle.std.specs.Prelude.{◌≤◌, IfOk, IsOk};
    ghost use Rattle.cyc_token.specs.Token.{token_view};
    ghost use Rattle.live_store.specs.Fetches.{IsFetched};
    ghost use Rattle.relay_live.specs.Making.{buffers_in};

    /// Fetches the text under a token, in any thread: one block at a time under the lock of the
    /// token's buffer. A text that is given whole is that of the record of its number, which has
    /// the token; gone is said with a front, unknown with its cause, and a device's failure with
    /// its fault.
    pub fn fetch<R: Wait>(
        &self,
        rt: &R,
        alloc: Global,
        register: &ArticleLog,
        token: &Token,
    ) -> Result<Fetched<J>, AllocError>
        requires { register.now ≡ J.register }
        ensures fetched { IfOk result
            (IsFetched J.trusted (buffers_in self.now) (token_view token.now)) }
        // Where no buffer has the token's number no memory is asked for.
        ensures unasked { buffers_in self.now ≤ (token_view token.now).buffer → IsOk result }
    {
        fetch(rt, alloc, self.buffers.locks(), register, token)
    }
}
