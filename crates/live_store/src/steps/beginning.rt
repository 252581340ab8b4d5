//! How a writer's article is begun.
use super::handles::{Conflict, refused};
use crate::numbered::NumberedBuffer;
use crate::record::StorePremises;
use crate::writing::Begun;
use cyc_block::BlockStore;
use cyc_buffer::Fault;

impl<S: BlockStore, J: StorePremises> NumberedBuffer<S, J> {
    ghost use Rattle.std.specs.Prelude.{◌≡◌, ◌≤◌, Bool, IfErr, IfOk, IsSomeAnd, OnOk};
    ghost use Rattle.cyc_buffer.specs.Agreement.{Agrees, Follows};
    ghost use Rattle.cyc_buffer.specs.Answers.{refusal};
    ghost use Rattle.cyc_buffer.specs.History.{History, with_begin};
    ghost use Rattle.live_store.specs.Handles.{IsOfBegin, IsRefusedAs, IsWornOf, begun_fresh};
    ghost use Rattle.live_store.specs.Handles.{begun_token};
    ghost use Rattle.live_store.specs.Steps.{buffer_of};

    /// Begins an article for a writer, as `begin`: what is refused is told as a fault, or as in
    /// conflict.
    pub(crate) fn begin_told(
        &mut self,
        class: u8,
        length: u32,
        fresh: bool,
    ) -> Result<Begun, Result<Fault, Conflict>>
        requires { 1 ≤ length }
        ensures begun { OnOk result
            (Follows (with_begin class length fresh) (buffer_of self.old) (buffer_of self.new)) }
        ensures length { IfOk result (λ begun. (begun_token begun).length ≡ length) }
        ensures class { IfOk result (λ begun. (begun_token begun).class ≡ class) }
        ensures fresh { IfOk result (λ begun. begun_fresh begun ≡ fresh) }
        // It is refused for the buffer's first reason, which is told.
        ensures refused { IfErr result (λ told. (trusted : Bool) (h : History)
            → Agrees trusted (buffer_of self.old) h → IsSomeAnd (refusal h length fresh)
            (λ error. IsRefusedAs error told)) }
        ensures fault { IfErr result (λ told. IfOk told (IsWornOf length)) }
        ensures conflict { IfErr result (λ told. IfErr told IsOfBegin) }
    {
        match self.begin(class, length, fresh) {
            Ok(begun) => Ok(begun),
            Err(error) => Err(refused(error)),
        }
    }
}
