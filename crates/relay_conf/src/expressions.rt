//! Expressions of newsgroups in configuration files.
ghost use Rattle.relay_conf.specs.Expressions.{ExpressionGives};

use crate::faults::{Fault, Refusal};
use std::alloc::Global;
use uwild::{Expr, WildError};

/// The expression that a text is.
pub(crate) fn expression_of(alloc: Global, text: &[u8]) -> Result<Expr, Refusal>
    ensures { ExpressionGives text.now result }
{
    match Expr::parse(alloc, text) {
        Ok(expression) => Ok(expression),
        Err(WildError::Memory) => Err(Refusal::Memory),
        Err(_) => Err(Refusal::Faulty(Fault::Pattern)),
    }
}
