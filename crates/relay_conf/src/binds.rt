//! The addresses on which ports listen (docs/FORMATS.md, Configuration).
ghost use Rattle.std.specs.Prelude.{◌≡◌, ◌∷◌, ◌++◌, [], bytes_eq, IfOk, OnOk};
ghost use Rattle.std.specs.List.{list_any};
ghost use Rattle.relay_conf.specs.Faults.{LineGives};
ghost use Rattle.relay_conf.specs.Relay as terms;

use crate::faults::{Fault, Refusal};
use std::alloc::AllocError;

/// The address without `bind`: 0.0.0.0, all IPv4 addresses of the machine.
const EACH_ADDRESS: [u8; 16] = [0, 0, 0, 0, 0, 0, 0, 0, 0, 0, 255, 255, 0, 0, 0, 0];

/// Adds an address to listen on; a second time it is Duplicate.
pub(crate) fn add_bind(binds: &mut Vec<[u8; 16]>, address: [u8; 16]) -> Result<(), Refusal>
    ensures fault { LineGives result (terms.again_fault binds.old.items address) }
    ensures kept { OnOk result (binds.new.items ≡ binds.old.items ++ address ∷ []) }
{
    if has_bind(binds, address) {
        return Err(Refusal::Faulty(Fault::Duplicate));
    }
    binds.push(address)?;
    Ok(())
}

/// Whether the address is one of these.
fn has_bind(binds: &[[u8; 16]], address: [u8; 16]) -> bool
    ensures { result ≡ list_any (bytes_eq address) binds.now }
{
    binds.iter().any(|bind| *bind == address)
}

/// The addresses that lines say, or the one without `bind`.
pub(crate) fn binds_or_each(said: Vec<[u8; 16]>) -> Result<Vec<[u8; 16]>, AllocError>
    ensures { IfOk result (λ binds. binds.items ≡ terms.binds_or_each said.items) }
{
    let mut binds = said;
    if binds.is_empty() {
        binds.push(EACH_ADDRESS)?;
    }
    Ok(binds)
}
