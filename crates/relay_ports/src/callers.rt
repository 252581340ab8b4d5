//! Who may connect to the ports of the peers (docs/FORMATS.md, relay.conf).
ghost use Rattle.std.specs.Prelude.{IfOk};
ghost use Rattle.relay_ports.specs.Callers.{AreCallers};

use live_wire::Callers;
use relay_conf::Relay;
use std::alloc::{AllocError, Global};

/// Who may connect to the port of each peer, in the order of the peers.
pub fn callers_of<'a>(alloc: Global, relay: &'a Relay) -> Result<Vec<Callers<'a>>, AllocError>
    ensures { IfOk result (λ callers. AreCallers relay.now callers.items) }
{
    let mut callers = Vec::new(alloc);
    for peer in 0..relay.peers.len() {
        callers.push(Callers::of(relay, peer))?;
    }
    Ok(callers)
}
