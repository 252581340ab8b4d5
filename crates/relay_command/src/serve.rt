//! Serving a relay with the configuration in a folder (docs/PROTOCOL.md, `serve`).
ghost use Rattle.relay_command.specs.Run.{ServesFolder};
ghost use Rattle.relay_command.specs.Serving.{Handed, LivesRightly};

use crate::failure::Failure;
use crate::load::load;
use relay_conf::Config;
use relay_report::ServeError;
use std::alloc::Global;
use std::fs::Files;
use std::io::Write;

/// Has a relay served with the configuration in a folder, which is read first, until each of its
/// ports has served so many connections; without a number they have no end. Whether all its buffers
/// are to be formatted is handed on. What serves may go on with another configuration that the
/// folder has later.
pub fn serve_in<S: Files, W: Write, V>(
    rt: &S,
    alloc: Global,
    folder: &str,
    sessions: Option<u32>,
    fresh: bool,
    writer: &mut W,
    serve: V,
) -> Result<(), Failure>
where
    V: FnOnce(&Config, &str, Option<u32>, bool, &mut W) -> Result<(), ServeError>,
    requires called { V.IsAlwaysCallable serve }
    requires rightly { LivesRightly W.contents (V.post serve) }
    ensures { ServesFolder (Handed W.contents (V.post serve)) folder.now sessions fresh result
        (W.contents writer.old) (W.contents writer.new) }
{
    let config = match load(rt, alloc, folder) {
        Ok(config) => config,
        Err(error) => return Err(Failure::Check(error)),
    };
    let served = serve(&config, folder, sessions, fresh, writer);
    drop(config);
    match served {
        Ok(()) => Ok(()),
        Err(error) => Err(Failure::Serve(error)),
    }
}
