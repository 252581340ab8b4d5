//! Adding buffers to the relay that was stopped in a folder (docs/PROTOCOL.md, `add-buffer`).
ghost use Rattle.relay_command.specs.Adding.{HandedTo};
ghost use Rattle.relay_command.specs.Run.{AddsFolder};
ghost use Rattle.relay_adding.specs.Telling.{AddsRightly};

use crate::failure::Failure;
use crate::load::load;
use relay_conf::Config;
use relay_report::ServeError;
use std::alloc::Global;
use std::fs::Files;
use std::io::Write;

/// Has the buffers added that the configuration in a folder, which is read first, has behind the
/// others.
pub fn add_in<S: Files, W: Write, D>(
    rt: &S,
    alloc: Global,
    folder: &str,
    writer: &mut W,
    add: D,
) -> Result<(), Failure>
where
    D: FnOnce(&Config, &str, &mut W) -> Result<(), ServeError>,
    requires called { D.IsAlwaysCallable add }
    requires rightly { AddsRightly W.contents (D.post add) }
    ensures { AddsFolder (HandedTo W.contents (D.post add)) folder.now result
        (W.contents writer.old) (W.contents writer.new) }
{
    let config = match load(rt, alloc, folder) {
        Ok(config) => config,
        Err(error) => return Err(Failure::Check(error)),
    };
    let added = add(&config, folder, writer);
    drop(config);
    match added {
        Ok(()) => Ok(()),
        Err(error) => Err(Failure::Serve(error)),
    }
}
