//! What is told of a relay that takes no new articles for now (docs/PROTOCOL.md, `pause` and `go`).
ghost use Rattle.std.specs.Prelude.{◌≡◌, ◌++◌, List, ℕ, IfOk, OnOk};
ghost use Rattle.relay_gate.specs.Gates.{ArePeersTold, names_of};
ghost use Rattle.relay_report.specs.Report.{text_of_figures};
ghost use Rattle.relay_serve.specs.Filled.{sizes_text};
ghost use Rattle.relay_serve.specs.Pausing.{paused_text, told_so};

use crate::served::told_of;
use relay_conf::Config;
use relay_gate::CountingGate;
use relay_report::Figures;
use std::alloc::{AllocError, Global};
use std::sync::Wait;

/// What whoever asked for it is told: that no new articles are taken, or that they are again.
pub(crate) fn told_so(paused: bool) -> &'static [u8]
    ensures { result.now ≡ told_so paused }
{
    if paused { b"paused\n" } else { b"going\n" }
}

/// Tells that it is so from now on.
pub(crate) fn tell_change<R: Eprint>(rt: &R, paused: bool) {
    let word = if paused { "pausing" } else { "going" };
    let _lost = eprintln!(rt; "{word}");
}

/// What is told of these figures (`told_of`), and behind it that no new articles are taken, where
/// that is so.
pub(crate) fn told_while<R: Wait>(
    rt: &R,
    alloc: Global,
    config: &Config,
    figures: &Figures,
    gate: &CountingGate<'_>,
    paused: bool,
) -> Result<Vec<u8>, AllocError>
    ensures { IfOk result (λ text. (peers : List ℕ) × ArePeersTold (names_of gate.now) peers
        × (text.items ≡ (text_of_figures figures.now
        ++ (peers ++ sizes_text config.now.buffers.buffers.items figures.now.buffers.items))
        ++ paused_text paused)) }
{
    let mut text = told_of(rt, alloc, config, figures, gate)?;
    put_paused(&mut text, paused)?;
    Ok(text)
}

/// Puts the line of a report that no new articles are taken, where that is so.
fn put_paused(text: &mut Vec<u8>, paused: bool) -> Result<(), AllocError>
    ensures { OnOk result (text.new.items ≡ text.old.items ++ paused_text paused) }
{
    if paused {
        text.extend_from_slice(b"paused\n")
    } else {
        Ok(())
    }
}
