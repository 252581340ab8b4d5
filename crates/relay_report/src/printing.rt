//! The report at the end is printed.
ghost use Rattle.relay_report.specs.Serve.{PrintGives};

use crate::fault::ServeError;
use crate::totals::{Totals, report_totals};
use crate::written::put;
use std::alloc::Global;
use std::io::Write;

/// Writes the report of the totals (docs/FORMATS.md, Report).
pub fn print_totals<W: Write>(
    alloc: Global,
    totals: &Totals,
    writer: &mut W,
) -> Result<(), ServeError>
    ensures { PrintGives totals.now result (W.contents writer.old) (W.contents writer.new) }
{
    let text = report_totals(alloc, totals)?;
    match put(writer, &text) {
        Ok(()) => Ok(()),
        Err(_) => Err(ServeError::Unwritten),
    }
}
