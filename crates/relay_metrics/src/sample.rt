//! A metric family with its samples.
ghost use Rattle.std.specs.Prelude.{◌≡◌, ◌++◌, OnOk, flat_map, map};
ghost use Rattle.std.specs.List.{list_any};
ghost use Rattle.relay_metrics.specs.Exposition.{family_head, has_sample, label_text, sample};
ghost use Rattle.relay_metrics.specs.Exposition.{sample_text, unit_line};
ghost use Rattle.relay_metrics.specs.Exposition as terms;
ghost use Rattle.relay_metrics.specs.Families.{family_view};
ghost use Rattle.relay_metrics.specs.Lines.{line_view};

use crate::escaped::put_escaped;
use crate::families::{Family, kind_word, name_end, value_in};
use crate::lines::Line;
use crate::written::put;
use std::alloc::AllocError;

/// Puts a family that has samples of these lines, with them in the lines' order.
pub(crate) fn put_family(
    text: &mut Vec<u8>,
    family: &Family,
    lines: &[Line<'_>],
) -> Result<(), AllocError>
    ensures { OnOk result (text.new.items ≡ text.old.items
        ++ terms.family_text (map line_view lines.now) (family_view family.now)) }
{
    if !has_samples(family, lines) {
        return Ok(());
    }
    put_head(text, family)?;
    put_samples(text, family, lines)
}

/// Whether a family has a sample of one of these lines.
fn has_samples(family: &Family, lines: &[Line<'_>]) -> bool
    ensures { result ≡ list_any (has_sample (family_view family.now)) (map line_view lines.now) }
{
    for line in lines {
        if value_in(family, line).is_some() {
            return true;
        }
    }
    false
}

/// Puts the samples that a family has of these lines.
fn put_samples(text: &mut Vec<u8>, family: &Family, lines: &[Line<'_>]) -> Result<(), AllocError>
    ensures { OnOk result (text.new.items ≡ text.old.items
        ++ flat_map (sample (family_view family.now)) (map line_view lines.now)) }
{
    for line in lines {
        put_line_sample(text, family, line)?;
    }
    Ok(())
}

/// Puts the sample that a family has of a line.
fn put_line_sample(text: &mut Vec<u8>, family: &Family, line: &Line<'_>) -> Result<(), AllocError>
    ensures { OnOk result (text.new.items ≡ text.old.items
        ++ sample (family_view family.now) (line_view line.now)) }
{
    match value_in(family, line) {
        Some(value) => put_sample(text, family, line.name, value),
        None => Ok(()),
    }
}

/// Puts a sample with this value.
pub(crate) fn put_sample(
    text: &mut Vec<u8>,
    family: &Family,
    name: &[u8],
    value: &[u8],
) -> Result<(), AllocError>
    ensures { OnOk result (text.new.items ≡ text.old.items
        ++ sample_text (family_view family.now) name.now value.now) }
{
    put(text, &[family.base, name_end(family.kind)])?;
    put_label(text, family.label, name)?;
    put(text, &[b" ", value, b"\n"])
}

/// Puts a label with its value, where there is such a label.
fn put_label(text: &mut Vec<u8>, label: &[u8], value: &[u8]) -> Result<(), AllocError>
    ensures { OnOk result (text.new.items ≡ text.old.items ++ label_text label.now value.now) }
{
    if label.is_empty() {
        return Ok(());
    }
    put(text, &[b"{", label, b"=\""])?;
    put_escaped(text, value)?;
    text.extend_from_slice(b"\"}")
}

/// Puts what stands before the samples of a family.
pub(crate) fn put_head(text: &mut Vec<u8>, family: &Family) -> Result<(), AllocError>
    ensures { OnOk result (text.new.items
        ≡ text.old.items ++ family_head (family_view family.now)) }
{
    let end = name_end(family.kind);
    put(
        text,
        &[b"# HELP ", family.base, end, b" ", family.help, b"\n"],
    )?;
    put(
        text,
        &[
            b"# TYPE ",
            family.base,
            end,
            b" ",
            kind_word(family.kind),
            b"\n",
        ],
    )?;
    put_unit(text, family)
}

/// Puts the unit of a family, where it has one.
fn put_unit(text: &mut Vec<u8>, family: &Family) -> Result<(), AllocError>
    ensures { OnOk result (text.new.items
        ≡ text.old.items ++ unit_line (family_view family.now)) }
{
    if family.unit.is_empty() {
        return Ok(());
    }
    put(text, &[b"# UNIT ", family.base, b" ", family.unit, b"\n"])
}
