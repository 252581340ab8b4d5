//! Names of peers, and sets of them.
ghost use Rattle.std.specs.Prelude.{◌≡◌, ◌||◌, ℕ, List, not, bytes_eq, Some, None, if◌then◌else◌};
ghost use Rattle.std.specs.Prelude.{IfOk, OnOk};
ghost use Rattle.std.specs.HashSet.{contains_text};
ghost use Rattle.std.specs.Option.{option_copied};
ghost use Rattle.relay_conf.specs.Words as terms;

use crate::words::is_name;
use std::alloc::{AllocError, Global};
use std::collections::HashSet;

/// The word as a name, where it is one.
pub(crate) fn name_of(word: &[u8]) -> Option<&str>
    ensures { option_copied result ≡ (if terms.is_name word.now then Some word.now else None) }
{
    if !is_name(word) {
        return None;
    }
    str::from_utf8(word).ok()
}

/// Adds a name, and answers whether it is new.
pub(crate) fn add_name(
    alloc: Global,
    names: &mut HashSet<String>,
    name: &str,
) -> Result<bool, AllocError>
    ensures added { IfOk result (λ added. added ≡ not (contains_text names.old name.now)) }
    ensures names { OnOk result ((other : List ℕ) → contains_text names.new other
        ≡ (bytes_eq name.now other || contains_text names.old other)) }
{
    let key = String::from_str(alloc, name)?;
    let added = names.insert(key)?;
    Ok(added)
}
