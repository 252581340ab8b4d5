//! Which buffers are to be added to a relay that was stopped.
ghost use Rattle.std.specs.Prelude.{◌≡◌, ◌<◌, ◌≤◌, ℕ, false, true, length, IfErr, IfOk, MatchBool};
ghost use Rattle.std.specs.Prelude.{Some, slice_get};
ghost use Rattle.relay_adding.specs.Choosing.{AreAddedFrom, IsBlankBefore};

/// The number of the first buffer that is to be added, by what is said of each buffer's file:
/// whether it has zeros alone. Those behind it are to be added too; where none is, it is how many
/// there are. The error is the number of one that has zeros alone, and is none of them.
pub fn first_added(blank: &[bool]) -> Result<usize, usize>
    ensures added { IfOk result (AreAddedFrom blank.now) }
    ensures refused { IfErr result (IsBlankBefore blank.now) }
{
    let first = kept_before(blank);
    if first < blank.len() && (first == 0 || is_before_kept(blank, first)) {
        return Err(first);
    }
    Ok(first)
}

/// How many come before the first whose file has zeros alone.
fn kept_before(blank: &[bool]) -> usize
    ensures within { result ≤ length blank.now }
    ensures kept { (b : ℕ) → b < result → slice_get blank.now b ≡ Some false }
    ensures next { result < length blank.now → slice_get blank.now result ≡ Some true }
{
    for number in 0..blank.len() {
        if blank[number] {
            return number;
        }
    }
    blank.len()
}

/// Whether one of those from this number on has something else than zeros.
fn is_before_kept(blank: &[bool], first: usize) -> bool
    ensures { MatchBool result
        ((b : ℕ) × (first ≤ b) × (slice_get blank.now b ≡ Some false))
        ((b : ℕ) → first ≤ b → b < length blank.now → slice_get blank.now b ≡ Some true) }
{
    for number in first..blank.len() {
        if !blank[number] {
            return true;
        }
    }
    false
}
