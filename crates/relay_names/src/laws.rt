//! Laws of the text of names. Nothing of the code stands on them.
ghost use Rattle.std.specs.Prelude.{◌≡◌, ◌++◌, None, Some, codes};
ghost use Rattle.relay_names.specs.Examples.{empty_parts, empty_told, first, first_text};
ghost use Rattle.relay_names.specs.Examples.{later_names, loose_text, odd_group, odd_told};
ghost use Rattle.relay_names.specs.Examples.{own_names, third, third_text};
ghost use Rattle.relay_names.specs.Names.{Told, names_at};
ghost use Rattle.relay_names.specs.Text.{told_octets, told_of, IsWritable};

/// What is told is read again as it was written.
pub fn read_back()
    ensures { (told : Told) → IsWritable told → told_of (told_octets told) ≡ Some told }
{}

/// Worked texts, as they are written.
pub fn worked_texts()
    ensures third { told_octets third ≡ third_text }
    ensures first { told_octets first ≡ first_text }
    ensures empty { told_octets empty_told ≡ empty_parts }
    ensures odd { told_octets odd_told ≡ odd_group }
{}

/// The same as they are read; spaces, zeros in front of a number, a CR before an LF and the order
/// of the kinds between each other make no difference.
pub fn texts_that_are_read()
    ensures third { told_of third_text ≡ Some third }
    ensures first { told_of first_text ≡ Some first }
    ensures loose { told_of loose_text ≡ Some first }
    ensures empty { told_of empty_parts ≡ Some empty_told }
    ensures odd { told_of odd_group ≡ Some odd_told }
{}

/// Texts that tell nothing, by their lines: lines that are none, that have no LF, or that have a
/// word too few or too many.
pub fn lines_that_are_refused()
    ensures nothing { told_of (codes "") ≡ None }
    ensures unended { told_of (codes "after 3\nfeed p2") ≡ None }
    ensures empty { told_of (codes "after 3\n\n") ≡ None }
    ensures unknown { told_of (codes "after 3\nclass 1\n") ≡ None }
    ensures unnamed_buffer { told_of (codes "after 3\nbuffer\n") ≡ None }
    ensures two_buffers { told_of (codes "after 3\nbuffer A B\n") ≡ None }
    ensures unnamed_group { told_of (codes "after 3\ngroup\n") ≡ None }
    ensures unnamed_feed { told_of (codes "after 3\nfeed\n") ≡ None }
    ensures two_feeds { told_of (codes "after 3\nfeed p2 p3\n") ≡ None }
{}

/// Texts that tell nothing, by their numbers: none, two, no digits, or 2^64.
pub fn numbers_that_are_refused()
    ensures none { told_of (codes "after\n") ≡ None }
    ensures two { told_of (codes "after 3 3\n") ≡ None }
    ensures hexadecimal { told_of (codes "after 0x3\n") ≡ None }
    ensures large { told_of (codes "after 18446744073709551616\n") ≡ None }
{}

/// Texts that tell nothing, by their parts: one of another stop, one that is there twice, one that
/// isn't there, and lines before the first.
pub fn parts_that_are_refused()
    ensures another { told_of (codes "at 3\nafter 4\n") ≡ None }
    ensures at_twice { told_of (codes "at 3\nat 3\nafter 3\n") ≡ None }
    ensures after_twice { told_of (codes "after 3\nafter 3\n") ≡ None }
    ensures no_after { told_of (codes "at 3\nfeed p2\n") ≡ None }
    ensures after_first { told_of (codes "after 3\nat 3\n") ≡ None }
    ensures unled { told_of (codes "feed p2\nafter 3\n") ≡ None }
{}

/// Of an earlier stop than is told of no names are known.
pub fn names_by_stops()
    ensures earlier { names_at third 2 ≡ None }
    ensures own { names_at third 3 ≡ Some own_names }
    ensures later { names_at third 4 ≡ Some later_names }
    ensures unknown { names_at first 0 ≡ None }
    ensures first { names_at first 1 ≡ Some later_names }
{}
