//! What the numbers of a history stand for (docs/FORMATS.md, Names file).
ghost use Rattle.std.specs.Prelude.{◌≡◌, ◌++◌, ◌∷◌, [], OnOk, map};
ghost use Rattle.std.specs.Option.{option_to_list};
ghost use Rattle.line_words.specs.Words.{words};
ghost use Rattle.line_words.specs.declared.words.Between.TheVariants.{Spaces};
ghost use Rattle.relay_names.specs.Text.{buffer_of, feed_of, group_of};
ghost use Rattle.relay_names.specs.Views.{group_view, line_view, names_view};

use crate::lines::{Line, words_of};
use line_words::Octets;
use std::alloc::{AllocError, Global};

/// A group's name, and the names of its buffers in the order of its list.
pub struct GroupNames {
    pub name: Octets,
    pub buffers: Vec<Octets>,
}

// Written out, so that no crate above proves anew how each part is let go.
impl Drop for GroupNames {
    fn drop(self) {
        let GroupNames {
            name: _,
            buffers: _,
        } = self;
    }
}

/// The names of the buffers, of the groups, and of the feeds' peers, each kind in the order of its
/// numbers.
pub struct Names {
    pub buffers: Vec<Octets>,
    pub groups: Vec<GroupNames>,
    pub feeds: Vec<Octets>,
}

// Written out, so that no crate above proves anew how each part is let go.
impl Drop for Names {
    fn drop(self) {
        let Names {
            buffers: _,
            groups: _,
            feeds: _,
        } = self;
    }
}

impl Names {
    /// No names.
    pub(crate) fn new(alloc: Global) -> Names
        ensures { names_view result ≡ record { buffers = []; groups = []; feeds = [] } }
    {
        Names {
            buffers: Vec::new(alloc),
            groups: Vec::new(alloc),
            feeds: Vec::new(alloc),
        }
    }

    /// Adds the name that a line says; one that begins a part says none.
    pub(crate) fn add(&mut self, alloc: Global, line: Line<'_>) -> Result<(), AllocError>
        ensures buffers { OnOk result (self.new.buffers.items
            ≡ self.old.buffers.items ++ option_to_list (buffer_of (line_view line.entry))) }
        ensures groups { OnOk result (map group_view self.new.groups.items
            ≡ map group_view self.old.groups.items
            ++ option_to_list (group_of (line_view line.entry))) }
        ensures feeds { OnOk result (self.new.feeds.items
            ≡ self.old.feeds.items ++ option_to_list (feed_of (line_view line.entry))) }
    {
        match line {
            Line::At(_) | Line::After(_) => Ok(()),
            Line::Buffer(name) => push_name(alloc, &mut self.buffers, name),
            Line::Group(name, text) => push_group(alloc, &mut self.groups, name, text),
            Line::Feed(name) => push_name(alloc, &mut self.feeds, name),
        }
    }
}

/// Keeps a name.
pub(crate) fn push_name(
    alloc: Global,
    names: &mut Vec<Octets>,
    name: &[u8],
) -> Result<(), AllocError>
    ensures { OnOk result (names.new.items ≡ names.old.items ++ name.now ∷ []) }
{
    let name = Octets::copied(alloc, name)?;
    names.push(name)?;
    Ok(())
}

/// Keeps a group of this name and of the buffers whose names are the words of a text.
fn push_group(
    alloc: Global,
    groups: &mut Vec<GroupNames>,
    name: &[u8],
    text: &[u8],
) -> Result<(), AllocError>
    ensures { OnOk result (map group_view groups.new.items ≡ map group_view groups.old.items
        ++ record { name = name.now; buffers = words Spaces text.now } ∷ []) }
{
    let name = Octets::copied(alloc, name)?;
    let buffers = words_of(alloc, text)?;
    groups.push(GroupNames { name, buffers })?;
    Ok(())
}
