//! storage.conf: the classes of articles (docs/FORMATS.md, Configuration).
ghost use Rattle.std.specs.Prelude.{◌≡◌, map, None, Some, Ok, IfOk, OnOk};
ghost use Rattle.std.specs.Option.{option_to_list};
ghost use Rattle.relay_conf.specs.Drafts.{late_or};
ghost use Rattle.relay_conf.specs.Faults.{ConfGives, LineGives};
ghost use Rattle.relay_conf.specs.Lines.{lines_of};
ghost use Rattle.relay_conf.specs.Relay.{once};
ghost use Rattle.relay_conf.specs.Places.{group_view};
ghost use Rattle.relay_conf.specs.Settings.{buffers_view};
ghost use Rattle.relay_conf.specs.Storage.{entry_view};
ghost use Rattle.relay_conf.specs.StorageDraft.{StorageStep, NewsgroupsStep, draft_view};
ghost use Rattle.relay_conf.specs.StorageDraft.{stand_view, nothing, no_lines, opened, closed};
ghost use Rattle.relay_conf.specs.StorageDraft.{ended, grouped, draft_said, unknown_at};
ghost use Rattle.relay_conf.specs.StorageFile as terms;
ghost use Rattle.relay_conf.specs.StorageLines.{Closes};
ghost use Rattle.relay_conf.specs.StorageViews.{StorageGives, raw_view};

use crate::cycbuff::GroupConf;
use crate::drafts::{LineByLine, read_lines, set_once};
use crate::expressions::expression_of;
use crate::faults::{ConfError, Fault, LineFault, Refusal};
use crate::settings::{Buffers, StorageEntry};
use crate::storage_lines::{Line, Place, Sizes, storage_line};
use line_words::is;
use std::alloc::Global;
use std::mem;
use uwild::Expr;

/// The sizes without `size`.
const EVERY_SIZE: Sizes = Sizes {
    smallest: 0,
    largest: None,
};

/// Reads the text of storage.conf, over the groups of cycbuff.conf.
pub fn read_storage(
    alloc: Global,
    text: &[u8],
    buffers: &Buffers,
) -> Result<Vec<StorageEntry>, ConfError>
    ensures { StorageGives result (buffers_view buffers.now).groups (lines_of text.now) }
{
    let draft = read_lines(alloc, buffers, StorageDraft::new(alloc), text)?;
    finished(draft)
}

/// What the lines so far say.
#[derive(Drop)]
pub(crate) struct StorageDraft {
    storage_entries: Vec<StorageEntry>,
    /// Where the next line stands.
    place: Place,
    /// What is said of the open entry.
    entry: OpenEntry,
    /// The first fault that is looked for after the last line.
    late: Option<LineFault>,
}

/// What the lines of an entry so far say.
#[derive(Drop)]
pub(crate) struct OpenEntry {
    class: Option<u8>,
    newsgroups: Option<Expr>,
    group: Option<u16>,
    sizes: Option<Sizes>,
    exactmatch: Option<bool>,
}

impl OpenEntry {
    /// An entry of which nothing is said.
    fn new() -> OpenEntry
        ensures { stand_view result ≡ nothing }
    {
        OpenEntry {
            class: None,
            newsgroups: None,
            group: None,
            sizes: None,
            exactmatch: None,
        }
    }
}

impl LineByLine for StorageDraft {
    ghost use Rattle.relay_conf.specs.Settings.{buffers_view};
    ghost use Rattle.relay_conf.specs.StorageDraft.{IsDraftOf};
    ghost use Rattle.relay_conf.specs.StorageFile.{LineSays, early_fault};
    ghost use Rattle.relay_conf.specs.StorageLines.{SaidLine};

    type Over = Buffers;

    ghost Said = { SaidLine };

    ghost Says = { LineSays };

    ghost wrong = { λ buffers. early_fault (buffers_view buffers).groups };

    ghost Draws = { λ buffers. IsDraftOf (buffers_view buffers).groups };

    fn add_line(
        &mut self,
        alloc: Global,
        over: &Buffers,
        number: usize,
        line: &[u8],
    ) -> Result<(), Refusal> {
        match storage_line(self.place, line) {
            Ok(said) => self.add(alloc, over, number, said),
            Err(fault) => Err(Refusal::Faulty(fault)),
        }
    }
}

impl StorageDraft {
    fn new(alloc: Global) -> StorageDraft
        ensures { draft_view result ≡ no_lines }
    {
        StorageDraft {
            storage_entries: Vec::new(alloc),
            place: Place::Outside,
            entry: OpenEntry::new(),
            late: None,
        }
    }

    /// Adds what the line of this number says.
    fn add(
        &mut self,
        alloc: Global,
        buffers: &Buffers,
        number: usize,
        said: Line<'_>,
    ) -> Result<(), Refusal>
        ensures { StorageStep (buffers_view buffers.now).groups number (draft_view self.old)
            (Ok (raw_view said.entry)) (draft_view self.new) result }
    {
        match said {
            Line::Skipped => Ok(()),
            Line::Opens(method) => self.open_entry(number, method),
            Line::Closes => self.close_entry(),
            Line::Ends => self.end_entry(),
            Line::Class(class) => set_once(&mut self.entry.class, class),
            Line::Newsgroups(text) => self.add_newsgroups(alloc, text),
            Line::Options(name) => self.add_options(buffers, number, name),
            Line::Size(sizes) => set_once(&mut self.entry.sizes, sizes),
            Line::ExactMatch(exact) => set_once(&mut self.entry.exactmatch, exact),
        }
    }

    /// Opens an entry of this method.
    fn open_entry(&mut self, number: usize, method: &[u8]) -> Result<(), Refusal>
        ensures opened { OnOk result (draft_view self.new
            ≡ opened number (draft_view self.old) method.now) }
        ensures taken { LineGives result None }
    {
        self.place = Place::InEntry;
        if !is(method, b"cnfs") {
            self.place = Place::InOther;
            self.note(number);
        }
        self.entry = OpenEntry::new();
        Ok(())
    }

    /// Closes the open entry of cnfs.
    fn close_entry(&mut self) -> Result<(), Refusal>
        ensures fault { LineGives result
            (terms.line_fault (stand_view self.old.entry) (Ok Closes)) }
        ensures entries { OnOk result (draft_view self.new ≡ closed (draft_view self.old)) }
    {
        let entry = mem::replace(&mut self.entry, OpenEntry::new());
        self.storage_entries.push(storage_entry_of(entry)?)?;
        self.place = Place::Outside;
        Ok(())
    }

    /// Ends the open entry of another method.
    fn end_entry(&mut self) -> Result<(), Refusal>
        ensures ended { OnOk result (draft_view self.new ≡ ended (draft_view self.old)) }
        ensures taken { LineGives result None }
    {
        self.entry = OpenEntry::new();
        self.place = Place::Outside;
        Ok(())
    }

    /// Adds the expression that a text is.
    fn add_newsgroups(&mut self, alloc: Global, text: &[u8]) -> Result<(), Refusal>
        ensures { NewsgroupsStep text.now (draft_view self.old) (draft_view self.new) result }
    {
        let expression = expression_of(alloc, text)?;
        set_once(&mut self.entry.newsgroups, expression)
    }

    /// Adds the group of a name.
    fn add_options(&mut self, buffers: &Buffers, number: usize, name: &[u8]) -> Result<(), Refusal>
        ensures fault { LineGives result (once (option_to_list self.old.entry.group)) }
        ensures group { OnOk result (draft_view self.new
            ≡ grouped (buffers_view buffers.now).groups number (draft_view self.old) name.now) }
    {
        let group = group_number(buffers, name);
        set_once(&mut self.entry.group, group)?;
        if usize::from(group) >= buffers.groups.len() {
            self.note(number);
        }
        Ok(())
    }

    /// Notes that a name on this line stands for nothing.
    fn note(&mut self, line: usize)
        ensures { self.new ≡ record self.old {
          late = late_or self.old.late (unknown_at line);
        } }
    {
        if self.late.is_none() {
            self.late = Some(LineFault {
                line,
                fault: Fault::UnknownName,
            });
        }
    }
}

/// The entry whose lines are read.
fn storage_entry_of(entry: OpenEntry) -> Result<StorageEntry, Refusal>
    ensures fault { LineGives result (terms.line_fault (stand_view entry) (Ok Closes)) }
    ensures entry { IfOk result (λ storage_entry.
        entry_view storage_entry ≡ terms.entry_of (stand_view entry)) }
{
    let OpenEntry {
        class,
        newsgroups,
        group,
        sizes,
        exactmatch,
    } = entry;
    let (Some(class), Some(newsgroups), Some(group)) = (class, newsgroups, group) else {
        return Err(Refusal::Faulty(Fault::Syntax));
    };
    let sizes = sizes.unwrap_or(EVERY_SIZE);
    Ok(StorageEntry {
        class,
        newsgroups,
        group,
        smallest: sizes.smallest,
        largest: sizes.largest,
        exactmatch: exactmatch.unwrap_or(false),
    })
}

/// The number of the group of a name: how many stand before the first of that name.
fn group_number(buffers: &Buffers, name: &[u8]) -> u16
    ensures { result ≡ terms.group_number (buffers_view buffers.now).groups name.now }
{
    place_of_group(&buffers.groups, name) as u16
}

/// The place of the first group of a name, or how many there are.
fn place_of_group(groups: &[GroupConf], name: &[u8]) -> usize
    ensures { result ≡ terms.group_number (map group_view groups.now) name.now }
{
    for (place, group) in groups.iter().enumerate() {
        if is(name, group.name.as_slice()) {
            return place;
        }
    }
    groups.len()
}

/// The entries, or the first fault that is looked for after the last line.
fn finished(draft: StorageDraft) -> Result<Vec<StorageEntry>, ConfError>
    ensures { ConfGives (λ storage_entries. map entry_view storage_entries.items) result
        (draft_said (draft_view draft)) }
{
    let StorageDraft {
        storage_entries,
        place,
        entry: _,
        late,
    } = draft;
    if !matches!(place, Place::Outside) {
        return Err(ConfError::Faulty(LineFault {
            line: 0,
            fault: Fault::Syntax,
        }));
    }
    match late {
        Some(fault) => Err(ConfError::Faulty(fault)),
        None => Ok(storage_entries),
    }
}
