//! What is told of a journal (docs/OPERATING.md, Lines).
ghost use Rattle.std.specs.Prelude.{◌≡◌, ◌++◌, ◌∷◌, [], List};
ghost use Rattle.relay_journal.specs.declared.lines.JournalLine.{JournalLine};

use http_server::Log;

/// What is told of a journal.
#[derive(Clone, Copy)]
pub enum JournalLine {
    /// It can't be read, and counts as none.
    Unread,
    /// It can't be begun, or entries not be put behind it.
    Unwritten,
    /// Its device can't be had take what was written.
    Unflushed,
    /// So many entries were left out, as there was no room for them.
    LeftOut(u64),
}

/// Who tells of a journal.
pub trait JournalLines {
    /// What was told, the first of it first.
    ghost told: { Self → List JournalLine };

    /// Tells this.
    fn tell(&mut self, line: JournalLine)
        ensures { told self.new ≡ told self.old ++ line ∷ [] };
}

/// The place of a journal, and who tells of it.
#[derive(Drop)]
pub struct ToldJournal<P, L> {
    pub place: P,
    pub lines: L,
}

/// Who tells of a journal on standard error.
#[derive(Drop)]
pub struct PrintedLines<'a, R> {
    rt: &'a R,
    log: Log<JournalLine, ()>,
}

impl<'a, R> PrintedLines<'a, R> {
    /// One that has told nothing.
    pub fn new(rt: &'a R) -> PrintedLines<'a, R> {
        PrintedLines {
            rt,
            log: Log::new(),
        }
    }
}

impl<R: Eprint> JournalLines for PrintedLines<'_, R> {
    ghost use Rattle.std.specs.Prelude.{map};

    ghost told = { λ lines. map (λ pair. pair.0) lines.log.items };

    fn tell(&mut self, line: JournalLine) {
        print_line(self.rt, line);
        self.log = self.log.and(&line, &());
    }
}

/// Prints a line of a journal on standard error.
fn print_line<R: Eprint>(rt: &R, line: JournalLine) {
    let _lost = match line {
        JournalLine::Unread => eprintln!(rt; "failed file=relay.log kind=Read"),
        JournalLine::Unwritten => eprintln!(rt; "failed file=relay.log kind=Write"),
        JournalLine::Unflushed => eprintln!(rt; "failed file=relay.log kind=Sync"),
        JournalLine::LeftOut(count) => eprintln!(rt; "left file=relay.log entries={count}"),
    };
}
