//! What is told of the news log.
ghost use Rattle.std.specs.Prelude.{◌≡◌, ◌++◌, ◌∷◌, [], List};
ghost use Rattle.news_log.specs.declared.news_lines.NewsLine.{NewsLine};

use http_server::Log;

/// What is told of the news log.
#[derive(Clone, Copy)]
pub enum NewsLine {
    /// The file at the log's path can't be opened.
    Unopened,
    /// Lines can't be written.
    Unwritten,
    /// So many lines were lost.
    Lost(u64),
}

/// Who tells of the news log.
pub trait NewsLines {
    /// What was told, the first of it first.
    ghost told: { Self → List NewsLine };

    /// Tells this.
    fn tell(&mut self, line: NewsLine)
        ensures { told self.new ≡ told self.old ++ line ∷ [] };
}

/// Who tells of the news log on standard error.
#[derive(Drop)]
pub struct PrintedNewsLines<'a, R> {
    rt: &'a R,
    log: Log<NewsLine, ()>,
}

impl<'a, R> PrintedNewsLines<'a, R> {
    /// One that has told nothing.
    pub fn new(rt: &'a R) -> PrintedNewsLines<'a, R> {
        PrintedNewsLines {
            rt,
            log: Log::new(),
        }
    }
}

impl<R: Eprint> NewsLines for PrintedNewsLines<'_, R> {
    ghost use Rattle.std.specs.Prelude.{map};

    ghost told = { λ lines. map (λ pair. pair.0) lines.log.items };

    fn tell(&mut self, line: NewsLine) {
        print_line(self.rt, line);
        self.log = self.log.and(&line, &());
    }
}

/// Prints a line of the news log on standard error.
fn print_line<R: Eprint>(rt: &R, line: NewsLine) {
    let _lost = match line {
        NewsLine::Unopened => eprintln!(rt; "failed file=log kind=Open"),
        NewsLine::Unwritten => eprintln!(rt; "failed file=log kind=Write"),
        NewsLine::Lost(count) => eprintln!(rt; "left file=log lines={count}"),
    };
}
