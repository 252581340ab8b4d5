//! The words of the command line as data, and the command that reads them (docs/PROTOCOL.md,
//! Commands).
ghost use Rattle.std.specs.Prelude.{◌≡◌, IfOk};
ghost use Rattle.clap.specs.Words.{App, rule_of, with_subcommand};
ghost use Rattle.std.specs.Prelude.{false};
ghost use Rattle.relay_command.specs.CommandLine.{Reads, program_words};
ghost use Rattle.relay_command.specs.WordTable.{app_of_words, rule_of_word};

use crate::version::VERSION;
use clap::builder::ValueParser;
use clap::{Arg, ArgAction, Command};
use std::alloc::{AllocError, Global};

/// How a word of a command is given.
enum Kind {
    /// It has to be there.
    Needed,
    /// It may be left out.
    Optional,
    /// It is a number from 1 to this one, and may be left out.
    Number(i64),
    /// It is such a number behind the word's name.
    Named(i64),
    /// It is its name alone, and may be left out.
    Flag,
}

/// A word of a command, and what is told of it.
struct Word {
    name: &'static str,
    told: &'static str,
    kind: Kind,
}

/// A command, what it does, and its words.
struct Words {
    name: &'static str,
    does: &'static str,
    words: &'static [Word],
}

/// The folder whose configuration is read.
const CONFIGURED: Word = Word {
    name: "DIR",
    told: "The folder of the configuration: K1 is the built-in one",
    kind: Kind::Needed,
};

/// The folder of a relay that is asked.
const SERVED: Word = Word {
    name: "DIR",
    told: "The folder in which the relay is served",
    kind: Kind::Needed,
};

/// The folder of a relay that was stopped.
const STOPPED: Word = Word {
    name: "DIR",
    told: "The folder in which the relay was served",
    kind: Kind::Needed,
};

/// The script of a drill.
const SCRIPT: Word = Word {
    name: "SCRIPT",
    told: "The script's file: stdin is standard input",
    kind: Kind::Needed,
};

/// That a drill tells the reasons for which articles are refused.
const REASONS: Word = Word {
    name: "reasons",
    told: "Tells the reason behind each reply by which an article is refused",
    kind: Kind::Flag,
};

/// The newsgroups of an article that is asked about.
const NEWSGROUPS: Word = Word {
    name: "NEWSGROUPS",
    told: "Says where an article goes of these newsgroups, with commas between them",
    kind: Kind::Optional,
};

/// The size of that article.
const SIZE: Word = Word {
    name: "SIZE",
    told: "The octets of that article, 2000 without it",
    kind: Kind::Number(16_777_356),
};

/// After how many connections each port ends.
const SESSIONS: Word = Word {
    name: "sessions",
    told: "Each port ends after so many connections: 1 to 1000000",
    kind: Kind::Named(1_000_000),
};

/// That all buffers are formatted.
const FRESH: Word = Word {
    name: "fresh",
    told: "Begins with empty buffers, whatever the files have",
    kind: Kind::Flag,
};

/// That the report is told as metrics.
const OPENMETRICS: Word = Word {
    name: "openmetrics",
    told: "Prints it as metrics, for a monitor to read",
    kind: Kind::Flag,
};

/// That the report is told as a page.
const HTML: Word = Word {
    name: "html",
    told: "Prints it as a page, for a browser to show",
    kind: Kind::Flag,
};

/// The text of a token.
const TEXT: Word = Word {
    name: "TEXT",
    told: "The text of the token",
    kind: Kind::Needed,
};

/// The commands, in the order of the help.
const COMMANDS: &[Words] = &[
    Words {
        name: "add-buffer",
        does: "Makes the files of the buffers that were added behind the others",
        words: &[STOPPED],
    },
    Words {
        name: "check",
        does: "Reads a configuration and says what it has",
        words: &[CONFIGURED],
    },
    Words {
        name: "drill",
        does: "Runs a script over memory",
        words: &[CONFIGURED, SCRIPT, REASONS],
    },
    Words {
        name: "explain",
        does: "Says what a configuration does, and what in it is odd",
        words: &[CONFIGURED, NEWSGROUPS, SIZE],
    },
    Words {
        name: "go",
        does: "Has a relay that was paused take new articles again",
        words: &[SERVED],
    },
    Words {
        name: "pause",
        does: "Has a relay that is served take no new articles for now",
        words: &[SERVED],
    },
    Words {
        name: "reload",
        does: "Has a relay that is served go on with the configuration as it is now",
        words: &[SERVED],
    },
    Words {
        name: "report",
        does: "Prints the report of a relay that is served",
        words: &[SERVED, OPENMETRICS, HTML],
    },
    Words {
        name: "serve",
        does: "Serves a configuration on its peers' ports",
        words: &[CONFIGURED, SESSIONS, FRESH],
    },
    Words {
        name: "stop",
        does: "Ends a relay that is served",
        words: &[SERVED],
    },
    Words {
        name: "token",
        does: "Says what a token stands for",
        words: &[TEXT],
    },
];

/// The words that there are.
pub(crate) fn command<'a>(alloc: Global) -> Result<Command<'a>, AllocError>
    ensures { IfOk result (λ command. Reads command program_words) }
{
    let mut command = Command::new(alloc, "cnrelay")
        .version(VERSION)
        .about("The incoming side of a Netnews transit server");
    for words in COMMANDS {
        command = with_command(alloc, command, words)?;
    }
    Ok(command)
}

/// A command with the one of these words below it.
fn with_command<'a>(
    alloc: Global,
    program: Command<'a>,
    words: &Words,
) -> Result<Command<'a>, AllocError>
    ensures { (app : App) → Reads program.entry app
        → IfOk result (λ one. Reads one (with_subcommand app (app_of_words words.now).top)) }
{
    let mut command = Command::new(alloc, words.name).about(words.does);
    for word in words.words {
        command = command.arg(arg_of(alloc, word))?;
    }
    program.subcommand(command)
}

/// The argument that a word is.
fn arg_of<'a>(alloc: Global, word: &Word) -> Arg<'a>
    ensures rule { rule_of result ≡ rule_of_word word.now }
    ensures own { result.global ≡ false }
{
    let arg = Arg::new(alloc, word.name)
        .help(word.told)
        .action(ArgAction::Set);
    match word.kind {
        Kind::Needed => arg.required(true),
        Kind::Optional => arg,
        Kind::Number(most) => arg.value_parser(ValueParser::signed(1, most)),
        Kind::Named(most) => arg
            .long(word.name)
            .value_name("N")
            .value_parser(ValueParser::signed(1, most)),
        Kind::Flag => arg.long(word.name).action(ArgAction::SetTrue),
    }
}
