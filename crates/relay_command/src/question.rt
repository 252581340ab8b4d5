//! Reading of which article it is asked where it goes (docs/PROTOCOL.md, Commands).
ghost use Rattle.std.specs.Prelude.{◌≡◌, IfOk};
ghost use Rattle.clap.specs.Words.{found_of, rows_of};
ghost use Rattle.relay_command.specs.Questions.{question_given, question_of};

use crate::command_line::number;
use clap::ArgMatches;
use std::alloc::{AllocError, Global};

/// The octets of an article that is asked about without a size.
const USUAL_SIZE: u32 = 2_000;

/// Of which article it is asked where it goes.
#[derive(Drop)]
pub struct Question {
    /// Its newsgroups, with commas between them.
    pub newsgroups: String,
    /// Its octets, as it is stored.
    pub size: u32,
}

/// What is asked, with what was given for its words; nothing without newsgroups.
pub(crate) fn question_in(
    alloc: Global,
    given: &ArgMatches<'_>,
) -> Result<Option<Question>, AllocError>
    ensures { IfOk result (λ question. question_of question
        ≡ question_given (rows_of (found_of given.now))) }
{
    match given.get_str("NEWSGROUPS") {
        None => Ok(None),
        Some(newsgroups) => {
            let newsgroups = String::from_str(alloc, newsgroups)?;
            let size = number(given, "SIZE").unwrap_or(USUAL_SIZE);
            Ok(Some(Question { newsgroups, size }))
        }
    }
}
