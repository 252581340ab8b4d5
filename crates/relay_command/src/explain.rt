//! Saying what a configuration does (docs/PROTOCOL.md, `explain`).
ghost use Rattle.std.specs.Prelude.{◌≡◌, string_bytes, IfErr, IfOk, Some};
ghost use Rattle.relay_explain.specs.Choice.{choice_text};
ghost use Rattle.relay_command.specs.Explain.{ExplainsFolder, IsAnswer, IsToldOf};
ghost use Rattle.relay_command.specs.Explain.{IsUntold, explain_text};
ghost use Rattle.relay_command.specs.Questions.{question_of};
ghost use Rattle.relay_command.specs.Sources.{IsSaidIn};
ghost use Rattle.relay_command.specs.Explain as terms;
ghost use Rattle.relay_command.specs.declared.load.CheckError.TheVariants.{Memory};

use crate::failure::Failure;
use crate::load::{CheckError, ConfFile};
use crate::look::look_at_files;
use crate::question::Question;
use crate::sources::load_both;
use relay_conf::Config;
use relay_explain::{Sources, explain, explain_choice};
use relay_report::put;
use std::alloc::Global;
use std::error::Error;
use std::fmt;
use std::fmt::{Display, Formatter};
use std::fs::Files;
use std::io::Write;

/// Why a configuration is not explained. Its text is what the program prints: what `check` tells,
/// and below it the fault in words.
#[derive(Drop)]
pub struct Unexplained {
    pub error: CheckError,
}

impl Display for Unexplained {
    ghost output = { λ unexplained. Some (explain_text unexplained.error) };

    fn fmt<W: fmt::Write>(&self, formatter: &mut Formatter<W>) -> fmt::Result {
        let told = &self.error;
        match told {
            CheckError::Unreadable(_) => write!(
                formatter,
                "{told}\nthere is no such file in the folder, or it can't be read"
            ),
            CheckError::Faulty { file, code, .. } => {
                let words = fault_words(*file, *code);
                write!(formatter, "{told}\n{words}")
            }
            CheckError::Memory | CheckError::Unwritten => Display::fmt(told, formatter),
        }
    }
}

impl fmt::Debug for Unexplained {
    fn fmt<W: fmt::Write>(&self, formatter: &mut Formatter<W>) -> fmt::Result {
        Display::fmt(self, formatter)
    }
}

impl Error for Unexplained {}

/// A fault of a file in words, by its code.
fn fault_words(file: ConfFile, code: u8) -> &'static str
    ensures { result.now ≡ terms.fault_words file code }
{
    match code {
        1 => "the line has no form of its file, or something lacks",
        2 => "a first word or a key that the file doesn't know",
        3 => "a name or a key for the second time",
        4 => unknown_words(file),
        5 => "no number, one out of its range, or one line too many of its kind",
        6 => "an expression over newsgroups that can't be read",
        7 => "a buffer in two groups, or twice in one",
        _ => "a group without a buffer, or no group at all",
    }
}

/// A name that stands for nothing, in words, by the file that has it.
fn unknown_words(file: ConfFile) -> &'static str
    ensures { result.now ≡ terms.unknown_words file }
{
    match file {
        ConfFile::Cycbuff => "a buffer that no cycbuff line makes",
        ConfFile::Storage => {
            "a group that no metacycbuff line makes, or a method that isn't served: cnfs alone is"
        }
        ConfFile::Relay => "a peer that no peer line makes",
    }
}

/// Writes what the configuration in a folder does, or the built-in one where the folder is `K1`;
/// or, where that is asked, where an article goes by it.
pub(crate) fn explain_folder<R: Files, W: Write>(
    rt: &R,
    alloc: Global,
    folder: &str,
    question: &Option<Question>,
    writer: &mut W,
) -> Result<(), Failure>
    ensures { ExplainsFolder folder.now (question_of question.now) result
        (W.contents writer.old) (W.contents writer.new) }
{
    match answer(rt, alloc, folder, question) {
        Ok(text) => match put(writer, &text) {
            Ok(()) => Ok(()),
            Err(_) => {
                let error = CheckError::Unwritten;
                Err(Failure::Explain(Unexplained { error }))
            }
        },
        Err(error) => Err(Failure::Explain(Unexplained { error })),
    }
}

/// The text of what is asked of the configuration in a folder.
fn answer<R: Files>(
    rt: &R,
    alloc: Global,
    folder: &str,
    question: &Option<Question>,
) -> Result<Vec<u8>, CheckError>
    ensures text { IfOk result (λ text. IsAnswer folder.now (question_of question.now) text.items) }
    ensures error { IfErr result (IsUntold folder.now) }
{
    match load_both(rt, alloc, folder) {
        Ok(both) => {
            let text = told(rt, alloc, folder, &both.0, &both.1, question);
            drop(both);
            text
        }
        Err(error) => Err(error),
    }
}

/// The text of what is asked of this configuration, which these texts say.
fn told<R: Files>(
    rt: &R,
    alloc: Global,
    folder: &str,
    config: &Config,
    sources: &Sources,
    question: &Option<Question>,
) -> Result<Vec<u8>, CheckError>
    ensures text { IsSaidIn folder.now config.now sources.now
        → IfOk result (λ text. IsAnswer folder.now (question_of question.now) text.items) }
    ensures memory { IfErr result (λ error. error ≡ Memory) }
{
    match question {
        None => text_of(rt, alloc, folder, config, sources),
        Some(question) => choice_of(alloc, config, question),
    }
}

/// The text of what this configuration does, which these texts say, with what lies where the files
/// of its buffers are to be.
fn text_of<R: Files>(
    rt: &R,
    alloc: Global,
    folder: &str,
    config: &Config,
    sources: &Sources,
) -> Result<Vec<u8>, CheckError>
    ensures text { IfOk result (λ text. IsToldOf config.now sources.now text.items) }
    ensures memory { IfErr result (λ error. error ≡ Memory) }
{
    let found = look_at_files(rt, alloc, &config.buffers, folder)?;
    let text = explain(alloc, config, sources, &found)?;
    Ok(text)
}

/// The text of where an article goes by this configuration.
fn choice_of(alloc: Global, config: &Config, question: &Question) -> Result<Vec<u8>, CheckError>
    ensures text { IfOk result (λ text. text.items
        ≡ choice_text config.now (string_bytes question.now.newsgroups) question.now.size) }
    ensures memory { IfErr result (λ error. error ≡ Memory) }
{
    let newsgroups = question.newsgroups.as_bytes();
    let text = explain_choice(alloc, config, newsgroups, u64::from(question.size))?;
    Ok(text)
}
