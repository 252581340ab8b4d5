//! Rows of text: a call and its cells between single spaces (`Cells`), printed with ` = ` and its
//! answer, which is written on a `Sheet`, so a test is a row and costs no proof. README.md has the
//! form of a row.

mod cell;
mod cells;
mod lists;
mod names;
mod rows;
mod sheet;

pub(crate) use cells::Cells;
pub(crate) use lists::{add_octets, copy_of, joined, place_of};
pub(crate) use names::Names;
pub(crate) use rows::{Answers, failed, play};
pub(crate) use sheet::Sheet;
