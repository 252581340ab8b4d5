//! Where it is kept what a relay was stopped with.

use relay_folder::HostHistory;
use std::alloc::{AllocError, Global};

/// Where a relay's history is kept, and what the numbers in it stand for.
#[derive(Drop)]
pub struct HistoryPlaces<H, N> {
    pub history: H,
    pub names: N,
}

/// The files of a folder in which that is, which are neither opened nor made.
pub fn places_in<'a, R>(
    rt: &'a R,
    alloc: Global,
    folder: &'a str,
) -> Result<HistoryPlaces<HostHistory<'a, R>, HostHistory<'a, R>>, AllocError> {
    Ok(HistoryPlaces {
        history: HostHistory::in_folder(rt, alloc, folder)?,
        names: HostHistory::of_names(rt, alloc, folder)?,
    })
}
