//! The marks of a relay that is served, for whoever goes on beside it.
ghost use Rattle.std.specs.Prelude.{OnOk};
ghost use Rattle.relay_ages.specs.Ages.{TellsOldest};

use crate::kept::KeptAges;
use crate::oldest::put_oldest;
use relay_conf::Config;
use relay_folder::{HistoryPlace, Origin};
use relay_report::Figures;
use std::alloc::{AllocError, Global};
use std::sync::{Mutex, Wait};

/// The marks of the buffers of a relay that is served, which are noted, told and kept.
#[derive(Drop)]
pub struct AgesDesk<P> {
    alloc: Global,
    kept: Mutex<KeptAges<P>>,
}

impl<P: HistoryPlace> AgesDesk<P> {
    /// The marks that are kept at this place of the buffers of a relay that begins from this. One
    /// that begins from nothing has none, and takes away what is there. Where that can't be done,
    /// or they can't be read, it is told, and there are none.
    pub fn begun<R: Eprint>(
        rt: &R,
        alloc: Global,
        config: &Config,
        place: P,
        origin: &Origin,
    ) -> Result<AgesDesk<P>, AllocError>
    where
        P: Drop,
    {
        let kept = KeptAges::begun(rt, alloc, &config.buffers.buffers, place, origin)?;
        Ok(AgesDesk {
            alloc,
            kept: Mutex::new(kept),
        })
    }

    /// What memory for them comes from.
    pub fn alloc(&self) -> Global {
        self.alloc
    }

    /// Notes how far the buffers are at this moment, by these figures of theirs.
    pub fn note<R: Wait + Eprint>(&self, rt: &R, config: &Config, figures: &Figures, moment: u64) {
        let mut kept = self.kept.lock(rt);
        let buffers = &config.buffers.buffers;
        let _unnoted = kept.note(rt, self.alloc, buffers, &figures.buffers, moment);
    }

    /// Notes how far the buffers are at this moment, by these figures of theirs, and puts since
    /// when their oldest articles are there behind a text.
    pub fn put_oldest<R: Wait + Eprint>(
        &self,
        rt: &R,
        text: &mut Vec<u8>,
        config: &Config,
        figures: &Figures,
        moment: u64,
    ) -> Result<(), AllocError>
        ensures { OnOk result (TellsOldest moment config.now.buffers.buffers.items
            figures.now.buffers.items text.old.items text.new.items) }
    {
        let mut kept = self.kept.lock(rt);
        let buffers = &config.buffers.buffers;
        kept.note(rt, self.alloc, buffers, &figures.buffers, moment)?;
        put_oldest(text, &kept.ages, buffers, &figures.buffers)
    }
}
