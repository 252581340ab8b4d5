//! The marks of a relay's buffers, and where they are kept.
ghost use Rattle.std.specs.Prelude.{◌≡◌, None, Some, IfOk, IfSome, OnErr, OnOk, [], false};
ghost use Rattle.std.specs.Prelude.{map, true, unwrap_or};
ghost use Rattle.buffer_ages.specs.Text.{ages_octets};
ghost use Rattle.buffer_ages.specs.Text as texts;
ghost use Rattle.buffer_ages.specs.Views.{ages_view};
ghost use Rattle.relay_ages.specs.Ages.{is_text, text_known};
ghost use Rattle.relay_ages.specs.Ages as terms;
ghost use Rattle.relay_folder.specs.Origin.{IsFormatted};

use crate::oldest::noted_all;
use buffer_ages::{BufferMarks, read_ages, write_ages};
use line_words::is;
use relay_conf::BufferConf;
use relay_folder::{HistoryPlace, Origin, keep};
use relay_report::NamedBuffer;
use std::alloc::{AllocError, Global};
use std::io;

/// The marks of a relay's buffers, and where they are kept. They are advice: whatever stands there,
/// and where it can't be read or written, the relay is served as ever.
#[derive(Drop)]
pub(crate) struct KeptAges<P> {
    place: P,
    /// Of each buffer, in the order of the configuration.
    pub(crate) ages: Vec<BufferMarks>,
    /// The text that is kept, empty where there is none. It isn't known where it could not be read,
    /// or another one not be kept.
    text: Option<Vec<u8>>,
    /// Whether it was told that one can't be kept, since one last was.
    is_told: bool,
}

impl<P: HistoryPlace> KeptAges<P> {
    /// Those that are kept at this place of these buffers of a relay that begins from this.
    pub(crate) fn begun<R: Eprint>(
        rt: &R,
        alloc: Global,
        buffers: &[BufferConf],
        mut place: P,
        origin: &Origin,
    ) -> Result<KeptAges<P>, AllocError>
    where
        P: Drop,
        ensures ages { IfOk result (λ kept. map ages_view kept.ages.items
            ≡ texts.read_ages (map (λ buffer. buffer.name) buffers.now) (text_known kept.text)) }
        ensures kept { P.honest place → IfOk result (λ kept. IfSome kept.text (λ text.
            unwrap_or (P.kept kept.place) [] ≡ text.items)) }
        ensures found { P.honest place → ¬ IsFormatted origin.now → IfOk result (λ kept.
            IfSome kept.text (λ text. unwrap_or (P.kept place) [] ≡ text.items)) }
        ensures formatted { IsFormatted origin.now → IfOk result (λ kept.
            text_known kept.text ≡ []) }
        ensures honest { P.honest place → IfOk result (λ kept. P.honest kept.place) }
    {
        let found = text_found(alloc, &mut place, origin);
        let text = known(rt, found);
        let ages = read_ages(alloc, buffers, octets_known(&text))?;
        Ok(KeptAges {
            place,
            ages,
            text,
            is_told: false,
        })
    }

    /// Notes how far these buffers are at this moment, and keeps their marks where they aren't kept
    /// yet.
    pub(crate) fn note<R: Eprint>(
        &mut self,
        rt: &R,
        alloc: Global,
        buffers: &[BufferConf],
        figures: &[NamedBuffer],
        moment: u64,
    ) -> Result<(), AllocError>
        ensures ages { OnOk result (map ages_view self.new.ages.items
            ≡ terms.noted_all moment self.old.ages.items buffers.now figures.now) }
        ensures text { OnOk result (IfSome self.new.text (λ text.
            text.items ≡ ages_octets (map ages_view self.new.ages.items))) }
        ensures kept { P.honest self.old.place
            → IfSome self.old.text (λ text. unwrap_or (P.kept self.old.place) [] ≡ text.items)
            → IfSome self.new.text (λ text. unwrap_or (P.kept self.new.place) [] ≡ text.items) }
        ensures same { OnErr result (self.new ≡ self.old) }
        ensures honest { P.honest self.old.place → P.honest self.new.place }
    {
        let ages = noted_all(alloc, &self.ages, buffers, figures, moment)?;
        let text = write_ages(alloc, &ages)?;
        self.ages = ages;
        if self.has(&text) {
            drop(text);
            return Ok(());
        }
        self.keep(rt, text);
        Ok(())
    }

    /// Whether this text is known to be the one that is kept.
    fn has(&self, text: &[u8]) -> bool
        ensures { result ≡ is_text self.now.text text.now }
    {
        match &self.text {
            Some(last) => is(last, text),
            None => false,
        }
    }

    /// Keeps this text, and tells where that fails, once until one is kept again.
    fn keep<R: Eprint>(&mut self, rt: &R, text: Vec<u8>)
        ensures kept { P.honest self.old.place → IfSome self.new.text (λ last.
            P.kept self.new.place ≡ Some last.items) }
        ensures text { IfSome self.new.text (λ last. last.items ≡ text.items) }
        ensures same { self.new.ages ≡ self.old.ages }
        ensures honest { P.honest self.old.place → P.honest self.new.place }
    {
        let kept = keep(&mut self.place, &text);
        self.heard(rt, text, kept);
    }

    /// It is known whether this text is kept.
    fn heard<R: Eprint>(&mut self, rt: &R, text: Vec<u8>, kept: io::Result<()>)
        ensures kept { OnOk kept ((self.new.text ≡ Some text) × (self.new.is_told ≡ false)) }
        ensures failed { OnErr kept ((self.new.text ≡ None) × (self.new.is_told ≡ true)) }
        ensures place { self.new.place ≡ self.old.place }
        ensures same { self.new.ages ≡ self.old.ages }
    {
        match kept {
            Ok(()) => {
                self.text = Some(text);
                self.is_told = false;
            }
            Err(_) => {
                drop(text);
                self.text = None;
                if !self.is_told {
                    let _lost = eprintln!(rt; "failed file=relay.ages kind=Write");
                }
                self.is_told = true;
            }
        }
    }
}

/// The text that is kept at a place, empty where there is none. That of a relay that begins from
/// nothing is taken away.
fn text_found<P: HistoryPlace>(alloc: Global, place: &mut P, origin: &Origin) -> io::Result<Vec<u8>>
    ensures kept { P.honest place.old → IfOk result (λ text.
        unwrap_or (P.kept place.new) [] ≡ text.items) }
    ensures found { P.honest place.old → ¬ IsFormatted origin.now → IfOk result (λ text.
        unwrap_or (P.kept place.old) [] ≡ text.items) }
    ensures formatted { IsFormatted origin.now → IfOk result (λ text. text.items ≡ []) }
    ensures honest { P.honest place.old → P.honest place.new }
{
    match origin {
        Origin::Formatted => nothing_left(alloc, place),
        Origin::Stopped(_) => match place.read(alloc)? {
            Some(text) => Ok(text),
            None => Ok(Vec::new(alloc)),
        },
    }
}

/// Takes away what is kept at a place: nothing is.
fn nothing_left<P: HistoryPlace>(alloc: Global, place: &mut P) -> io::Result<Vec<u8>>
    ensures gone { P.honest place.old → OnOk result (P.kept place.new ≡ None) }
    ensures none { IfOk result (λ text. text.items ≡ []) }
    ensures honest { P.honest place.old → P.honest place.new }
{
    // The first text that is kept has the device take the names.
    place.remove()?;
    Ok(Vec::new(alloc))
}

/// The text that was found; that it could not be had is told.
fn known<R: Eprint>(rt: &R, found: io::Result<Vec<u8>>) -> Option<Vec<u8>>
    ensures known { IfOk found (λ text. result ≡ Some text) }
    ensures unknown { OnErr found (result ≡ None) }
{
    match found {
        Ok(text) => Some(text),
        Err(_) => {
            let _lost = eprintln!(rt; "failed file=relay.ages kind=Read");
            None
        }
    }
}

/// The octets of a text, none where it isn't known.
fn octets_known(text: &Option<Vec<u8>>) -> &[u8]
    ensures { result.now ≡ text_known text.now }
{
    match text {
        Some(text) => text.as_slice(),
        None => &[],
    }
}
