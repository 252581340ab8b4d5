//! Laws of the text of a journal and of how it is folded in, and the worked example *relay.log*.
ghost use Rattle.std.specs.Prelude.{◌≡◌, ◌≢◌, ◌↔◌, ℕ, ◌-◌, ◌<◌, ◌≤◌, ◌^◌, List, [], ◌∷◌, ◌++◌};
ghost use Rattle.std.specs.Prelude.{length, map, take, IfErr, IfOk};
ghost use Rattle.std.specs.Int.{to_be_bytes, w32};
ghost use Rattle.std.specs.List.{AllByRecursion};
ghost use Rattle.relay_log.specs.Beginning.{IsLongest, written, whole_within, zeros};
ghost use Rattle.id_history.specs.History.{Holds, Kept, KeptId, Rises, Setting};
ghost use Rattle.id_history.specs.Room.{HasRoom};
ghost use Rattle.id_history.specs.Views.{history_view, setting_view};
ghost use Rattle.news_terms.specs.Token.{Token};
ghost use Rattle.relay_model.specs.Claims as claim;
ghost use Rattle.relay_model.specs.State.{put_id};
ghost use Rattle.relay_log.specs.Check.{check};
ghost use Rattle.relay_log.specs.Examples.{first_entries, last_history, last_journal, one_buffer};
ghost use Rattle.relay_log.specs.Examples.{last_folded};
ghost use Rattle.relay_log.specs.Folding.{IsFolded, IsFoldedWith, last_said};
ghost use Rattle.relay_log.specs.Journal.{Entry, Journal, IsEntry, BeginsWithEntry, HasFront};
ghost use Rattle.relay_log.specs.Journal.{counted_octets, entry_octets, journal_octets};
ghost use Rattle.relay_log.specs.Journal as entry;
ghost use Rattle.relay_log.specs.Views.{entry_view, journal_view};

use crate::folding::folded;
use crate::journal::Journal as ReadJournal;
use id_history::text_laws::read_back;
use id_history::{History, HistoryError, Setting as GivenSetting};
use std::alloc::Global;
use std::hash::RandomState;

/// A text has at most one longest beginning, so what is read of it is determined.
pub fn one_is_longest()
    ensures { (text : List ℕ) (one other : Journal) → IsLongest text one → IsLongest text other
        → one ≡ other }
{}

/// A text that has a front has one, so nothing is said of it in vain.
pub fn one_is_there(text: &[u8])
    ensures { HasFront text.now → (journal : Journal) × IsLongest text.now journal }
{}

/// What was written is read as just these entries, whole.
pub fn read_is_written()
    ensures { (stop : ℕ) (entries : List Entry) (journal : Journal) → stop < 2 ^ 64
        → AllByRecursion IsEntry entries
        → (IsLongest (journal_octets stop entries) journal ↔ (journal ≡ written stop entries)) }
{}

/// Of a text that was written and is cut behind its front, at whatever octet, just the entries are
/// read of which all octets are there.
pub fn cut_is_read()
    ensures { (stop : ℕ) (entries : List Entry) (journal : Journal) (n : ℕ) → stop < 2 ^ 64
        → AllByRecursion IsEntry entries → 12 ≤ n
        → (IsLongest (take n (journal_octets stop entries)) journal
        ↔ (journal ≡ written stop (whole_within (n - 12) entries))) }
{}

/// A text that is shorter than a front has none.
pub fn cut_front_is_none()
    ensures { (text : List ℕ) → length text < 12 → ¬ HasFront text }
{}

/// Zeros behind a text that was written are no entry, however many they are.
pub fn zeros_end_it()
    ensures { (stop : ℕ) (entries : List Entry) (journal : Journal) (n : ℕ) → stop < 2 ^ 64
        → AllByRecursion IsEntry entries
        → (IsLongest (journal_octets stop entries ++ zeros n) journal
        ↔ (journal ≡ written stop entries)) }
{}

/// Octets behind their number that have another check than theirs are no entry, so nothing is read
/// from there on.
pub fn other_check_ends_it()
    ensures { (said rest : List ℕ) (sum : ℕ) → length said < 2 ^ 16 → sum < 2 ^ 32
        → sum ≢ check (counted_octets said)
        → ¬ BeginsWithEntry (counted_octets said ++ to_be_bytes w32 sum ++ rest) }
{}

/// So are octets behind their number of which the check was not written.
pub fn unwritten_check_ends_it()
    ensures { (said rest : List ℕ) → length said < 2 ^ 16
        → ¬ BeginsWithEntry (counted_octets said ++ zeros 4 ++ rest) }
{}

/// Up to where it was read a text is one that was written: what is appended there goes on.
pub fn beginning_was_written()
    ensures { (text : List ℕ) (journal : Journal) → IsLongest text journal
        → take journal.octets text ≡ journal_octets journal.stop journal.entries }
{}

/// An entry behind a text that was written is its last.
pub fn appended_is_last()
    ensures { (stop : ℕ) (entries : List Entry) (entry : Entry)
        → journal_octets stop (entries ++ entry ∷ [])
        ≡ journal_octets stop entries ++ entry_octets entry }
{}

/// The text after stop 1 of a refused article, a stored one and a take.
pub fn first_journal_example()
    ensures { journal_octets 1 first_entries ≡
        0x43 ∷ 0x4E ∷ 0x4C ∷ 0x31 ∷ 0 ∷ 0 ∷ 0 ∷ 0 ∷ 0 ∷ 0 ∷ 0 ∷ 0x01 ∷ 0 ∷ 0x0E ∷ 0x01 ∷ 0 ∷ 0
        ∷ 0 ∷ 0 ∷ 0x5F ∷ 0xEE ∷ 0x66 ∷ 0 ∷ 0x3C ∷ 0x62 ∷ 0x40 ∷ 0x78 ∷ 0x3E ∷ 0x1E ∷ 0x18 ∷
        0xB0 ∷ 0x13 ∷ 0 ∷ 0x1C ∷ 0x02 ∷ 0 ∷ 0 ∷ 0 ∷ 0 ∷ 0x5F ∷ 0xEE ∷ 0x66 ∷ 0x01 ∷ 0x01 ∷ 0 ∷
        0 ∷ 0 ∷ 0 ∷ 0 ∷ 0 ∷ 0 ∷ 0 ∷ 0 ∷ 0 ∷ 0 ∷ 0 ∷ 0xA4 ∷ 0x3C ∷ 0x61 ∷ 0x40 ∷ 0x78 ∷ 0x3E ∷
        0xB7 ∷ 0xCF ∷ 0x2E ∷ 0xD3 ∷ 0 ∷ 0x1B ∷ 0x03 ∷ 0 ∷ 0x02 ∷ 0 ∷ 0 ∷ 0 ∷ 0 ∷ 0 ∷ 0 ∷ 0 ∷
        0x09 ∷ 0 ∷ 0 ∷ 0 ∷ 0 ∷ 0 ∷ 0 ∷ 0 ∷ 0x06 ∷ 0 ∷ 0 ∷ 0 ∷ 0 ∷ 0 ∷ 0 ∷ 0 ∷ 0x01 ∷ 0x93 ∷
        0x40 ∷ 0x2C ∷ 0x91 ∷ [] }
{}

/// What an entry says of a message-id was said of it last, and of every other what was before. A
/// token that names no buffer says nothing, nor does a take.
pub fn last_entry_is_said()
    ensures refused { (buffers : ℕ) (ids : List KeptId) (entries : List Entry) (id : List ℕ)
        (moment : ℕ) → last_said buffers ids (entries ++ entry.Refused id moment ∷ [])
        ≡ put_id (last_said buffers ids entries) id (claim.Refused moment) }
    ensures stored { (buffers : ℕ) (ids : List KeptId) (entries : List Entry) (id : List ℕ)
        (moment : ℕ) (token : Token) → token.buffer < buffers
        → last_said buffers ids (entries ++ entry.Stored id moment token ∷ [])
        ≡ put_id (last_said buffers ids entries) id (claim.Stored token moment) }
    ensures elsewhere { (buffers : ℕ) (ids : List KeptId) (entries : List Entry) (id : List ℕ)
        (moment : ℕ) (token : Token) → buffers ≤ token.buffer
        → last_said buffers ids (entries ++ entry.Stored id moment token ∷ [])
        ≡ last_said buffers ids entries }
    ensures taken { (buffers : ℕ) (ids : List KeptId) (entries : List Entry)
        (feed gained passed taken : ℕ)
        → last_said buffers ids (entries ++ entry.Taken feed gained passed taken ∷ [])
        ≡ last_said buffers ids entries }
{}

/// A history with its journal folded in is one.
pub fn one_is_folded()
    ensures { (old : Kept) (journal : Journal) (setting : Setting) (one other : Kept)
        → IsFolded old journal setting one → IsFolded old journal setting other → one ≡ other }
{}

/// A journal without entries, or of another stop, leaves the history as it is.
pub fn none_is_folded()
    ensures none { (old : Kept) (setting : Setting) (new : Kept) → Rises old.ids
        → (IsFoldedWith old [] setting new ↔ (new ≡ old)) }
    ensures other { (old : Kept) (journal : Journal) (setting : Setting) (new : Kept)
        → journal.stop ≢ old.stop → (IsFolded old journal setting new ↔ (new ≡ old)) }
{}

/// A journal that was folded in and is folded in again, as after a crash before the next journal is
/// begun, changes nothing more.
pub fn twice_is_once()
    ensures { (old : Kept) (journal : Journal) (setting : Setting) (new again : Kept)
        → IsFolded old journal setting new
        → (IsFolded new journal setting again ↔ (again ≡ new)) }
{}

/// Wherever a journal is cut, its first part and then its rest are folded in as the whole is.
pub fn parts_are_whole()
    ensures { (old mid new : Kept) (first rest : List Entry) (setting : Setting)
        → IsFoldedWith old first setting mid
        → (IsFoldedWith mid rest setting new ↔ IsFoldedWith old (first ++ rest) setting new) }
{}

/// A history that holds a setting holds it with its journal folded in, whatever the journal has.
pub fn folded_holds()
    ensures { (old : Kept) (journal : Journal) (setting : Setting) (new : Kept)
        → Holds setting old → AllByRecursion IsEntry journal.entries
        → IsFolded old journal setting new → Holds setting new }
{}

/// So its text is read back as it is, unless memory runs out.
pub fn folded_reads(
    alloc: Global,
    hasher: RandomState,
    history: History,
    journal: ReadJournal,
    setting: &GivenSetting,
) -> Result<History, HistoryError>
    requires room { HasRoom history }
    requires holds { Holds (setting_view setting.now) (history_view history) }
    requires entries { AllByRecursion IsEntry (map entry_view journal.entries.items) }
    ensures folded { IfOk result (λ new. IsFolded (history_view history) (journal_view journal)
        (setting_view setting.now) (history_view new)) }
    ensures memory { IfErr result (λ error. error ≡ HistoryError.Memory) }
{
    match folded(alloc, hasher, history, journal, setting.buffers) {
        Ok(new) => read_back(alloc, &new, setting),
        Err(_) => Err(HistoryError::Memory),
    }
}

/// Of one id the history and the journal speak, one was refused and then stored, one was stored
/// and then refused, and one is stored where no buffer is.
pub fn last_folding_example()
    ensures { IsFolded last_history last_journal one_buffer last_folded }
{}
