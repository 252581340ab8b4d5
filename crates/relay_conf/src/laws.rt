//! Laws of what the files say, and of the settings that are read of them. Nothing of the code
//! stands on them; other crates take from them what holds of each value of the settings.
ghost use Rattle.std.specs.Prelude.{◌≡◌, ◌↔◌, ◌≤◌, ◌<◌, ◌^◌, ℕ, List, [], ◌∷◌, ◌++◌, Ok, IsTrue};
ghost use Rattle.std.specs.Prelude.{◌||◌, All, Err, Some, codes, false, length, map, slice_index};
ghost use Rattle.std.specs.Prelude.{None, true};
ghost use Rattle.std.specs.Net.Addr.{octets_of};
ghost use Rattle.std.specs.Net.Text.{ipv4_text, ipv6_text};
ghost use Rattle.std.specs.List.{list_all};
ghost use Rattle.news_terms.specs.Article.{line_feed, without_outer_white};
ghost use Rattle.news_terms.specs.Lines.{crlf};
ghost use Rattle.news_terms.specs.Path.{is_agent, path_identities};
ghost use Rattle.news_terms.specs.PlaceExamples.{eight, six, one_of_eight, eight_then_six};
ghost use Rattle.news_terms.specs.Settings.{AreSound};
ghost use Rattle.news_terms.specs.StorageClass.{Entry};
ghost use Rattle.std.specs.Str.{byte};
ghost use Rattle.relay_conf.specs.AddressExamples.{bind_lines, bind_settings, mixed_lines};
ghost use Rattle.relay_conf.specs.AddressExamples.{mixed_reaches, mixed_settings};
ghost use Rattle.relay_conf.specs.Cycbuff.{Group, CycbuffSettings, cycbuff_of};
ghost use Rattle.relay_conf.specs.HashExamples.{hash_lines, hash_settings, numbers_of};
ghost use Rattle.relay_conf.specs.HashLines.{part_of, hash_part, in_order};
ghost use Rattle.relay_conf.specs.K1.{k1_buffers, k1_entries, k1_relay};
ghost use Rattle.relay_conf.specs.K2.{k2_buffers, k2_cycbuff};
ghost use Rattle.relay_conf.specs.Lines.{lines_of, joined_by, is_line};
ghost use Rattle.relay_conf.specs.LogExamples.{lines_with, logging};
ghost use Rattle.line_words.specs.Comments.{is_skipped};
ghost use Rattle.relay_conf.specs.Places.{groups_over, numbered_buffers};
ghost use Rattle.relay_conf.specs.Reach.{IsAddress, has_address, has_allow, is_allowed, may_reach};
ghost use Rattle.relay_conf.specs.ReachExamples.{reach_lines, reach_settings, reaches};
ghost use Rattle.relay_conf.specs.ReachExamples.{settings_with};
ghost use Rattle.relay_conf.specs.Readings.{RelayHasReading, StorageHasReading};
ghost use Rattle.relay_conf.specs.Relay.{RelaySettings, each_address};
ghost use Rattle.relay_conf.specs.RelayLines.{address_of, mapped, range_of, relay_line};
ghost use Rattle.relay_conf.specs.RelayViews.{relay_view};
ghost use Rattle.relay_conf.specs.RelayViews as relay;
ghost use Rattle.relay_conf.specs.Settings.{places_of_buffers, places_of_groups};
ghost use Rattle.relay_conf.specs.SoundRelay.{IsSoundRelay};
ghost use Rattle.relay_conf.specs.Storage.{entry_view};
ghost use Rattle.relay_conf.specs.StorageViews as storage;
ghost use Rattle.relay_conf.specs.Words.{is_identity};
ghost use Rattle.relay_conf.specs.declared.config.TheConstants.{K1_CYCBUFF, K1_STORAGE, K1_RELAY};
ghost use Rattle.relay_conf.specs.declared.faults.Fault.TheVariants.{Duplicate, Number, Syntax};
ghost use Rattle.relay_conf.specs.declared.faults.LineFault.{LineFault};
ghost use Rattle.relay_conf.specs.declared.hash_feeds.HashFeed.{HashFeed};
ghost use Rattle.relay_conf.specs.declared.reach.Allow.{Allow};
ghost use Rattle.relay_conf.specs.declared.reach.Range.{Range};

use crate::settings::{Buffers, Config, Relay};

/// Lines joined by LF are the lines of that text.
pub fn lines_joined_by_line_feeds()
    ensures { (first : List ℕ) (more : List (List ℕ)) → IsTrue (list_all is_line (first ∷ more))
        → lines_of (joined_by (line_feed ∷ []) (first ∷ more)) ≡ first ∷ more }
{}

/// Lines joined by CRLF are the lines of that text: so LF or CRLF makes no difference.
pub fn lines_joined_by_line_ends()
    ensures { (first : List ℕ) (more : List (List ℕ)) → IsTrue (list_all is_line (first ∷ more))
        → lines_of (joined_by crlf (first ∷ more)) ≡ first ∷ more }
{}

/// A comment or an empty line changes nothing of what cycbuff.conf says.
pub fn comments_change_nothing_in_cycbuff_conf()
    ensures { (before after : List (List ℕ)) (line : List ℕ) (settings : CycbuffSettings)
        → IsTrue (is_skipped (without_outer_white line))
        → (cycbuff_of (before ++ line ∷ after) ≡ Ok settings)
        ↔ (cycbuff_of (before ++ after) ≡ Ok settings) }
{}

/// A comment or an empty line changes nothing of what relay.conf says.
pub fn comments_change_nothing_in_relay_conf()
    ensures { (before after : List (List ℕ)) (line : List ℕ) (settings : RelaySettings)
        → IsTrue (is_skipped (without_outer_white line))
        → relay.HasSettings (before ++ line ∷ after) settings
        ↔ relay.HasSettings (before ++ after) settings }
{}

/// A comment or an empty line changes nothing of what storage.conf says.
pub fn comments_change_nothing_in_storage_conf()
    ensures { (groups : List Group) (before after : List (List ℕ)) (line : List ℕ)
        (entries : List Entry)
        → IsTrue (is_skipped (without_outer_white line))
        → storage.HasEntries groups (before ++ line ∷ after) entries
        ↔ storage.HasEntries groups (before ++ after) entries }
{}

/// The lines of relay.conf say one thing: its settings, or its fault.
pub fn one_reading_of_relay_conf()
    ensures settings { (lines : List (List ℕ)) (a b : RelaySettings) → relay.HasSettings lines a
        → relay.HasSettings lines b → a ≡ b }
    ensures either { (lines : List (List ℕ)) (settings : RelaySettings) (fault : LineFault)
        → relay.HasSettings lines settings → ¬ relay.HasFault lines fault }
    ensures fault { (lines : List (List ℕ)) (a b : LineFault) → relay.HasFault lines a
        → relay.HasFault lines b → a ≡ b }
{}

/// The lines of storage.conf, over some groups, say one thing: its entries, or its fault.
pub fn one_reading_of_storage_conf()
    ensures entries { (groups : List Group) (lines : List (List ℕ)) (a b : List Entry)
        → storage.HasEntries groups lines a → storage.HasEntries groups lines b → a ≡ b }
    ensures either { (groups : List Group) (lines : List (List ℕ)) (entries : List Entry)
        (fault : LineFault) → storage.HasEntries groups lines entries
        → ¬ storage.HasFault groups lines fault }
    ensures fault { (groups : List Group) (lines : List (List ℕ)) (a b : LineFault)
        → storage.HasFault groups lines a → storage.HasFault groups lines b → a ≡ b }
{}

/// The lines of relay.conf, whatever they are, have settings or a fault.
pub fn each_relay_conf_has_a_reading()
    ensures { (lines : List (List ℕ)) → RelayHasReading lines }
{}

/// The lines of storage.conf, whatever they are and over whichever groups, have entries or a fault.
pub fn each_storage_conf_has_a_reading()
    ensures { (groups : List Group) (lines : List (List ℕ)) → StorageHasReading groups lines }
{}

/// The built-in texts say what K1 is.
pub fn texts_of_k1()
    ensures cycbuff { cycbuff_of (lines_of K1_CYCBUFF.now) ≡ Ok k1_buffers }
    ensures storage { storage.HasEntries k1_buffers.groups (lines_of K1_STORAGE.now) k1_entries }
    ensures relay { relay.HasSettings (lines_of K1_RELAY.now) k1_relay }
{}

/// The buffer and the group of K1 as places have them.
pub fn places_of_k1()
    ensures buffers { numbered_buffers k1_buffers.buffers ≡ eight ∷ [] }
    ensures groups { groups_over k1_buffers.buffers k1_buffers.groups ≡ one_of_eight ∷ [] }
{}

/// The text of cycbuff.conf in K2 says its buffers and its group, which places have in their order.
pub fn places_of_k2()
    ensures cycbuff { cycbuff_of k2_cycbuff ≡ Ok k2_buffers }
    ensures buffers { numbered_buffers k2_buffers.buffers ≡ eight ∷ six ∷ [] }
    ensures groups { groups_over k2_buffers.buffers k2_buffers.groups ≡ eight_then_six ∷ [] }
{}

/// In an example lines of `allow` say their ranges, in their order, whether they stand before their
/// peers or behind them.
pub fn ranges_of_an_example()
    ensures { relay.HasSettings reach_lines reach_settings }
{}

/// There a range of 31 bits ends at its last bit, one of 32 is one address, one of 8 ends at its
/// first octet; lines of one peer add up, those of another don't count, and a peer without one is
/// reached from everywhere.
pub fn who_connects_in_an_example()
    ensures inside { (reaches 0 192 0 2 4 ≡ true) × (reaches 0 192 0 2 5 ≡ true) }
    ensures outside { (reaches 0 192 0 2 3 ≡ false) × (reaches 0 192 0 2 6 ≡ false) }
    ensures one { (reaches 0 203 0 113 9 ≡ true) × (reaches 0 203 0 113 8 ≡ false) }
    ensures octet { (reaches 0 10 0 0 0 ≡ true) × (reaches 0 10 255 255 255 ≡ true) }
    ensures beside { (reaches 0 9 255 255 255 ≡ false) × (reaches 0 11 0 0 0 ≡ false) }
    ensures another { (reaches 0 198 51 100 7 ≡ false) × (reaches 1 198 51 100 7 ≡ true) }
    ensures of_another { (reaches 1 192 0 2 4 ≡ false) × (reaches 1 10 1 2 3 ≡ false) }
    ensures everywhere { (reaches 2 192 0 2 6 ≡ true) × (reaches 2 0 0 0 0 ≡ true) }
{}

/// A range of no bits has each address, and one of 128 only its own.
pub fn ranges_of_no_bit_and_of_all()
    ensures all { (range : Range) (address : List ℕ) → IsAddress address → IsAddress range.address
        → range.bits ≡ 0 → has_address range address ≡ true }
    ensures one { (range : Range) (address : List ℕ) → IsAddress address → IsAddress range.address
        → range.bits ≡ 128 → has_address range address ≡ true → address ≡ range.address }
{}

/// What is said of other peers doesn't count, further ranges of a peer add up, and a peer of which
/// none is said is reached from everywhere.
pub fn ranges_add_up()
    ensures others { (allows more : List Allow) (peer : ℕ) (address : List ℕ)
        → has_allow more peer ≡ false
        → may_reach (allows ++ more) peer address ≡ may_reach allows peer address }
    ensures further { (allows more : List Allow) (peer : ℕ) (address : List ℕ)
        → has_allow allows peer ≡ true
        → may_reach (allows ++ more) peer address
        ≡ (may_reach allows peer address || is_allowed more peer address) }
    ensures none { (allows : List Allow) (peer : ℕ) (address : List ℕ)
        → has_allow allows peer ≡ false → may_reach allows peer address ≡ true }
{}

/// The text of each IPv4 address is read back as its IPv4-mapped one (RFC 4291, section 2.5.5.2),
/// and that of each IPv6 address (RFC 5952), in brackets or without, as its octets.
pub fn texts_of_addresses()
    ensures ipv4 { (octets : List ℕ) → length octets ≡ 4
        → ((k : ℕ) → slice_index octets k < 2 ^ 8)
        → address_of (ipv4_text octets) ≡ Some (mapped octets) }
    ensures ipv6 { (segments : List ℕ) → length segments ≡ 8
        → ((k : ℕ) → slice_index segments k < 2 ^ 16)
        → address_of (ipv6_text segments) ≡ Some (octets_of segments) }
    ensures bracketed { (segments : List ℕ) → length segments ≡ 8
        → ((k : ℕ) → slice_index segments k < 2 ^ 16)
        → address_of (codes "[" ++ ipv6_text segments ++ codes "]") ≡ Some (octets_of segments) }
{}

/// In a second example ranges are of IPv6, of IPv4, and of IPv4 written as IPv6.
pub fn ranges_of_both_kinds()
    ensures lines { relay.HasSettings mixed_lines mixed_settings }
    ensures same { range_of (codes "::ffff:10.0.0.0/104") ≡ range_of (codes "10.0.0.0/8") }
{}

/// There a range of 32 bits of IPv6 ends at its second group, `::/0` has IPv4 too, `0.0.0.0/0` has
/// IPv4 alone, and a range has no address of the other kind that only begins with the same octets.
pub fn who_connects_of_both_kinds()
    ensures inside { (mixed_reaches 0 (codes "2001:db8::1") ≡ Some true)
        × (mixed_reaches 0 (codes "2001:db8:ffff:ffff:ffff:ffff:ffff:ffff") ≡ Some true) }
    ensures outside { (mixed_reaches 0 (codes "2001:db7:ffff::") ≡ Some false)
        × (mixed_reaches 0 (codes "2001:db9::") ≡ Some false) }
    ensures no_ipv4 { mixed_reaches 0 (codes "32.1.13.184") ≡ Some false }
    ensures each { (mixed_reaches 1 (codes "::") ≡ Some true)
        × (mixed_reaches 1 (codes "10.0.0.1") ≡ Some true) }
    ensures mapped { (mixed_reaches 2 (codes "10.255.0.1") ≡ Some true)
        × (mixed_reaches 2 (codes "::ffff:10.255.0.1") ≡ Some true)
        × (mixed_reaches 2 (codes "11.0.0.0") ≡ Some false) }
    ensures no_ipv6 { mixed_reaches 2 (codes "a00::1") ≡ Some false }
    ensures all_ipv4 { (mixed_reaches 3 (codes "255.255.255.255") ≡ Some true)
        × (mixed_reaches 3 (codes "::") ≡ Some false) }
{}

/// Lines of `bind` add up, in their order. A second line of one address is Duplicate, however it is
/// written.
pub fn binds_of_examples()
    ensures several { relay.HasSettings bind_lines bind_settings }
    ensures again { relay.HasFault (codes "own a" ∷ codes "bind ::1" ∷ codes "bind [0:0::1]" ∷ [])
        (record { line = 3; fault = Duplicate }) }
    ensures mapped { relay.HasFault
        (codes "bind ::ffff:10.0.0.1" ∷ codes "bind ::1" ∷ codes "bind 10.0.0.1" ∷ [])
        (record { line = 3; fault = Duplicate }) }
{}

/// A line of `log` says whether accepted articles have lines too, and the path of the file; without
/// one nothing is logged.
pub fn logs_of_examples()
    ensures all { relay.HasSettings (lines_with (codes "log all news.log"))
        (logging true (codes "news.log")) }
    ensures refused { relay.HasSettings
        (lines_with (codes "log refused /var/log/news/cnrelay.news"))
        (logging false (codes "/var/log/news/cnrelay.news")) }
    ensures none { (settings_with (each_address ∷ []) [] []).log ≡ None }
{}

/// A missing or superfluous word of `log`, a first one that is neither `refused` nor `all`, and a
/// path with a NUL are Syntax; a second line is Duplicate, whatever it says.
pub fn faults_of_log()
    ensures no_word { relay_line (codes "log") ≡ Err Syntax }
    ensures no_file { (relay_line (codes "log all") ≡ Err Syntax)
        × (relay_line (codes "log refused") ≡ Err Syntax) }
    ensures other { (relay_line (codes "log some f") ≡ Err Syntax)
        × (relay_line (codes "log ALL f") ≡ Err Syntax) }
    ensures further { relay_line (codes "log all f g") ≡ Err Syntax }
    ensures nul { relay_line (codes "log all " ++ 0 ∷ []) ≡ Err Syntax }
    ensures again { relay.HasFault (codes "log all f" ∷ codes "own a" ∷ codes "log refused g" ∷ [])
        (record { line = 3; fault = Duplicate }) }
{}

/// A part is that of its numbers; numbers that are not in order are of no part.
pub fn parts_by_numbers()
    ensures part { (hash : HashFeed) → hash_part hash.first hash.last hash.parts ≡ Some hash }
    ensures none { (first last parts : ℕ) → in_order first last parts ≡ false
        → hash_part first last parts ≡ None }
{}

/// A line of a feed says its part, a single place as the part from it to it; without one the feed
/// may have each article. Zeros in front do not matter, and a part may be of 4,294,967,295.
pub fn hash_feeds_of_examples()
    ensures lines { relay.HasSettings hash_lines hash_settings }
    ensures single { numbers_of (codes "3/4") ≡ Some (3, 3, 4) }
    ensures several { numbers_of (codes "2-3/4") ≡ Some (2, 3, 4) }
    ensures zeros { numbers_of (codes "01-002/0003") ≡ Some (1, 2, 3) }
    ensures most { numbers_of (codes "1-4294967295/4294967295")
        ≡ Some (1, 4294967295, 4294967295) }
{}

/// Syntax is a missing or superfluous word of `feed`, another word than `hash`, and a part without
/// just one slash, with a second dash in front of it, or with an empty piece.
pub fn words_of_hash()
    ensures few { (relay_line (codes "feed p 2") ≡ Err Syntax)
        × (relay_line (codes "feed p 2 * hash") ≡ Err Syntax) }
    ensures further { relay_line (codes "feed p 2 * hash 1/2 3") ≡ Err Syntax }
    ensures another { (relay_line (codes "feed p 2 * part 1/2") ≡ Err Syntax)
        × (relay_line (codes "feed p 2 * HASH 1/2") ≡ Err Syntax) }
    ensures slashes { (part_of (codes "1-1") ≡ Err Syntax) × (part_of (codes "1/2/3") ≡ Err Syntax) }
    ensures dashes { part_of (codes "1-2-3/4") ≡ Err Syntax }
    ensures empty { (part_of (codes "/2") ≡ Err Syntax) × (part_of (codes "1/") ≡ Err Syntax)
        × (part_of (codes "-1/2") ≡ Err Syntax) × (part_of (codes "1-/2") ≡ Err Syntax) }
{}

/// Number is a piece with another octet than digits, and numbers that are out of order or past
/// 4,294,967,295. Syntax comes before Number, Number before Duplicate.
pub fn faults_of_hash()
    ensures digits { (part_of (codes "a/2") ≡ Err Number) × (part_of (codes "1-+1/2") ≡ Err Number)
        × (part_of (codes "1/2-3") ≡ Err Number) }
    ensures zero { (part_of (codes "0/2") ≡ Err Number) × (part_of (codes "0-1/2") ≡ Err Number) }
    ensures falling { part_of (codes "2-1/2") ≡ Err Number }
    ensures past { (part_of (codes "1-3/2") ≡ Err Number) × (part_of (codes "3/2") ≡ Err Number) }
    ensures most { part_of (codes "1/4294967296") ≡ Err Number }
    ensures first { (relay_line (codes "feed p 0 * hash 1") ≡ Err Syntax)
        × (relay_line (codes "feed p! 2 * hash 0/2") ≡ Err Syntax)
        × (relay_line (codes "feed p 2 * hash 0/2") ≡ Err Number) }
    ensures again { relay.HasFault
        (codes "own a" ∷ codes "peer p b 0" ∷ codes "feed p 2 * hash 1/2" ∷ codes "feed p 2 *" ∷ [])
        (record { line = 4; fault = Duplicate }) }
{}

/// Number is a number of bits past those of the address, and Syntax what is no address: `::` twice,
/// IPv4 in brackets, or one bracket.
pub fn faults_of_addresses()
    ensures bits { relay_line (codes "allow p 2001:db8::/129") ≡ Err Number }
    ensures bits_of_ipv4 { relay_line (codes "allow p 10.0.0.0/33") ≡ Err Number }
    ensures elided_twice { relay_line (codes "allow p 2001:db8::1::/8") ≡ Err Syntax }
    ensures bracketed { relay_line (codes "bind [10.0.0.1]") ≡ Err Syntax }
    ensures one_bracket { (relay_line (codes "bind [::") ≡ Err Syntax)
        × (relay_line (codes "bind ::]") ≡ Err Syntax) }
{}

/// Of two faults in a line of `allow` the first from the left counts; Number is a number of bits
/// that is none, Syntax what is no address, has two slashes, or has no range.
pub fn faults_of_allow()
    ensures none { relay_line (codes "allow p") ≡ Err Syntax }
    ensures bits { relay_line (codes "allow p 10.0.0.0/33") ≡ Err Number }
    ensures no_bits { relay_line (codes "allow p 10.0.0.0/") ≡ Err Number }
    ensures slashes { relay_line (codes "allow p 10.0.0.0/8/9") ≡ Err Syntax }
    ensures address { relay_line (codes "allow p 10.0.0/33") ≡ Err Syntax }
    ensures first { (relay_line (codes "allow p 10.0.0.0/33 x") ≡ Err Number)
        × (relay_line (codes "allow p x 10.0.0.0/33") ≡ Err Syntax) }
    ensures name { relay_line (codes "allow p! 10.0.0.0/33") ≡ Err Syntax }
{}

/// The identities of relay.conf are such as an agent may put into a Path: not empty, without a dot
/// in front, printable, without `!`.
pub fn identities_are_of_agents()
    ensures own { (lines : List (List ℕ)) (settings : RelaySettings)
        → relay.HasSettings lines settings → IsTrue (is_agent settings.own) }
    ensures peers { (lines : List (List ℕ)) (settings : RelaySettings)
        → relay.HasSettings lines settings
        → All (λ peer. IsTrue (is_agent peer.identity)) settings.peers }
{}

/// So an identity is one of each Path that has it as its first piece.
pub fn identities_stand_in_paths()
    ensures { (identity more : List ℕ) → IsTrue (is_identity identity)
        → path_identities (identity ++ byte "!" ∷ more) ≡ identity ∷ path_identities more }
{}

/// The buffers and groups of cycbuff.conf are sound, whatever it says, and there are at most 256 of
/// each.
pub fn buffers_are_sound(buffers: &Buffers)
    ensures sound { AreSound (places_of_buffers buffers.now) (places_of_groups buffers.now) }
    ensures few_buffers { length (places_of_buffers buffers.now) ≤ 256 }
    ensures few_groups { length (places_of_groups buffers.now) ≤ 256 }
{}

/// The settings of relay.conf are sound, whatever it says.
pub fn relay_is_sound(relay: &Relay)
    ensures { IsSoundRelay (relay_view relay.now) }
{}

/// A token has room for the class of each entry, and its group is one of the groups.
pub fn entries_are_sound(config: &Config)
    ensures classes { All (λ entry. entry.class < 2 ^ 8)
        (map entry_view config.now.storage_entries.items) }
    ensures groups { All (λ entry. entry.group < length (places_of_groups config.now.buffers))
        (map entry_view config.now.storage_entries.items) }
{}
