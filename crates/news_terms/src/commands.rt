//! Worked examples of command lines: each line of the table once, and each way to miss it.
ghost use Rattle.std.specs.Prelude.{◌≡◌, codes, Some, None, Ok, Err, [], ◌∷◌, ◌++◌, map, replicate};
ghost use Rattle.std.specs.Prelude.{length};
ghost use Rattle.news_terms.specs.Command.{command_of, keywords};
ghost use Rattle.news_terms.specs.Command as commands;

/// Words are separated by SP and TAB, keywords are read without regard to case.
pub fn word_examples()
    ensures blanks { command_of (codes "\t  quit \t") ≡ Ok commands.Quit }
    ensures between { command_of (codes "Check\t \t<a@x>")
        ≡ Ok (commands.Check (codes "<a@x>")) }
    ensures no_word { command_of [] ≡ Err commands.Unknown }
    ensures blank_line { command_of (codes " \t ") ≡ Err commands.Unknown }
    ensures unknown { command_of (codes "FOO") ≡ Err commands.Unknown }
    ensures unknown_with_words { command_of (codes "CHECKS <a@x>") ≡ Err commands.Unknown }
    ensures others { map command_of
        (codes "XOVER" ∷ codes "POST" ∷ codes "GROUP x" ∷ codes "LIST" ∷ [])
        ≡ replicate 4 (Err commands.Unknown) }
    ensures form_feed { command_of (codes "QUIT" ++ 12 ∷ []) ≡ Err commands.Unknown }
    ensures no_more { length keywords ≡ 15 }
    ensures no_white { command_of (codes "QUIT\r") ≡ Err commands.Unknown }
{}

/// What asks about the session.
pub fn session_examples()
    ensures capabilities { command_of (codes "CAPABILITIES") ≡ Ok commands.AskCapabilities }
    ensures capabilities_word { command_of (codes "CAPABILITIES x")
        ≡ Ok commands.AskCapabilities }
    ensures capabilities_long_word { command_of (codes "CAPABILITIES " ++ replicate 99 97)
        ≡ Ok commands.AskCapabilities }
    ensures capabilities_words { command_of (codes "CAPABILITIES x y") ≡ Err commands.Syntax }
    ensures help { command_of (codes "HELP") ≡ Ok commands.AskHelp }
    ensures help_with { command_of (codes "HELP x") ≡ Err commands.Syntax }
    ensures date { command_of (codes "DATE") ≡ Ok commands.AskDate }
    ensures date_with { command_of (codes "DATE x") ≡ Err commands.Syntax }
    ensures quit { command_of (codes "QUIT") ≡ Ok commands.Quit }
    ensures quit_with { command_of (codes "QUIT now") ≡ Err commands.Syntax }
{}

/// MODE with its second word.
pub fn mode_examples()
    ensures stream { command_of (codes "MODE STREAM") ≡ Ok commands.ModeStream }
    ensures stream_in_case { command_of (codes "mode Stream") ≡ Ok commands.ModeStream }
    ensures reader { command_of (codes "MODE READER") ≡ Ok commands.ModeReader }
    ensures reader_in_case { command_of (codes "Mode reader") ≡ Ok commands.ModeReader }
    ensures alone { command_of (codes "MODE") ≡ Err commands.Syntax }
    ensures other_word { command_of (codes "MODE X") ≡ Err commands.Syntax }
    ensures three_words { command_of (codes "MODE STREAM x") ≡ Err commands.Syntax }
{}

/// Offers, and an article that comes with its offer.
pub fn offer_examples()
    ensures check { command_of (codes "CHECK <a@x>") ≡ Ok (commands.Check (codes "<a@x>")) }
    ensures check_capital { command_of (codes "CHECK <A@x>") ≡ Ok (commands.Check (codes "<A@x>")) }
    ensures check_alone { command_of (codes "CHECK") ≡ Err commands.Syntax }
    ensures check_no_id { command_of (codes "CHECK a@x") ≡ Err commands.Syntax }
    ensures check_two { command_of (codes "CHECK <a@x> <b@x>") ≡ Err commands.Syntax }
    ensures ihave { command_of (codes "IHAVE <a@x>") ≡ Ok (commands.Ihave (codes "<a@x>")) }
    ensures ihave_alone { command_of (codes "IHAVE") ≡ Err commands.Syntax }
    ensures ihave_no_id { command_of (codes "IHAVE a@x") ≡ Err commands.Syntax }
    ensures ihave_two { command_of (codes "IHAVE <a@x> <b@x>") ≡ Err commands.Syntax }
    ensures takethis { command_of (codes "TAKETHIS <a@x>")
        ≡ Ok (commands.TakeThis (Some (codes "<a@x>"))) }
    ensures takethis_capital { command_of (codes "TAKETHIS <A@x>")
        ≡ Ok (commands.TakeThis (Some (codes "<A@x>"))) }
    ensures takethis_alone { command_of (codes "TAKETHIS") ≡ Ok (commands.TakeThis None) }
    ensures takethis_no_id { command_of (codes "TAKETHIS nonsense")
        ≡ Ok (commands.TakeThis None) }
    ensures takethis_two { command_of (codes "TAKETHIS <a@x> <b@x>")
        ≡ Ok (commands.TakeThis None) }
{}

/// Fetches by message-id.
pub fn fetch_examples()
    ensures article { command_of (codes "ARTICLE <a@x>")
        ≡ Ok (commands.Fetch commands.WholeText (codes "<a@x>")) }
    ensures head { command_of (codes "HEAD <a@x>")
        ≡ Ok (commands.Fetch commands.Header (codes "<a@x>")) }
    ensures body { command_of (codes "BODY <a@x>")
        ≡ Ok (commands.Fetch commands.BodyLines (codes "<a@x>")) }
    ensures stat { command_of (codes "STAT <a@x>")
        ≡ Ok (commands.Fetch commands.Presence (codes "<a@x>")) }
    ensures over { command_of (codes "OVER <a@x>")
        ≡ Ok (commands.Fetch commands.OverviewLine (codes "<a@x>")) }
    ensures capital { command_of (codes "STAT <A@x>")
        ≡ Ok (commands.Fetch commands.Presence (codes "<A@x>")) }
    ensures other_word { command_of (codes "STAT a@x") ≡ Err commands.Syntax }
    ensures two_words { command_of (codes "STAT <a@x> 5") ≡ Err commands.Syntax }
    ensures over_two_words { command_of (codes "OVER <a@x> 5") ≡ Err commands.Syntax }
{}

/// Fetches of the current article or by number: 1 to 16 digits.
pub fn number_examples()
    ensures article { command_of (codes "ARTICLE") ≡ Ok commands.NeedsGroup }
    ensures article_number { command_of (codes "ARTICLE 5") ≡ Ok commands.NeedsGroup }
    ensures head { command_of (codes "HEAD") ≡ Ok commands.NeedsGroup }
    ensures head_number { command_of (codes "HEAD 5") ≡ Ok commands.NeedsGroup }
    ensures body { command_of (codes "BODY") ≡ Ok commands.NeedsGroup }
    ensures body_number { command_of (codes "BODY 5") ≡ Ok commands.NeedsGroup }
    ensures stat { command_of (codes "STAT") ≡ Ok commands.NeedsGroup }
    ensures stat_number { command_of (codes "STAT 5") ≡ Ok commands.NeedsGroup }
    ensures sixteen { command_of (codes "STAT 1234567890123456") ≡ Ok commands.NeedsGroup }
    ensures seventeen { command_of (codes "STAT 12345678901234567") ≡ Err commands.Syntax }
    ensures zero { command_of (codes "STAT 0") ≡ Ok commands.NeedsGroup }
    ensures other_octet { command_of (codes "STAT 5x") ≡ Err commands.Syntax }
    ensures plus { command_of (codes "STAT +5") ≡ Err commands.Syntax }
    ensures article_range { command_of (codes "ARTICLE 1-") ≡ Err commands.Syntax }
    ensures head_range { command_of (codes "HEAD 1-") ≡ Err commands.Syntax }
    ensures body_range { command_of (codes "BODY 1-") ≡ Err commands.Syntax }
    ensures stat_range { command_of (codes "STAT 1-") ≡ Err commands.Syntax }
{}

/// OVER of the current article or by a range of numbers.
pub fn range_examples()
    ensures current { command_of (codes "OVER") ≡ Ok commands.NeedsGroup }
    ensures one { command_of (codes "OVER 5") ≡ Ok commands.NeedsGroup }
    ensures open { command_of (codes "OVER 1-") ≡ Ok commands.NeedsGroup }
    ensures two_ends { command_of (codes "OVER 1-20") ≡ Ok commands.NeedsGroup }
    ensures sixteen { command_of (codes "OVER 1234567890123456-1234567890123456")
        ≡ Ok commands.NeedsGroup }
    ensures seventeen { command_of (codes "OVER 1-12345678901234567") ≡ Err commands.Syntax }
    ensures seventeen_low { command_of (codes "OVER 12345678901234567-") ≡ Err commands.Syntax }
    ensures falling { command_of (codes "OVER 20-1") ≡ Ok commands.NeedsGroup }
    ensures no_low { command_of (codes "OVER -20") ≡ Err commands.Syntax }
    ensures three_ends { command_of (codes "OVER 1-2-3") ≡ Err commands.Syntax }
    ensures other_octet { command_of (codes "OVER 1-x") ≡ Err commands.Syntax }
    ensures other_octet_low { command_of (codes "OVER x-1") ≡ Err commands.Syntax }
    ensures other_word { command_of (codes "OVER x") ≡ Err commands.Syntax }
{}

/// The commands of a feed.
pub fn feed_examples()
    ensures least { command_of (codes "XTAKE 1") ≡ Ok (commands.TakeQueue 1) }
    ensures most { command_of (codes "XTAKE 1000") ≡ Ok (commands.TakeQueue 1000) }
    ensures zeros { command_of (codes "XTAKE 0005") ≡ Ok (commands.TakeQueue 5) }
    ensures many_zeros { command_of (codes "XTAKE 00000000000000005") ≡ Ok (commands.TakeQueue 5) }
    ensures none { command_of (codes "XTAKE 0") ≡ Err commands.Syntax }
    ensures too_many { command_of (codes "XTAKE 1001") ≡ Err commands.Syntax }
    ensures past_64_bits { command_of (codes "XTAKE 18446744073709551617") ≡ Err commands.Syntax }
    ensures no_number { command_of (codes "XTAKE 5x") ≡ Err commands.Syntax }
    ensures plus { command_of (codes "XTAKE +5") ≡ Err commands.Syntax }
    ensures xtake_alone { command_of (codes "XTAKE") ≡ Err commands.Syntax }
    ensures xtake_two { command_of (codes "XTAKE 1 2") ≡ Err commands.Syntax }
    ensures xfetch_capital { command_of (codes "XFETCH X") ≡ Ok (commands.FetchToken (codes "X")) }
    ensures xfetch { command_of (codes "XFETCH x") ≡ Ok (commands.FetchToken (codes "x")) }
    ensures xfetch_long_word { command_of (codes "XFETCH " ++ replicate 99 97)
        ≡ Ok (commands.FetchToken (replicate 99 97)) }
    ensures xfetch_alone { command_of (codes "XFETCH") ≡ Err commands.Syntax }
    ensures xfetch_two { command_of (codes "XFETCH x y") ≡ Err commands.Syntax }
{}
