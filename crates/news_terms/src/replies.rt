//! Worked examples of tokens and replies: each reply once.
ghost use Rattle.std.specs.Prelude.{◌≡◌, ◌++◌, ◌↔◌, codes, [], ◌∷◌, true, flat_map, replicate};
ghost use Rattle.news_terms.specs.Reply.{reply_text};
ghost use Rattle.news_terms.specs.Reply as replies;
ghost use Rattle.news_terms.specs.Token.{Token, IsToken, same_token, token_text};

/// The tokens of three articles of 1,440 octets in a buffer of eight blocks, and of one of 164.
pub fn token_examples()
    ensures first { token_text
        (record { class = 1; buffer = 0; cycle = 0; first = 0; length = 1440 })
        ≡ codes "@01000000000000000000000005A0@" }
    ensures second { token_text
        (record { class = 1; buffer = 0; cycle = 0; first = 3; length = 1440 })
        ≡ codes "@01000000000000000003000005A0@" }
    ensures third { token_text
        (record { class = 1; buffer = 0; cycle = 1; first = 0; length = 1440 })
        ≡ codes "@01000000000100000000000005A0@" }
    ensures small { token_text
        (record { class = 1; buffer = 0; cycle = 0; first = 0; length = 164 })
        ≡ codes "@01000000000000000000000000A4@" }
    ensures each_part_in_its_place { token_text (record {
      class = 0xFE;
      buffer = 0xDC;
      cycle = 0xBA987654;
      first = 0x32100123;
      length = 0x456789AB;
    }) ≡ codes "@FEDCBA98765432100123456789AB@" }
    ensures second_buffer { token_text
        (record { class = 1; buffer = 2; cycle = 3; first = 4; length = 5 })
        ≡ codes "@0102000000030000000400000005@" }
    ensures greatest { IsToken (record {
      class = 0xFF;
      buffer = 0xFF;
      cycle = 0xFFFFFFFF;
      first = 0xFFFFFFFF;
      length = 0xFFFFFFFF;
    }) }
    ensures class_past_octet { ¬ IsToken
        (record { class = 256; buffer = 0; cycle = 0; first = 0; length = 1 }) }
    ensures buffer_past_octet { ¬ IsToken
        (record { class = 1; buffer = 256; cycle = 0; first = 0; length = 1 }) }
{}

/// Tokens are the same exactly where the test says so, and two tokens have two texts.
pub fn token_laws()
    ensures same { (a b : Token) → (same_token a b ≡ true) ↔ (a ≡ b) }
    ensures one_text { (a b : Token) → IsToken a → IsToken b → token_text a ≡ token_text b
        → a ≡ b }
{}

/// The greeting, and what a session says of itself.
pub fn session_reply_examples()
    ensures greeting { reply_text replies.Greeting
        ≡ codes "201 cnrelay ready, posting prohibited\r\n" }
    ensures capabilities { reply_text replies.CapabilityList
        ≡ codes "101 Capability list:\r\nVERSION 2\r\nIMPLEMENTATION cnrelay\r\nIHAVE\r\n"
        ++ codes "STREAMING\r\nXTAKE\r\nXFETCH\r\n.\r\n" }
    ensures help { reply_text replies.HelpText
        ≡ codes "100 Help text follows\r\nCHECK TAKETHIS IHAVE STAT ARTICLE HEAD BODY OVER XTAKE "
        ++ codes "XFETCH MODE DATE CAPABILITIES HELP QUIT\r\n.\r\n" }
    ensures date { reply_text (replies.DateIs (codes "20210101000000"))
        ≡ codes "111 20210101000000\r\n" }
    ensures bye { reply_text replies.Bye ≡ codes "205 Bye\r\n" }
    ensures streaming { reply_text replies.StreamingPermitted
        ≡ codes "203 Streaming permitted\r\n" }
    ensures posting { reply_text replies.PostingProhibited ≡ codes "201 Posting prohibited\r\n" }
{}

/// What CHECK and TAKETHIS are answered.
pub fn offer_reply_examples()
    ensures send { reply_text (replies.SendIt (codes "<a@x>")) ≡ codes "238 <a@x>\r\n" }
    ensures later { reply_text (replies.AskLater (codes "<a@x>")) ≡ codes "431 <a@x>\r\n" }
    ensures not_wanted { reply_text (replies.NotWanted (codes "<a@x>")) ≡ codes "438 <a@x>\r\n" }
    ensures kept { reply_text (replies.Kept (codes "<a@x>")) ≡ codes "239 <a@x>\r\n" }
    ensures rejected { reply_text (replies.Rejected (codes "<a@x>")) ≡ codes "439 <a@x>\r\n" }
    ensures not_stored { reply_text replies.NotStored ≡ codes "400 Not stored, closing\r\n" }
{}

/// What IHAVE is answered, at first and after the article.
pub fn ihave_reply_examples()
    ensures send { reply_text replies.IhaveSend ≡ codes "335 Send it\r\n" }
    ensures not_wanted { reply_text replies.IhaveNotWanted ≡ codes "435 Not wanted\r\n" }
    ensures later { reply_text replies.IhaveLater ≡ codes "436 Try again later\r\n" }
    ensures kept { reply_text replies.IhaveKept ≡ codes "235 Transferred\r\n" }
    ensures rejected { reply_text replies.IhaveRejected ≡ codes "437 Rejected\r\n" }
{}

/// What a fetch by message-id is answered: a text is stuffed and closed, STAT sends none.
pub fn fetch_reply_examples()
    ensures article { reply_text
        (replies.ArticleFollows (codes "<a@x>") (codes "Path: x\r\n\r\n.\r\n"))
        ≡ codes "220 0 <a@x>\r\nPath: x\r\n\r\n..\r\n.\r\n" }
    ensures header { reply_text (replies.HeaderFollows (codes "<a@x>") (codes "Path: x\r\n"))
        ≡ codes "221 0 <a@x>\r\nPath: x\r\n.\r\n" }
    ensures body { reply_text (replies.BodyFollows (codes "<a@x>") (codes "..x\r\n"))
        ≡ codes "222 0 <a@x>\r\n...x\r\n.\r\n" }
    ensures empty_body { reply_text (replies.BodyFollows (codes "<a@x>") [])
        ≡ codes "222 0 <a@x>\r\n.\r\n" }
    ensures exists { reply_text (replies.Exists (codes "<a@x>")) ≡ codes "223 0 <a@x>\r\n" }
    ensures overview { reply_text
        (replies.OverviewFollows (codes "0\tt\ta@x.example\t\t<a@x>\t\t164\t1"))
        ≡ codes "224 Overview follows\r\n0\tt\ta@x.example\t\t<a@x>\t\t164\t1\r\n.\r\n" }
    ensures no_article { reply_text replies.NoArticle ≡ codes "430 No such article\r\n" }
    ensures no_group { reply_text replies.NoGroup ≡ codes "412 No group selected\r\n" }
    ensures device { reply_text replies.DeviceFault ≡ codes "403 Device fault\r\n" }
{}

/// What the commands of a feed are answered.
pub fn feed_reply_examples()
    ensures queue { reply_text (replies.QueueFollows 1
        ((2, record { class = 1; buffer = 0; cycle = 0; first = 1; length = 164 }) ∷ []))
        ≡ codes "290 Queue follows\r\n1\r\n2 @01000000000000000001000000A4@\r\n.\r\n" }
    ensures queue_of_two { reply_text (replies.QueueFollows 10
        ((11, record { class = 1; buffer = 0; cycle = 0; first = 1; length = 164 })
        ∷ (12, record { class = 1; buffer = 0; cycle = 0; first = 2; length = 164 }) ∷ []))
        ≡ codes "290 Queue follows\r\n10\r\n11 @01000000000000000001000000A4@\r\n"
        ++ codes "12 @01000000000000000002000000A4@\r\n.\r\n" }
    ensures queue_of_many { reply_text (replies.QueueFollows 0 (replicate 9
        (5, record { class = 1; buffer = 0; cycle = 0; first = 1; length = 164 })))
        ≡ codes "290 Queue follows\r\n0\r\n"
        ++ flat_map (λ line. line) (replicate 9 (codes "5 @01000000000000000001000000A4@\r\n"))
        ++ codes ".\r\n" }
    ensures empty_queue { reply_text (replies.QueueFollows 0 [])
        ≡ codes "290 Queue follows\r\n0\r\n.\r\n" }
    ensures no_feed { reply_text replies.NoFeed ≡ codes "490 No feed\r\n" }
    ensures token { reply_text (replies.TokenFollows
        (record { class = 1; buffer = 0; cycle = 0; first = 0; length = 164 })
        (codes ".\r\n"))
        ≡ codes "292 @01000000000000000000000000A4@\r\n..\r\n.\r\n" }
    ensures gone { reply_text (replies.TokenGone
        (record { class = 1; buffer = 0; cycle = 0; first = 0; length = 164 }))
        ≡ codes "492 @01000000000000000000000000A4@ gone\r\n" }
    ensures unknown { reply_text (replies.TokenUnknown
        (record { class = 1; buffer = 0; cycle = 0; first = 0; length = 164 }))
        ≡ codes "493 @01000000000000000000000000A4@ unknown\r\n" }
{}

/// What a line that is no command is answered.
pub fn fault_reply_examples()
    ensures unknown { reply_text replies.UnknownCommand ≡ codes "500 Unknown command\r\n" }
    ensures syntax { reply_text replies.SyntaxError ≡ codes "501 Syntax error\r\n" }
    ensures long_line { reply_text replies.LineTooLong ≡ codes "501 Line too long\r\n" }
{}
