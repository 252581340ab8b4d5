//! Judgements of single articles, computed: the first reason against each, or what is stored.
ghost use Rattle.std.specs.Prelude.{◌≡◌, ◌+◌, ◌-◌, ◌++◌, Ok, Err, codes};
ghost use Rattle.std.specs.Str.{byte};
ghost use Rattle.news_terms.specs.Article.{worked_article};
ghost use Rattle.relay_model.specs.Judging.{judged, stored_text};
ghost use Rattle.relay_model.specs.Terms.{IdMismatch, BadPath, Loop, Date, NoClass, TooLarge};
ghost use Rattle.relay_laws.specs.Judgements as rows;
ghost use Rattle.relay_laws.specs.Terms.{k1, now, own_is_first, one_block};

/// Each reason is found where it is the first, before the one that is tried next.
pub fn reasons_in_order()
    ensures mismatch { judged k1 0 (codes "<b@x>") now rows.plain ≡ Err IdMismatch }
    ensures mismatch_first { judged k1 0 (codes "<b@x>") now rows.bad_path ≡ Err IdMismatch }
    ensures bad_path { judged k1 0 (codes "<a@x>") now rows.bad_path ≡ Err BadPath }
    ensures bad_path_first { judged own_is_first 0 (codes "<a@x>") now rows.bad_path
        ≡ Err BadPath }
    ensures loops { judged own_is_first 0 (codes "<a@x>") now rows.plain ≡ Err Loop }
    ensures loops_first { judged own_is_first 0 (codes "<a@x>") rows.too_late rows.plain
        ≡ Err Loop }
    ensures late_first { judged rows.without_class 0 (codes "<a@x>") rows.too_late rows.plain
        ≡ Err Date }
    ensures no_class { judged rows.without_class 0 (codes "<a@x>") now rows.plain ≡ Err NoClass }
    ensures too_large { judged one_block 0 (codes "<a@x>") now (worked_article (byte "a") 318)
        ≡ Err TooLarge }
{}

/// An article has to fit into each buffer of the group of its class.
pub fn room_in_each_buffer()
    ensures behind { judged rows.smaller_behind 0 (codes "<a@x>") now
        (worked_article (byte "a") 318) ≡ Err TooLarge }
    ensures in_front { judged rows.smaller_in_front 0 (codes "<a@x>") now
        (worked_article (byte "a") 318) ≡ Err TooLarge }
{}

/// An article may be as old as the cutoff says, and its date a day ahead; a second more is too
/// much.
pub fn dates_in_time()
    ensures oldest { judged k1 0 (codes "<a@x>") (now + 864_000) rows.plain
        ≡ Ok (rows.accepted_plain 1 0) }
    ensures too_old { judged k1 0 (codes "<a@x>") rows.too_late rows.plain ≡ Err Date }
    ensures ahead { judged k1 0 (codes "<a@x>") (now - 86_400) rows.plain
        ≡ Ok (rows.accepted_plain 1 0) }
    ensures too_far_ahead { judged k1 0 (codes "<a@x>") (now - 86_401) rows.plain ≡ Err Date }
{}

/// The Injection-Date counts before the Date: one that is too old, or can't be read, isn't helped
/// by a Date in time, and one in time isn't harmed by a Date too far ahead.
pub fn injection_dates()
    ensures in_time { judged rows.reading_2020 0 (codes "<a@x>") rows.first_of_2020
        (rows.injected rows.injection_2020) ≡ Ok rows.accepted_injected }
    ensures too_old { judged rows.reading_2020 0 (codes "<a@x>") now
        (rows.injected rows.injection_2020) ≡ Err Date }
    ensures unread { judged rows.reading_2020 0 (codes "<a@x>") now
        (rows.injected (codes " yesterday")) ≡ Err Date }
{}

/// What is accepted goes to the group of its class.
pub fn group_of_class()
    ensures { judged rows.second_group 0 (codes "<a@x>") now rows.plain
        ≡ Ok (rows.accepted_plain 7 1) }
{}

/// The text that is stored begins with the own identity: `!!` before the peer that it came from,
/// where that is in front, else which peer it came from. An Xref stays as it came.
pub fn stored_texts()
    ensures from_front { stored_text k1 0 rows.plain ≡ rows.stored_plain }
    ensures mismatch { stored_text k1 1 rows.plain
        ≡ codes "Path: relay.example!.MISMATCH.two.example!one.example!not-for-mail\r\n"
        ++ rows.other_fields ++ codes "\r\nx\r\n" }
    ensures no_identity { stored_text k1 0 rows.without_identity
        ≡ codes "Path: relay.example!.MISMATCH.one.example!not-for-mail\r\n"
        ++ rows.other_fields ++ codes "\r\nx\r\n" }
    ensures xref { stored_text k1 0 rows.numbered
        ≡ codes "Path: relay.example!!one.example!not-for-mail\r\n"
        ++ rows.other_fields ++ codes "Xref: one.example misc.test:7\r\n\r\nx\r\n" }
{}
