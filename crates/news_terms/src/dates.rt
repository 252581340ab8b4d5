//! Dates: worked examples, of which now is 1609459200, the first second of 2021.

ghost use Rattle.std.specs.Prelude.{◌≡◌, ◌++◌, ◌∷◌, ◌↔◌, ◌+◌, ◌+ℤ◌, ◌≤ℤ◌, ◌<ℤ◌, ℕ, ℤ, List, codes};
ghost use Rattle.std.specs.Prelude.{◌<◌, [], Some, None, pos, negsuc, map, replicate};
ghost use Rattle.news_terms.specs.Article.{worked_article};
ghost use Rattle.news_terms.specs.Dates.{seconds_ahead, prepared_date, date_fault, judged_date};
ghost use Rattle.news_terms.specs.Dates.{BadDate, Future, TooOld, two_digits, four_digits};
ghost use Rattle.news_terms.specs.Dates.{fourteen_digits};
ghost use Rattle.news_terms.specs.Stamps.{IsStamp};
ghost use Rattle.std.specs.Str.Parse.{digits_value};

/// A date has no fault from the cutoff before now to a day after it.
pub fn window()
    ensures within { (now cutoff : ℕ) (second : ℤ) → (date_fault now cutoff (Some second) ≡ None)
        ↔ ((pos now ≤ℤ (second +ℤ pos cutoff)) × (second ≤ℤ pos (now + seconds_ahead))) }
    ensures future { (now cutoff : ℕ) (second : ℤ)
        → (date_fault now cutoff (Some second) ≡ Some Future)
        ↔ (pos (now + seconds_ahead) <ℤ second) }
    ensures too_old { (now cutoff : ℕ) (second : ℤ)
        → (date_fault now cutoff (Some second) ≡ Some TooOld)
        ↔ ((second +ℤ pos cutoff) <ℤ pos now) }
{}

/// What of a date is read.
pub fn preparation_examples()
    ensures day { prepared_date (codes " Sat, 02 Jan 2021 00:00:00 +0000")
        ≡ Some (codes "02 Jan 2021 00:00:00 +0000") }
    ensures no_day { prepared_date (codes " 21 Dec 2020 23:59:59 +0000")
        ≡ Some (codes "21 Dec 2020 23:59:59 +0000") }
    ensures greenwich { prepared_date (codes " Fri, 01 Jan 2021 00:00:00 GMT")
        ≡ Some (codes "01 Jan 2021 00:00:00 +0000") }
    ensures comment { prepared_date (codes " Fri, 01 Jan 2021 00:00:00 +0000 (UTC)")
        ≡ Some (codes "01 Jan 2021 00:00:00 +0000") }
    ensures word_and_comment { prepared_date (codes " Fri, 01 Jan 2021 00:00:00 ut (a) (b)")
        ≡ Some (codes "01 Jan 2021 00:00:00 ut (a)") }
    ensures no_date { prepared_date (codes " yesterday") ≡ Some (codes "yesterday") }
    ensures invented_day { prepared_date (codes "Foo,1 Jan 2021 00:00:00 Utc")
        ≡ Some (codes "1 Jan 2021 00:00:00 +0000") }
    ensures long_day { prepared_date (codes " Friday, 1 Jan") ≡ Some (codes "1 Jan") }
    ensures one_letter { prepared_date (codes " F, 1 Jan") ≡ Some (codes "1 Jan") }
    ensures many_letters { prepared_date (replicate 40 97 ++ codes ", 1 Jan")
        ≡ Some (codes "1 Jan") }
    ensures small_letters { prepared_date (codes " fri, 1 Jan") ≡ Some (codes "1 Jan") }
    ensures no_letter { prepared_date (codes " ,1 Jan") ≡ Some (codes ",1 Jan") }
    ensures comment_inside { prepared_date (codes " 1 Jan (x) 2021")
        ≡ Some (codes "1 Jan (x) 2021") }
    ensures no_opening { prepared_date (codes " 1 Jan)") ≡ Some (codes "1 Jan)") }
    ensures nothing { prepared_date (codes " ") ≡ Some [] }
    ensures past_ascii { prepared_date (codes " 1 J" ++ 0xE4 ∷ codes "n") ≡ None }
    ensures past_ascii_at_last { prepared_date (replicate 40 97 ++ 0xE4 ∷ []) ≡ None }
    ensures past_ascii_in_comment { prepared_date (codes " 1 Jan (" ++ 0xE4 ∷ codes ")")
        ≡ Some (codes "1 Jan") }
    ensures falls_back { judged_date (worked_article 97 1).fields
        ≡ codes " Fri, 01 Jan 2021 00:00:00 +0000" }
{}

/// An Injection-Date is judged by, wherever it stands; without any date nothing is.
pub fn judged_examples()
    ensures behind_date { judged_date (record { name = codes "Date"; content = codes " 1" }
        ∷ record { name = codes "Injection-Date"; content = codes " 2" } ∷ []) ≡ codes " 2" }
    ensures before_date { judged_date
        (record { name = codes "injection-date"; content = codes " 2" }
        ∷ record { name = codes "Date"; content = codes " 1" } ∷ []) ≡ codes " 2" }
    ensures date_alone { judged_date (record { name = codes "Date"; content = codes " 1" } ∷ [])
        ≡ codes " 1" }
    ensures blank { judged_date (record { name = codes "Injection-Date"; content = codes " " }
        ∷ record { name = codes "Date"; content = codes " 1" } ∷ []) ≡ codes " " }
    ensures no_date { judged_date [] ≡ [] }
{}

/// The words for Greenwich that become a number, in any case, and what stays as it is.
pub fn zone_examples()
    ensures universal { prepared_date (codes " Fri, 01 Jan 2021 00:00:00 UT")
        ≡ Some (codes "01 Jan 2021 00:00:00 +0000") }
    ensures universal_in_lower_case { prepared_date (codes " 1 Jan 2021 00:00:00 ut")
        ≡ Some (codes "1 Jan 2021 00:00:00 +0000") }
    ensures coordinated { prepared_date (codes " Fri, 01 Jan 2021 00:00:00 utc")
        ≡ Some (codes "01 Jan 2021 00:00:00 +0000") }
    ensures coordinated_in_upper_case { prepared_date (codes " 1 Jan 2021 00:00:00 UTC")
        ≡ Some (codes "1 Jan 2021 00:00:00 +0000") }
    ensures mean { prepared_date (codes " Fri, 01 Jan 2021 00:00:00 gmt")
        ≡ Some (codes "01 Jan 2021 00:00:00 +0000") }
    ensures behind_tab { prepared_date (codes " 1 Jan 2021 00:00:00\tGMT")
        ≡ Some (codes "1 Jan 2021 00:00:00\t+0000") }
    ensures behind_comment { prepared_date (codes " 1 Jan 2021 00:00:00 GMT (noon)")
        ≡ Some (codes "1 Jan 2021 00:00:00 +0000") }
    ensures other_word { prepared_date (codes " Fri, 01 Jan 2021 00:00:00 EST")
        ≡ Some (codes "01 Jan 2021 00:00:00 EST") }
    ensures military { prepared_date (codes " 1 Jan 2021 00:00:00 Z")
        ≡ Some (codes "1 Jan 2021 00:00:00 Z") }
    ensures both_cases { map prepared_date (codes " 1 Gmt" ∷ codes " 1 uT" ∷ [])
        ≡ Some (codes "1 +0000") ∷ Some (codes "1 +0000") ∷ [] }
    ensures behind_form_feed { prepared_date (49 ∷ 12 ∷ codes "GMT")
        ≡ Some (49 ∷ 12 ∷ codes "GMT") }
    ensures outer_blanks { prepared_date (codes "\t 1 Jan 2021 GMT \t")
        ≡ Some (codes "1 Jan 2021 +0000") }
    ensures negative_zero { prepared_date (codes " 1 Jan 2021 00:00:00 -0000")
        ≡ Some (codes "1 Jan 2021 00:00:00 -0000") }
    ensures zone_alone { prepared_date (codes " GMT") ≡ Some (codes "+0000") }
    ensures not_last { prepared_date (codes " UT 2021") ≡ Some (codes "UT 2021") }
    ensures part_of_a_word { prepared_date (codes " 1 Jan XUT") ≡ Some (codes "1 Jan XUT") }
    ensures space_before_comma { prepared_date (codes " Fri , 1 Jan")
        ≡ Some (codes "Fri , 1 Jan") }
    ensures folded { prepared_date (codes "\r\n Fri,\r\n 1 Jan") ≡ Some (codes "1 Jan") }
    ensures last_ascii { prepared_date (0x7F ∷ []) ≡ Some (0x7F ∷ []) }
    ensures first_past_ascii { prepared_date (0x80 ∷ []) ≡ None }
{}

/// The window of a cutoff of 864,000 seconds.
pub fn window_examples()
    ensures a_day_ahead { date_fault 1609459200 864000 (Some (pos 1609545600)) ≡ None }
    ensures a_second_more { date_fault 1609459200 864000 (Some (pos 1609545601)) ≡ Some Future }
    ensures ten_days_ago { date_fault 1609459200 864000 (Some (pos 1608595200)) ≡ None }
    ensures a_second_earlier { date_fault 1609459200 864000 (Some (pos 1608595199)) ≡ Some TooOld }
    ensures before_1970 { date_fault 0 864000 (Some (negsuc 863999)) ≡ None }
    ensures long_before_1970 { date_fault 0 864000 (Some (negsuc 864000)) ≡ Some TooOld }
    ensures unread { date_fault 1609459200 864000 None ≡ Some BadDate }
{}

/// The digits of a number stand for it.
pub fn digits_stand_for_number()
    ensures two { (n : ℕ) → n < 100 → digits_value 10 (two_digits n) ≡ n }
    ensures four { (n : ℕ) → n < 10000 → digits_value 10 (four_digits n) ≡ n }
{}

/// Fourteen digits.
pub fn digit_examples()
    ensures zeros { two_digits 7 ≡ codes "07" }
    ensures year { four_digits 987 ≡ codes "0987" }
    ensures in_order { fourteen_digits (record {
      year = 2021;
      month = 1;
      day = 2;
      hour = 3;
      minute = 4;
      second = 59;
    }) ≡ codes "20210102030459" }
{}

/// The digits of a moment are one text.
pub fn one_stamp()
    ensures { (now : ℕ) (a b : List ℕ) → IsStamp now a → IsStamp now b → a ≡ b }
{}

/// The digits of some moments, a leap day and the last second of the year 9998 among them.
pub fn stamp_examples()
    ensures first { IsStamp 0 (codes "19700101000000") }
    ensures new_year { IsStamp 1609459200 (codes "20210101000000") }
    ensures leap_day { IsStamp 1709164800 (codes "20240229000000") }
    ensures last { IsStamp 253370764799 (codes "99981231235959") }
{}
