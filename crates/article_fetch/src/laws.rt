//! A law of overview lines: how much room is always enough.
ghost use Rattle.std.specs.Prelude.{◌+◌, ◌<◌, ◌≤◌, ◌^◌, length};
ghost use Rattle.news_terms.specs.Article.{Article, article_text};
ghost use Rattle.news_terms.specs.Overview.{overview_line};

use crate::overview::LINE_ROOM;

/// An overview line is at most as long as the header, its empty line included, and `LINE_ROOM`
/// octets more.
pub fn line_has_room()
    ensures { (a : Article) → length (article_text a) < 2 ^ 64
        → length (overview_line a) + length a.body ≤ length (article_text a) + LINE_ROOM }
{}
