//! Stamps of the blocks of an article.
ghost use Rattle.std.specs.Prelude.{◌≡◌, ◌<◌, ◌^◌};

use cyc_block::Stamp;

/// The stamp of a block of an article, whose numbers have their octets.
pub(crate) fn stamp_at(cycle: u32, first: u32, index: u32, article_length: u32, class: u8) -> Stamp
    ensures stamp { result ≡ record {
      cycle = cycle;
      first = first;
      index = index;
      article_length = article_length;
      class = class;
    } }
    ensures cycle { cycle < 2 ^ 32 }
    ensures first { first < 2 ^ 32 }
    ensures index { index < 2 ^ 32 }
{
    Stamp {
        cycle,
        first,
        index,
        article_length,
        class,
    }
}
