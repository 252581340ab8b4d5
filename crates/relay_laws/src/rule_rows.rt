//! Single rules, computed.
ghost use Rattle.std.specs.Prelude.{◌≡◌, ℕ, List, codes};
ghost use Rattle.news_terms.specs.Command.{Part};
ghost use Rattle.news_terms.specs.Reply.{Reply, NoArticle, DeviceFault};
ghost use Rattle.news_terms.specs.Token.{Token};
ghost use Rattle.relay_model.specs.Fetches.{Gone, NotKnown, NotRead};
ghost use Rattle.relay_model.specs.Hears.{ReplyIs};
ghost use Rattle.relay_model.specs.Run.{shard_of};
ghost use Rattle.relay_model.specs.State.{Asked, OfId};

/// The shard of an id is the sum of all its octets modulo 16: here of 501 and of 1842.
pub fn shard_of_an_id()
    ensures short { shard_of (codes "<ab@x>") ≡ 5 }
    ensures long { shard_of (codes "<news.1@one.example>") ≡ 2 }
{}

/// A part that is asked for by its message-id and isn't there any more, or never was: 430.
pub fn not_found_by_id()
    ensures gone { (part : Part) (id : List ℕ) (token : Token) (reply : Reply)
        → ReplyIs (OfId part id) token Gone reply → reply ≡ NoArticle }
    ensures never { (part : Part) (id : List ℕ) (token : Token) (reply : Reply)
        → ReplyIs (OfId part id) token NotKnown reply → reply ≡ NoArticle }
{}

/// Where the device failed that alone is said, whatever was asked.
pub fn not_read()
    ensures only { (asked : Asked) (token : Token) (reply : Reply)
        → ReplyIs asked token NotRead reply → reply ≡ DeviceFault }
    ensures said { (asked : Asked) (token : Token) → ReplyIs asked token NotRead DeviceFault }
{}
