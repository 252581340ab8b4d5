//! Laws of posts: each is the contract of an empty body.
ghost use Rattle.std.specs.Prelude.{◌≡◌, ◌≢◌, ◌<◌, ℕ, List, [], Some, slice_get};
ghost use Rattle.news_terms.specs.Token.{Token};
ghost use Rattle.post_history.specs.Began.{IsStoredIn};
ghost use Rattle.post_history.specs.Posts.{posts_of};
ghost use Rattle.post_history.specs.Remembering.{AreOnceBut, ArePostedOnce, IsGone};
ghost use Rattle.post_history.specs.declared.post.Post.{Post};
ghost use Rattle.relay_model.specs.Claims.{Passed};

/// Where it is so of the posts of each of sixteen shards, two posts are of one id only where the
/// earlier one's token is passed by the fronts.
pub fn once_in_each()
    ensures { (fronts : List Passed) (posts : List Post)
        → ((k : ℕ) → k < 16 → ∥ AreOnceBut fronts (posts_of k posts) ∥₁)
        → ∥ AreOnceBut fronts posts ∥₁ }
{}

/// By their places: of two posts of one id the earlier one's token is passed by the fronts.
pub fn earlier_is_gone()
    ensures { (fronts : List Passed) (posts : List Post) → AreOnceBut fronts posts
        → (i j : ℕ) (one other : Post) → i < j → slice_get posts i ≡ Some one
        → slice_get posts j ≡ Some other → one.id.value ≡ other.id.value → IsGone fronts one }
{}

/// By no fronts anything is passed: then no two posts are of one id.
pub fn no_id_twice()
    ensures { (posts : List Post) → AreOnceBut [] posts
        → (i j : ℕ) (one other : Post) → i < j → slice_get posts i ≡ Some one
        → slice_get posts j ≡ Some other → one.id.value ≢ other.id.value }
{}

/// By no fronts anything is passed: then no post is of an id that was stored before.
pub fn none_again()
    ensures { (text : List ℕ) (posts : List Post) → ArePostedOnce [] text posts
        → (id : List ℕ) (token : Token) → IsStoredIn text id token
        → (i : ℕ) (one : Post) → slice_get posts i ≡ Some one → one.id.value ≢ id }
{}
