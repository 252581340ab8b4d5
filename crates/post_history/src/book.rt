//! The book of all posts: its length is a word, its history is for contracts alone.
ghost use Rattle.std.specs.Prelude.{◌≡◌, ◌+◌, ◌<◌, ◌^◌, ◌++◌, ◌∷◌, ◌⊎◌, [], length, MatchBool};
ghost use mathlib.Core.List.{IsPrefix};
ghost use Rattle.post_history.specs.Rules.{head_of, IsLonger};

use crate::post::Post;
use logbook::{Gain, Offer, Plain, Play, Rule, Seen, Start, Word};
use std::marker::{Brand, Model, PhantomData};

/// The rule of the book.
pub struct Law;

impl Rule<Post, u64> for Law {
    ghost use Rattle.std.specs.Prelude.{[]};
    ghost use base.Fml.{ftrue};
    ghost use Rattle.post_history.specs.Rules.{IsKept};

    ghost holds = { λ cells log. IsKept cells log };

    ghost first = { [] };

    ghost hinted = { λ n log. Unit {0} };

    ghost shows = { λ log. [] };

    ghost keeps = { λ names log. ftrue };

    ghost moves = { λ ask before after answer. Unit {0} };
}

/// Callers trade nothing.
pub struct Nothing;

impl Gain<Post, u64> for Nothing {
    ghost use base.Fml.{ftrue};

    ghost after = { λ names about answer. ftrue };
}

/// A step that adds a post.
pub struct Add;

impl Play<Post, u64> for Add {
    ghost use Rattle.post_history.specs.Rules.{Adds};

    ghost then = { Adds };
}

impl Plain<Post, Post, u64> for Add {
    ghost use Rattle.std.specs.Prelude.{None};

    ghost ask = { λ post. post };

    ghost state = { λ post. None };
}

/// Which book of posts a relay's is, the text of the history that it began with, which is empty
/// where it began with none, and how many tokens the ring of each feed has room for. What comes out
/// of a lock is known by its type alone, so what lies under the locks takes this as a parameter.
/// Each run picks it.
pub trait Naming {
    ghost use Rattle.std.specs.Prelude.{ℕ, List};
    ghost use Rattle.logbook.specs.Pages.{Book};

    ghost book: { Book };

    ghost began: { List ℕ };

    ghost rings: { List ℕ };
}

impl Naming for Brand {
    ghost use Rattle.std.specs.Prelude.{[]};

    ghost book = { record { number = 0; log_name = 0; cells_name = 0 } };

    ghost began = { [] };

    ghost rings = { [] };
}

/// A book with an empty history, which has no name yet.
#[derive(Drop)]
pub struct Opened {
    head: Word<Post, u64, Law>,
    seen: Seen<Post, u64, Law>,
    pub ghost empty: { seen.log ≡ [] },
    pub ghost head_is: { head ≡ head_of seen.book },
}

impl Opened {
    ghost use Rattle.post_history.specs.Opening.{book_in};

    /// A book of its own.
    pub fn new() -> Opened {
        let (seen, mut first, _second) = Seen::open(Start::alone(), 0, 0);
        Opened {
            head: Word::tracked(0, &mut first),
            seen,
        }
    }

    /// The book under a name, and the beginning in which nothing was seen.
    pub fn named<J: Naming>(self) -> (PostBook<J>, PostHistory<J>)
        requires { book_in self ≡ J.book }
        ensures { result.1 ≡ [] }
    {
        let Opened { head, seen } = self;
        (
            PostBook {
                head,
                of: PhantomData,
            },
            PostHistory {
                posts: 0,
                seen,
                of: PhantomData,
            },
        )
    }
}

/// The history of all posts: its length, in one word.
#[derive(Drop)]
pub struct PostBook<J: Naming> {
    head: Word<Post, u64, Law>,
    of: PhantomData<J>,
    ghost head_is: { head ≡ head_of J.book },
}

/// A beginning of the history of a book that was seen. Contracts see it as its posts.
#[derive(Drop)]
pub struct PostHistory<J: Naming> {
    posts: u64,
    seen: Seen<Post, u64, Law>,
    of: PhantomData<J>,
}

impl<J: Naming> Model for PostHistory<J> {
    ghost use Rattle.std.specs.Prelude.{◌≡◌, List, length};
    ghost use Rattle.post_history.specs.declared.post.Post.{Post};

    ghost Value = { List Post };

    ghost view = { λ history. history.seen.log };

    ghost invariant = { λ history. (history.posts ≡ length history.seen.log)
        × (history.seen.book ≡ J.book) };
}

impl<J: Naming> PostHistory<J> {
    /// How many posts it has.
    pub fn len(&self) -> u64
        ensures { result ≡ length self.now }
    {
        self.posts
    }

    /// A copy.
    pub fn again(&self) -> PostHistory<J>
        ensures { result ≡ self.now }
    {
        PostHistory {
            posts: self.posts,
            seen: self.seen.again(),
            of: PhantomData,
        }
    }

    /// Of two beginnings of one history one begins the other.
    pub fn compare(&self, other: &PostHistory<J>)
        ensures { IsPrefix self.now other.now ⊎ IsPrefix other.now self.now }
    {
        let mut both = self.seen.again();
        both.learn(&other.seen);
    }

    /// Puts a post behind all that was seen, and says whether it did. It did not where the history
    /// is longer: then that much was seen.
    pub fn add(&mut self, book: &PostBook<J>, post: &Post) -> bool
        requires room { length self.old < 2 ^ 62 }
        ensures { MatchBool result (self.new ≡ self.old ++ post.now ∷ [])
            (IsLonger self.old self.new) }
    {
        let mut offer: Offer<Post, u64, Law, Nothing> = self.seen.plain::<Nothing, Post, Add>(post);
        let mut pen = self.seen.no_pen();
        let posts = self.posts;
        let found = book
            .head
            .compare_exchange::<Add, Nothing>(
                posts,
                posts + 1,
                &mut self.seen,
                &mut offer,
                &mut pen,
            );
        self.posts = if found == posts { posts + 1 } else { found };
        found == posts
    }
}
