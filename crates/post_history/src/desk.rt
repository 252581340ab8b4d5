//! The posts as the desk knows them under its lock, and as a shard does under its own.
ghost use Rattle.std.specs.Prelude.{◌≡◌, ◌<◌, ◌++◌, ◌∷◌, [], ℕ, ◌==◌, true, false, IsTrue};
ghost use Rattle.std.specs.Prelude.{IfErr, OnErr, OnOk, slice_index, length};
ghost use Rattle.post_history.specs.Posts.{posts_of, count_of};
ghost use Rattle.relay_model.specs.Run.{shard_of};

use crate::book::{Naming, Opened, PostBook, PostHistory};
use crate::post::Post;
use cyc_buffer::Front;

/// The most posts of one desk.
const MOST: u64 = 1 << 62;

/// All posts so far, and how many of them are of each shard's ids.
#[derive(Drop)]
pub struct AllPosts<J: Naming> {
    pub history: PostHistory<J>,
    pub counts: [u64; 16],
    pub ghost counted: { (k : ℕ) → k < 16 → slice_index counts k ≡ count_of k history },
}

impl<J: Naming> AllPosts<J> {
    /// A copy.
    pub fn again(&self) -> AllPosts<J>
        ensures { result.history ≡ self.now.history }
    {
        AllPosts {
            history: self.history.again(),
            counts: self.counts,
        }
    }

    /// Whether the shard knows all posts of its ids among these. It is tried by the counts alone.
    pub fn agree(&self, own: &ShardPosts<J>) -> bool
        ensures known { IsTrue result → posts_of own.now.number own.now.history
            ≡ posts_of own.now.number self.now.history }
        ensures counts { own.now.number < 16 → result
            ≡ (count_of own.now.number self.now.history == count_of own.now.number own.now.history) }
    {
        if own.number >= 16 {
            return false;
        }
        let count = self.counts[own.number as usize];
        if count != own.settled {
            return false;
        }
        join(&self.history, &own.history, own.number);
        true
    }
}

/// Why a post isn't put behind all others, which only a fault of the program brings about.
#[derive(Drop)]
pub enum Unposted<J: Naming> {
    /// It isn't of an id of the shard.
    Other,
    /// There are as many posts as there can be.
    Full,
    /// The desk and the shard don't know as many posts of the shard's ids.
    Apart,
    /// The history goes on behind what the desk knows, as was seen of it.
    Longer(PostHistory<J>),
}

/// What the desk knows of the posts.
#[derive(Drop)]
pub struct DeskPosts<J: Naming> {
    /// The book in which they stand.
    pub book: PostBook<J>,
    pub all: AllPosts<J>,
    /// Whether a post was made that isn't among them, which only a fault of the program brings
    /// about.
    pub lost: bool,
}

/// What a shard knows of the posts of its ids.
#[derive(Drop)]
pub struct ShardPosts<J: Naming> {
    /// The shard's number.
    pub number: u64,
    /// How many posts of its ids there are.
    pub settled: u64,
    /// The posts as far as they were seen when the last of its ids was posted.
    pub history: PostHistory<J>,
    /// The newest fronts by which ids were forgotten; none where none was.
    pub used: Vec<Front>,
    /// Whether ids were forgotten by fronts that aren't among them, which only a fault of the
    /// program brings about.
    pub lost: bool,
    pub ghost counted: { settled ≡ count_of number history },
}

impl<J: Naming> DeskPosts<J> {
    ghost use Rattle.post_history.specs.Opening.{book_in};
    ghost use Rattle.post_history.specs.Unposted.{IsUnposted};

    /// Before the first post.
    pub fn open(opened: Opened) -> DeskPosts<J>
        requires { book_in opened ≡ J.book }
        ensures none { result.all.history ≡ [] }
        ensures found { result.lost ≡ false }
    {
        let (book, history) = opened.named::<J>();
        DeskPosts {
            book,
            all: AllPosts {
                history,
                counts: [0; 16],
            },
            lost: false,
        }
    }

    /// Puts the post, which is of an id of the shard of this number, behind all others, for who
    /// holds both. Where it can't be put there it counts as lost, and the error says why.
    pub fn post(
        &mut self,
        own: &mut ShardPosts<J>,
        number: usize,
        post: &Post,
    ) -> Result<(), Unposted<J>>
        requires { number ≡ shard_of post.now.id.value }
        ensures all { OnOk result
            (self.new.all.history ≡ self.old.all.history ++ post.now ∷ []) }
        ensures own { OnOk result (posts_of own.old.number own.new.history
            ≡ posts_of own.old.number own.old.history ++ post.now ∷ []) }
        ensures mine { OnOk result (shard_of post.now.id.value ≡ own.old.number) }
        ensures found { OnOk result (self.new.lost ≡ self.old.lost) }
        ensures unposted { IfErr result (IsUnposted self.old.all own.old number) }
        ensures unchanged { OnErr result ((self.new.all.history ≡ self.old.all.history)
            × (own.new.history ≡ own.old.history)) }
        ensures lost { OnErr result (self.new.lost ≡ true) }
        ensures same { (own.new.number ≡ own.old.number) × (own.new.used ≡ own.old.used)
            × (own.new.lost ≡ own.old.lost) }
    {
        let DeskPosts { book, all, lost } = self;
        let posted = all.add(book, own, number, post);
        if posted.is_err() {
            *lost = true;
        }
        posted
    }
}

impl<J: Naming> AllPosts<J> {
    ghost use Rattle.post_history.specs.Unposted.{IsUnposted};

    /// Puts the post behind these, or says why it isn't.
    fn add(
        &mut self,
        book: &PostBook<J>,
        own: &mut ShardPosts<J>,
        number: usize,
        post: &Post,
    ) -> Result<(), Unposted<J>>
        requires { number ≡ shard_of post.now.id.value }
        ensures all { OnOk result (self.new.history ≡ self.old.history ++ post.now ∷ []) }
        ensures own { OnOk result (posts_of own.old.number own.new.history
            ≡ posts_of own.old.number own.old.history ++ post.now ∷ []) }
        ensures mine { OnOk result (shard_of post.now.id.value ≡ own.old.number) }
        ensures unposted { IfErr result (IsUnposted self.old own.old number) }
        ensures unchanged { OnErr result ((self.new.history ≡ self.old.history)
            × (own.new.history ≡ own.old.history)) }
        ensures same { (own.new.number ≡ own.old.number) × (own.new.used ≡ own.old.used)
            × (own.new.lost ≡ own.old.lost) }
    {
        if number as u64 != own.number {
            return Err(Unposted::Other);
        }
        if own.settled >= MOST || self.history.len() >= MOST {
            return Err(Unposted::Full);
        }
        if !self.agree(own) {
            return Err(Unposted::Apart);
        }
        let mut history = self.history.again();
        if !history.add(book, post) {
            return Err(Unposted::Longer(history));
        }
        let seen = history.again();
        let ShardPosts {
            number: _number,
            settled,
            history: mine,
            used: _used,
            lost: _lost,
        } = own;
        *settled += 1;
        *mine = seen;
        let AllPosts {
            history: all,
            counts,
        } = self;
        counts[number] += 1;
        *all = history;
        Ok(())
    }
}

/// With as many posts of the shard in each, two beginnings of one history have the same.
fn join<J: Naming>(all: &PostHistory<J>, own: &PostHistory<J>, number: u64)
    requires { count_of number own.now ≡ count_of number all.now }
    ensures { posts_of number own.now ≡ posts_of number all.now }
{
    all.compare(own);
}
