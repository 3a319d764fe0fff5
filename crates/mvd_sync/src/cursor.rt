//! What a session has left of a side's page of a bucket.
ghost use Rattle.std.specs.Prelude.{◌≡◌, ◌+◌, ◌-◌, ◌*◌, [], ◌∷◌, length, IfOk, IfErr, IfSome, IfNone, OnSome};
ghost use Rattle.std.specs.Prelude.{None, ◌<◌, ◌^◌, OnOk, OnErr, MatchOption, option_copied, true, IsTrue, ◌↔◌};
ghost use Rattle.mvd_tree.specs.Page.{is_after};
ghost use Rattle.mvd_sync.specs.Answers.{IsPage, PageRises, StartsAfter, TakesLesser, is_spent, order_of_first};
ghost use Rattle.mvd_peer.specs.Sides.{two};

use crate::levels::is_same;
use crate::made::Made;
use mvd_dots::Refusal;
use mvd_keys::Key;
use mvd_peer::Page;
use std::cmp::Ordering;
use std::marker::Model;

/// What is left of a page, and whether the bucket goes on after it.
#[derive(Drop)]
pub struct Listing {
    // The next entry stands last.
    page: Vec<(Key, [u8; 32])>,
    more: bool,
}

impl Model for Listing {
    ghost use Rattle.std.specs.Prelude.{List, ℕ, Bool, reverse};

    ghost Value = { List (List ℕ × List ℕ) × Bool };

    ghost view = { λ a. (reverse a.page.items, a.more) };
}

/// A key that a page of either side tells: which sides hold it, and whether its digests differ.
#[derive(Drop)]
pub struct Entry {
    pub key: Key,
    pub mine: bool,
    pub theirs: bool,
    pub differs: bool,
}

/// Whether a key comes after another, or after none.
fn comes_after(last: Option<&Key>, key: &Key) -> bool
    ensures { result ≡ is_after (option_copied last.entry) key.now }
{
    match last {
        Some(last) => last.cmp(key).is_lt(),
        None => true,
    }
}

/// Whether the keys of a page strictly rise.
fn rises(page: &[(Key, [u8; 32])]) -> bool
    ensures { IsTrue result ↔ PageRises None page.now }
{
    let mut last = None;
    for (key, _) in page {
        if !comes_after(last, key) {
            return false;
        }
        last = Some(key);
    }
    true
}

impl Listing {
    /// A page. Keys that do not rise, or more without a key, are 33.
    pub fn of_page(page: Page) -> Result<Self, Refusal>
        ensures page { IfOk result (λ listing. listing ≡ (page.0.items, page.1)) }
        ensures rises { IfOk result (λ listing. IsPage None listing.0 listing.1) }
        ensures bad { IfErr result (λ refusal. (refusal ≡ Refusal.BadBody)
            × (IsPage None page.0.items page.1 → ⊥)) }
        ensures length { IfOk result (λ page. length page.0 < 2 ^ 64) }
    {
        let (mut page, more) = page;
        if !rises(page.as_slice()) {
            return Err(Refusal::BadBody);
        }
        if more && page.is_empty() {
            return Err(Refusal::BadBody);
        }
        page.reverse();
        Ok(Listing { page, more })
    }

    /// Whether no entry is left, and the bucket goes on.
    pub fn is_spent(&self) -> bool
        ensures { result ≡ is_spent self.now }
    {
        self.page.is_empty() && self.more
    }

    /// Whether its first entry, if one is there, comes after a key.
    pub fn starts_after(&self, key: &Key) -> bool
        ensures { IsTrue result ↔ StartsAfter key.now self.now.0 }
    {
        match self.page.last() {
            Some((first, _)) => key.cmp(first).is_lt(),
            None => true,
        }
    }

    /// The first entry, which is taken out.
    pub fn take(&mut self) -> Option<(Key, [u8; 32])>
        ensures { MatchOption result ((self.old.0 ≡ []) × (self.new ≡ self.old))
            (λ e. (self.old.0 ≡ e ∷ self.new.0) × (self.new.1 ≡ self.old.1)) }
    {
        self.page.pop()
    }

    /// Which of two listings has the lesser first key.
    pub fn order(&self, other: &Listing) -> Option<Ordering>
        ensures { result ≡ order_of_first self.now.0 other.now.0 }
    {
        match (self.page.last(), other.page.last()) {
            (None, None) => None,
            (Some(_), None) => Some(Ordering::Less),
            (None, Some(_)) => Some(Ordering::Greater),
            (Some(first), Some(second)) => Some(first.0.cmp(&second.0)),
        }
    }
}

/// A page whose keys do not rise, or with more without a key, is none.
impl Made<Page> for Listing {
    ghost is_of = { λ page listing. (listing ≡ (page.0.items, page.1))
        × IsPage None listing.0 listing.1 × (length listing.0 < 2 ^ 64) };

    ghost is_none = { λ page. IsPage None page.0.items page.1 → ⊥ };

    fn made(answer: Page) -> Result<Self, Refusal> {
        Listing::of_page(answer)
    }
}

/// Takes the lesser first key of two listings, from both where both begin with it.
pub fn next(mine: &mut Listing, theirs: &mut Listing) -> Option<Entry>
    ensures none { IfNone result ((mine.old.0 ≡ []) × (theirs.old.0 ≡ [])) }
    ensures next { IfSome result (λ e.
        TakesLesser (two mine.old.0 theirs.old.0) e (two mine.new.0 theirs.new.0)) }
    ensures fewer { OnSome result (length mine.new.0 + length theirs.new.0 < length mine.old.0 + length theirs.old.0) }
    ensures more { (mine.new.1 ≡ mine.old.1) × (theirs.new.1 ≡ theirs.old.1) }
{
    match mine.order(theirs)? {
        Ordering::Less => {
            let (key, _) = mine.take()?;
            Some(Entry {
                key,
                mine: true,
                theirs: false,
                differs: true,
            })
        }
        Ordering::Greater => {
            let (key, _) = theirs.take()?;
            Some(Entry {
                key,
                mine: false,
                theirs: true,
                differs: true,
            })
        }
        Ordering::Equal => {
            let (key, first) = mine.take()?;
            let (_, second) = theirs.take()?;
            Some(Entry {
                key,
                mine: true,
                theirs: true,
                differs: !is_same(&first, &second),
            })
        }
    }
}
