//! A walk over the buckets that differ: a value that knows no side.
ghost use Rattle.std.specs.Prelude.{◌≡◌, ◌≢◌, ◌↔◌, [], ◌∷◌, length, map, take, Some, None, IfOk, IfErr, IsTrue};
ghost use Rattle.std.specs.Prelude.{IfNone, IfSome, OnOk};
ghost use Rattle.mvd_sync.specs.Walking.{ClosesBucket, ComeAfter, EndsTelling, GoesTo, IsTold, IsWalked, TakesNext, WantsPage};
ghost use Rattle.mvd_sync.specs.Walking.{filled, filled_both, first_page, opened_buckets, pages_next, pages_of};

use crate::cursor::{self, Entry, Listing};
use crate::levels::first_of;
use crate::report::{Side, SyncFault};
use mvd_dots::Refusal;
use mvd_keys::{Key, Path};
use std::alloc::Global;
use std::collections::VecDeque;
use std::marker::Model;

/// A bucket, and what is left of both sides' pages of it.
#[derive(Drop)]
pub struct Bucket {
    pub path: Path,
    pub mine: Listing,
    pub theirs: Listing,
}

/// A listing after the page that was told, if it was asked for.
fn fill(listing: Listing, pages: Vec<Listing>) -> Listing
    ensures { result ≡ filled listing pages.items }
{
    match VecDeque::from(pages).pop_front() {
        Some(page) => page,
        None => listing,
    }
}

/// Whether the page, if it was asked for, comes after a key.
fn comes_after(key: &Key, pages: &[Listing]) -> bool
    ensures { IsTrue result ↔ ComeAfter key.now pages.now }
{
    match pages.first() {
        Some(page) => page.starts_after(key),
        None => true,
    }
}

impl Bucket {
    /// Whether a next page of it is wanted.
    fn is_spent(&self) -> bool
        ensures { IsTrue result ↔ WantsPage self.now }
    {
        self.mine.is_spent() || self.theirs.is_spent()
    }

    /// Takes its next key.
    fn next(&mut self) -> Option<Entry>
        ensures none { IfNone result ((self.old.mine.0 ≡ []) × (self.old.theirs.0 ≡ [])) }
        ensures next { IfSome result (λ e. TakesNext self.old e self.new) }
        ensures path { self.new.path ≡ self.old.path }
    {
        cursor::next(&mut self.mine, &mut self.theirs)
    }

    /// What is left of it after its next pages.
    fn fill(self, mine: Vec<Listing>, theirs: Vec<Listing>) -> Bucket
        ensures { result ≡ filled_both self mine.items theirs.items }
    {
        Bucket {
            path: self.path,
            mine: fill(self.mine, mine),
            theirs: fill(self.theirs, theirs),
        }
    }
}

/// The questions about the first pages of buckets.
fn first_pages(alloc: Global, paths: &[Path]) -> Result<Vec<(Path, Option<Key>)>, Refusal>
    ensures asked { IfOk result (λ asked. asked.items ≡ map first_page paths.now) }
    ensures memory { IfErr result (λ refusal. refusal ≡ Refusal.Memory) }
{
    let mut asked = Vec::new(alloc);
    for path in paths {
        asked.push((Path::new(alloc, path.digits())?, None))?;
    }
    Ok(asked)
}

/// The question about the page of a bucket after a key.
fn page_after(alloc: Global, path: &Path, key: &Key) -> Result<Vec<(Path, Option<Key>)>, Refusal>
    ensures asked { IfOk result (λ asked. asked.items ≡ (path.now, Some key.now) ∷ []) }
    ensures memory { IfErr result (λ refusal. refusal ≡ Refusal.Memory) }
{
    let mut asked = Vec::new(alloc);
    asked.push((Path::new(alloc, path.digits())?, Some(key.copy(alloc)?)))?;
    Ok(asked)
}

/// The buckets whose first pages these are.
fn open(
    alloc: Global,
    asked: &[(Path, Option<Key>)],
    mine: Vec<Listing>,
    theirs: Vec<Listing>,
) -> Result<VecDeque<Bucket>, Refusal>
    requires lengths { (length mine.items ≡ length asked.now) × (length theirs.items ≡ length asked.now) }
    ensures opened { IfOk result (λ buckets. buckets.items ≡ opened_buckets asked.now mine.items theirs.items) }
    ensures memory { IfErr result (λ refusal. refusal ≡ Refusal.Memory) }
{
    let mut buckets = VecDeque::new(alloc);
    let mut mine = VecDeque::from(mine);
    let mut theirs = VecDeque::from(theirs);
    for (path, _) in asked {
        let path = Path::new(alloc, path.digits())?;
        match (mine.pop_front(), theirs.pop_front()) {
            (Some(mine), Some(theirs)) => buckets.push_back(Bucket { path, mine, theirs })?,
            _ => return Ok(buckets),
        }
    }
    Ok(buckets)
}

/// A walk over buckets between two windows of questions: the buckets of which nothing was told, the one that is gone
/// over with the others whose pages are there, and the pages that both sides are asked for next.
#[derive(Drop)]
pub struct BucketWalk {
    alloc: Global,
    paths: Vec<Path>,
    /// Of how many of them the first pages were told.
    begun: usize,
    bucket: Option<Bucket>,
    later: VecDeque<Bucket>,
    /// A key of the bucket that waits for a page after it.
    entry: Option<Entry>,
    asked: Vec<(Path, Option<Key>)>,
}

impl Model for BucketWalk {
    ghost use Rattle.std.specs.Prelude.{◌≡◌, ◌≤◌, [], None, drop, length};
    ghost use Rattle.mvd_sync.specs.Walking.{Walking, pages_next};

    ghost Value = { Walking };

    ghost view = { λ w. record {
      rest = drop w.begun w.paths.items;
      bucket = w.bucket;
      later = w.later.items;
      entry = w.entry;
    } };

    ghost invariant = { λ w. (w.begun ≤ length w.paths.items)
        × (w.asked.items ≡ pages_next w.bucket w.entry (drop w.begun w.paths.items))
        × (w.bucket ≡ None → (w.later.items ≡ []) × (w.entry ≡ None)) };
}

impl BucketWalk {
    /// It begins with the first pages of the first of these buckets.
    pub fn new(alloc: Global, paths: Vec<Path>) -> Result<BucketWalk, Refusal>
        ensures begins { IfOk result
            (λ walk. walk ≡ record { rest = paths.items; bucket = None; later = []; entry = None }) }
        ensures memory { IfErr result (λ refusal. refusal ≡ Refusal.Memory) }
    {
        let asked = first_pages(alloc, first_of(&paths))?;
        Ok(BucketWalk {
            alloc,
            paths,
            begun: 0,
            bucket: None,
            later: VecDeque::new(alloc),
            entry: None,
            asked,
        })
    }

    /// Whether all buckets are gone over.
    pub fn is_done(&self) -> bool
        ensures { IsTrue result ↔ IsWalked self.now }
    {
        self.bucket.is_none() && self.begun == self.paths.len()
    }

    /// Whether pages are asked for next.
    pub fn asks(&self) -> bool
        ensures { IsTrue result ↔ (pages_next self.now.bucket self.now.entry self.now.rest ≢ []) }
    {
        !self.asked.is_empty()
    }

    /// The pages that a side is asked for next: at most 64.
    pub fn pages(&self, side: Side) -> &[(Path, Option<Key>)]
        ensures { result.now ≡ pages_of side self.now }
    {
        let is_asked = match (side, &self.bucket) {
            (_, None) => true,
            (Side::Local, Some(bucket)) => bucket.mine.is_spent(),
            (Side::Peer, Some(bucket)) => bucket.theirs.is_spent(),
        };
        if is_asked { &self.asked } else { &[] }
    }

    /// Goes on to the next key of the bucket. It waits where a page after it is wanted.
    pub fn next(&mut self) -> Result<Option<Entry>, Refusal>
        requires some { self.old.bucket ≢ None }
        requires unasked { self.old.entry ≡ None }
        ensures goes { IfOk result (λ found. GoesTo self.old found self.new) }
        ensures memory { IfErr result (λ refusal. refusal ≡ Refusal.Memory) }
    {
        let Some(bucket) = &mut self.bucket else {
            return Ok(None);
        };
        let Some(entry) = bucket.next() else {
            self.close()?;
            return Ok(None);
        };
        if !bucket.is_spent() {
            return Ok(Some(entry));
        }
        self.asked = page_after(self.alloc, &bucket.path, &entry.key)?;
        self.entry = Some(entry);
        Ok(None)
    }

    /// Goes on to the next bucket. After the last whose pages are there, those of the next ones are asked for.
    fn close(&mut self) -> Result<(), Refusal>
        requires some { self.old.bucket ≢ None }
        requires unasked { self.old.entry ≡ None }
        ensures closes { OnOk result (ClosesBucket self.old self.new) }
        ensures memory { IfErr result (λ refusal. refusal ≡ Refusal.Memory) }
    {
        match self.later.pop_front() {
            Some(bucket) => {
                drop(self.bucket.replace(bucket));
                Ok(())
            }
            None => {
                self.asked = first_pages(self.alloc, first_of(&self.paths[self.begun..]))?;
                drop(self.bucket.take());
                Ok(())
            }
        }
    }

    /// Takes the pages that both sides told. The key that waited for one is told.
    pub fn take(
        &mut self,
        mine: Vec<Listing>,
        theirs: Vec<Listing>,
    ) -> Result<Option<Entry>, SyncFault>
        requires asks { pages_next self.old.bucket self.old.entry self.old.rest ≢ [] }
        requires mine { length mine.items ≡ length (pages_of Side.Local self.old) }
        requires theirs { length theirs.items ≡ length (pages_of Side.Peer self.old) }
        ensures told { IfOk result (λ found. IsTold self.old mine.items theirs.items found self.new) }
        ensures ended { IfErr result (EndsTelling self.old mine.items theirs.items) }
    {
        let Some(entry) = &self.entry else {
            return self.open(mine, theirs);
        };
        if !comes_after(&entry.key, &mine) {
            return Err(SyncFault::Local(Refusal::BadBody));
        }
        if !comes_after(&entry.key, &theirs) {
            return Err(SyncFault::Peer(Refusal::BadBody));
        }
        Ok(self.fill(mine, theirs))
    }

    /// The first of the buckets is gone over whose pages were told.
    fn open(&mut self, mine: Vec<Listing>, theirs: Vec<Listing>) -> Result<Option<Entry>, SyncFault>
        requires none { self.old.bucket ≡ None }
        requires some { self.old.rest ≢ [] }
        requires mine { length mine.items ≡ length (take 64 self.old.rest) }
        requires theirs { length theirs.items ≡ length (take 64 self.old.rest) }
        ensures told { IfOk result (λ found. IsTold self.old mine.items theirs.items found self.new) }
        ensures memory { IfErr result (λ fault. fault ≡ SyncFault.Local Refusal.Memory) }
    {
        let mut buckets = match open(self.alloc, &self.asked, mine, theirs) {
            Ok(buckets) => buckets,
            Err(refusal) => return Err(SyncFault::Local(refusal)),
        };
        self.begun += self.asked.len();
        self.bucket = buckets.pop_front();
        self.later = buckets;
        self.asked = Vec::new(self.alloc);
        Ok(None)
    }

    /// The bucket goes on with the pages that were told, and the key that waited for them is told.
    fn fill(&mut self, mine: Vec<Listing>, theirs: Vec<Listing>) -> Option<Entry>
        requires { self.old.bucket ≢ None }
        ensures filled { IfSome self.old.bucket (λ b. self.new ≡
            record self.old { bucket = Some (filled_both b mine.items theirs.items); entry = None }) }
        ensures told { result ≡ self.old.entry }
    {
        if let Some(bucket) = self.bucket.take() {
            self.bucket = Some(bucket.fill(mine, theirs));
        }
        self.asked = Vec::new(self.alloc);
        self.entry.take()
    }
}
