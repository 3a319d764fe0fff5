//! The keys of one bucket, in order, and the SHA-256 computation over their digests.
ghost use Rattle.std.specs.Prelude.{◌≡◌, ◌≢◌, ℕ, ◌<◌, ◌≤◌, ◌+◌, ◌*◌, true, false, slice_index_or, length};
ghost use Rattle.std.specs.Prelude.{IfOk, OnOk, OnErr, T, option_copied, List};
ghost use Rattle.std.specs.List.{insert};
ghost use Rattle.std.specs.Ordering.{is_lt};
ghost use Rattle.std.specs.FinMap.{empty, entries, len, retain_keys, is_sorted};
ghost use Rattle.std.specs.FinMap as map;
ghost use Rattle.mvd_keys.specs.Key.{key_cmp};
ghost use Rattle.mvd_tree.specs.Change.{changed};
ghost use Rattle.mvd_digest.specs.Counted.{Hashes};
ghost use Rattle.mvd_tree.specs.Kept.{kept_bucket};
ghost use Rattle.mvd_tree.specs.Midstates.{AreRead, HasRead};
ghost use Rattle.mvd_tree.specs.Page.{is_after};
ghost use Rattle.mvd_tree.specs.Split.{Splits};

use mvd_digest::{CountedHasher, Hashed};
use mvd_dots::Refusal;
use mvd_keys::Key;
use std::alloc::Global;
use std::cmp::Ordering;
use std::marker::Model;

/// The keys of a bucket with their digests.
///
/// The bucket's digest is one SHA-256 computation over those. Its state behind each sixteen of them is kept too (a
/// midstate), so that it goes on from there once a later one has changed: on the average it reads half of them.
#[derive(Drop)]
pub(crate) struct Bucket {
    entries: Vec<(Key, [u8; 32])>,
    midstates: Vec<CountedHasher>,
}

impl Model for Bucket {
    ghost use Rattle.std.specs.Prelude.{List, ℕ, T};
    ghost use Rattle.std.specs.Coded.{coded_ℕ, coded_list};
    ghost use Rattle.mvd_keys.specs.Key.{key_cmp};
    ghost use Rattle.std.specs.FinMap as map;
    ghost use Rattle.mvd_tree.specs.Midstates.{IsBucket};

    ghost Value = { map.FinMap key_cmp (List ℕ) };

    ghost coded = { map.code (coded_list coded_ℕ) (coded_list coded_ℕ) };

    ghost view = { λ b. map.from_sorted b.entries.items };

    ghost invariant = { λ b. IsBucket b.entries.items b.midstates.items };
}

/// How many of the entries, whose keys rise, have a key below this one.
fn count_below(entries: &[(Key, [u8; 32])], key: &Key) -> usize
    requires { T (is_sorted key_cmp entries.now) }
    ensures within { result ≤ length entries.now }
    ensures below { (i : ℕ) (d : List ℕ × List ℕ) → i < result →
        is_lt (key_cmp (slice_index_or entries.now i d).0 key.now) ≡ true }
    ensures from { (i : ℕ) (d : List ℕ × List ℕ) → result ≤ i → i < length entries.now →
        is_lt (key_cmp (slice_index_or entries.now i d).0 key.now) ≡ false }
{
    entries.partition_point(|entry| entry.0.cmp(key).is_lt())
}

/// Whether the entry at an index has this key.
fn is_at(entries: &[(Key, [u8; 32])], index: usize, key: &Key) -> bool
    ensures yes { result ≡ true → (index < length entries.now) × ((d : List ℕ × List ℕ) →
        key_cmp (slice_index_or entries.now index d).0 key.now ≡ Ordering.Equal) }
    ensures no { result ≡ false → index < length entries.now → (d : List ℕ × List ℕ) →
        key_cmp (slice_index_or entries.now index d).0 key.now ≢ Ordering.Equal }
{
    index < entries.len() && entries[index].0.cmp(key).is_eq()
}

/// How many of the entries, whose keys rise, have a key below this one, and whether the next one
/// has it.
fn find(entries: &[(Key, [u8; 32])], key: &Key) -> (usize, bool)
    requires { T (is_sorted key_cmp entries.now) }
    ensures within { result.0 ≤ length entries.now }
    ensures held { result.1 ≡ true → result.0 < length entries.now }
    ensures splits { Splits key.now entries.now result.0 result.1 }
{
    let below = count_below(entries, key);
    (below, is_at(entries, below, key))
}

/// The SHA-256 computation that has read the entries up to the last midstate.
fn last_read(midstates: &[CountedHasher]) -> CountedHasher
    ensures { (es : List (List ℕ × List ℕ)) → AreRead es midstates.now → HasRead es (length midstates.now * 16) result }
{
    match midstates.last() {
        Some(midstate) => midstate.copy(),
        None => CountedHasher::new(),
    }
}

/// Keeps the computation that has read so many entries, if it is the next midstate, and unless memory is refused.
fn keep(midstates: &mut Vec<CountedHasher>, read: usize, hasher: &CountedHasher)
    ensures { (es : List (List ℕ × List ℕ)) → AreRead es midstates.old.items → HasRead es read hasher.now →
        read ≤ length es → AreRead es midstates.new.items }
{
    if read % 16 == 0 && read / 16 == midstates.len() + 1 {
        let _kept = midstates.push(hasher.copy());
    }
}

/// The computation over all these entries. It goes on from the last midstate that is kept, and keeps those behind it.
fn read_all(
    entries: &[(Key, [u8; 32])],
    midstates: &mut Vec<CountedHasher>,
    hashed: &mut Hashed,
) -> CountedHasher
    requires { AreRead entries.now midstates.old.items }
    ensures read { HasRead entries.now (length entries.now) result }
    ensures midstates { AreRead entries.now midstates.new.items }
    ensures counts { Hashes 0 (32 * length entries.now) hashed.old hashed.new }
{
    let mut hasher = last_read(midstates);
    for index in midstates.len() * 16..entries.len() {
        hasher.update(&entries[index].1, hashed);
        keep(midstates, index + 1, &hasher);
    }
    hasher
}

/// Puts in an entry. Where there is no room, it takes that of eight entries more, and not as much again as there is,
/// since most of a tree's memory lies here.
fn insert_at(
    entries: &mut Vec<(Key, [u8; 32])>,
    index: usize,
    key: Key,
    digest: [u8; 32],
) -> Result<(), Refusal>
    requires { index ≤ length entries.old.items }
    ensures ok { OnOk result (entries.new.items ≡ insert entries.old.items index (key, digest)) }
    ensures err { OnErr result (entries.new.items ≡ entries.old.items) }
{
    if entries.len() == entries.capacity() {
        entries.reserve_exact(8)?;
    }
    entries.insert(index, (key, digest))?;
    Ok(())
}

/// A copy of these entries.
pub(crate) fn copies(
    alloc: Global,
    entries: &[(Key, [u8; 32])],
) -> Result<Vec<(Key, [u8; 32])>, Refusal>
    ensures { IfOk result (λ copies. copies.items ≡ entries.now) }
{
    let mut copies = Vec::with_capacity(alloc, entries.len())?;
    for entry in entries {
        copies.push((entry.0.copy(alloc)?, entry.1))?;
    }
    Ok(copies)
}

impl Bucket {
    pub(crate) fn new(alloc: Global) -> Self
        ensures { result ≡ empty }
    {
        Bucket {
            entries: Vec::new(alloc),
            midstates: Vec::new(alloc),
        }
    }

    /// The keys with their digests, by rising key.
    pub(crate) fn entries(&self) -> &[(Key, [u8; 32])]
        ensures { result.now ≡ entries self.now }
    {
        &self.entries
    }

    /// The entries whose keys come after a key.
    pub(crate) fn entries_after(&self, after: Option<&Key>) -> &[(Key, [u8; 32])]
        ensures { result.now ≡ entries (retain_keys self.now (is_after (option_copied after.entry))) }
    {
        match after {
            None => &self.entries,
            Some(key) => {
                let (below, held) = find(&self.entries, key);
                if held {
                    &self.entries[below + 1..]
                } else {
                    &self.entries[below..]
                }
            }
        }
    }

    /// What is kept of the bucket: its digest, or nothing where it has no key.
    pub(crate) fn digest(&mut self, hashed: &mut Hashed) -> Option<[u8; 32]>
        ensures same { self.new ≡ self.old }
        ensures digest { result ≡ kept_bucket (entries self.old) }
        ensures counts { Hashes 1 (32 * len self.old) hashed.old hashed.new }
    {
        if self.entries.is_empty() {
            return None;
        }
        let hasher = read_all(&self.entries, &mut self.midstates, hashed);
        Some(hasher.finish(hashed))
    }

    /// Gives a key a digest, of which it keeps a copy if it is not there.
    fn put(&mut self, alloc: Global, key: &Key, digest: [u8; 32]) -> Result<(), Refusal>
        ensures ok { OnOk result (self.new ≡ map.insert self.old key.now digest) }
        ensures err { OnErr result (self.new ≡ self.old) }
    {
        let (below, held) = find(&self.entries, key);
        self.midstates.truncate(below / 16);
        if held {
            self.entries[below].1 = digest;
            return Ok(());
        }
        let key = key.copy(alloc)?;
        insert_at(&mut self.entries, below, key, digest)?;
        Ok(())
    }

    /// Gives a key a digest, and keeps the key.
    pub(crate) fn put_owned(&mut self, key: Key, digest: [u8; 32]) -> Result<(), Refusal>
        ensures { OnOk result (self.new ≡ map.insert self.old key digest) }
    {
        let (below, held) = find(&self.entries, &key);
        self.midstates.truncate(below / 16);
        if held {
            let entry = &mut self.entries[below];
            entry.1 = digest;
            return Ok(());
        }
        insert_at(&mut self.entries, below, key, digest)?;
        Ok(())
    }

    /// Takes a key out, if it is there.
    fn take_out(&mut self, key: &Key)
        ensures { self.new ≡ map.remove self.old key.now }
    {
        let (below, held) = find(&self.entries, key);
        self.midstates.truncate(below / 16);
        if held {
            self.entries.remove(below);
        }
    }

    /// Gives a key a digest, or takes it out where there is none.
    pub(crate) fn change(
        &mut self,
        alloc: Global,
        key: &Key,
        digest: Option<[u8; 32]>,
    ) -> Result<(), Refusal>
        ensures ok { OnOk result (self.new ≡ changed self.old key.now digest) }
        ensures err { OnErr result (self.new ≡ self.old) }
    {
        match digest {
            Some(digest) => self.put(alloc, key, digest),
            None => {
                self.take_out(key);
                Ok(())
            }
        }
    }
}
