//! Changes of keys: their buckets and the nodes over those, each of which is made anew once. It needs memory for the
//! keys that are put in alone: a midstate for which there is none is not kept.
ghost use Rattle.std.specs.Prelude.{◌≡◌, ℕ, ◌<◌, ◌≤◌, ◌+◌, ◌*◌, ◌/◌, List, IfErr, OnErr, OnOk, length, take};
ghost use Rattle.std.specs.Prelude.{slice_index_or, slice_range, slice_set};
ghost use Rattle.std.specs.FinMap.{empty, entries, len};
ghost use Rattle.std.specs.List.{sum_by};
ghost use Rattle.mvd_digest.specs.Counted.{Hashes};
ghost use Rattle.mvd_tree.specs.Kept.{kept_bucket, kept_inner};
ghost use Rattle.mvd_tree.specs.Layout.{bucket_of};
ghost use Rattle.mvd_tree.specs.Renewed.{Renews, with_changes};

use crate::bucket::Bucket;
use crate::buckets::{bucket_number, change_bucket};
use crate::level::Level;
use crate::numbers::Numbers;
use mvd_digest::Hashed;
use mvd_dots::Refusal;
use mvd_keys::Key;
use std::alloc::Global;
use std::marker::Model;

/// A key that changes: the digest that it is to have, or none, and the number of its bucket.
#[derive(Drop)]
pub struct KeyChange {
    key: Key,
    digest: Option<[u8; 32]>,
    bucket: usize,
}

impl Model for KeyChange {
    ghost use Rattle.std.specs.Prelude.{◌≡◌, ℕ, List, Option};
    ghost use Rattle.std.specs.Coded.{coded×, coded_ℕ, coded_list, coded_option};
    ghost use Rattle.mvd_tree.specs.Layout.{bucket_of};

    ghost Value = { List ℕ × Option (List ℕ) };

    ghost coded = { coded× (coded_list coded_ℕ) (coded_option (coded_list coded_ℕ)) };

    ghost view = { λ c. (c.key, c.digest) };

    ghost invariant = { λ c. c.bucket ≡ bucket_of c.key };
}

impl KeyChange {
    /// Gives a key a digest, or lets it be held no more. It computes the key's path.
    pub fn new(key: Key, digest: Option<[u8; 32]>, hashed: &mut Hashed) -> KeyChange
        ensures change { result ≡ (key, digest) }
        ensures counts { Hashes 1 (length key) hashed.old hashed.new }
    {
        let bucket = bucket_number(&key, hashed);
        KeyChange {
            key,
            digest,
            bucket,
        }
    }

    /// The key.
    pub fn into_key(self) -> Key
        ensures { result ≡ self.0 }
    {
        self.key
    }

    /// The number of the node over the key, among those of which as many lie under one.
    fn number_over(&self, by: usize) -> usize
        requires { 0 < by }
        ensures { result ≡ bucket_of self.now.0 / by }
    {
        self.bucket / by
    }
}

/// Changes each key in its bucket, up to one for which memory is refused.
pub(crate) fn change_buckets(
    buckets: &mut Vec<Bucket>,
    alloc: Global,
    changes: &[KeyChange],
) -> Result<(), Refusal>
    requires all { length buckets.old.items ≡ 4096 }
    ensures all { length buckets.new.items ≡ 4096 }
    ensures ok { OnOk result (buckets.new.items ≡ with_changes changes.now buckets.old.items) }
    ensures broken { IfErr result (λ refusal. refusal ≡ Refusal.Broken) }
    ensures err { OnErr result ((n : ℕ) × (n < length changes.now) ×
        (buckets.new.items ≡ with_changes (take n changes.now) buckets.old.items)) }
{
    for index in 0..changes.len() {
        let change = &changes[index];
        let number = change.number_over(1);
        change_bucket(buckets, alloc, number, &change.key, change.digest)?;
    }
    Ok(())
}

/// Makes anew what is kept of a bucket.
fn renew_bucket(buckets: &mut Vec<Bucket>, lowest: &mut Level, number: usize, hashed: &mut Hashed)
    requires bucket { number < length buckets.old.items }
    requires node { number < length lowest.old }
    ensures same { buckets.new.items ≡ buckets.old.items }
    ensures node { lowest.new ≡
        slice_set lowest.old number (kept_bucket (entries (slice_index_or buckets.old.items number empty))) }
    ensures counts { Hashes 1 (32 * len (slice_index_or buckets.old.items number empty)) hashed.old hashed.new }
{
    let kept = buckets[number].digest(hashed);
    lowest.put(number, kept);
}

/// Makes anew, once each, what is kept of the buckets of these keys.
pub(crate) fn renew_buckets(
    buckets: &mut Vec<Bucket>,
    lowest: &mut Level,
    changes: &[KeyChange],
    hashed: &mut Hashed,
)
    requires all { length buckets.old.items ≡ 4096 }
    requires lowest { length lowest.old ≡ 4096 }
    ensures same { buckets.new.items ≡ buckets.old.items }
    ensures nodes { Renews
        (λ n. kept_bucket (entries (slice_index_or buckets.old.items n empty)))
        (λ ns. 32 * sum_by (λ n. len (slice_index_or buckets.old.items n empty)) ns)
        1 changes.now lowest.old lowest.new hashed.old hashed.new }
{
    if changes.len() == 1 {
        renew_bucket(buckets, lowest, changes[0].number_over(1), hashed);
        return;
    }
    let mut done = Numbers::none();
    for index in 0..changes.len() {
        let bucket = changes[index].number_over(1);
        if done.insert(bucket) {
            renew_bucket(buckets, lowest, bucket, hashed);
        }
    }
}

/// Makes anew what is kept of a node, from what is kept of those below.
fn renew_node(below: &mut Level, above: &mut Level, number: usize, hashed: &mut Hashed)
    requires below { number * 16 + 16 ≤ length below.old }
    requires above { number < length above.old }
    ensures same { below.new ≡ below.old }
    ensures node { above.new ≡
        slice_set above.old number (kept_inner (slice_range below.old (number * 16) (number * 16 + 16))) }
    ensures counts { Hashes 1 512 hashed.old hashed.new }
{
    let kept = below.over(number, hashed);
    above.put(number, kept);
}

/// Makes anew, once each, what is kept of the nodes over these keys, from what is kept of those below. Under each are
/// as many buckets.
pub(crate) fn renew_nodes(
    below: &mut Level,
    above: &mut Level,
    by: usize,
    changes: &[KeyChange],
    hashed: &mut Hashed,
)
    requires some { 0 < by }
    requires all { length above.old * 16 ≡ length below.old }
    requires within { (key : List ℕ) → bucket_of key / by < length above.old }
    ensures same { below.new ≡ below.old }
    ensures nodes { Renews
        (λ n. kept_inner (slice_range below.old (n * 16) (n * 16 + 16)))
        (λ ns. 512 * length ns)
        by changes.now above.old above.new hashed.old hashed.new }
{
    if changes.len() == 1 {
        renew_node(below, above, changes[0].number_over(by), hashed);
        return;
    }
    let mut done = Numbers::none();
    for index in 0..changes.len() {
        let number = changes[index].number_over(by);
        if done.insert(number) {
            renew_node(below, above, number, hashed);
        }
    }
}
