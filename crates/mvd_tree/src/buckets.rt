//! The buckets of a tree, by number.
ghost use Rattle.std.specs.Prelude.{◌≡◌, ℕ, ◌<◌, ◌≤◌, T, slice_index_or, slice_set, length, IfErr, IfOk, OnOk, OnErr, List};
ghost use Rattle.std.specs.FinMap.{empty, insert, is_sorted, from_entries};
ghost use Rattle.mvd_keys.specs.Key.{key_cmp};
ghost use Rattle.mvd_tree.specs.Change.{changed};
ghost use Rattle.mvd_digest.specs.Counted.{Hashes};
ghost use Rattle.mvd_tree.specs.Counted.{all_keys, key_bytes};
ghost use Rattle.mvd_tree.specs.Layout.{HoldApart, bucket_of};

use crate::bucket::Bucket;
use mvd_digest::{Hashed, text_digest};
use mvd_dots::Refusal;
use mvd_keys::Key;
use std::alloc::{AllocError, Global};

/// The number of a key's bucket.
pub(crate) fn bucket_number(key: &Key, hashed: &mut Hashed) -> usize
    ensures number { result ≡ bucket_of key.now }
    ensures limit { result < 4096 }
    ensures counts { Hashes 1 (length key.now) hashed.old hashed.new }
{
    let digest = text_digest(key.text().as_bytes(), hashed);
    digest[0] as usize * 16 + digest[1] as usize / 16
}

/// Gives a key a digest in its bucket, or takes it out of it. Where memory is refused, which is `Broken`, the buckets
/// are as before.
pub(crate) fn change_bucket(
    buckets: &mut Vec<Bucket>,
    alloc: Global,
    number: usize,
    key: &Key,
    digest: Option<[u8; 32]>,
) -> Result<(), Refusal>
    requires { number < length buckets.old.items }
    ensures ok { OnOk result (buckets.new.items ≡
        slice_set buckets.old.items number (changed (slice_index_or buckets.old.items number empty) key.now digest)) }
    ensures broken { IfErr result (λ refusal. refusal ≡ Refusal.Broken) }
    ensures err { OnErr result (buckets.new.items ≡ buckets.old.items) }
{
    match buckets[number].change(alloc, key, digest) {
        Ok(()) => Ok(()),
        Err(_) => Err(Refusal::Broken),
    }
}

fn put_in(
    buckets: &mut Vec<Bucket>,
    number: usize,
    key: Key,
    digest: [u8; 32],
) -> Result<(), Refusal>
    requires { number < length buckets.old.items }
    ensures { OnOk result (buckets.new.items ≡
        slice_set buckets.old.items number (insert (slice_index_or buckets.old.items number empty) key digest)) }
{
    buckets[number].put_owned(key, digest)
}

fn empty_buckets(alloc: Global, count: usize) -> Result<Vec<Bucket>, AllocError>
    ensures { IfOk result (λ buckets. (length buckets.items ≡ count) ×
        ((n : ℕ) → slice_index_or buckets.items n empty ≡ empty)) }
{
    let mut buckets = Vec::with_capacity(alloc, count)?;
    while buckets.len() < count {
        buckets.push(Bucket::new(alloc))?;
    }
    Ok(buckets)
}

/// The buckets of these keys, which rise.
pub(crate) fn filled(
    alloc: Global,
    entries: Vec<(Key, [u8; 32])>,
    hashed: &mut Hashed,
) -> Result<Vec<Bucket>, Refusal>
    requires { T (is_sorted key_cmp entries.items) }
    ensures holds { IfOk result (λ buckets. HoldApart buckets.items (from_entries entries.items)) }
    ensures few { IfOk result (λ buckets. all_keys buckets.items ≤ length entries.items) }
    ensures counts { Hashes (length entries.items) (key_bytes entries.items) hashed.old hashed.new }
{
    let mut buckets = empty_buckets(alloc, 4096)?;
    for (key, digest) in entries {
        let number = bucket_number(&key, hashed);
        put_in(&mut buckets, number, key, digest)?;
    }
    Ok(buckets)
}
