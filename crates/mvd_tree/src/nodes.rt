//! What is kept of nodes, by number.
ghost use Rattle.std.specs.Prelude.{◌≡◌, ◌*◌, length, map, IfOk};
ghost use Rattle.std.specs.FinMap.{entries};
ghost use Rattle.mvd_digest.specs.Counted.{Hashes};
ghost use Rattle.mvd_tree.specs.Counted.{all_keys};
ghost use Rattle.mvd_tree.specs.Kept.{kept_bucket, digest_or_zeros};

use crate::bucket::Bucket;
use crate::node_text::or_zeros;
use mvd_digest::Hashed;
use mvd_dots::Refusal;
use std::alloc::Global;

/// What is kept of each bucket.
pub(crate) fn bucket_nodes(
    alloc: Global,
    buckets: &mut Vec<Bucket>,
    hashed: &mut Hashed,
) -> Result<Vec<Option<[u8; 32]>>, Refusal>
    ensures nodes { IfOk result (λ nodes. nodes.items ≡
        map (λ bucket. kept_bucket (entries bucket)) buckets.old.items) }
    ensures same { buckets.new.items ≡ buckets.old.items }
    ensures counts { Hashes (length buckets.old.items) (32 * all_keys buckets.old.items) hashed.old hashed.new }
{
    let mut nodes = Vec::with_capacity(alloc, buckets.len())?;
    for number in 0..buckets.len() {
        nodes.push(buckets[number].digest(hashed))?;
    }
    Ok(nodes)
}

/// The digests of sixteen nodes.
pub(crate) fn all_or_zeros(nodes: &[Option<[u8; 32]>]) -> [[u8; 32]; 16]
    requires { length nodes.now ≡ 16 }
    ensures { result ≡ map digest_or_zeros nodes.now }
{
    let mut digests = [[0; 32]; 16];
    for (i, node) in nodes.iter().enumerate() {
        digests[i] = or_zeros(*node);
    }
    digests
}
