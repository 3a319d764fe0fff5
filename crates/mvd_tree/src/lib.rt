//! The hash tree by which two sites compare what they hold.
#![tactic(auto)]

mod bucket;
mod buckets;
pub mod laws;
mod level;
mod node_text;
mod nodes;
mod numbers;
mod touched;
mod tree;

ghost use Rattle.std.specs.Prelude.{◌≡◌, Ok, length};
ghost use Rattle.mvd_digest.specs.Sha256.{sha256};
ghost use Rattle.std.specs.FinMap.{is_sorted};
ghost use Rattle.std.specs.Ordering.{is_lt};
ghost use Rattle.mvd_dots.specs.Answer.{IsAnswer};
ghost use Rattle.mvd_keys.specs.Key.{key_cmp};
ghost use Rattle.mvd_digest.specs.Counted.{Hashes};
ghost use Rattle.mvd_tree.specs.HashTree.{path_of_key};

pub use mvd_digest::Hashed;
use mvd_digest::text_digest;
use mvd_dots::Refusal;
use mvd_keys::{Key, Path};
use std::alloc::Global;
pub use touched::KeyChange;
pub use tree::Tree;

/// The path of a key in the tree: the first three hexadecimal digits of its bytes' SHA-256, which is one computation.
pub fn key_path(alloc: Global, key: &Key, hashed: &mut Hashed) -> Result<Path, Refusal>
    ensures path { IsAnswer result (Ok (path_of_key key.now)) }
    ensures counts { Hashes 1 (length key.now) hashed.old hashed.new }
{
    let digest = text_digest(key.text().as_bytes(), hashed);
    Path::new(alloc, &[digest[0] / 16, digest[0] % 16, digest[1] / 16])
}

/// The digest of a key, from the bytes of the key and of its state as they are spelled, by one computation.
pub fn key_digest(spelled: &[u8], hashed: &mut Hashed) -> [u8; 32]
    ensures digest { result ≡ sha256 spelled.now }
    ensures counts { Hashes 1 (length spelled.now) hashed.old hashed.new }
{
    text_digest(spelled, hashed)
}

/// Whether the keys of these entries rise, as `Tree::open` asks.
pub fn rises(entries: &[(Key, [u8; 32])]) -> bool
    ensures { result ≡ is_sorted key_cmp entries.now }
{
    for i in 1..entries.len() {
        if !is_below(&entries[i - 1].0, &entries[i].0) {
            return false;
        }
    }
    true
}

fn is_below(key: &Key, other: &Key) -> bool
    ensures { result ≡ is_lt (key_cmp key.now other.now) }
{
    key.cmp(other).is_lt()
}
