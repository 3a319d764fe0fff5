//! The tree that is kept: the digests of the held keys, and those of the nodes over them.
ghost use Rattle.std.specs.Prelude.{◌≡◌, ◌≢◌, ◌<◌, ◌≤◌, ◌+◌, ◌-◌, ◌*◌, T, length, IfOk};
ghost use Rattle.std.specs.Prelude.{IfErr, OnOk, OnErr, option_copied};
ghost use Rattle.std.specs.Prelude.{Some, None, Err};
ghost use Rattle.std.specs.FinMap.{empty, entries, is_sorted, from_entries};
ghost use Rattle.mvd_keys.specs.Key.{key_cmp};
ghost use Rattle.mvd_tree.specs.HashTree.{node_digest};
ghost use Rattle.mvd_tree.specs.Kept.{kept_node};
ghost use Rattle.mvd_digest.specs.Counted.{Hashes};
ghost use Rattle.mvd_tree.specs.Counted.{key_bytes};
ghost use Rattle.mvd_tree.specs.Page.{children_digests, keys_after, bucket_page, is_more_after_page};
ghost use Rattle.mvd_tree.specs.Layout.{IsPath};
ghost use Rattle.mvd_tree.specs.Touched.{ChangesAll};

use crate::bucket::{Bucket, copies};
use crate::buckets::filled;
use crate::level::Level;
use crate::node_text::or_zeros;
use crate::nodes::{all_or_zeros, bucket_nodes};
use crate::touched::{KeyChange, change_buckets, renew_buckets, renew_nodes};
use mvd_digest::Hashed;
use mvd_dots::Refusal;
use mvd_keys::{Key, Path};
use std::alloc::Global;
use std::marker::Model;

const PAGE: usize = 1000;

/// The hash tree over the digests of the keys that are held, seen as these digests by key.
///
/// The digest of each node under which a key is held is kept, by the number that its path spells:
/// `lowest` has those of the 4,096 buckets, `middle` and `upper` those of the nodes with two digits
/// and with one.
#[derive(Drop)]
pub struct Tree {
    alloc: Global,
    buckets: Vec<Bucket>,
    lowest: Level,
    middle: Level,
    upper: Level,
    root: Option<[u8; 32]>,
}

impl Model for Tree {
    ghost use Rattle.std.specs.Prelude.{List, ℕ};
    ghost use Rattle.std.specs.Coded.{coded_ℕ, coded_list};
    ghost use Rattle.mvd_keys.specs.Key.{key_cmp};
    ghost use Rattle.std.specs.FinMap as map;
    ghost use Rattle.mvd_tree.specs.Layout.{gathered, KeepsTree};

    ghost Value = { map.FinMap key_cmp (List ℕ) };

    ghost coded = { map.code (coded_list coded_ℕ) (coded_list coded_ℕ) };

    ghost view = { λ t. gathered t.buckets.items };

    ghost invariant = { λ t. KeepsTree t.buckets.items t.lowest t.middle t.upper t.root };
}

/// The digits of a path.
fn digits_of(path: &Path) -> &[u8]
    ensures digits { result.now ≡ path.now }
    ensures path { IsPath path.now }
{
    path.digits()
}

impl Tree {
    /// A tree with no key.
    pub fn new(alloc: Global, hashed: &mut Hashed) -> Result<Self, Refusal>
        ensures ok { IfOk result (λ tree. tree ≡ empty) }
        ensures err { IfErr result (λ refusal. refusal ≡ Refusal.Memory) }
        ensures counts { Hashes 4369 174720 hashed.old hashed.new }
    {
        Self::open(alloc, Vec::new(alloc), hashed)
    }

    /// The tree of these keys with their digests. It computes each node at most once. The keys must
    /// rise, which `rises` tests.
    pub fn open(
        alloc: Global,
        entries: Vec<(Key, [u8; 32])>,
        hashed: &mut Hashed,
    ) -> Result<Self, Refusal>
        requires { T (is_sorted key_cmp entries.items) }
        ensures ok { IfOk result (λ tree. tree ≡ from_entries entries.items) }
        ensures err { IfErr result (λ refusal. refusal ≡ Refusal.Memory) }
        // One computation for each key and at most one for each node.
        ensures counts { Hashes (length entries.items + 4369)
            (key_bytes entries.items + 32 * length entries.items + 174720) hashed.old hashed.new }
    {
        match Self::opened(alloc, entries, hashed) {
            Ok(tree) => Ok(tree),
            Err(_) => Err(Refusal::Memory),
        }
    }

    fn opened(
        alloc: Global,
        entries: Vec<(Key, [u8; 32])>,
        hashed: &mut Hashed,
    ) -> Result<Self, Refusal>
        requires { T (is_sorted key_cmp entries.items) }
        ensures ok { IfOk result (λ tree. tree ≡ from_entries entries.items) }
        ensures counts { Hashes (length entries.items + 4369)
            (key_bytes entries.items + 32 * length entries.items + 174720) hashed.old hashed.new }
    {
        let mut buckets = filled(alloc, entries, hashed)?;
        let mut lowest = Level::new(alloc, bucket_nodes(alloc, &mut buckets, hashed)?)?;
        let mut middle = Level::new(alloc, lowest.all_over(alloc, 256, hashed)?)?;
        let mut upper = Level::new(alloc, middle.all_over(alloc, 16, hashed)?)?;
        let root = upper.over(0, hashed);
        Ok(Tree {
            alloc,
            buckets,
            lowest,
            middle,
            upper,
            root,
        })
    }

    /// Changes keys, the later ones after the earlier ones. It computes each bucket that they touch and each node above
    /// at most once, and needs memory for the keys that are put in alone. Where it is refused, which is `Broken`, some
    /// of the first are changed, and not all.
    pub fn change(&mut self, changes: &[KeyChange], hashed: &mut Hashed) -> Result<(), Refusal>
        ensures { ChangesAll changes.now self.old self.new result hashed.old hashed.new }
    {
        if changes.is_empty() {
            return Ok(());
        }
        let done = change_buckets(&mut self.buckets, self.alloc, changes);
        renew_buckets(&mut self.buckets, &mut self.lowest, changes, hashed);
        renew_nodes(&mut self.lowest, &mut self.middle, 16, changes, hashed);
        renew_nodes(&mut self.middle, &mut self.upper, 256, changes, hashed);
        self.root = self.upper.over(0, hashed);
        done
    }

    /// What is kept of a node.
    fn kept(&self, path: &Path) -> Option<[u8; 32]>
        ensures { result ≡ kept_node (3 - length path.now) self.now path.now }
    {
        match digits_of(path) {
            [] => self.root,
            [a] => self.upper.nodes()[*a as usize],
            [a, b] => self.middle.nodes()[*a as usize * 16 + *b as usize],
            [a, b, c, ..] => {
                self.lowest.nodes()[(*a as usize * 16 + *b as usize) * 16 + *c as usize]
            }
        }
    }

    /// The digest of a node. It takes no memory, and hashes nothing: it is handed no count.
    pub fn node(&self, path: &Path) -> [u8; 32]
        ensures { result ≡ node_digest self.now path.now }
    {
        or_zeros(self.kept(path))
    }

    /// The digests of a node's sixteen children, or `None` for a bucket. It takes no memory, and hashes nothing.
    pub fn children(&self, path: &Path) -> Option<[[u8; 32]; 16]>
        ensures inner { length path.now < 3 → result ≡ Some (children_digests self.now path.now) }
        ensures bucket { 3 ≤ length path.now → result ≡ None }
    {
        match digits_of(path) {
            [] => Some(all_or_zeros(self.upper.nodes())),
            [a] => {
                let first = *a as usize * 16;
                Some(all_or_zeros(&self.middle.nodes()[first..first + 16]))
            }
            [a, b] => {
                let first = (*a as usize * 16 + *b as usize) * 16;
                Some(all_or_zeros(&self.lowest.nodes()[first..first + 16]))
            }
            _ => None,
        }
    }

    /// The entries of a bucket after a key.
    fn entries_after(&self, path: &Path, after: Option<&Key>) -> &[(Key, [u8; 32])]
        requires { length path.now ≡ 3 }
        ensures { result.now ≡ entries (keys_after self.now path.now (option_copied after.entry)) }
    {
        let digits = digits_of(path);
        let number = (digits[0] as usize * 16 + digits[1] as usize) * 16 + digits[2] as usize;
        self.buckets[number].entries_after(after)
    }

    /// The first thousand keys of a bucket after a key, or of all its keys, with their digests, and
    /// whether more are left. A path without just three digits is `BadPath`. It hashes nothing.
    pub fn bucket(
        &self,
        path: &Path,
        after: Option<&Key>,
    ) -> Result<(Vec<(Key, [u8; 32])>, bool), Refusal>
        ensures path { IfOk result (λ _. length path.now ≡ 3) }
        ensures page { IfOk result (λ page. page.0.items ≡ bucket_page self.now path.now (option_copied after.entry)) }
        ensures more { IfOk result (λ page. page.1 ≡ is_more_after_page self.now path.now (option_copied after.entry)) }
        ensures bad_path { length path.now ≢ 3 → result ≡ Err Refusal.BadPath }
        ensures err { length path.now ≡ 3 → IfErr result (λ refusal. refusal ≡ Refusal.Memory) }
    {
        if path.digits().len() != 3 {
            return Err(Refusal::BadPath);
        }
        let rest = self.entries_after(path, after);
        let count = rest.len().min(PAGE);
        match copies(self.alloc, &rest[..count]) {
            Ok(page) => Ok((page, PAGE < rest.len())),
            Err(_) => Err(Refusal::Memory),
        }
    }
}
