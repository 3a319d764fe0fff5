//! What is kept of the nodes of one depth, and of the SHA-256 computations of the nodes over them.
ghost use Rattle.std.specs.Prelude.{◌≡◌, ℕ, ◌<◌, ◌≤◌, ◌+◌, ◌*◌, ◌/◌, ◌%◌, List, Option};
ghost use Rattle.std.specs.Prelude.{flat_map, slice_range, slice_set};
ghost use Rattle.std.specs.Prelude.{length, IfOk};
ghost use Rattle.mvd_digest.specs.Counted.{Absorbed, Hashes};
ghost use Rattle.mvd_tree.specs.Kept.{digest_or_zeros, kept_inner};
ghost use Rattle.mvd_tree.specs.Layout.{AreOver};
ghost use Rattle.mvd_tree.specs.Midstates.{AreForgotten, HasMidstates, IsMidstate};

use crate::node_text::{none_held, read_on};
use mvd_digest::{CountedHasher, Hashed};
use mvd_dots::Refusal;
use std::alloc::Global;
use std::marker::Model;

/// What is kept of the nodes of one depth, by number, seen as that.
///
/// The digest of the node over sixteen of these is one SHA-256 computation over their digests. Its state before each
/// group of four of them is kept too (a midstate), until one of the groups before it in that node has changed. So it
/// goes on from there: after a change of one it hashes six blocks on the average, and not nine.
#[derive(Drop)]
pub(crate) struct Level {
    nodes: Vec<Option<[u8; 32]>>,
    midstates: Vec<Option<CountedHasher>>,
}

impl Model for Level {
    ghost use Rattle.std.specs.Prelude.{List, ℕ, Option};
    ghost use Rattle.std.specs.Coded.{coded_ℕ, coded_list, coded_option};
    ghost use Rattle.mvd_tree.specs.Midstates.{HasMidstates};

    ghost Value = { List (Option (List ℕ)) };

    ghost coded = { coded_list (coded_option (coded_list coded_ℕ)) };

    ghost view = { λ l. l.nodes.items };

    ghost invariant = { λ l. HasMidstates l.nodes.items l.midstates.items };
}

/// Forgets the midstates after a group of four nodes, up to the last one of the same node above.
fn forget(midstates: &mut Vec<Option<CountedHasher>>, group: usize)
    requires within { group < length midstates.old.items }
    requires whole { length midstates.old.items % 4 ≡ 0 }
    ensures { AreForgotten midstates.old.items midstates.new.items (group + 1) (group / 4 * 4 + 4) }
{
    for next in group + 1..group / 4 * 4 + 4 {
        midstates[next] = None;
    }
}

/// The last midstate that is kept among the four of a node above, the first of which has this number; or that before
/// all.
fn last_kept(midstates: &[Option<CountedHasher>], first: usize) -> (usize, CountedHasher)
    requires within { first + 4 ≤ length midstates.now }
    requires whole { first % 4 ≡ 0 }
    ensures from { first ≤ result.0 }
    ensures to { result.0 < first + 4 }
    ensures midstate { (nodes : List (Option (List ℕ))) →
        HasMidstates nodes midstates.now → IsMidstate nodes result.0 result.1 }
{
    for back in 0..3 {
        let group = first + 3 - back;
        if let Some(midstate) = &midstates[group] {
            return (group, midstate.copy());
        }
    }
    (first, CountedHasher::new())
}

/// The computation over a node's sixteen children. It goes on from the last midstate that is kept, and keeps those
/// behind it.
fn read_children(
    nodes: &[Option<[u8; 32]>],
    midstates: &mut Vec<Option<CountedHasher>>,
    number: usize,
    hashed: &mut Hashed,
) -> CountedHasher
    requires within { number * 16 + 16 ≤ length nodes.now }
    requires midstates { HasMidstates nodes.now midstates.old.items }
    ensures midstates { HasMidstates nodes.now midstates.new.items }
    ensures read { Absorbed result (flat_map digest_or_zeros (slice_range nodes.now (number * 16) (number * 16 + 16))) }
    ensures counts { Hashes 0 512 hashed.old hashed.new }
{
    let (from, mut hasher) = last_kept(midstates, number * 4);
    for group in from..number * 4 + 4 {
        midstates[group] = Some(hasher.copy());
        hasher = read_on(&hasher, &nodes[group * 4..group * 4 + 4], hashed);
    }
    hasher
}

impl Level {
    /// These nodes. It hashes nothing.
    pub(crate) fn new(alloc: Global, nodes: Vec<Option<[u8; 32]>>) -> Result<Self, Refusal>
        requires { length nodes.items % 16 ≡ 0 }
        ensures nodes { IfOk result (λ level. level ≡ nodes.items) }
    {
        let groups = nodes.len() / 4;
        let mut midstates = Vec::with_capacity(alloc, groups)?;
        for group in 0..groups {
            midstates.push(None)?;
        }
        Ok(Level { nodes, midstates })
    }

    /// What is kept of these nodes.
    pub(crate) fn nodes(&self) -> &[Option<[u8; 32]>]
        ensures { result.now ≡ self.now }
    {
        &self.nodes
    }

    /// What is kept of the node over sixteen of these, from its number.
    pub(crate) fn over(&mut self, number: usize, hashed: &mut Hashed) -> Option<[u8; 32]>
        requires { number * 16 + 16 ≤ length self.old }
        ensures same { self.new ≡ self.old }
        ensures digest { result ≡ kept_inner (slice_range self.old (number * 16) (number * 16 + 16)) }
        ensures counts { Hashes 1 512 hashed.old hashed.new }
    {
        let nodes = self.nodes();
        let first = number * 16;
        if none_held(&nodes[first..first + 16]) {
            return None;
        }
        let hasher = read_children(&self.nodes, &mut self.midstates, number, hashed);
        Some(hasher.finish(hashed))
    }

    /// What is kept of so many nodes, each of which has sixteen of these as its children.
    pub(crate) fn all_over(
        &mut self,
        alloc: Global,
        number: usize,
        hashed: &mut Hashed,
    ) -> Result<Vec<Option<[u8; 32]>>, Refusal>
        requires { number * 16 ≤ length self.old }
        ensures same { self.new ≡ self.old }
        ensures nodes { IfOk result (λ above. AreOver self.old number above.items) }
        ensures counts { Hashes number (512 * number) hashed.old hashed.new }
    {
        let mut above = Vec::with_capacity(alloc, number)?;
        for n in 0..number {
            above.push(self.over(n, hashed))?;
        }
        Ok(above)
    }

    /// Keeps this of a node.
    pub(crate) fn put(&mut self, number: usize, kept: Option<[u8; 32]>)
        requires { number < length self.old }
        ensures nodes { self.new ≡ slice_set self.old number kept }
        ensures whole { length self.new % 16 ≡ 0 }
    {
        self.nodes[number] = kept;
        forget(&mut self.midstates, number / 4);
    }
}
