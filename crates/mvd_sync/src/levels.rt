//! The walk from the root to the buckets that differ, level by level.
ghost use Rattle.std.specs.Prelude.{◌≡◌, ◌<◌, ◌≤◌, ◌+◌, ◌++◌, ◌∷◌, [], ◌↔◌};
ghost use Rattle.std.specs.Prelude.{length, take, IfOk, IfErr, OnOk, IsTrue};
ghost use Rattle.mvd_peer.specs.PushedStates.{Each};
ghost use Rattle.mvd_sync.specs.Level.{GoesDown, IsDown, next_nodes};
ghost use Rattle.mvd_sync.specs.Walk.{told, told_all};

use crate::asking::Node;
use mvd_dots::Refusal;
use mvd_keys::Path;
use std::alloc::Global;
use std::marker::Model;
use std::mem;

/// The most nodes or pages that are asked for at once.
pub const WINDOW: usize = 64;

/// Whether two digests are the same.
pub fn is_same(first: &[u8; 32], second: &[u8; 32]) -> bool
    ensures { IsTrue result ↔ (first.now ≡ second.now) }
{
    first == second
}

/// The path with one digit more.
fn child(alloc: Global, path: &Path, digit: u8) -> Result<Path, Refusal>
    requires room { length path.now < 3 }
    requires digit { digit < 16 }
    ensures child { IfOk result (λ child. child ≡ path.now ++ digit ∷ []) }
    ensures memory { IfErr result (λ refusal. refusal ≡ Refusal.Memory) }
{
    let mut digits = Vec::from_slice(alloc, path.digits())?;
    digits.push(digit)?;
    Path::new(alloc, &digits)
}

/// Adds the children of a node whose digests differ.
fn add_children(
    alloc: Global,
    below: &mut Vec<Path>,
    path: &Path,
    mine: &Node,
    theirs: &Node,
) -> Result<(), Refusal>
    requires short { length path.now < 3 }
    ensures added { OnOk result (below.new.items ≡ below.old.items ++ told path.now mine.now theirs.now) }
    ensures memory { IfErr result (λ refusal. refusal ≡ Refusal.Memory) }
{
    if is_same(&mine.own, &theirs.own) {
        return Ok(());
    }
    for digit in 0..16u8 {
        let index = digit as usize;
        if !is_same(&mine.children[index], &theirs.children[index]) {
            below.push(child(alloc, path, digit)?)?;
        }
    }
    Ok(())
}

/// Adds the children of several nodes whose digests differ.
fn add_all_children(
    alloc: Global,
    below: &mut Vec<Path>,
    paths: &[Path],
    mine: &[Node],
    theirs: &[Node],
) -> Result<(), Refusal>
    requires short { Each (λ path. length path < 3) paths.now }
    requires mine { length mine.now ≡ length paths.now }
    requires theirs { length theirs.now ≡ length paths.now }
    ensures added { OnOk result (below.new.items ≡ below.old.items ++ told_all paths.now mine.now theirs.now) }
    ensures memory { IfErr result (λ refusal. refusal ≡ Refusal.Memory) }
{
    for (index, path) in paths.iter().enumerate() {
        add_children(alloc, below, path, &mine[index], &theirs[index])?;
    }
    Ok(())
}

/// The path of the root.
fn root(alloc: Global) -> Result<Vec<Path>, Refusal>
    ensures root { IfOk result (λ paths. paths.items ≡ [] ∷ []) }
    ensures memory { IfErr result (λ refusal. refusal ≡ Refusal.Memory) }
{
    let mut paths = Vec::new(alloc);
    paths.push(Path::new(alloc, &[])?)?;
    Ok(paths)
}

/// The first of these nodes, at most so many as are asked for at once.
pub fn first_of(rest: &[Path]) -> &[Path]
    ensures { result.now ≡ take 64 rest.now }
{
    if rest.len() <= WINDOW {
        return rest;
    }
    &rest[..WINDOW]
}

/// A descent from the root to the buckets that differ, between two windows of questions: the nodes of a level, how many
/// of them both sides have told, and the children found.
#[derive(Drop)]
pub struct Descent {
    alloc: Global,
    depth: u8,
    paths: Vec<Path>,
    told: usize,
    below: Vec<Path>,
}

impl Model for Descent {
    ghost use Rattle.std.specs.Prelude.{◌≡◌, ◌≤◌, drop, length};
    ghost use Rattle.mvd_sync.specs.Level.{Level};

    ghost Value = { Level };

    ghost view = { λ d. record { depth = d.depth; rest = drop d.told d.paths.items; below = d.below.items } };

    ghost invariant = { λ d. (d.told ≤ length d.paths.items) × (3 ≤ d.depth → d.told ≡ 0) };
}

impl Descent {
    /// It begins with the root.
    pub fn new(alloc: Global) -> Result<Descent, Refusal>
        ensures root { IfOk result (λ descent. descent ≡ record { depth = 0; rest = [] ∷ []; below = [] }) }
        ensures memory { IfErr result (λ refusal. refusal ≡ Refusal.Memory) }
    {
        Ok(Descent {
            alloc,
            depth: 0,
            paths: root(alloc)?,
            told: 0,
            below: Vec::new(alloc),
        })
    }

    /// Whether nothing is left to ask.
    pub fn is_done(&self) -> bool
        ensures { IsTrue result ↔ IsDown self.now }
    {
        self.depth >= 3 || self.told == self.paths.len()
    }

    /// What both sides are asked next: at most 64 nodes.
    pub fn window(&self) -> &[Path]
        ensures { result.now ≡ next_nodes self.now }
    {
        first_of(&self.paths[self.told..])
    }

    /// Takes what both sides told of these nodes. After the last of its level the children found are next.
    pub fn take(&mut self, mine: &[Node], theirs: &[Node]) -> Result<(), Refusal>
        requires high { self.old.depth < 3 }
        requires short { Each (λ path. length path < 3) (next_nodes self.old) }
        requires mine { length mine.now ≡ length (next_nodes self.old) }
        requires theirs { length theirs.now ≡ length (next_nodes self.old) }
        ensures goes { OnOk result (GoesDown self.old mine.now theirs.now self.new) }
        ensures memory { IfErr result (λ refusal. refusal ≡ Refusal.Memory) }
    {
        let window = first_of(&self.paths[self.told..]);
        let count = window.len();
        add_all_children(self.alloc, &mut self.below, window, mine, theirs)?;
        self.told += count;
        if self.told < self.paths.len() {
            return Ok(());
        }
        self.depth += 1;
        self.paths = mem::replace(&mut self.below, Vec::new(self.alloc));
        self.told = 0;
        Ok(())
    }

    /// The nodes that are left when it is done: the buckets, or none.
    pub fn buckets(self) -> Vec<Path>
        requires { IsDown self }
        ensures { result.items ≡ self.rest }
    {
        if self.depth < 3 {
            return Vec::new(self.alloc);
        }
        self.paths
    }
}
