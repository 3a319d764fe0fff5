//! The key states that a site holds, and the only way to them.
ghost use Rattle.std.specs.Prelude.{◌≡◌, ◌+◌, ◌*◌, IfErr, IfOk, IfSome, IsTrue, Ok, OnErr, OnOk, length, true};
ghost use Rattle.std.specs.List.{AllByRecursion};
ghost use Rattle.std.specs.FinMap.{from_entries, is_sorted};
ghost use Rattle.std.specs.Bound.{bound_map};
ghost use Rattle.std.specs.declared.ops.Bound.TheVariants.{Unbounded};
ghost use Rattle.std.specs.BTreeMap as tree;
ghost use Rattle.std.specs.BTreeMap.Range.{entries_between};
ghost use Rattle.std.specs.Map.Iter.{TakesFirst, deref_pair};
ghost use Rattle.std.specs.Option.{option_copied};
ghost use Rattle.std.specs.FinMap as map;
ghost use Rattle.mvd_wire.specs.Codecs.{IsInForm};
ghost use Rattle.mvd_count.specs.Counted.{RoseBy, counted};
ghost use Rattle.mvd_dots.specs.Answer.{IsAnswer};
ghost use Rattle.mvd_dots.specs.declared.refusals.Refusal.TheVariants.{Broken, Memory};
ghost use Rattle.mvd_keys.specs.Key.{is_key, key_cmp};
ghost use Rattle.mvd_keys.specs.State.{IsValid};
ghost use Rattle.mvd_rows.specs.Changes.{IsRoomy, differing, looks_each, updates_each};
ghost use Rattle.mvd_rows.specs.Counted.{Within};
ghost use Rattle.mvd_rows.specs.Defs.{Definitions};
ghost use Rattle.mvd_rows.specs.Siblings.{begins_with, keys_answer};
ghost use Rattle.mvd_rows.specs.Stands.{IsRowsOf, definitions_of};
ghost use Rattle.mvd_kept.specs.Held.{AreHeld, IsHeldState, IsKept, States, state_at};
ghost use Rattle.mvd_kept.specs.Walk.{first_of, is_at_prefix, walk_start};

use crate::work::{HeldLook, Work};
use mvd_count::Count;
use mvd_dots::Refusal;
use mvd_keys::{Key, KeyState};
use mvd_rows::Rows;
use mvd_wire::{PAGE_LIMIT, Prefix};
use std::alloc::{AllocError, Global};
use std::collections::BTreeMap;
use std::collections::btree_map::Range;
use std::marker::Model;
use std::ops::Bound;

/// The states of the keys that are held. Each look-up of a key is a look, and so is each that a walk takes: it adds one
/// to a count that is handed in.
#[derive(Drop)]
pub struct Held {
    states: BTreeMap<Key, KeyState>,
}

impl Model for Held {
    ghost use Rattle.std.specs.Coded.{coded_ℕ, coded_list};
    ghost use Rattle.std.specs.FinMap.{code, from_entries};
    ghost use Rattle.mvd_keys.specs.State.{state_code};
    ghost use Rattle.mvd_kept.specs.Held.{AreHeld, States};

    ghost Value = { States };

    ghost coded = { code (coded_list coded_ℕ) state_code };

    ghost view = { λ h. from_entries h.states.entries };

    ghost invariant = { λ h. AreHeld (from_entries h.states.entries) };
}

impl Held {
    pub fn new(alloc: Global) -> Held
        ensures { result ≡ map.empty }
    {
        Held {
            states: BTreeMap::new(alloc),
        }
    }

    /// Just these states, all put in at once. So each node of the map is full, and it would be half full where they came
    /// one after the other by rising key.
    pub fn of(alloc: Global, states: Vec<(Key, KeyState)>) -> Result<Held, Refusal>
        requires rising { IsTrue (is_sorted key_cmp states.items) }
        requires held { AllByRecursion (λ entry. IsHeldState entry.1) states.items }
        requires spelled { AllByRecursion (λ entry. IsInForm entry.1) states.items }
        ensures held { IfOk result (λ held. held ≡ from_entries states.items) }
        ensures kept { IfOk result AreHeld }
        ensures only { IfErr result (λ refusal. refusal ≡ Memory) }
    {
        are_valid(&states);
        let states = BTreeMap::from_iter(alloc, states)?;
        Ok(Held { states })
    }

    /// The state of a key, if it is held. This is one look.
    pub fn get(&self, key: &Key, looks: &mut Count<HeldLook>) -> Option<&KeyState>
        ensures found { option_copied result ≡ map.get self.now key.now }
        ensures exact { looks.new ≡ counted looks.old 1 }
        ensures looked { RoseBy 1 looks.old looks.new }
        ensures kept { IfSome result (λ state. IsKept state.now) }
    {
        looks.add(1);
        self.states.get(key)
    }

    /// What is true of all that is held.
    pub fn stands(&self)
        ensures { AreHeld self.now }
    {
        let _ = &self.states;
    }

    /// The number of keys that are held.
    pub fn len(&self) -> usize
        ensures { result ≡ map.len self.now }
    {
        self.states.len()
    }

    /// A page of at most 1,000 of the keys that begin with a prefix, those after a key if one is given, with their
    /// numbers of siblings, and whether more follow. It takes as many looks as the page has keys, and two more.
    pub fn keys(
        &self,
        alloc: Global,
        prefix: &Prefix,
        after: Option<&Key>,
        looks: &mut Count<HeldLook>,
    ) -> Result<(Vec<(Key, u32)>, bool), Refusal>
        ensures page { IfOk result (λ page.
            keys_answer self.now prefix.now (option_copied after.entry) ≡ (page.0.items, page.1)) }
        ensures only { IfErr result (λ refusal. refusal ≡ Memory) }
        ensures looked { RoseBy 1002 looks.old looks.new }
        ensures given { IfOk result (λ page. RoseBy (length page.0.items + 2) looks.old looks.new) }
    {
        let first = first_key(alloc, prefix, after)?;
        let mut walk = walk_from(&self.states, start(&first, after), looks);
        let mut page = Vec::new(alloc);
        for _taken in 0..PAGE_LIMIT {
            let Some((key, state)) = walk.next(looks) else {
                return Ok((page, false));
            };
            if !begins(key, prefix) {
                return Ok((page, false));
            }
            page.push((key.copy(alloc)?, state.siblings().len() as u32))?;
        }
        let more = match walk.next(looks) {
            Some((key, _)) => begins(key, prefix),
            None => false,
        };
        Ok((page, more))
    }

    /// Puts in the state of a key.
    pub fn insert(&mut self, key: Key, state: KeyState) -> Result<(), AllocError>
        requires held { IsHeldState state }
        requires spelled { IsInForm state }
        ensures ok { OnOk result (self.new ≡ map.insert self.old key state) }
        ensures err { OnErr result (self.new ≡ self.old) }
    {
        // Here it is known that each sibling's dot has been seen, and that the key is one.
        let _seen = state.context();
        let _text = key.text();
        self.states.insert(key, state)?;
        Ok(())
    }

    /// Puts in the state of a key, and the rows follow it. The one refusal is `Broken`: the states are as before, and
    /// the rows may be of no states. It takes a look, and the work on the rows of what differs between the key's two
    /// states.
    pub fn replace(
        &mut self,
        alloc: Global,
        rows: &mut Rows,
        key: Key,
        state: KeyState,
        work: &mut Work,
    ) -> Result<(), Refusal>
        requires stand { (defs : Definitions) × IsRowsOf rows.old defs self.old }
        requires few { IsRoomy self.old }
        requires held { IsHeldState state }
        requires spelled { IsInForm state }
        ensures ok { OnOk result (self.new ≡ map.insert self.old key state) }
        ensures stand { OnOk result ((defs : Definitions) → IsRowsOf rows.old defs self.old →
            IsRowsOf rows.new defs (map.insert self.old key state)) }
        ensures broken { IfErr result (λ refusal. refusal ≡ Broken) }
        ensures err { OnErr result (self.new ≡ self.old) }
        ensures looked { RoseBy 1 work.old.looks work.new.looks }
        ensures rows { let moved = differing (state_at self.old key) state in let defs = definitions_of rows.old in
            Within (moved * updates_each defs + 1) (moved * looks_each defs) work.old.rows work.new.rows }
        ensures hashed { work.new.hashed ≡ work.old.hashed }
    {
        self.change_rows(alloc, rows, &key, &state, work)?;
        match self.insert(key, state) {
            Ok(()) => Ok(()),
            Err(_) => Err(Refusal::Broken),
        }
    }

    /// The rows follow a change of one key's state, which is not put in yet.
    fn change_rows(
        &self,
        alloc: Global,
        rows: &mut Rows,
        key: &Key,
        state: &KeyState,
        work: &mut Work,
    ) -> Result<(), Refusal>
        requires stand { (defs : Definitions) × IsRowsOf rows.old defs self.now }
        requires few { IsRoomy self.now }
        requires held { IsHeldState state.now }
        ensures stand { OnOk result ((defs : Definitions) → IsRowsOf rows.old defs self.now →
            IsRowsOf rows.new defs (map.insert self.now key.now state.now)) }
        ensures broken { IfErr result (λ refusal. refusal ≡ Broken) }
        ensures looked { RoseBy 1 work.old.looks work.new.looks }
        ensures rows { let moved = differing (state_at self.now key.now) state.now in
            let defs = definitions_of rows.old in
            Within (moved * updates_each defs + 1) (moved * looks_each defs) work.old.rows work.new.rows }
        ensures hashed { work.new.hashed ≡ work.old.hashed }
    {
        let empty = KeyState::empty(alloc);
        match self.get(key, &mut work.looks) {
            Some(old) => rows.change(key, old, state, &mut work.rows),
            None => rows.change(key, &empty, state, &mut work.rows),
        }
    }
}

/// Of each of these it is known that its siblings' dots have been seen, and that its key is one.
fn are_valid(states: &[(Key, KeyState)])
    ensures { AllByRecursion (λ entry. IsValid entry.1 × (is_key entry.0 ≡ true)) states.now }
{
    for entry in states {
        let _seen = entry.1.context();
        let _text = entry.0.text();
    }
}

/// Held keys with their states, taken one by one. Each is a look.
#[derive(Drop)]
struct Walk<'a> {
    rest: Range<'a, Key, KeyState>,
}

impl<'a> Walk<'a> {
    fn next(&mut self, count: &mut Count<HeldLook>) -> Option<(&'a Key, &'a KeyState)>
        ensures item { TakesFirst deref_pair self.old.rest result self.new.rest }
        ensures exact { count.new ≡ counted count.old 1 }
        ensures looked { RoseBy 1 count.old count.new }
    {
        count.add(1);
        self.rest.next()
    }
}

/// A walk from there on. To find where it begins is a look.
fn walk_from<'a>(
    states: &'a BTreeMap<Key, KeyState>,
    start: Bound<&Key>,
    count: &mut Count<HeldLook>,
) -> Walk<'a>
    ensures rest { result.rest ≡
        entries_between key_cmp (bound_map (λ x. x.now) start.entry) Unbounded states.now.entries }
    ensures ordered { tree.IsOrdered key_cmp states.now }
    ensures exact { count.new ≡ counted count.old 1 }
    ensures looked { RoseBy 1 count.old count.new }
{
    count.add(1);
    Walk {
        rest: states.range((start, Bound::Unbounded)),
    }
}

/// Where a walk begins: at the first key, or else after the other.
fn start<'a>(first: &'a Option<Key>, after: Option<&'a Key>) -> Bound<&'a Key>
    ensures { bound_map (λ x. x.now) result ≡ walk_start first.now (option_copied after.entry) }
{
    match (first, after) {
        (Some(first), _) => Bound::Included(first),
        (None, Some(after)) => Bound::Excluded(after),
        (None, None) => Bound::Unbounded,
    }
}

/// The prefix as a key, if a walk begins there.
fn first_key(alloc: Global, prefix: &Prefix, after: Option<&Key>) -> Result<Option<Key>, Refusal>
    ensures { IsAnswer result (Ok (first_of prefix.now (option_copied after.entry))) }
{
    if !is_at_prefix(prefix, after) {
        return Ok(None);
    }
    Ok(Some(Key::read(alloc, prefix.text())?))
}

/// Whether a walk begins at the prefix itself.
fn is_at_prefix(prefix: &Prefix, after: Option<&Key>) -> bool
    ensures { result ≡ is_at_prefix prefix.now (option_copied after.entry) }
{
    match after {
        Some(after) => after.text() < prefix.text(),
        None => !prefix.text().is_empty(),
    }
}

fn begins(key: &Key, prefix: &Prefix) -> bool
    ensures { result ≡ begins_with prefix.now key.now }
{
    key.text().as_bytes().starts_with(prefix.text().as_bytes())
}
