//! What was prepared, put in: one change, or all of requests side by side, for which the hash tree is made
//! anew once, and the last state of each key hashed.
ghost use Rattle.std.specs.Prelude.{◌≡◌, ◌⊎◌, ◌≤◌, ◌+◌, ◌*◌, [], Some, false, true};
ghost use Rattle.std.specs.Prelude.{IfErr, IfOk, OnErr, OnOk, length, vec_capacity};
ghost use Rattle.std.specs.FinMap as map;
ghost use Rattle.mvd_digest.specs.Counted.{Hashes};
ghost use Rattle.mvd_dots.specs.declared.refusals.Refusal.TheVariants.{Broken};
ghost use Rattle.mvd_rows.specs.Changes.{IsRoomy, differing, looks_each, updates_each};
ghost use Rattle.mvd_rows.specs.Stands.{IsRowsOf};
ghost use Rattle.mvd_tree.specs.Change.{changed_all};
ghost use Rattle.mvd_tree.specs.States.{key_digest};
ghost use Rattle.mvd_kept.specs.Answer.{spelled};
ghost use Rattle.mvd_kept.specs.Costs.{ChangeCosts, Costs};
ghost use Rattle.mvd_kept.specs.Held.{IsHeldState, state_at};
ghost use Rattle.mvd_kept.specs.Installs.{HashesChanges, InstallCosts, InstallsAll, MayAllBeIn, MayBeIn, PutsIfWhole};
ghost use Rattle.mvd_kept.specs.Installs.{TreeCosts, broken_site, changed_site, changes_in, digests_in, is_change};
ghost use Rattle.mvd_kept.specs.Installs.{last_changes};
ghost use Rattle.mvd_kept.specs.Lasts.{Gathers, GathersOne, HashesOne};
ghost use Rattle.mvd_kept.specs.Installs.{moved_in, moved_of};
ghost use Rattle.mvd_kept.specs.Prepared.{IsChangeNow};
ghost use Rattle.mvd_kept.specs.Sites.{has_no_room};

use crate::config::Config;
use crate::held::Held;
use crate::kept::Kept;
use crate::prepared::{Change, Prepared};
use crate::work::Work;
use mvd_dots::Refusal;
use mvd_keys::Key;
use mvd_rows::Rows;
use mvd_tree::{Hashed, KeyChange, Tree};
use mvd_wire::Reply;
use std::alloc::Global;
use std::collections::BTreeSet;
use std::slice;

/// A key with its digest once the change is made.
fn moved_key(alloc: Global, change: &Change, hashed: &mut Hashed) -> Result<KeyChange, Refusal>
    ensures key { IfOk result (λ pair. pair.0 ≡ change.now.key) }
    ensures digest { IfOk result (λ pair. pair.1 ≡ Some (key_digest spelled change.now.key change.now.state)) }
    ensures counts { Hashes 2 (length (spelled change.now.key change.now.state) + length change.now.key)
        hashed.old hashed.new }
{
    let digest = change.digest(hashed);
    let key = change.key().copy(alloc)?;
    Ok(KeyChange::new(key, Some(digest), hashed))
}

/// What was gone over of a group, from its end: the keys that it changes, and each with its last digest.
#[derive(Drop)]
struct Lasts<'a> {
    seen: BTreeSet<&'a Key>,
    changes: Vec<KeyChange>,
}

impl<'a> Lasts<'a> {
    fn new(alloc: Global) -> Lasts<'a>
        ensures { Gathers result [] }
    {
        Lasts {
            seen: BTreeSet::new(alloc),
            changes: Vec::new(alloc),
        }
    }

    /// Goes over a change before those. It is hashed where none of them is of its key.
    fn add(&mut self, alloc: Global, change: &'a Change, hashed: &mut Hashed) -> Result<(), Refusal>
        ensures gathers { OnOk result (GathersOne self.old change.now self.new) }
        ensures counts { HashesOne self.old change.now hashed.old hashed.new }
    {
        if !self.seen.insert(change.key())? {
            return Ok(());
        }
        let moved = moved_key(alloc, change, hashed)?;
        self.changes.push(moved)?;
        Ok(())
    }
}

/// The keys that change, with their digests in the end. Of several changes of one key the last alone is hashed.
fn digests_of(
    alloc: Global,
    group: &[Prepared],
    hashed: &mut Hashed,
) -> Result<Vec<KeyChange>, Refusal>
    ensures digests { IfOk result (λ changes. changes.items ≡ digests_in (last_changes group.now)) }
    ensures counts { HashesChanges (last_changes group.now) hashed.old hashed.new }
{
    let mut lasts = Lasts::new(alloc);
    let mut left = group.len();
    'going: while left > 0 {
        left -= 1;
        if let Prepared::Change(change) = &group[left] {
            lasts.add(alloc, change, hashed)?;
        }
    }
    let Lasts { mut changes, .. } = lasts;
    changes.reverse();
    Ok(changes)
}

/// The hash tree follows the changes among these, all at once.
fn change_tree(
    alloc: Global,
    tree: &mut Tree,
    group: &[Prepared],
    hashed: &mut Hashed,
) -> Result<(), Refusal>
    ensures ok { OnOk result (tree.new ≡ changed_all tree.old (digests_in (last_changes group.now))) }
    ensures still { changes_in group.now ≡ 0 → tree.new ≡ tree.old }
    ensures counts { TreeCosts tree.old (last_changes group.now) hashed.old hashed.new }
{
    let changes = digests_of(alloc, group, hashed)?;
    tree.change(&changes, hashed)
}

/// The same, unless the site is broken: whether the hash tree follows.
fn follow(
    alloc: Global,
    tree: &mut Tree,
    broken: bool,
    group: &[Prepared],
    hashed: &mut Hashed,
) -> bool
    ensures follows { result ≡ true → tree.new ≡ changed_all tree.old (digests_in (last_changes group.now)) }
    ensures still { changes_in group.now ≡ 0 → tree.new ≡ tree.old }
    ensures counts { TreeCosts tree.old (last_changes group.now) hashed.old hashed.new }
    ensures idle { broken ≡ true → hashed.new ≡ hashed.old }
{
    if broken {
        return false;
    }
    change_tree(alloc, tree, group, hashed).is_ok()
}

/// Puts in the change of one key, and the rows follow it.
fn put_change(
    alloc: Global,
    config: &Config,
    states: &mut Held,
    rows: &mut Rows,
    change: Change,
    work: &mut Work,
) -> Result<(), Refusal>
    requires few { map.len states.old ≤ config.now.max_keys }
    requires room { has_no_room config.now states.old change.key ≡ false }
    requires held { IsHeldState change.state }
    requires stand { IsRowsOf rows.old config.now.defs states.old }
    ensures ok { OnOk result (states.new ≡ map.insert states.old change.key change.state) }
    ensures stand { OnOk result (IsRowsOf rows.new config.now.defs states.new) }
    ensures few { map.len states.new ≤ config.now.max_keys }
    ensures err { OnErr result (states.new ≡ states.old) }
    ensures costs { let moved = differing (state_at states.old change.key) change.state in
        Costs 1 (moved * looks_each config.now.defs) (moved * updates_each config.now.defs + 1) 0 0
        work.old work.new }
{
    // Here it is known that there are few keys, and few siblings of each.
    let _most = config.max_keys();
    states.stands();
    let (key, state) = change.into_parts();
    states.replace(alloc, rows, key, state, work)
}

/// Puts in what was prepared, unless the site is broken. Where the hash tree does not follow, a change breaks it.
fn put_one(
    alloc: Global,
    config: &Config,
    states: &mut Held,
    rows: &mut Rows,
    is_digested: bool,
    broken: &mut bool,
    prepared: Prepared,
    work: &mut Work,
) -> Reply
    requires few { map.len states.old ≤ config.now.max_keys }
    requires fresh { broken.old ≡ false →
        MayBeIn (record { config = config.now; states = states.old; broken = broken.old }) prepared }
    requires stand { broken.old ≡ false → IsRowsOf rows.old config.now.defs states.old }
    ensures puts { PutsIfWhole (record { config = config.now; states = states.old; broken = broken.old })
        (record { config = config.now; states = states.new; broken = broken.new }) prepared result }
    ensures few { map.len states.new ≤ config.now.max_keys }
    ensures stand { broken.new ≡ false → IsRowsOf rows.new config.now.defs states.new }
    ensures digested { broken.new ≡ false → (is_digested ≡ true) ⊎ (is_change prepared ≡ 0) }
    ensures costs { broken.old ≡ false → let moved = moved_of states.old prepared in
        Costs (is_change prepared) (moved * looks_each config.now.defs)
        (moved * updates_each config.now.defs + is_change prepared) 0 0 work.old work.new }
    ensures idle { broken.old ≡ true → work.new ≡ work.old }
{
    if *broken {
        return Reply::Refused(Refusal::Broken);
    }
    match prepared {
        Prepared::Answer(reply) => reply,
        Prepared::Change(change) => {
            let reply = change.reply();
            if !is_digested {
                *broken = true;
                return Reply::Refused(Refusal::Broken);
            }
            match put_change(alloc, config, states, rows, change, work) {
                Ok(()) => reply,
                Err(_) => {
                    *broken = true;
                    Reply::Refused(Refusal::Broken)
                }
            }
        }
    }
}

/// Puts in what was prepared, one after the other, until the site breaks, and tells whether it is broken.
fn put_all(
    alloc: Global,
    config: &Config,
    states: &mut Held,
    rows: &mut Rows,
    is_digested: bool,
    was_broken: bool,
    group: Vec<Prepared>,
    replies: &mut Vec<Reply>,
    work: &mut Work,
) -> bool
    requires space { length replies.old.items + length group.items ≤ vec_capacity replies.old }
    requires few { map.len states.old ≤ config.now.max_keys }
    requires fresh { was_broken ≡ false →
        MayAllBeIn (record { config = config.now; states = states.old; broken = was_broken }) group.items }
    requires stand { was_broken ≡ false → IsRowsOf rows.old config.now.defs states.old }
    ensures puts { InstallsAll (record { config = config.now; states = states.old; broken = was_broken })
        (record { config = config.now; states = states.new; broken = result })
        group.items replies.old.items replies.new.items }
    ensures space { vec_capacity replies.new ≡ vec_capacity replies.old }
    ensures few { map.len states.new ≤ config.now.max_keys }
    ensures stand { result ≡ false → IsRowsOf rows.new config.now.defs states.new }
    ensures digested { result ≡ false → (is_digested ≡ true) ⊎ (changes_in group.items ≡ 0) }
    ensures costs { let moved = moved_in states.old group.items in
        Costs (changes_in group.items) (moved * looks_each config.now.defs)
        (moved * updates_each config.now.defs + changes_in group.items) 0 0 work.old work.new }
    ensures idle { was_broken ≡ true → work.new ≡ work.old }
{
    let mut broken = was_broken;
    for prepared in group {
        let reply = put_one(
            alloc,
            config,
            states,
            rows,
            is_digested,
            &mut broken,
            prepared,
            work,
        );
        replies.push_reserved(reply);
    }
    broken
}

impl Kept {
    /// Here it is known that there are few keys, and few siblings of each.
    fn few(&self)
        ensures { IsRoomy self.now.states }
    {
        let _most = self.config.max_keys();
        self.states.stands();
    }

    /// Puts in the change of one key, and changes no other: its state, its digest and its rows. Where memory is
    /// refused, what is kept is broken from then on. The key's state is to be still the one that the change was
    /// prepared from: what came between would be undone.
    pub fn install(&mut self, change: Change, work: &mut Work) -> Result<(), Refusal>
        requires room { has_no_room self.old.config self.old.states change.key ≡ false }
        requires held { IsHeldState change.state }
        // The key's state is still the one that the change was prepared from.
        requires fresh { IsChangeNow self.old change }
        ensures ok { OnOk result ((self.old.broken ≡ false) × (self.new ≡ changed_site self.old change)) }
        ensures err { IfErr result (λ refusal. (refusal ≡ Broken) × (self.new ≡ broken_site self.old)) }
        ensures costs { ChangeCosts 0 self.old change.key change.state work.old work.new }
        ensures idle { self.old.broken ≡ true → work.new ≡ work.old }
    {
        if self.broken {
            return Err(Refusal::Broken);
        }
        self.few();
        let digest = change.digest(&mut work.hashed);
        let (key, state) = change.into_parts();
        let moved = KeyChange::new(key, Some(digest), &mut work.hashed);
        let digested = self
            .tree
            .change(slice::from_ref(&moved), &mut work.hashed)
            .is_ok();
        if !digested {
            self.broken = true;
            return Err(Refusal::Broken);
        }
        match self
            .states
            .replace(self.alloc, &mut self.rows, moved.into_key(), state, work)
        {
            Ok(()) => Ok(()),
            Err(_) => {
                self.broken = true;
                Err(Refusal::Broken)
            }
        }
    }

    /// Puts in what was prepared of requests side by side, as one after the other, and adds the reply of each. The hash
    /// tree is made anew once, from the last state of each key. Where memory is refused, what is kept is broken from
    /// that change on.
    pub fn install_all(&mut self, group: Vec<Prepared>, replies: &mut Vec<Reply>, work: &mut Work)
        requires space { length replies.old.items + length group.items ≤ vec_capacity replies.old }
        requires fresh { self.old.broken ≡ false → MayAllBeIn self.old group.items }
        ensures puts { InstallsAll self.old self.new group.items replies.old.items replies.new.items }
        ensures space { vec_capacity replies.new ≡ vec_capacity replies.old }
        ensures costs { InstallCosts self.old group.items work.old work.new }
        ensures idle { self.old.broken ≡ true → work.new ≡ work.old }
    {
        let is_digested = follow(
            self.alloc,
            &mut self.tree,
            self.broken,
            &group,
            &mut work.hashed,
        );
        self.broken = put_all(
            self.alloc,
            &self.config,
            &mut self.states,
            &mut self.rows,
            is_digested,
            self.broken,
            group,
            replies,
            work,
        );
    }
}
