//! The keys that changed of late: those that each round may have changed, and the root of the hash tree after it. A
//! root tells what a reader knows: states only grow, so one that was never comes again.
ghost use Rattle.std.specs.Prelude.{◌≡◌, ◌≤◌, ◌-◌, IfOk, IfSome, IsOkUnless, OnErr, OnOk, List, [], ◌∷◌, ℕ, drop, filter, length};
ghost use Rattle.std.specs.Prelude.{option_map, take};
ghost use Rattle.mvd_host.specs.Feeds.{begins_with, changed_by, keys_with, knows_nothing, knows_root, lasts, noted_in};
ghost use Rattle.mvd_host.specs.Feeds.{page_of, page_told, root_after as root_then, root_now, rounds_since, told_since};
ghost use Rattle.mvd_host.specs.Lists.{ChangesAmong, IsListed, Lists, ListsOn, root_of};
ghost use Rattle.mvd_site.specs.Held.{States};

use mvd_dots::Refusal;
use mvd_keys::Key;
use mvd_wire::Prefix;
use std::alloc::{AllocError, Global};
use std::collections::{BTreeSet, VecDeque};
use std::marker::Model;

/// The most rounds that are remembered, and the most keys of them.
const ROUNDS_MAX: usize = 4_096;

const KEYS_MAX: usize = 65_536;

/// With so many keys a page ends.
const TOLD_MAX: usize = 1_000;

/// The keys that a round may have changed, and the root after it.
#[derive(Drop)]
pub(crate) struct Noted {
    keys: Vec<Key>,
    root: [u8; 32],
}

impl Model for Noted {
    ghost use Rattle.mvd_host.specs.Feeds.{NotedValue};

    ghost Value = { NotedValue };

    ghost view = { λ noted. record { keys = noted.keys.items; root = noted.root } };
}

/// Keys that may have changed since a moment, and the root at a later one, up to which all are told.
#[derive(Drop)]
pub struct Changed {
    pub keys: Vec<Key>,
    pub root: [u8; 32],
}

/// The root from which on all changes were noted, if there is one, and the rounds since. What there is no room for is
/// forgotten, the oldest first.
#[derive(Drop)]
pub struct Feed {
    pub(crate) alloc: Global,
    start: Option<[u8; 32]>,
    rounds: VecDeque<Noted>,
    /// The number of keys that were noted in the rounds.
    count: usize,
}

impl Model for Feed {
    ghost use Rattle.mvd_host.specs.Feeds.{FeedValue};

    ghost Value = { FeedValue };

    ghost use Rattle.mvd_host.specs.Remembered.{Remembers};

    ghost view = { λ feed. record { start = feed.start; rounds = feed.rounds.items } };

    ghost invariant = { Remembers };
}

impl Feed {
    /// It knows nothing.
    pub fn new(alloc: Global) -> Feed
        ensures { result ≡ knows_nothing }
    {
        Feed {
            alloc,
            start: None,
            rounds: VecDeque::new(alloc),
            count: 0,
        }
    }

    /// The root now, where it is known.
    pub fn root(&self) -> Option<[u8; 32]>
        ensures last { result ≡ root_now self.now }
        ensures now { (past : List States) (now : States) → Lists self.now past now →
            IfSome result (λ root. root ≡ root_of now) }
    {
        match self.rounds.back() {
            Some(noted) => Some(noted.root),
            None => self.start,
        }
    }

    /// Forgets all.
    pub(crate) fn forget(&mut self)
        ensures { self.new ≡ knows_nothing }
    {
        self.start = None;
        self.rounds.clear();
        self.count = 0;
    }

    /// Forgets all but the root now.
    pub(crate) fn begin(&mut self, root: [u8; 32])
        ensures { self.new ≡ knows_root root }
    {
        self.start = Some(root);
        self.rounds.clear();
        self.count = 0;
    }

    /// Notes that a round may have changed these keys, and left this root. Where memory is refused, all but the root is
    /// forgotten.
    pub(crate) fn note(&mut self, keys: Vec<Key>, root: [u8; 32]) -> Result<(), AllocError>
        ensures ok { OnOk result (self.new ≡ noted_in self.old keys.items root) }
        ensures err { OnErr result (self.new ≡ knows_root root) }
        ensures lists { (old new : States) → ChangesAmong keys.items old new → root ≡ root_of new →
            ListsOn self.old old self.new new }
    {
        if self.start.is_none() {
            self.begin(root);
            return Ok(());
        }
        let count = keys.len();
        if self.rounds.push_back(Noted { keys, root }).is_err() {
            self.begin(root);
            return Err(AllocError);
        }
        self.count += count;
        'fitting: while self.rounds.len() > ROUNDS_MAX || self.count > KEYS_MAX {
            let Some(oldest) = self.rounds.pop_front() else {
                break;
            };
            self.start = Some(oldest.root);
            self.count -= oldest.keys.len();
        }
        Ok(())
    }

    /// What changed since a root: the keys that begin with a prefix, of the first rounds since, each once, in the order of
    /// their last changes. There is nothing where that root is not known.
    pub fn since(&self, root: &[u8; 32], prefix: &Prefix) -> Result<Option<Changed>, Refusal>
        ensures told { IfOk result (λ told. option_map changed_by told ≡ told_since self.now prefix.now root.now) }
        ensures listed { (past : List States) (now : States) → Lists self.now past now →
            IfOk result (λ told. IsListed prefix.now root.now past (option_map changed_by told)) }
        ensures memory { IsOkUnless result Refusal.Memory }
    {
        let Some(place) = self.place_of(root) else {
            return Ok(None);
        };
        let changed = self.page_from(root, place, prefix)?;
        Ok(Some(changed))
    }

    /// The first round after the last moment with this root.
    fn place_of(&self, root: &[u8; 32]) -> Option<usize>
        ensures place { rounds_since self.now root.now ≡ option_map (λ at. drop at self.now.rounds) result }
        ensures within { IfSome result (λ place. place ≤ length self.now.rounds) }
    {
        let Some(start) = &self.start else {
            return None;
        };
        let mut left = self.rounds.len();
        'rounds: while left > 0 {
            if self.rounds[left - 1].root == *root {
                return Some(left);
            }
            left -= 1;
        }
        if *start == *root {
            return Some(0);
        }
        None
    }

    /// What is told of the rounds from this one on.
    fn page_from(&self, root: &[u8; 32], place: usize, prefix: &Prefix) -> Result<Changed, Refusal>
        requires { place ≤ length self.now.rounds }
        ensures told { IfOk result (λ told.
            changed_by told ≡ page_told prefix.now root.now (drop place self.now.rounds)) }
        ensures memory { IsOkUnless result Refusal.Memory }
    {
        let end = self.page_end(place, prefix)?;
        let keys = self.keys_between(place, end, prefix)?;
        let root = self.root_after(root, place, end);
        Ok(Changed { keys, root })
    }

    /// The round before which a page ends.
    fn page_end(&self, place: usize, prefix: &Prefix) -> Result<usize, AllocError>
        requires { place ≤ length self.now.rounds }
        ensures within { IfOk result (λ end. (place ≤ end) × (end ≤ length self.now.rounds)) }
        ensures page { IfOk result (λ end.
            take (end - place) (drop place self.now.rounds) ≡ page_of prefix.now [] (drop place self.now.rounds)) }
    {
        let mut met = Gathered::new(self.alloc);
        let mut end = place;
        'rounds: while end < self.rounds.len() && met.found.len() < TOLD_MAX {
            met.meet_all(&self.rounds[end].keys, prefix)?;
            end += 1;
        }
        Ok(end)
    }

    /// The keys that these rounds noted, each once.
    fn keys_between(&self, place: usize, end: usize, prefix: &Prefix) -> Result<Vec<Key>, Refusal>
        requires { (place ≤ end) × (end ≤ length self.now.rounds) }
        ensures keys { IfOk result (λ keys.
            keys.items ≡ lasts (keys_with prefix.now (take (end - place) (drop place self.now.rounds)))) }
        ensures memory { IsOkUnless result Refusal.Memory }
    {
        let mut lasts = Gathered::new(self.alloc);
        let mut left = end;
        'rounds: while left > place {
            left -= 1;
            lasts.add_all(&self.rounds[left].keys, prefix)?;
        }
        lasts.in_order(self.alloc)
    }

    /// The root after these rounds.
    fn root_after(&self, root: &[u8; 32], place: usize, end: usize) -> [u8; 32]
        requires { (place ≤ end) × (end ≤ length self.now.rounds) }
        ensures { result ≡ root_then root.now (take (end - place) (drop place self.now.rounds)) }
    {
        if place == end {
            return *root;
        }
        self.rounds[end - 1].root
    }
}

fn begins(key: &Key, prefix: &Prefix) -> bool
    ensures { result ≡ begins_with prefix.now key.now }
{
    key.text().as_bytes().starts_with(prefix.text().as_bytes())
}

/// Keys that are gone over: each that was met, and each once, in the order in which they were.
#[derive(Drop)]
struct Gathered<'a> {
    seen: BTreeSet<&'a Key>,
    found: Vec<&'a Key>,
}

impl<'a> Gathered<'a> {
    ghost use Rattle.mvd_host.specs.Gathered.{GathersAll, GathersOne, Gathers, MeetsAll, MeetsOne, Met};

    fn new(alloc: Global) -> Gathered<'a>
        ensures last { Gathers result [] }
        ensures met { Met result [] }
    {
        Gathered {
            seen: BTreeSet::new(alloc),
            found: Vec::new(alloc),
        }
    }

    /// The next key.
    fn add(&mut self, key: &'a Key) -> Result<(), AllocError>
        ensures back { OnOk result (GathersOne self.old key.now self.new) }
        ensures forth { OnOk result (MeetsOne self.old key.now self.new) }
    {
        if self.seen.insert(key)? {
            self.found.push(key)?;
        }
        Ok(())
    }

    /// The next key, if it begins with a prefix.
    fn add_if(&mut self, key: &'a Key, prefix: &Prefix) -> Result<(), AllocError>
        ensures back { OnOk result (GathersAll self.old (filter (begins_with prefix.now) (key.now ∷ [])) self.new) }
        ensures forth { OnOk result (MeetsAll self.old (filter (begins_with prefix.now) (key.now ∷ [])) self.new) }
    {
        if !begins(key, prefix) {
            return Ok(());
        }
        self.add(key)
    }

    /// The keys behind those that were met which begin with a prefix.
    fn meet_all(&mut self, keys: &'a [Key], prefix: &Prefix) -> Result<(), AllocError>
        ensures { OnOk result (MeetsAll self.old (filter (begins_with prefix.now) keys.now) self.new) }
    {
        for key in keys {
            self.add_if(key, prefix)?;
        }
        Ok(())
    }

    /// The keys before those that were met which begin with a prefix, from the last one on.
    fn add_all(&mut self, keys: &'a [Key], prefix: &Prefix) -> Result<(), AllocError>
        ensures { OnOk result (GathersAll self.old (filter (begins_with prefix.now) keys.now) self.new) }
    {
        let mut left = keys.len();
        'keys: while left > 0 {
            left -= 1;
            self.add_if(&keys[left], prefix)?;
        }
        Ok(())
    }

    /// All of them, the last one first.
    fn in_order(&self, alloc: Global) -> Result<Vec<Key>, Refusal>
        ensures keys { (keys : List (List ℕ)) → Gathers self.now keys → IfOk result (λ told. told.items ≡ lasts keys) }
        ensures memory { IsOkUnless result Refusal.Memory }
    {
        let mut keys = Vec::with_capacity(alloc, self.found.len())?;
        let mut left = self.found.len();
        'copying: while left > 0 {
            left -= 1;
            keys.push(self.found[left].copy(alloc)?)?;
        }
        Ok(keys)
    }
}
