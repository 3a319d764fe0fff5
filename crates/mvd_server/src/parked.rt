//! The clients that wait for a change.
ghost use Rattle.std.specs.Prelude.{◌≡◌, length};

use crate::timers::Timers;
use std::alloc::Global;
use std::collections::BTreeMap;

/// The clients that wait for a change, each with the time at which it is told in any case, in milliseconds. All of them
/// know the same root.
#[derive(Drop)]
pub(crate) struct Parked {
    root: Option<[u8; 32]>,
    times: BTreeMap<u64, u64>,
    timers: Timers,
}

impl Parked {
    pub fn new(alloc: Global) -> Parked {
        Parked {
            root: None,
            times: BTreeMap::new(alloc),
            timers: Timers::new(alloc),
        }
    }

    pub fn len(&self) -> usize
        ensures { result ≡ length self.now.times.entries }
    {
        self.times.len()
    }

    pub fn has(&self, client: u64) -> bool {
        self.times.contains_key(&client)
    }

    /// The root that they know.
    pub fn root(&self) -> Option<[u8; 32]> {
        self.root
    }

    /// Takes in a client that knows this root. It is `false` where memory was refused, or the others know another root.
    pub fn add(&mut self, client: u64, root: [u8; 32], due: u64) -> bool {
        if self.times.is_empty() {
            self.root = Some(root);
        }
        if self.root != Some(root) || self.times.insert(client, due).is_err() {
            return false;
        }
        if self.timers.set(due, client) {
            return true;
        }
        self.times.remove(&client);
        false
    }

    pub fn remove(&mut self, client: u64) {
        if let Some(due) = self.times.remove(&client) {
            self.timers.remove(due, client);
        }
    }

    /// The first of them from this number on.
    pub fn first_from(&self, number: u64) -> Option<u64> {
        match self.times.range(number..).next() {
            Some((client, _)) => Some(*client),
            None => None,
        }
    }

    /// Those that still wait know this root now.
    pub fn follow(&mut self, root: Option<[u8; 32]>) {
        self.root = root;
    }

    /// A client is told as soon as may be. Where memory is refused, it is told when its time has come.
    pub fn hurry(&mut self, client: u64) {
        if let Some(due) = self.times.get_mut(&client)
            && *due > 0
            && self.timers.set(0, client)
        {
            self.timers.remove(*due, client);
            *due = 0;
        }
    }

    /// When the first of them is told in any case.
    pub fn next_due(&self) -> Option<u64> {
        self.timers.next_due()
    }

    /// Takes out the first whose time has come.
    pub fn take_due(&mut self, now: u64) -> Option<u64> {
        let client = self.timers.take_due(now)?;
        self.times.remove(&client);
        Some(client)
    }
}
