//! How many of the keys are deleted: they are gone over where that is asked, so many at once.
use mvd_dots::Refusal;
use mvd_keys::Key;
use mvd_site::{Prepared, Site};
use mvd_wire::{Prefix, Reply, Request};
use std::alloc::Global;

/// The most pages of keys that are gone over at once, with at most 1,000 keys each.
const PAGES: usize = 32;

/// As often at most that is done until all have been gone over.
const TURNS: usize = 64;

/// How many keys have a sibling, and how many are deleted.
#[derive(Clone, Copy)]
pub(crate) struct Found {
    pub live: u64,
    pub deleted: u64,
}

impl Found {
    fn none() -> Found {
        Found {
            live: 0,
            deleted: 0,
        }
    }

    fn note(&mut self, keys: &[(Key, u32)]) {
        for (_, siblings) in keys {
            if *siblings > 0 {
                self.live = self.live.saturating_add(1);
            } else {
                self.deleted = self.deleted.saturating_add(1);
            }
        }
    }
}

/// What was found when all keys had been gone over last, if they were, and what was found since, up to a key.
#[derive(Drop)]
pub(crate) struct Census {
    pub whole: Option<Found>,
    /// The root of the site of which that was found, where it was at once.
    root: Option<[u8; 32]>,
    part: Found,
    after: Option<Key>,
}

impl Census {
    pub fn new() -> Census {
        Census {
            whole: None,
            root: None,
            part: Found::none(),
            after: None,
        }
    }

    /// Goes over further keys, to the last one at most. Where memory is refused, it begins anew.
    pub fn go_on(&mut self, alloc: Global, site: &Site) {
        for _page in 0..PAGES {
            match self.take_page(alloc, site) {
                Ok(true) => {}
                Ok(false) => return,
                Err(_) => {
                    self.begin();
                    return;
                }
            }
        }
    }

    /// What all keys are: now, where they can be gone over at once, and else when that was done last. At first they are gone
    /// over however many there are.
    pub fn found(&mut self, alloc: Global, site: &Site, root: [u8; 32]) -> Result<Found, Refusal> {
        for _turn in 0..TURNS {
            match self.whole {
                Some(found) if self.root == Some(root) => return Ok(found),
                _ => {}
            }
            let begins = self.after.is_none();
            self.go_on(alloc, site);
            let is_at_once = begins && self.after.is_none() && self.whole.is_some();
            self.root = if is_at_once { Some(root) } else { None };
            if let Some(found) = self.whole {
                return Ok(found);
            }
        }
        Err(Refusal::Memory)
    }

    fn begin(&mut self) {
        self.part = Found::none();
        self.after = None;
    }

    /// Goes over the next page. Whether more follow.
    fn take_page(&mut self, alloc: Global, site: &Site) -> Result<bool, Refusal> {
        let request = Request::Keys(Prefix::read(alloc, "")?, self.after.take());
        let Prepared::Answer(Reply::Counts(keys, more)) = site.prepare(&request)? else {
            return Ok(false);
        };
        let mut keys = keys.into_vec();
        self.part.note(&keys);
        if more && let Some((last, _)) = keys.pop() {
            self.after = Some(last);
            return Ok(true);
        }
        self.whole = Some(self.part);
        self.begin();
        Ok(false)
    }
}
