//! Where the changes of a group stand that wait to be put in, by key, so that a request is held against none of the
//! others.
ghost use Rattle.std.specs.Prelude.{◌≡◌, ◌<◌, ◌+◌, List, IfErr, OnOk, false, is_some, true};
ghost use Rattle.std.specs.List.{AllByRecursion};
ghost use Rattle.std.specs.FinMap as map;
ghost use Rattle.mvd_dots.specs.declared.refusals.Refusal.TheVariants.{Memory};
ghost use Rattle.mvd_kept.specs.declared.prepared.Prepared.{Prepared};
ghost use Rattle.mvd_replica.specs.Adding.{key_to_change};
ghost use Rattle.mvd_site.specs.Installs.{changes_in};
ghost use Rattle.mvd_replica.specs.Behind.{AreLast, IsFree, noted_key, noted_of, sees_all_keys};
ghost use Rattle.mvd_replica.specs.Groups.{IsApart, SeesAny};

use crate::adding::key_asked;
use mvd_dots::Refusal;
use mvd_keys::Key;
use mvd_site::Prepared;
use mvd_wire::Request;
use std::alloc::Global;
use std::collections::BTreeMap;
use std::marker::Model;

/// Of each key that a group changes, the place of its last change. The keys are those of the requests.
#[derive(Drop)]
pub struct Waiting<'a> {
    places: BTreeMap<&'a Key, usize>,
}

impl<'a> Model for Waiting<'a> {
    ghost use Rattle.std.specs.Coded.{coded_ℕ, coded_list};
    ghost use Rattle.std.specs.FinMap.{code};
    ghost use Rattle.mvd_replica.specs.Behind.{Places, places_of};

    ghost Value = { Places };

    ghost coded = { code (coded_list coded_ℕ) coded_ℕ };

    ghost view = { λ w. places_of w.places.entries };
}

impl<'a> Waiting<'a> {
    pub fn new(alloc: Global) -> Waiting<'a>
        ensures { result ≡ map.empty }
    {
        Waiting {
            places: BTreeMap::new(alloc),
        }
    }

    /// The place of the last change of a key.
    pub fn place(&self, key: &'a Key) -> Option<usize>
        ensures { result ≡ map.get self.now key.now }
    {
        match self.places.get(&key) {
            Some(at) => Some(*at),
            None => None,
        }
    }

    /// Whether a change of a key waits.
    fn has(&self, key: &'a Key) -> bool
        ensures { result ≡ is_some (map.get self.now key.now) }
    {
        self.place(key).is_some()
    }

    /// Notes what a request at this place of so many came to, if it is a change; what none follows needs no note.
    pub fn note(
        &mut self,
        request: &'a Request,
        prepared: &Prepared,
        at: usize,
        count: usize,
    ) -> Result<(), Refusal>
        requires { at < count }
        ensures noted { OnOk result (at + 1 < count → self.new ≡ noted_of self.old at request.now prepared.now) }
        ensures memory { IfErr result (λ refusal. refusal ≡ Memory) }
    {
        if at + 1 >= count {
            return Ok(());
        }
        match prepared {
            Prepared::Change(_) => self.note_key(request, at),
            Prepared::Answer(_) => Ok(()),
        }
    }

    /// Notes that a change of the key which a request asks to change stands at this place.
    fn note_key(&mut self, request: &'a Request, at: usize) -> Result<(), Refusal>
        ensures noted { OnOk result (self.new ≡ noted_key self.old at (key_to_change request.now)) }
        ensures memory { IfErr result (λ refusal. refusal ≡ Memory) }
    {
        if let Some(key) = key_asked(request) {
            self.places.insert(key, at)?;
        }
        Ok(())
    }
}

/// Whether the answer to a request can depend on the state of every key.
fn sees_all(request: &Request) -> bool
    ensures { result ≡ sees_all_keys request.now }
{
    match request {
        Request::Get(_) | Request::Put(..) | Request::Delete(..) | Request::Push(..) => false,
        Request::Hello(_) | Request::Bye => false,
        _ => true,
    }
}

/// Whether a request that asks to change none of their keys can depend on one of the changes that wait, of which there
/// are so many.
pub fn asks_any<'a>(request: &'a Request, waiting: &Waiting<'a>, changes: u32) -> bool
    ensures apart { result ≡ false → (group : List Prepared) → AreLast group waiting.now →
        changes ≡ changes_in group → IsFree waiting.now request.now → AllByRecursion (IsApart request.now) group }
    ensures sees { result ≡ true → (group : List Prepared) → AreLast group waiting.now →
        changes ≡ changes_in group → SeesAny request.now group }
{
    if changes == 0 {
        return false;
    }
    match request {
        Request::Get(key) => waiting.has(key),
        _ => sees_all(request),
    }
}
