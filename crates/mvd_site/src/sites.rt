//! One site. What each of its calls does is said and counted in `mvd_kept`; here nobody reads the counts.
ghost use Rattle.std.specs.Prelude.{◌≡◌, ◌≢◌, ◌≤◌, ◌+◌, List, vec_capacity, true, false, Some, Err, Ok, length};
ghost use Rattle.std.specs.Prelude.{IfOk, IfErr, OnOk, IsTrue};
ghost use Rattle.std.specs.List.{AllByRecursion};
ghost use Rattle.std.specs.Option.{option_copied};
ghost use Rattle.std.specs.FinMap as map;
ghost use Rattle.mvd_dots.specs.Answer.{IsAnswer};
ghost use Rattle.mvd_dots.specs.declared.refusals.Refusal.TheVariants.{Broken, DotClash, Memory};
ghost use Rattle.mvd_keys.specs.Key.{key_cmp};
ghost use Rattle.mvd_keys.specs.State.{IsValid, clashes};
ghost use Rattle.mvd_keys.specs.Writes.{Write, Stands};
ghost use Rattle.mvd_rows.specs.Siblings.{conflicts_in};
ghost use Rattle.mvd_tree.specs.Page.{is_more_after_page, bucket_page};
ghost use Rattle.mvd_wire.specs.Codecs.{spell_state};
ghost use Rattle.mvd_wire.specs.declared.request.Request.TheVariants.{Push};
ghost use Rattle.mvd_kept.specs.Answer.{digests, node_digests};
ghost use Rattle.mvd_kept.specs.AtOnce.{AnswersRequest};
ghost use Rattle.mvd_kept.specs.FromStates.{AnswersFrom, bucket_refusal, joined_site, push_reply, unless_broken};
ghost use Rattle.mvd_kept.specs.Held.{AreHeld, IsHeldState, States, state_at};
ghost use Rattle.mvd_kept.specs.Installs.{InstallsAll, MayAllBeIn, broken_site, changed_site};
ghost use Rattle.mvd_kept.specs.Known.{KnownEvent, IsValidRequest, Tells};
ghost use Rattle.mvd_kept.specs.Over.{AsksToChange, with_states};
ghost use Rattle.mvd_kept.specs.Prepared.{IsChangeNow, IsFrugal, IsReady, PreparesAt, PreparesFrom};
ghost use Rattle.mvd_kept.specs.Prepared.{PreparesFromStates};
ghost use Rattle.mvd_kept.specs.Sites.{AnswersFromNothing, SiteValue, has_no_room, opened};

use crate::uncounted::no_work;
use mvd_dots::Refusal;
use mvd_kept::{Change, Config, Kept, Prepared, Work};
use mvd_keys::{Key, KeyState, Path};
use mvd_start::Start;
use mvd_wire::{Digests, Reply, Request};
use std::alloc::Global;
use std::marker::Model;

/// The states of the keys that one site holds, and the answers to requests from them.
#[derive(Drop)]
pub struct Site {
    kept: Kept,
}

impl Model for Site {
    ghost use Rattle.mvd_kept.specs.Sites.{SiteValue, site_code};

    ghost Value = { SiteValue };

    ghost coded = { site_code };

    ghost view = { λ s. s.kept };
}

/// Work that nobody reads.
fn begun() -> Work {
    no_work(&Start::new())
}

impl Site {
    /// A site with no key.
    pub fn new(alloc: Global, config: Config) -> Result<Site, Refusal>
        ensures { IsAnswer result (Ok (record { config = config; states = map.empty; broken = false })) }
    {
        let kept = Kept::new(alloc, config, &mut begun())?;
        Ok(Site { kept })
    }

    /// A site that holds just these states, whose keys rise.
    pub fn open(
        alloc: Global,
        config: Config,
        states: Vec<(Key, KeyState)>,
    ) -> Result<Site, Refusal>
        requires rising { IsTrue (map.is_sorted key_cmp states.items) }
        requires held { AllByRecursion (λ entry. IsHeldState entry.1) states.items }
        ensures opened { IsAnswer result (opened config states.items) }
        // There is a set of writes that it stands for.
        ensures stands { IfOk result (λ site. (known : List Write) × Stands site.states known) }
    {
        let kept = Kept::open(alloc, config, states, &mut begun())?;
        Ok(Site { kept })
    }

    /// The allocator that it keeps.
    pub fn alloc(&self) -> Global {
        self.kept.alloc()
    }

    pub fn config(&self) -> &Config
        ensures { result.now ≡ self.now.config }
    {
        self.kept.config()
    }

    /// What is true of every site: it holds no more keys than it may, each is one, and each state has seen a dot and
    /// has a spelling within the limit.
    pub fn stands(&self)
        ensures held { AreHeld self.now.states }
        ensures room { map.len self.now.states ≤ self.now.config.max_keys }
    {
        self.kept.stands();
    }

    /// The number of keys that are held.
    pub fn key_count(&self) -> u32
        ensures count { result ≡ map.len self.now.states }
        ensures room { result ≤ self.now.config.max_keys }
        // Each key that is held is one, and each state has seen a dot and has a spelling within the limit.
        ensures held { AreHeld self.now.states }
    {
        self.kept.key_count()
    }

    /// How many keys are in conflict, 0 where it is broken. It looks at no held state and at no kept row.
    pub fn conflict_count(&self) -> u32
        ensures count { result ≡ unless_broken self.now.broken 0 (length (conflicts_in self.now.states)) }
        ensures room { result ≤ self.now.config.max_keys }
    {
        self.kept.conflict_count()
    }

    /// Whether an install was refused memory: the site then answers `Broken` to everything.
    pub fn is_broken(&self) -> bool
        ensures { result ≡ self.now.broken }
    {
        self.kept.is_broken()
    }

    /// The digests of a node and, above the buckets, of its children. It takes no memory; a broken site refuses it.
    pub fn node(&self, path: &Path) -> Result<Digests, Refusal>
        ensures { result ≡ unless_broken self.now.broken (Err Broken)
            (Ok (node_digests (digests self.now.states) path.now)) }
    {
        self.kept.node(path)
    }

    /// A page of at most 1,000 of a bucket's keys with their digests, those after a key if one is given, and whether
    /// more follow. `BadPath` where the path has not three digits; a broken site refuses it.
    pub fn bucket(
        &self,
        path: &Path,
        after: Option<&Key>,
    ) -> Result<(Vec<(Key, [u8; 32])>, bool), Refusal>
        ensures whole { IfOk result (λ _. self.now.broken ≡ false) }
        ensures path { IfOk result (λ _. length path.now ≡ 3) }
        ensures keys { IfOk result (λ page. page.0.items ≡
            bucket_page (digests self.now.states) path.now (option_copied after.entry)) }
        ensures more { IfOk result (λ page. page.1 ≡
            is_more_after_page (digests self.now.states) path.now (option_copied after.entry)) }
        ensures refused { IfErr result (λ refusal. refusal ≡ bucket_refusal self.now.broken path.now) }
    {
        self.kept.bucket(path, after)
    }

    /// What a request comes to. Nothing is changed yet, and several changes may be prepared side by side.
    pub fn prepare(&self, request: &Request) -> Result<Prepared, Refusal>
        ensures answer { PreparesAt self.now request.now result }
        ensures states { PreparesFromStates self.now request.now result }
        ensures ready { IfOk result (IsReady self.now) }
        ensures valid { IfOk result (λ _. IsValidRequest request.now) }
        ensures broken { self.now.broken ≡ true → result ≡ Err Broken }
        ensures whole { IfErr result (λ refusal. refusal ≡ Broken → self.now.broken ≡ true) }
        // A question of a node or of a row, Hello, Bye, and a push of what is held already take no memory.
        ensures frugal { IsFrugal self.now.states request.now → IfErr result (λ refusal. refusal ≢ Memory) }
    {
        self.kept.prepare(request, &mut begun())
    }

    /// What a request to change the key of a change comes to once that is put in, whatever else is. Nothing is changed
    /// yet.
    pub fn prepare_after(&self, before: &Change, request: &Request) -> Result<Prepared, Refusal>
        requires { AsksToChange before.now.key request.now }
        ensures states { (states : States) → map.get states before.now.key ≡ Some before.now.state →
            PreparesFrom self.now.config states request.now result }
        ensures ready { (states : States) → map.get states before.now.key ≡ Some before.now.state →
            IfOk result (IsReady (with_states self.now states)) }
        ensures valid { IfOk result (λ _. IsValidRequest request.now) }
        ensures whole { IfErr result (λ refusal. refusal ≢ Broken) }
    {
        self.kept.prepare_after(before, request)
    }

    /// The state of a key, empty where the key is not held. A broken site refuses it.
    pub fn get(&self, key: &Key) -> Result<KeyState, Refusal>
        ensures whole { IfOk result (λ _. self.now.broken ≡ false) }
        ensures state { IfOk result (λ state. state ≡ state_at self.now.states key.now) }
        ensures refused { IfErr result (λ refusal. refusal ≡ unless_broken self.now.broken Broken Memory) }
    {
        self.kept.get(key, &mut begun())
    }

    /// How many bytes spell the state of a key, the empty one where it is not held.
    pub fn state_bytes(&self, key: &Key) -> u64
        ensures { result ≡ length (spell_state (state_at self.now.states key.now)) }
    {
        self.kept.state_bytes(key, &mut begun())
    }

    /// Puts in the change of one key, and changes no other. Where memory is refused the site is broken from then on.
    /// The key's state is to be still the one that the change was prepared from: what came between would be undone.
    pub fn install(&mut self, change: Change) -> Result<(), Refusal>
        requires room { has_no_room self.old.config self.old.states change.key ≡ false }
        requires held { IsHeldState change.state }
        // The key's state is still the one that the change was prepared from.
        requires fresh { IsChangeNow self.old change }
        ensures ok { OnOk result ((self.old.broken ≡ false) × (self.new ≡ changed_site self.old change)) }
        ensures err { IfErr result (λ refusal. (refusal ≡ Broken) × (self.new ≡ broken_site self.old)) }
    {
        self.kept.install(change, &mut begun())
    }

    /// Puts in what was prepared of requests side by side, one after the other, and adds the reply of each. The hash
    /// tree is made anew once for all of them. Where memory is refused the site is broken from that change on.
    pub fn install_all(&mut self, group: Vec<Prepared>, replies: &mut Vec<Reply>)
        requires space { length replies.old.items + length group.items ≤ vec_capacity replies.old }
        requires fresh { self.old.broken ≡ false → MayAllBeIn self.old group.items }
        ensures puts { InstallsAll self.old self.new group.items replies.old.items replies.new.items }
        ensures space { vec_capacity replies.new ≡ vec_capacity replies.old }
    {
        self.kept.install_all(group, replies, &mut begun())
    }

    /// Answers one request. A refusal other than `Broken` leaves the site as it was.
    pub fn answer(&mut self, request: &Request) -> Reply
        ensures { AnswersRequest self.old self.new request.now result }
    {
        self.kept.answer(request, &mut begun())
    }

    /// Joins a state to that of a key, as a request to push it does, without a request: done; or the first refusal that
    /// applies, after which the site is as it was, unless it is broken.
    pub fn push(&mut self, key: &Key, pushed: &KeyState) -> Result<(), Refusal>
        ensures answer { AnswersFrom self.old self.new (Push key.now pushed.now) (push_reply result) }
        ensures joined { OnOk result (self.new ≡ joined_site self.old key.now pushed.now) }
        ensures agreed { OnOk result (clashes (state_at self.old.states key.now) pushed.now ≡ false) }
        ensures clash { IfErr result (λ refusal. refusal ≡ DotClash →
            clashes (state_at self.old.states key.now) pushed.now ≡ true) }
        ensures unchanged { IfErr result (λ refusal. refusal ≢ Broken → self.new ≡ self.old) }
        // Whether it is broken, and for good.
        ensures told { IfErr result (λ refusal. refusal ≡ Broken → self.new ≡ broken_site self.old) }
        ensures stays { self.old.broken ≡ true → result ≡ Err Broken }
        // A state that was joined is that of some set of writes.
        ensures valid { OnOk result (IsValid pushed.now) }
    {
        self.kept.push(key, pushed, &mut begun())
    }

    /// Answers requests in order, beginning with no key.
    pub fn run(
        alloc: Global,
        config: &Config,
        requests: &[Request],
    ) -> Result<(Site, Vec<Reply>), Refusal>
        ensures answers { IfOk result (λ done. AnswersFromNothing config.now done.0 requests.now done.1.items) }
        // There is such a choice.
        ensures choice { IfOk result (λ done. (events : List KnownEvent) × Tells events requests.now done.1.items) }
        ensures count { IfOk result (λ done. length done.1.items ≡ length requests.now) }
        ensures config { IfOk result (λ done. done.0.config ≡ config.now) }
        ensures only { IfErr result (λ refusal. refusal ≡ Memory) }
    {
        let mut site = Site::new(alloc, config.copy()?)?;
        let mut replies = Vec::new(alloc);
        for request in requests {
            let reply = site.answer(request);
            replies.push(reply)?;
        }
        Ok((site, replies))
    }
}
