//! The questions of a window, each of which is a step of a world.
ghost use Rattle.std.specs.Prelude.{◌≡◌, ◌∷◌, ◌+◌, [], ℕ, IfErr, IfOk, List, Result, Some, Vec};
ghost use Rattle.std.specs.declared.alloc.Global.{Global};
ghost use Rattle.mvd_dots.specs.declared.refusals.Refusal.{Refusal};
ghost use Rattle.mvd_dots.specs.declared.refusals.Refusal.TheVariants.{Memory};
ghost use Rattle.mvd_keys.specs.State.{State};
ghost use Rattle.mvd_keys.specs.Writes.{Key};
ghost use Rattle.mvd_peer.specs.PushedStates.{Each};
ghost use Rattle.mvd_peer.specs.Asking.{asked};
ghost use Rattle.mvd_peer.specs.declared.window.Told.{Told};
ghost use Rattle.mvd_peer.specs.declared.window.Told.TheVariants.{Nodes, Pages, Pushes, States};
ghost use Rattle.mvd_wire.specs.declared.request.Request.TheVariants.{Bucket, Node};
ghost use Rattle.mvd_world.specs.declared.steps.Step.TheVariants.{Ask, Receive, Send};
ghost use Rattle.mvd_world.specs.Machine.{Knowledge, Setting};
ghost use Rattle.mvd_world.specs.OpenWorlds.{AllAreTold, AsksForNode, AsksForPage, AsksForState, AsksOneSite, AsksToTake};
ghost use Rattle.mvd_world.specs.OpenWorlds.{AsksWindow, IsOneStep, LeadsWhere, PushSent, WasSent, node_in, page_in};
ghost use Rattle.mvd_world.specs.OpenWorlds.{page_of_told, push_in, refusal_in};
ghost use Rattle.mvd_world.specs.Worlds.{state_of_message};

use crate::steps::{Outcome, Step};
use crate::worlds::World;
use mvd_dots::Refusal;
use mvd_keys::{Key, KeyState, Path};
use mvd_peer::{Page, Told, Window, room_for};
use mvd_wire::{Digests, Reply, Request};
use std::alloc::Global;

/// Why an outcome is no answer.
fn refusal_in(outcome: Outcome) -> Refusal
    ensures { result ≡ refusal_in outcome }
{
    match outcome {
        Outcome::Replied(Reply::Refused(refusal)) => refusal,
        other => {
            drop(other);
            Refusal::BadBody
        }
    }
}

fn node_in(outcome: Outcome) -> Result<Digests, Refusal>
    ensures { result ≡ node_in outcome }
{
    match outcome {
        Outcome::Replied(Reply::Digests(digests)) => Ok(digests),
        other => Err(refusal_in(other)),
    }
}

fn page_in(outcome: Outcome) -> Result<Page, Refusal>
    ensures { page_of_told result ≡ page_in outcome }
{
    match outcome {
        Outcome::Replied(Reply::Keys(keys, is_more)) => Ok((keys.into_vec(), is_more)),
        other => Err(refusal_in(other)),
    }
}

fn push_in(outcome: Outcome) -> Result<(), Refusal>
    ensures { result ≡ push_in outcome }
{
    match outcome {
        Outcome::Replied(Reply::Done) => Ok(()),
        other => Err(refusal_in(other)),
    }
}

/// A copy of the state that is a message.
fn copy_sent(alloc: Global, world: &World, number: u64) -> Result<KeyState, Refusal>
    ensures copied { IfOk result (λ state. state_of_message world.now number ≡ Some state) }
    ensures memory { IfErr result (λ refusal. refusal ≡ Memory) }
{
    match world.sent(number) {
        Some(state) => state.copy(alloc),
        None => Err(Refusal::Memory),
    }
}

/// A question that a session asks of a site of a world.
trait Question: Sized + Drop {
    type Answer: Drop;

    /// The states that it pushes.
    ghost pushes: { Self → List (Key × State) };

    /// What it comes to where a site is asked it.
    ghost asks: { Setting → ℕ → Knowledge → Self → Result Self.Answer Refusal → Knowledge → Type 0 };

    /// All that is told of such questions.
    ghost as_told: { Vec (Result Self.Answer Refusal) Global → Told };

    /// Asks a site. What it pushes was sent.
    fn ask(self, alloc: Global, world: &mut World, site: u32) -> Result<Self::Answer, Refusal>
        ensures { LeadsWhere world.old world.new (λ before. Each (WasSent before.messages) (pushes self))
            (λ setting before after. asks setting site before self result after) };

    /// All that is told of such questions.
    fn told(answers: Vec<Result<Self::Answer, Refusal>>) -> Told
        ensures { result ≡ as_told answers };

    /// It is one step of the world.
    ghost is_step: { (setting : Setting) (site : ℕ) → IsOneStep setting (asks setting site) };
}

/// A node is asked for.
impl Question for Path {
    type Answer = Digests;

    ghost pushes = { λ _. [] };

    ghost asks = { AsksForNode };

    ghost as_told = { λ answers. Nodes answers };

    ghost is_step = { λ _ site _ path _ _ so. (Ask site (Node path), so.0, so.1, tt) };

    fn ask(self, _alloc: Global, world: &mut World, site: u32) -> Result<Digests, Refusal> {
        let request = Request::Node(self);
        node_in(world.step(&Step::Ask { site, request }))
    }

    fn told(answers: Vec<Result<Digests, Refusal>>) -> Told
        ensures { result ≡ Nodes answers }
    {
        Told::Nodes(answers)
    }
}

/// A page is asked for.
impl Question for (Path, Option<Key>) {
    type Answer = Page;

    ghost pushes = { λ _. [] };

    ghost asks = { AsksForPage };

    ghost as_told = { λ answers. Pages answers };

    ghost is_step = { λ _ site _ page _ _ so. (Ask site (Bucket page.0 page.1), so.0, so.1, tt) };

    fn ask(self, _alloc: Global, world: &mut World, site: u32) -> Result<Page, Refusal> {
        let (path, after) = self;
        let request = Request::Bucket(path, after);
        page_in(world.step(&Step::Ask { site, request }))
    }

    fn told(answers: Vec<Result<Page, Refusal>>) -> Told
        ensures { result ≡ Pages answers }
    {
        Told::Pages(answers)
    }
}

/// The state of a key is sent, and told.
impl Question for Key {
    type Answer = KeyState;

    ghost pushes = { λ _. [] };

    ghost asks = { AsksForState };

    ghost as_told = { λ answers. States answers };

    ghost is_step = { λ _ site _ key _ _ so. (Send site key, so.0, so.1, tt) };

    fn ask(self, alloc: Global, world: &mut World, site: u32) -> Result<KeyState, Refusal> {
        let outcome = world.step(&Step::Send { site, key: self });
        match outcome {
            Outcome::Sent(number) => copy_sent(alloc, world, number),
            other => Err(refusal_in(other)),
        }
    }

    fn told(answers: Vec<Result<KeyState, Refusal>>) -> Told
        ensures { result ≡ States answers }
    {
        Told::States(answers)
    }
}

/// A state that was sent is received.
impl Question for (Key, KeyState) {
    type Answer = ();

    ghost pushes = { λ pair. pair ∷ [] };

    ghost asks = { AsksToTake };

    ghost as_told = { λ answers. Pushes answers };

    ghost is_step = { λ _ site _ _ _ _ so. (Receive site (so.0 + 1), so.1, so.3, tt) };

    fn ask(self, _alloc: Global, world: &mut World, site: u32) -> Result<(), Refusal> {
        push_in(world.take(site, &self.0, &self.1))
    }

    fn told(answers: Vec<Result<(), Refusal>>) -> Told
        ensures { result ≡ Pushes answers }
    {
        Told::Pushes(answers)
    }
}

/// What a site tells of questions, each of which it is asked. If memory is refused, it is asked none.
fn tell<Q: Question>(alloc: Global, world: &mut World, site: u32, questions: Vec<Q>) -> Told
    ensures { LeadsWhere world.old world.new (PushSent Q.pushes questions.items) (λ setting before after.
        AllAreTold Q.as_told (Q.asks setting site) before questions.items result after) }
{
    let mut answers = match room_for(alloc, questions.len()) {
        Ok(room) => room,
        Err(refusal) => return Told::Refused(refusal),
    };
    for question in questions {
        answers.push_reserved(question.ask(alloc, world, site));
    }
    Q::told(answers)
}

/// What a site tells of a window.
fn ask_window(alloc: Global, world: &mut World, site: u32, window: Window) -> Told
    ensures { LeadsWhere world.old world.new (λ before. Each (WasSent before.messages) (asked (Some window)).pushes)
        (λ setting before after. AsksWindow setting site before window result after) }
{
    match window {
        Window::Nodes(paths) => tell(alloc, world, site, paths),
        Window::Pages(pages) => tell(alloc, world, site, pages),
        Window::Gets(keys) => tell(alloc, world, site, keys),
        Window::Pushes(pairs) => tell(alloc, world, site, pairs),
    }
}

/// What a site tells of a window, if it is asked one.
pub fn ask_site(alloc: Global, world: &mut World, site: u32, window: Option<Window>) -> Option<Told>
    ensures { LeadsWhere world.old world.new (λ before. Each (WasSent before.messages) (asked window).pushes)
        (λ setting before after. AsksOneSite setting site before window result after) }
{
    match window {
        None => None,
        Some(wanted) => Some(ask_window(alloc, world, site, wanted)),
    }
}
