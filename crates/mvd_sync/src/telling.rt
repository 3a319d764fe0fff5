//! What a side told of a window, as a session reads it.
ghost use Rattle.std.specs.Prelude.{◌≡◌};
ghost use Rattle.mvd_sync.specs.Questions.{TakesBudget};
ghost use Rattle.mvd_sync.specs.Tellings.{IsNoNode, IsNoPage, IsNodeOf, IsListingOf, IsRead, IsStateOf, as_list, never};
ghost use Rattle.mvd_sync.specs.Tellings.{nodes_told, pages_told, pushes_told, states_told, unasked_told};

use crate::asking::{Node, are_all, take};
use crate::cursor::Listing;
use crate::made::{Made, made_all};
use mvd_dots::Refusal;
use mvd_keys::KeyState;
use mvd_peer::{Page, Told};
use mvd_wire::Digests;
use std::alloc::Global;

/// How many questions of a window were asked of a side, and how many were wanted.
#[derive(Clone, Copy)]
pub struct Share {
    pub asked: usize,
    pub wanted: usize,
}

/// The shares of both sides.
#[derive(Clone, Copy)]
pub struct Shares {
    pub local: Share,
    pub peer: Share,
}

/// What both sides told.
#[derive(Drop)]
pub struct Answers {
    pub mine: Option<Told>,
    pub theirs: Option<Told>,
}

/// The share of a side in a window, of the questions that are left for it.
pub fn spend(left: &mut u64, wanted: usize) -> Share
    ensures takes { TakesBudget left.old left.new wanted result.asked }
    ensures wanted { result.wanted ≡ wanted }
{
    Share {
        asked: take(left, wanted),
        wanted,
    }
}

/// That a side told nothing that was not asked: answers are 33, and a refusal is its own.
pub fn told_nothing(told: Option<Told>) -> Result<(), Refusal>
    ensures { result ≡ unasked_told told }
{
    match told {
        None => Ok(()),
        Some(Told::Refused(refusal)) => Err(refusal),
        Some(_) => Err(Refusal::BadBody),
    }
}

/// What is made of all answers of a window. Too few of them or too many are 33.
fn read<A: Drop, B: Made<A>>(
    alloc: Global,
    told: Result<Vec<Result<A, Refusal>>, Refusal>,
    share: Share,
) -> Result<Vec<B>, Refusal>
    ensures { IsRead B.is_of B.is_none (as_list told) share result }
{
    let answers = match told {
        Ok(answers) => answers,
        Err(refusal) => return Err(refusal),
    };
    if answers.len() != share.asked {
        return Err(Refusal::BadBody);
    }
    let read = match made_all(alloc, answers) {
        Ok(read) => read,
        Err(refusal) => return Err(refusal),
    };
    match are_all(share.asked, share.wanted) {
        Ok(()) => Ok(read),
        Err(refusal) => Err(refusal),
    }
}

/// The answers about nodes. Those of another kind are 33.
fn nodes_in(alloc: Global, told: Option<Told>) -> Result<Vec<Result<Digests, Refusal>>, Refusal>
    ensures { as_list result ≡ nodes_told told }
{
    match told {
        None => Ok(Vec::new(alloc)),
        Some(Told::Nodes(answers)) => Ok(answers),
        Some(Told::Refused(refusal)) => Err(refusal),
        Some(_) => Err(Refusal::BadBody),
    }
}

/// The answers about pages.
fn pages_in(alloc: Global, told: Option<Told>) -> Result<Vec<Result<Page, Refusal>>, Refusal>
    ensures { as_list result ≡ pages_told told }
{
    match told {
        None => Ok(Vec::new(alloc)),
        Some(Told::Pages(answers)) => Ok(answers),
        Some(Told::Refused(refusal)) => Err(refusal),
        Some(_) => Err(Refusal::BadBody),
    }
}

/// The answers about states.
fn states_in(alloc: Global, told: Option<Told>) -> Result<Vec<Result<KeyState, Refusal>>, Refusal>
    ensures { as_list result ≡ states_told told }
{
    match told {
        None => Ok(Vec::new(alloc)),
        Some(Told::States(answers)) => Ok(answers),
        Some(Told::Refused(refusal)) => Err(refusal),
        Some(_) => Err(Refusal::BadBody),
    }
}

/// The answers to pushes.
pub fn pushes_in(alloc: Global, told: Option<Told>) -> Result<Vec<Result<(), Refusal>>, Refusal>
    ensures { as_list result ≡ pushes_told told }
{
    match told {
        None => Ok(Vec::new(alloc)),
        Some(Told::Pushes(answers)) => Ok(answers),
        Some(Told::Refused(refusal)) => Err(refusal),
        Some(_) => Err(Refusal::BadBody),
    }
}

/// The nodes that a side told.
pub fn read_nodes(alloc: Global, told: Option<Told>, share: Share) -> Result<Vec<Node>, Refusal>
    ensures { IsRead IsNodeOf IsNoNode (nodes_told told) share result }
{
    read(alloc, nodes_in(alloc, told), share)
}

/// The pages that a side told.
pub fn read_pages(alloc: Global, told: Option<Told>, share: Share) -> Result<Vec<Listing>, Refusal>
    ensures { IsRead IsListingOf IsNoPage (pages_told told) share result }
{
    read(alloc, pages_in(alloc, told), share)
}

/// The states that a side told.
pub fn read_states(
    alloc: Global,
    told: Option<Told>,
    share: Share,
) -> Result<Vec<KeyState>, Refusal>
    ensures { IsRead IsStateOf never (states_told told) share result }
{
    read(alloc, states_in(alloc, told), share)
}
