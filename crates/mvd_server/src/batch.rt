//! Many writes of one request: what they ask, which is asked at hand all at once, and a line for each, as the replies come.
ghost use Rattle.std.specs.Prelude.{◌≡◌, ◌<◌, ◌≤◌, ◌++◌, IfErr, IfOk, None, OnErr, OnOk, Some, ℕ, false, length, true};
ghost use Rattle.std.specs.Prelude.{[], option_copied, string_bytes};
ghost use Rattle.std.specs.List.{slice_get};
ghost use Rattle.mvd_host.specs.AtHand.{AtHandValue};
ghost use Rattle.mvd_server.specs.Batches.{BeginsBatch, HandsBatch, asked_if, refused_if};
ghost use Rattle.mvd_server.specs.Errands.{TakesIf};
ghost use Rattle.mvd_server.specs.Lines.{FailsLine, IsAtReply, IsOnlyTold, PassesRefused, TellsEachLine};

use crate::copying::copy_request;
use mvd_conn::Right;
use mvd_dots::Refusal;
use mvd_host::AtHand;
use mvd_http::{LINE_ROOM, push_line};
use mvd_wire::{Reply, Request};
use std::alloc::Global;

/// The writes of one request, and what is told of them. All memory that it takes is taken before the first of them is
/// asked.
#[derive(Drop)]
pub(crate) struct Batch {
    /// What is to be asked, until it is.
    requests: Vec<Request>,
    /// For each write why it is refused at once, if it is.
    refused: Vec<Option<Refusal>>,
    /// The lines of so many of them.
    told: usize,
    lines: String,
}

impl Batch {
    /// Each write that a right allows, or why it is refused at once.
    pub fn new(
        alloc: Global,
        right: Right,
        writes: &[Result<Request, Refusal>],
    ) -> Result<Batch, Refusal>
        ensures begins { IfOk result (BeginsBatch right writes.now) }
        ensures memory { IfErr result (λ refusal. refusal ≡ Refusal.Memory) }
    {
        let mut requests = Vec::new(alloc);
        let mut refused = Vec::with_capacity(alloc, writes.len())?;
        for write in writes {
            refused.push(add_request(alloc, &right, write, &mut requests)?)?;
        }
        let lines = String::with_capacity(alloc, writes.len().saturating_mul(LINE_ROOM))?;
        Ok(Batch {
            requests,
            refused,
            told: 0,
            lines,
        })
    }

    /// Asks all of them, once. Where there is no memory for that, none is asked yet.
    pub fn hand_on(&mut self, hand: &mut AtHand, number: u64)
        ensures { HandsBatch number self.old hand.old self.new hand.new }
    {
        let _ = hand.ask_all(number, &mut self.requests);
    }

    /// Puts down the line of a reply, if there is one, and those of the writes beside it that were refused at once.
    /// Whether all lines are there.
    #[tactic(auto, using(crate::proofs::Lining::waits_for_reply))]
    pub fn tell(&mut self, reply: Option<&Reply>) -> Result<bool, Refusal>
        // The line of each write is of the reply to it. Nothing else of the writes changes.
        ensures lines { (n : ℕ) (hand hand' : AtHandValue) → TakesIf n (option_copied reply.entry) hand hand' →
            OnOk result (TellsEachLine n self.old hand self.new hand') }
        ensures same { IsOnlyTold self.old self.new }
        // All lines are there where each write has one.
        ensures all { IfOk result (λ all. all ≡ true → length self.new.refused.items ≤ self.new.told) }
        // Until then the next line is of a reply that is to come.
        ensures some { IfOk result (λ all. all ≡ false →
            slice_get self.new.refused.items self.new.told ≡ Some None) }
        // Where a line cannot be put down, all are gone: with a reply less there is no response any more.
        ensures gone { OnErr result ((self.new.told ≡ 0) × (string_bytes self.new.lines ≡ [])) }
        ensures fails { IfErr result (FailsLine (option_copied reply.entry) self.old) }
    {
        match self.tell_lines(reply) {
            Ok(()) => Ok(self.told >= self.refused.len()),
            Err(refusal) => {
                self.told = 0;
                self.lines.clear();
                Err(refusal)
            }
        }
    }

    /// Puts down the line of a reply, if there is one, and those of the writes beside it that were refused at once.
    fn tell_lines(&mut self, reply: Option<&Reply>) -> Result<(), Refusal>
        ensures lines { (n : ℕ) (hand hand' : AtHandValue) → TakesIf n (option_copied reply.entry) hand hand' →
            OnOk result (TellsEachLine n self.old hand self.new hand') }
        ensures next { OnOk result (IsAtReply self.new) }
        ensures same { IsOnlyTold self.old self.new }
        ensures fails { IfErr result (FailsLine (option_copied reply.entry) self.old) }
    {
        self.tell_refused()?;
        self.tell_next(reply)?;
        Ok(())
    }

    /// Puts down the line of a reply, if there is one, and those of the writes behind it that were refused at once.
    fn tell_next(&mut self, reply: Option<&Reply>) -> Result<(), Refusal>
        ensures lines { (n : ℕ) (hand hand' : AtHandValue) → TakesIf n (option_copied reply.entry) hand hand' →
            OnOk result (TellsEachLine n self.old hand self.new hand') }
        ensures next { IsAtReply self.old → OnOk result (IsAtReply self.new) }
        ensures same { IsOnlyTold self.old self.new }
        ensures fails { IsAtReply self.old → IfErr result (FailsLine (option_copied reply.entry) self.old) }
    {
        match reply {
            Some(reply) => {
                self.tell_one(reply)?;
                self.tell_refused()
            }
            None => Ok(()),
        }
    }

    /// Puts down the lines of the next writes that were refused at once.
    fn tell_refused(&mut self) -> Result<(), Refusal>
        ensures lines { (n : ℕ) (hand : AtHandValue) → OnOk result (TellsEachLine n self.old hand self.new hand) }
        ensures next { OnOk result (IsAtReply self.new) }
        ensures same { IsOnlyTold self.old self.new }
        ensures passes { PassesRefused self.old self.new }
        ensures memory { IfErr result (λ refusal. refusal ≡ Refusal.Memory) }
    {
        for _left in self.told..self.refused.len() {
            match self.refused.get(self.told) {
                Some(Some(refusal)) => push_line(&mut self.lines, &Reply::Refused(*refusal))?,
                Some(None) | None => return Ok(()),
            }
            self.told = self.told.saturating_add(1);
        }
        Ok(())
    }

    /// Puts down the line of the next write, which is of this reply. There is a write that was not refused at once.
    fn tell_one(&mut self, reply: &Reply) -> Result<(), Refusal>
        ensures lines { (n : ℕ) (hand hand' : AtHandValue) → TakesIf n (Some reply.now) hand hand' →
            OnOk result (TellsEachLine n self.old hand self.new hand') }
        ensures same { IsOnlyTold self.old self.new }
        ensures fails { IsAtReply self.old → IfErr result (FailsLine (Some reply.now) self.old) }
    {
        match self.refused.get(self.told) {
            Some(None) => {}
            _ => return Err(Refusal::BadKind),
        }
        push_line(&mut self.lines, reply)?;
        self.told = self.told.saturating_add(1);
        Ok(())
    }

    pub fn lines(&self) -> &str
        ensures { result.now ≡ string_bytes self.now.lines }
    {
        self.lines.as_str()
    }
}

/// Puts what a write asks behind the others. It gives why it asks nothing.
fn add_request(
    alloc: Global,
    right: &Right,
    write: &Result<Request, Refusal>,
    requests: &mut Vec<Request>,
) -> Result<Option<Refusal>, Refusal>
    ensures refused { IfOk result (λ refused. refused ≡ refused_if right.now write.now) }
    ensures asked { OnOk result (requests.new.items ≡ requests.old.items ++ asked_if right.now write.now) }
    ensures memory { IfErr result (λ refusal. refusal ≡ Refusal.Memory) }
{
    let request = match write {
        Ok(request) => request,
        Err(refusal) => return Ok(Some(*refusal)),
    };
    if !right.allows(request) {
        return Ok(Some(Refusal::NotAdmitted));
    }
    match copy_request(alloc, request) {
        Ok(copy) => {
            requests.push(copy)?;
            Ok(None)
        }
        Err(Refusal::Memory) => Err(Refusal::Memory),
        Err(refusal) => Ok(Some(refusal)),
    }
}
