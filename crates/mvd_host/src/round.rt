//! One round: the frames that are held are answered together.
ghost use Rattle.std.specs.Prelude.{◌≡◌, ℕ, [], List, Err, IfErr, Ok, cond};
ghost use Rattle.mvd_replica.specs.Replicas.{site_of};
ghost use Rattle.mvd_replica.specs.Turns.{Turn};
ghost use Rattle.mvd_host.specs.Lists.{ListsOn};

use crate::at_hand::{AtHand, Told};
use crate::feed::Feed;
use crate::host::Host;
use crate::queueing::{queue_faults, queue_refused, queue_replies};
use crate::taking::Taken;
use crate::tally::Tally;
use mvd_dots::Refusal;
use mvd_replica::Replica;
use sqlite::Alter;

impl Host {
    ghost use Rattle.mvd_host.specs.Round.{GoesForward, Round, host_side};

    /// Takes what waits at hand, and at most 1,024 frames of each ready client, but nothing that changes a state of
    /// more than a little once such states have 4,194,304 bytes, nor what its client asked behind that. Of frames one
    /// such is taken in any case. Answers them together, queues each reply on its own client's connection or leaves it
    /// at hand, counts what was done and refused, and notes in the feed which keys may have changed. Gives whether
    /// there may be more to do at once: after `false` nothing waits at hand and no frame can be taken of a ready client
    /// now, and after `true` something was taken. It is refused where memory was for a frame, or for what waits at
    /// hand; what else was taken is answered.
    pub fn round<S: Alter>(
        &mut self,
        replica: &mut Replica<S>,
        ready: &[u64],
        at_hand: &mut AtHand,
        tally: &mut Tally,
        feed: &mut Feed,
    ) -> Result<bool, Refusal>
        requires { at_hand.old.left ≡ [] }
        ensures round { (turns : List (ℕ × Turn)) × Round ready.now turns
            (host_side self.old at_hand.old replica.old) (host_side self.new at_hand.new replica.new) ×
            GoesForward result ready.now turns (site_of replica.old).states self.new at_hand.new }
        ensures memory { IfErr result (λ refusal. refusal ≡ Refusal.Memory) }
        ensures lists { ListsOn feed.old (site_of replica.old).states feed.new (site_of replica.new).states }
    {
        let site = replica.site();
        let front = at_hand.begin(site);
        let (is_shut, weighed) = (front.is_shut, front.weighed);
        let mut taken = Taken::of(self.alloc, front.clients, front.requests);
        let refused = taken.take_all(self.alloc, site, weighed, &mut self.clients, ready);
        if taken.is_none() {
            return told(refused | is_shut, false);
        }
        let Taken {
            clients,
            requests,
            faults,
            ..
        } = taken;
        replica.stands();
        match feed.answer(replica, requests, tally) {
            Ok(replies) => {
                queue_replies(&mut self.clients, &clients, &replies);
                at_hand.keep(clients, Told::Each(replies));
            }
            Err(refusal) => {
                queue_refused(&mut self.clients, &clients, refusal);
                at_hand.keep(clients, Told::All(refusal));
            }
        }
        queue_faults(&mut self.clients, &faults);
        told(refused | is_shut, true)
    }
}

/// What a round gives: whether there may be more to do at once, or that memory was refused for a frame.
fn told(refused: bool, more: bool) -> Result<bool, Refusal>
    ensures is { result ≡ cond refused (Err Refusal.Memory) (Ok more) }
    ensures memory { IfErr result (λ refusal. refusal ≡ Refusal.Memory) }
{
    if refused {
        return Err(Refusal::Memory);
    }
    Ok(more)
}
