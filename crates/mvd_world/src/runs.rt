//! Steps of a world, one after the other.
ghost use Rattle.std.specs.Prelude.{◌≡◌, ◌≤◌, ◌<◌, IfErr, IfOk, length, ⊤};
ghost use Rattle.std.specs.List.{AllByRecursion};
ghost use Rattle.mvd_dots.specs.declared.refusals.Refusal.TheVariants.{Memory};
ghost use Rattle.mvd_world.specs.Machine.{HaveOwnDots, IsNoClash, OnePutPerDot, world_events, setting_of};
ghost use Rattle.mvd_world.specs.Worlds.{AlikeWhereSame, AreShort, LeadTo, StandForKnown};

use crate::steps::{Outcome, Step};
use crate::worlds::World;
use mvd_dots::Refusal;
use mvd_rows::Defs;
use std::alloc::Global;

/// Takes steps in order, beginning with sites that hold no key.
pub fn run_world(
    alloc: Global,
    count: u32,
    max_keys: u32,
    defs: Defs,
    steps: &[Step],
) -> Result<(World, Vec<Outcome>), Refusal>
    requires some { 1 ≤ count }
    requires few { count ≤ 16 }
    requires low { 0 < max_keys }
    requires high { max_keys ≤ 1000000 }

    // The steps with their outcomes are the machine's, and the world stands for the sets that they lead to.
    ensures happened { let s = setting_of count max_keys defs in
        IfOk result (λ done. LeadTo s steps.now done (λ _ _. ⊤)) }
    // No two puts made share a dot.
    ensures one_put { let s = setting_of count max_keys defs in
        IfOk result (λ done. LeadTo s steps.now done (λ _ end. OnePutPerDot end.made)) }
    // Two puts of one key, at different steps, are told different dots.
    ensures dots { IfOk result (λ done. HaveOwnDots (world_events steps.now done.1.items)) }
    // Each site that is not broken stands for what it knows, and that was made.
    ensures stand { let s = setting_of count max_keys defs in
        IfOk result (λ done. LeadTo s steps.now done StandForKnown) }
    // Sites with equal definitions, as all have here, that know the same writes give equal answers to each question.
    ensures alike { let s = setting_of count max_keys defs in
        IfOk result (λ done. LeadTo s steps.now done AlikeWhereSame) }
    // No answer and no session is refused for a clash.
    ensures apart { IfOk result (λ done. AllByRecursion IsNoClash done.1.items) }
    // No message is longer than a state may be.
    ensures short { IfOk result (λ done. AreShort done.0) }
    ensures only { IfErr result (λ refusal. refusal ≡ Memory) }
{
    let mut world = World::new(alloc, count, max_keys, defs)?;
    let mut outcomes = Vec::new(alloc);
    for step in steps {
        let outcome = world.step(step);
        outcomes.push(outcome)?;
    }
    Ok((world, outcomes))
}
