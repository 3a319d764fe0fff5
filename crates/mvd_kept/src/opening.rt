//! What a site is opened with.
ghost use Rattle.std.specs.Prelude.{◌≡◌, ◌≤◌, ◌↔◌, List, Ok, false, IfErr, IfOk, IsTrue, length};
ghost use Rattle.std.specs.List.{AllByRecursion};
ghost use Rattle.std.specs.FinMap as map;
ghost use Rattle.std.specs.FinMap.{is_sorted};
ghost use Rattle.mvd_dots.specs.Answer.{IsAnswer};
ghost use Rattle.mvd_dots.specs.declared.refusals.Refusal.TheVariants.{Memory};
ghost use Rattle.mvd_keys.specs.Key.{key_cmp};
ghost use Rattle.mvd_keys.specs.Writes.{Stands, Write};
ghost use Rattle.mvd_tree.specs.States.{key_digest};
ghost use Rattle.mvd_wire.specs.Codecs.{spell_state, state_limit, IsInForm};
ghost use Rattle.mvd_digest.specs.Counted.{Hashes};
ghost use Rattle.mvd_kept.specs.Answer.{spelled};
ghost use Rattle.mvd_kept.specs.Costs.{Costs, OpenCosts, all_bytes};
ghost use Rattle.mvd_kept.specs.Held.{IsHeldState, key_digests};
ghost use Rattle.mvd_kept.specs.Sites.{opened};

use crate::config::Config;
use crate::held::Held;
use crate::kept::Kept;
use crate::listing::rows_of;
use crate::prepared::spelled_key_state;
use crate::work::Work;
use mvd_dots::Refusal;
use mvd_keys::{Key, KeyState};
use mvd_rows::Rows;
use mvd_tree::{Hashed, Tree, key_digest};
use mvd_wire::{STATE_LIMIT, state_length};
use std::alloc::Global;

impl Kept {
    /// What a site with no key keeps.
    pub fn new(alloc: Global, config: Config, work: &mut Work) -> Result<Kept, Refusal>
        ensures made { IsAnswer result (Ok (record { config = config; states = map.empty; broken = false })) }
        ensures costs { Costs 0 0 0 4369 174720 work.old work.new }
    {
        let tree = Tree::new(alloc, &mut work.hashed)?;
        let rows = Rows::new(alloc, config.defs().copy()?)?;
        let kept = Kept {
            alloc,
            config,
            states: Held::new(alloc),
            tree,
            rows,
            broken: false,
        };
        Ok(kept)
    }

    /// What a site keeps that holds just these states, whose keys rise.
    pub fn open(
        alloc: Global,
        config: Config,
        states: Vec<(Key, KeyState)>,
        work: &mut Work,
    ) -> Result<Kept, Refusal>
        requires rising { IsTrue (is_sorted key_cmp states.items) }
        requires held { AllByRecursion (λ entry. IsHeldState entry.1) states.items }
        ensures opened { IsAnswer result (opened config states.items) }
        // There is a set of writes that it stands for.
        ensures stands { IfOk result (λ site. (known : List Write) × Stands site.states known) }
        ensures costs { OpenCosts config states.items work.old work.new }
    {
        if states.len() > config.max_keys() as usize {
            return Err(Refusal::Full);
        }
        let digests = digests_of(alloc, &states, &mut work.hashed)?;
        let tree = Tree::open(alloc, digests, &mut work.hashed)?;
        let rows = rows_of(alloc, config.defs(), &states, &mut work.rows)?;
        let held = Held::of(alloc, states)?;
        let kept = Kept {
            alloc,
            config,
            states: held,
            tree,
            rows,
            broken: false,
        };
        Ok(kept)
    }
}

/// Whether a site may hold the state: it has seen a dot, and is spelled in at most 1,150,000 bytes.
pub fn may_be_held(state: &KeyState) -> bool
    ensures { IsTrue result ↔ IsHeldState state.now }
{
    if state_length(state) > STATE_LIMIT {
        return false;
    }
    !state.context().is_empty()
}

/// The digests of the keys in these states.
pub fn digests_of(
    alloc: Global,
    states: &[(Key, KeyState)],
    hashed: &mut Hashed,
) -> Result<Vec<(Key, [u8; 32])>, Refusal>
    requires { AllByRecursion (λ entry. IsHeldState entry.1) states.now }
    ensures digests { IfOk result (λ digests. digests.items ≡ key_digests states.now) }
    ensures spelled { IfOk result (λ _. AllByRecursion (λ entry. IsInForm entry.1) states.now) }
    ensures only { IfErr result (λ refusal. refusal ≡ Memory) }
    ensures counts { Hashes (length states.now) (all_bytes states.now) hashed.old hashed.new }
{
    let mut digests = Vec::new(alloc);
    for entry in states {
        let digest = digest_of(alloc, &entry.0, &entry.1, hashed)?;
        digests.push((entry.0.copy(alloc)?, digest))?;
    }
    Ok(digests)
}

fn digest_of(
    alloc: Global,
    key: &Key,
    state: &KeyState,
    hashed: &mut Hashed,
) -> Result<[u8; 32], Refusal>
    requires { length (spell_state state.now) ≤ state_limit }
    ensures digest { IfOk result (λ digest. digest ≡ key_digest spelled key.now state.now) }
    ensures spelled { IfOk result (λ _. IsInForm state.now) }
    ensures only { IfErr result (λ refusal. refusal ≡ Memory) }
    ensures counts { Hashes 1 (length (spelled key.now state.now)) hashed.old hashed.new }
{
    let (_, bytes) = spelled_key_state(alloc, key, state)?;
    Ok(key_digest(&bytes, hashed))
}
