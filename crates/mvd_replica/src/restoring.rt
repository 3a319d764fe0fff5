//! What a replica is opened with: the states that its records spell.
ghost use Rattle.std.specs.Prelude.{◌≡◌, ◌≢◌, IfErr, IfOk, OnOk};
ghost use Rattle.std.specs.List.{AllByRecursion};
ghost use Rattle.mvd_wire.specs.Codecs.{layout1, layout2, spell_state};
ghost use Rattle.mvd_records.specs.Pairs.{pair_entries};
ghost use Rattle.mvd_site.specs.Held.{IsHeldState};
ghost use Rattle.mvd_replica.specs.Restored.{DamagedIn, HasWrites, IfDamaged, IsFresh, IsUnloaded, IsUnmoved, IsUnreadRecord};
ghost use Rattle.mvd_replica.specs.Restored.{RestoresSite, WereSound};
ghost use Rattle.mvd_replica.specs.Restored.{LeavesOpen, LoadsFull, LoadsOnly, LoadsOrder, LoadsStates};
ghost use Rattle.mvd_replica.specs.Restored.{MovesAlike, MovesAll, MovesStates, MovesVersion};
ghost use Rattle.mvd_replica.specs.Readable.{SpellsHeldState, Respells, spelled_entries};

use mvd_dots::Refusal;
use mvd_keys::{Key, KeyState};
use mvd_records::Records;
use mvd_site::{Config, Site, may_be_held};
use mvd_wire::{decode_old_state, decode_state, encode_state};
use sqlite::Alter;
use std::alloc::Global;

/// Why a stored state is not read: memory was refused, or it is damaged.
fn unread(refusal: Refusal) -> Refusal
    ensures either { IsUnreadRecord result }
    ensures damaged { result ≡ Refusal.Damaged → refusal ≢ Refusal.Memory }
{
    match refusal {
        Refusal::Memory => Refusal::Memory,
        _ => Refusal::Damaged,
    }
}

/// The state that a stored spelling has. 17 where it has none, or no site holds it.
fn state_of(alloc: Global, bytes: &[u8]) -> Result<KeyState, Refusal>
    ensures held { IfOk result IsHeldState }
    ensures spelled { IfOk result (λ s. spell_state s ≡ bytes.now) }
    ensures stored { OnOk result (SpellsHeldState layout2 bytes.now) }
    ensures damaged { IfDamaged result (¬ SpellsHeldState layout2 bytes.now) }
    ensures refusal { IfErr result IsUnreadRecord }
{
    match decode_state(alloc, bytes) {
        Ok(state) => {
            if may_be_held(&state) {
                return Ok(state);
            }
            Err(Refusal::Damaged)
        }
        Err(refusal) => Err(unread(refusal)),
    }
}

/// The keys with the states that are stored, one row after the other.
fn states_of(alloc: Global, pairs: Vec<(Key, Vec<u8>)>) -> Result<Vec<(Key, KeyState)>, Refusal>
    ensures spelled { IfOk result (λ states. spelled_entries states.items ≡ pair_entries pairs.items) }
    ensures held { IfOk result (λ states. AllByRecursion (λ entry. IsHeldState entry.1) states.items) }
    ensures stored { OnOk result
        (AllByRecursion (λ entry. SpellsHeldState layout2 entry.1) (pair_entries pairs.items)) }
    ensures damaged { DamagedIn result (pair_entries pairs.items) }
    ensures refusal { IfErr result IsUnreadRecord }
{
    let mut states = Vec::new(alloc);
    for (key, bytes) in pairs {
        let state = match state_of(alloc, &bytes) {
            Ok(state) => state,
            Err(refusal) => return Err(refusal),
        };
        states.push((key, state))?;
    }
    Ok(states)
}

/// The site that records of version 2 hold. 17 comes only where they are not in order, and 10 only where they hold
/// too many keys.
fn load<S: Alter>(alloc: Global, records: &mut Records<S>, config: Config) -> Result<Site, Refusal>
    requires { records.old.version ≡ 2 }
    ensures config { IfOk result (IsFresh config) }
    ensures stands { IfOk result HasWrites }
    ensures before { WereSound S.Store records.old records.new }
    ensures stays_open { LeavesOpen S.Store result records.new }
    ensures unchanged { LoadsOnly S.Store records.old records.new }
    ensures spelled { LoadsStates S.Store records.old result records.new }
    ensures full { LoadsFull S.Store config records.old result records.new }
    ensures order { LoadsOrder S.Store records.old result records.new }
    ensures refusal { IfErr result IsUnloaded }
    ensures version { records.new.version ≡ records.old.version }
{
    let pairs = match records.load_all() {
        Ok(pairs) => pairs,
        Err(refusal) => return Err(refusal),
    };
    let states = match states_of(alloc, pairs) {
        Ok(states) => states,
        Err(refusal) => return Err(refusal),
    };
    Site::open(alloc, config, states)
}

/// The spelling in version 2 of a state that version 1 spells so.
fn respelled(alloc: Global, bytes: &[u8]) -> Result<Vec<u8>, Refusal>
    ensures spelled { IfOk result (λ spelled. Respells bytes.now spelled.items) }
    ensures damaged { IfDamaged result (¬ SpellsHeldState layout1 bytes.now) }
    ensures refusal { IfErr result IsUnreadRecord }
{
    let state = match decode_old_state(alloc, bytes) {
        Ok(state) => state,
        Err(refusal) => return Err(unread(refusal)),
    };
    if !may_be_held(&state) {
        return Err(Refusal::Damaged);
    }
    match encode_state(alloc, &state) {
        Ok(spelled) => Ok(spelled),
        Err(refusal) => Err(unread(refusal)),
    }
}

/// Moves the keys of version 1, one after the other. After a refusal those moved stay moved, and the next call goes on.
fn migrate<S: Alter>(alloc: Global, records: &mut Records<S>) -> Result<(), Refusal>
    ensures before { WereSound S.Store records.old records.new }
    ensures moved { MovesVersion S.Store records.old result records.new }
    ensures states { MovesStates S.Store records.old records.new }
    ensures order { MovesAll S.Store records.old result records.new }
    ensures alike { MovesAlike S.Store records.old result records.new }
    ensures refusal { IfErr result IsUnmoved }
    ensures version { IfOk result (λ _. records.new.version ≡ 2) }
{
    let pairs = match records.load_old() {
        Ok(pairs) => pairs,
        Err(refusal) => return Err(refusal),
    };
    for (key, bytes) in pairs {
        let spelled = match respelled(alloc, &bytes) {
            Ok(spelled) => spelled,
            Err(refusal) => return Err(refusal),
        };
        match records.move_key(&key, &spelled) {
            Ok(()) => {}
            Err(refusal) => return Err(refusal),
        }
    }
    records.finish()
}

/// The site that the records hold, whose old keys are moved first.
pub fn site_in<S: Alter>(
    alloc: Global,
    records: &mut Records<S>,
    config: Config,
) -> Result<Site, Refusal>
    ensures { RestoresSite S.Store config records.old result records.new }
{
    if records.version() == 2 {
        return load(alloc, records, config);
    }
    match migrate(alloc, records) {
        Ok(()) => load(alloc, records, config),
        Err(refusal) => Err(refusal),
    }
}
