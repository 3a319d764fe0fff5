//! How many keys are exchanged at once. What a state weighs is known when it was told, so the next window is as small
//! as the states of the last one were heavy.
ghost use Rattle.std.specs.Prelude.{◌≡◌, ◌≤◌, max};
ghost use Rattle.mvd_sync.specs.Weights.{next_most, weight};

use mvd_keys::KeyState;
use mvd_wire::state_length;

/// The most keys that are exchanged at once.
pub const WINDOW: usize = 1_000;

/// How many are exchanged at first, when nothing is known of their states.
pub const FIRST: usize = 16;

/// How many times as many are exchanged next at most.
const GROWTH: usize = 8;

/// How many bytes of states a window is to bring.
const WINDOW_BYTES: u64 = 1_048_576;

/// How many bytes these states have.
fn weight(states: &[KeyState]) -> u64
    ensures { result ≡ weight states.now }
{
    let mut bytes = 0u64;
    for state in states {
        bytes = bytes.saturating_add(state_length(state));
    }
    bytes
}

/// How many keys are exchanged at once after so many, by the heavier of what the two sides told, and no more than a
/// limit.
pub fn next_most(limit: usize, keys: usize, mine: &[KeyState], theirs: &[KeyState]) -> usize
    requires limit { limit ≤ 1000 }
    requires keys { keys ≤ 1000 }
    ensures next { result ≡ next_most limit keys (max (weight mine.now) (weight theirs.now)) }
    ensures some { 1 ≤ result }
    ensures few { result ≤ 1000 }
{
    let bytes = weight(mine).max(weight(theirs));
    let each = bytes / (keys as u64).max(1);
    let light = WINDOW_BYTES / each.max(1);
    let grown = limit.min(GROWTH * keys);
    (light.min(grown as u64) as usize).max(1)
}
