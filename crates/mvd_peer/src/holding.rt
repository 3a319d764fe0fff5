//! The states of many keys, of which a side holds only so many bytes at once.
ghost use Rattle.mvd_peer.specs.Windows.{HoldsState};

use mvd_dots::Refusal;
use mvd_keys::KeyState;
use mvd_wire::state_length;

/// How many bytes of states are held at once, but for the last of them.
const HELD_BYTES: u64 = 1_048_576;

/// A state is held, if those before it are fewer bytes than are held at once; else its get is refused with 20.
pub fn hold(bytes: &mut u64, answer: Result<KeyState, Refusal>) -> Result<KeyState, Refusal>
    ensures { HoldsState bytes.old bytes.new answer result }
{
    match answer {
        Ok(state) => {
            if *bytes >= HELD_BYTES {
                return Err(Refusal::Memory);
            }
            *bytes = bytes.saturating_add(state_length(&state));
            Ok(state)
        }
        Err(refusal) => Err(refusal),
    }
}
