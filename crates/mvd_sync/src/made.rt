//! What a session makes of the answers of a side.
ghost use Rattle.std.specs.Prelude.{◌≡◌, IfOk, IfErr};
ghost use Rattle.mvd_sync.specs.Made.{EndsMaking, PassesFault};
ghost use Rattle.mvd_peer.specs.Windows.{ForEach};

use mvd_dots::Refusal;
use mvd_keys::KeyState;
use std::alloc::Global;

/// What is made of an answer, unless no faithful side gives it, which is 33.
pub trait Made<A>: Sized + Drop {
    /// Whether that is made of the answer.
    ghost is_of: { A → Self → Type 0 };

    /// Whether nothing is.
    ghost is_none: { A → Type 0 };

    fn made(answer: A) -> Result<Self, Refusal>
        ensures made { IfOk result (is_of answer) }
        ensures none { IfErr result (λ refusal. (refusal ≡ Refusal.BadBody) × is_none answer) };
}

/// A state is taken as it is.
impl Made<KeyState> for KeyState {
    ghost is_of = { λ told state. state ≡ told };

    ghost is_none = { λ _. ⊥ };

    fn made(answer: KeyState) -> Result<Self, Refusal> {
        Ok(answer)
    }
}

/// What is made of all answers; the first of them that is a refusal, or of which nothing is made, ends it.
pub fn made_all<A: Drop, B: Made<A>>(
    alloc: Global,
    told: Vec<Result<A, Refusal>>,
) -> Result<Vec<B>, Refusal>
    ensures made { IfOk result (λ all. ForEach (PassesFault B.is_of) told.items all.items) }
    ensures ended { IfErr result (EndsMaking B.is_none told.items) }
{
    let mut all = Vec::with_capacity(alloc, told.len())?;
    for answer in told {
        all.push(B::made(answer?)?)?;
    }
    Ok(all)
}
