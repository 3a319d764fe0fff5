//! Many questions at once.
ghost use Rattle.std.specs.Prelude.{◌≡◌, ◌≤◌, vec_capacity, IfOk, IfErr, IfNone, IfSome, IsTrue, ◌↔◌, Err, [], false, true};
ghost use Rattle.mvd_dots.specs.declared.refusals.Refusal.TheVariants.{Broken, Memory};
ghost use Rattle.mvd_peer.specs.Windows.{leaves_open};

use mvd_dots::Refusal;
use std::alloc::Global;

/// Room for so many answers.
pub fn room_for<A>(alloc: Global, count: usize) -> Result<Vec<Result<A, Refusal>>, Refusal>
    ensures none { IfOk result (λ room. room.items ≡ []) }
    ensures room { IfOk result (λ room. count ≤ vec_capacity room) }
    ensures memory { IfErr result (λ refusal. refusal ≡ Memory) }
{
    Ok(Vec::with_capacity(alloc, count)?)
}

/// The refusal that an answer is, if it may leave open whether what was asked was done.
pub fn left_open<A>(answer: &Result<A, Refusal>) -> Option<Refusal>
    ensures some { IfSome result (λ refusal. (answer.now ≡ Err refusal) × (leaves_open refusal ≡ true)) }
    ensures none { IfNone result (IfErr answer.now (λ refusal. leaves_open refusal ≡ false)) }
{
    match answer {
        Err(refusal) if leaves_open(*refusal) => Some(*refusal),
        _ => None,
    }
}

/// Whether a refusal may leave open whether what was asked was done.
fn leaves_open(refusal: Refusal) -> bool
    ensures { result ≡ leaves_open refusal }
{
    matches!(refusal, Refusal::Memory | Refusal::Broken) || refusal.number() >= 30
}

/// Whether an answer tells that the side is broken.
pub fn is_over<A>(answer: &Result<A, Refusal>) -> bool
    ensures { IsTrue result ↔ (answer.now ≡ Err Broken) }
{
    matches!(answer, Err(Refusal::Broken))
}
