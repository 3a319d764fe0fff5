//! Why a command ends early.
use mvd_dots::Refusal;
use std::alloc::{AllocError, AllocFailed};
use thiserror::Error;

/// Why a command ended before its end.
#[derive(Debug, Clone, Copy, Error)]
pub enum Fault {
    /// It was refused: its reader, its writer, its store or its peer failed, memory was refused, or an input is too
    /// long.
    #[error("fault {0}")]
    Stopped(Refusal),
    /// This line of its input, counted from 1, is not a command.
    #[error("line {0}: not a command")]
    Line(u64),
}

impl From<Refusal> for Fault {
    ghost use Rattle.std.specs.Prelude.{◌≡◌};
    ghost use Rattle.mvd_input.specs.declared.fault.Fault.TheVariants.{Stopped};

    ghost from_gives = { λ refusal fault. fault ≡ Stopped refusal };

    fn from(refusal: Refusal) -> Fault {
        Fault::Stopped(refusal)
    }
}

impl From<AllocError> for Fault {
    ghost use Rattle.std.specs.Prelude.{◌≡◌};
    ghost use Rattle.mvd_dots.specs.declared.refusals.Refusal.TheVariants.{Memory};
    ghost use Rattle.mvd_input.specs.declared.fault.Fault.TheVariants.{Stopped};

    ghost from_gives = { λ _ fault. fault ≡ Stopped Memory };

    fn from(_error: AllocError) -> Fault {
        Fault::Stopped(Refusal::Memory)
    }
}

impl<T: Drop> From<AllocFailed<T>> for Fault {
    ghost use Rattle.std.specs.Prelude.{◌≡◌};
    ghost use Rattle.mvd_dots.specs.declared.refusals.Refusal.TheVariants.{Memory};
    ghost use Rattle.mvd_input.specs.declared.fault.Fault.TheVariants.{Stopped};

    ghost from_gives = { λ _ fault. fault ≡ Stopped Memory };

    fn from(_failed: AllocFailed<T>) -> Fault {
        Fault::Stopped(Refusal::Memory)
    }
}
