//! Lines that are written at once.
ghost use Rattle.std.specs.Prelude.{◌≡◌, IfErr, OnErr, OnOk};
ghost use Rattle.std.specs.Io.KnownBytes.{Appends};
ghost use Rattle.mvd_dots.specs.declared.refusals.Refusal.TheVariants.{WriteFailed};
ghost use Rattle.mvd_input.specs.declared.fault.Fault.TheVariants.{Stopped};
ghost use Rattle.mvd_input.specs.Ends.{EndsEarly};
ghost use Rattle.mvd_wire.specs.Frames.{AppendsFront};

use mvd_dots::Refusal;
use mvd_frames::write_frame;
use mvd_input::Fault;
use std::io::Write;

/// Writes the lines at once. Where the writer fails, a front of them was written.
#[tactic(auto, using(crate::proofs::Fronts::front_all))]
pub fn write_lines<W: Write>(writer: &mut W, lines: &str) -> Result<(), Fault>
    ensures told { OnOk result (Appends (W.contents writer.old) (W.contents writer.new) lines.now) }
    ensures front { OnErr result (AppendsFront (W.contents writer.old) (W.contents writer.new) lines.now) }
    ensures failed { IfErr result (λ fault. fault ≡ Stopped WriteFailed) }
    ensures ends { IfErr result EndsEarly }
{
    match write_frame(writer, lines.as_bytes()) {
        Ok(()) => {}
        Err(refusal) => return Err(Fault::Stopped(refusal)),
    }
    match writer.flush() {
        Ok(()) => Ok(()),
        Err(_) => Err(Fault::Stopped(Refusal::WriteFailed)),
    }
}
