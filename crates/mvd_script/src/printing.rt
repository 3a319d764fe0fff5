//! What the commands of a script print.
ghost use Rattle.std.specs.Prelude.{◌≡◌, ◌++◌, OnOk, string_bytes};
ghost use Rattle.std.specs.List.{flat_map};
ghost use Rattle.mvd_print.specs.Added.{Extends, Prints};
ghost use Rattle.mvd_script.specs.Outcomes.{key_left_text, more_text, outcome_text, report_text};

use mvd_dots::Refusal;
use mvd_print::{
    print_keys, print_left, print_message, print_more_left, print_none_such, print_short,
};
use mvd_sync::{Left, Report, SyncFault};
use mvd_world::Outcome;
use std::alloc::AllocError;

/// Prints what a message or a session came to. A refusal is not printed but given back.
pub fn print_outcome(outcome: &Outcome, out: &mut String) -> Result<(), Refusal>
    ensures { Prints (outcome_text outcome.now) (string_bytes out.old) (string_bytes out.new) result }
{
    match outcome {
        Outcome::Replied(reply) => print_short(reply, out),
        Outcome::Sent(number) => Ok(print_message(*number, out)?),
        Outcome::Met(report) => Ok(print_report(report, out)?),
        Outcome::Failed(SyncFault::Local(refusal) | SyncFault::Peer(refusal)) => Err(*refusal),
        Outcome::NoSuch => Ok(print_none_such(out)?),
    }
}

/// Prints how many keys a session exchanged, and those that it left.
fn print_report(report: &Report, out: &mut String) -> Result<(), AllocError>
    ensures text { OnOk result (string_bytes out.new ≡ string_bytes out.old ++ report_text report.now) }
    ensures kept { Extends (string_bytes out.old) (string_bytes out.new) }
{
    let named = report.first_refused.as_slice();
    print_keys(report.keys, out)?;
    print_all_left(named, out)?;
    print_more(report.refused, named.len() as u64, out)
}

/// Prints the keys that a session left.
fn print_all_left(named: &[Left], out: &mut String) -> Result<(), AllocError>
    ensures text { OnOk result (string_bytes out.new ≡ string_bytes out.old ++ flat_map key_left_text named.now) }
    ensures kept { Extends (string_bytes out.old) (string_bytes out.new) }
{
    for left in named {
        print_left(left.key.text(), left.refusal, out)?;
    }
    Ok(())
}

/// Prints how many more keys it left than are named, where there are more.
fn print_more(refused: u64, named: u64, out: &mut String) -> Result<(), AllocError>
    ensures text { OnOk result (string_bytes out.new ≡ string_bytes out.old ++ more_text refused named) }
    ensures kept { Extends (string_bytes out.old) (string_bytes out.new) }
{
    if named < refused {
        print_more_left(refused - named, out)?;
    }
    Ok(())
}
