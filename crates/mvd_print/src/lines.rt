//! Lines of a few words.
ghost use Rattle.std.specs.Prelude.{◌≡◌, ◌++◌, OnOk, string_bytes};
ghost use Rattle.mvd_print.specs.Added.{Extends};
ghost use Rattle.mvd_print.specs.Text.{done_text, keys_text, left_text, message_text, more_left_text, none_such_text};
ghost use Rattle.mvd_print.specs.Text.{refused_at_text, refused_text, two_words, written_text};

use crate::fault_place::FaultPlace;
use crate::words::{push_dot, push_number, push_word};
use mvd_dots::{Dot, Refusal};
use std::alloc::AllocError;

/// That a site or a message is not there.
pub fn print_none_such(out: &mut String) -> Result<(), AllocError>
    ensures text { OnOk result (string_bytes out.new ≡ string_bytes out.old ++ none_such_text) }
    ensures kept { Extends (string_bytes out.old) (string_bytes out.new) }
{
    push_word(out, "none such\n")
}

/// The number and the name of a refusal.
fn push_refusal(out: &mut String, refusal: Refusal) -> Result<(), AllocError>
    ensures text { OnOk result (string_bytes out.new ≡ string_bytes out.old ++ two_words refusal) }
    ensures kept { Extends (string_bytes out.old) (string_bytes out.new) }
{
    push_number(out, u64::from(refusal.number()))?;
    push_word(out, " ")?;
    push_word(out, refusal.name())
}

pub fn print_refusal(refusal: Refusal, out: &mut String) -> Result<(), AllocError>
    ensures text { OnOk result (string_bytes out.new ≡ string_bytes out.old ++ refused_text refusal) }
    ensures kept { Extends (string_bytes out.old) (string_bytes out.new) }
{
    push_word(out, "refused ")?;
    push_refusal(out, refusal)?;
    push_word(out, "\n")
}

/// The number and the name of a refusal, and where the document is wrong.
pub fn print_refusal_at(
    refusal: Refusal,
    place: &FaultPlace,
    out: &mut String,
) -> Result<(), AllocError>
    ensures text { OnOk result (string_bytes out.new ≡ string_bytes out.old ++ refused_at_text refusal place.now) }
    ensures kept { Extends (string_bytes out.old) (string_bytes out.new) }
{
    push_word(out, "refused ")?;
    push_refusal(out, refusal)?;
    push_word(out, " at ")?;
    push_word(out, place.text())?;
    push_word(out, "\n")?;
    Ok(())
}

/// The number of a message that was sent.
pub fn print_message(number: u64, out: &mut String) -> Result<(), AllocError>
    ensures text { OnOk result (string_bytes out.new ≡ string_bytes out.old ++ message_text number) }
    ensures kept { Extends (string_bytes out.old) (string_bytes out.new) }
{
    push_word(out, "message ")?;
    push_number(out, number)?;
    push_word(out, "\n")
}

/// How many keys a session exchanged.
pub fn print_keys(count: u64, out: &mut String) -> Result<(), AllocError>
    ensures text { OnOk result (string_bytes out.new ≡ string_bytes out.old ++ keys_text count) }
    ensures kept { Extends (string_bytes out.old) (string_bytes out.new) }
{
    push_word(out, "keys ")?;
    push_number(out, count)?;
    push_word(out, "\n")
}

/// A key that a session left, and how it was refused.
pub fn print_left(key: &str, refusal: Refusal, out: &mut String) -> Result<(), AllocError>
    ensures text { OnOk result (string_bytes out.new ≡ string_bytes out.old ++ left_text key.now refusal) }
    ensures kept { Extends (string_bytes out.old) (string_bytes out.new) }
{
    push_word(out, "left ")?;
    push_word(out, key)?;
    push_word(out, " ")?;
    push_refusal(out, refusal)?;
    push_word(out, "\n")
}

/// How many keys more a session left.
pub fn print_more_left(count: u64, out: &mut String) -> Result<(), AllocError>
    ensures text { OnOk result (string_bytes out.new ≡ string_bytes out.old ++ more_left_text count) }
    ensures kept { Extends (string_bytes out.old) (string_bytes out.new) }
{
    push_word(out, "left ")?;
    push_number(out, count)?;
    push_word(out, "\n")
}

/// That a put was taken, and its dot.
pub fn print_written(dot: Dot, out: &mut String) -> Result<(), AllocError>
    ensures text { OnOk result (string_bytes out.new ≡ string_bytes out.old ++ written_text dot) }
    ensures kept { Extends (string_bytes out.old) (string_bytes out.new) }
{
    push_word(out, "dot ")?;
    push_dot(out, dot)?;
    push_word(out, "\n")
}

pub fn print_done(out: &mut String) -> Result<(), AllocError>
    ensures text { OnOk result (string_bytes out.new ≡ string_bytes out.old ++ done_text) }
    ensures kept { Extends (string_bytes out.old) (string_bytes out.new) }
{
    push_word(out, "ok\n")
}
