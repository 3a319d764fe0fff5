//! Words, put behind what was printed. Numbers take no memory but that of the text which grows.
ghost use Rattle.std.specs.Prelude.{◌≡◌, ◌++◌, OnOk, IsOkUnless, string_bytes};
ghost use Rattle.std.specs.Fmt.{decimal, signed_decimal};
ghost use Rattle.mvd_print.specs.Added.{Extends};
ghost use Rattle.mvd_print.specs.Text.{dot_text, term_text};

use itoa::Buffer;
use mvd_docs::Term;
use mvd_dots::{Dot, Refusal};
use std::alloc::{AllocError, Global};

pub fn push_word(out: &mut String, word: &str) -> Result<(), AllocError>
    ensures text { OnOk result (string_bytes out.new ≡ string_bytes out.old ++ word.now) }
    ensures kept { Extends (string_bytes out.old) (string_bytes out.new) }
{
    out.push_str(word)
}

pub fn push_number(out: &mut String, number: u64) -> Result<(), AllocError>
    ensures text { OnOk result (string_bytes out.new ≡ string_bytes out.old ++ decimal number) }
    ensures kept { Extends (string_bytes out.old) (string_bytes out.new) }
{
    let mut buffer = Buffer::new();
    push_word(out, buffer.format(number))
}

pub fn push_signed(out: &mut String, number: i128) -> Result<(), AllocError>
    ensures text { OnOk result (string_bytes out.new ≡ string_bytes out.old ++ signed_decimal number) }
    ensures kept { Extends (string_bytes out.old) (string_bytes out.new) }
{
    let mut buffer = Buffer::new();
    push_word(out, buffer.format(number))
}

pub fn push_whole(out: &mut String, number: i64) -> Result<(), AllocError>
    ensures text { OnOk result (string_bytes out.new ≡ string_bytes out.old ++ signed_decimal number) }
    ensures kept { Extends (string_bytes out.old) (string_bytes out.new) }
{
    let mut buffer = Buffer::new();
    push_word(out, buffer.format(number))
}

/// The site, a `:`, and the counter.
pub fn push_dot(out: &mut String, dot: Dot) -> Result<(), AllocError>
    ensures text { OnOk result (string_bytes out.new ≡ string_bytes out.old ++ dot_text dot) }
    ensures kept { Extends (string_bytes out.old) (string_bytes out.new) }
{
    push_number(out, u64::from(dot.site()))?;
    push_word(out, ":")?;
    push_number(out, dot.counter())
}

/// The term as compact JSON.
pub fn push_term(alloc: Global, out: &mut String, term: &Term) -> Result<(), Refusal>
    ensures text { OnOk result (string_bytes out.new ≡ string_bytes out.old ++ term_text term.now) }
    ensures kept { Extends (string_bytes out.old) (string_bytes out.new) }
    ensures memory { IsOkUnless result Refusal.Memory }
{
    let text = term.print(alloc)?;
    Ok(push_word(out, text.as_str())?)
}
