//! Key states, and digests.
ghost use Rattle.std.specs.Prelude.{◌≡◌, ◌++◌, OnOk, IsOkUnless, string_bytes};
ghost use Rattle.mvd_keys.specs.State.{pair_of};
ghost use Rattle.mvd_print.specs.Added.{Extends};
ghost use Rattle.mvd_print.specs.Text.{context_text, digest_text, root_text, sibling_text, siblings_text, state_text};

use crate::words::{push_dot, push_word};
use mvd_dots::{Context, Refusal};
use mvd_keys::{KeyState, Sibling};
use std::alloc::{AllocError, Global};

/// The context, and a line for each sibling.
pub fn print_state(state: &KeyState, out: &mut String) -> Result<(), Refusal>
    ensures text { OnOk result (string_bytes out.new ≡ string_bytes out.old ++ state_text state.now) }
    ensures kept { Extends (string_bytes out.old) (string_bytes out.new) }
    ensures memory { IsOkUnless result Refusal.Memory }
{
    print_context(state.context(), out)?;
    Ok(print_siblings(state.siblings(), out)?)
}

fn print_context(context: &Context, out: &mut String) -> Result<(), Refusal>
    ensures text { OnOk result (string_bytes out.new ≡ string_bytes out.old ++ context_text context.now) }
    ensures kept { Extends (string_bytes out.old) (string_bytes out.new) }
    ensures memory { IsOkUnless result Refusal.Memory }
{
    let text = context.print()?;
    push_word(out, "context ")?;
    push_word(out, text.as_str())?;
    Ok(push_word(out, "\n")?)
}

fn print_siblings(siblings: &[Sibling], out: &mut String) -> Result<(), AllocError>
    ensures text { OnOk result (string_bytes out.new ≡ string_bytes out.old ++ siblings_text siblings.now) }
    ensures kept { Extends (string_bytes out.old) (string_bytes out.new) }
{
    for sibling in siblings {
        print_sibling(sibling, out)?;
    }
    Ok(())
}

fn print_sibling(sibling: &Sibling, out: &mut String) -> Result<(), AllocError>
    ensures text { OnOk result (string_bytes out.new ≡ string_bytes out.old ++ sibling_text (pair_of sibling.now)) }
    ensures kept { Extends (string_bytes out.old) (string_bytes out.new) }
{
    push_dot(out, sibling.dot)?;
    push_word(out, " ")?;
    push_word(out, sibling.document.text())?;
    push_word(out, "\n")
}

/// 64 hexadecimal digits.
pub fn print_digest(alloc: Global, digest: [u8; 32], out: &mut String) -> Result<(), AllocError>
    ensures text { OnOk result (string_bytes out.new ≡ string_bytes out.old ++ digest_text digest) }
    ensures kept { Extends (string_bytes out.old) (string_bytes out.new) }
{
    let text = hex::encode(alloc, digest)?;
    push_word(out, text.as_str())?;
    push_word(out, "\n")
}

/// The digest of the root of the hash tree.
pub fn print_root(alloc: Global, digest: [u8; 32], out: &mut String) -> Result<(), AllocError>
    ensures text { OnOk result (string_bytes out.new ≡ string_bytes out.old ++ root_text digest) }
    ensures kept { Extends (string_bytes out.old) (string_bytes out.new) }
{
    let text = hex::encode(alloc, digest)?;
    push_word(out, "root ")?;
    push_word(out, text.as_str())?;
    push_word(out, "\n")
}
