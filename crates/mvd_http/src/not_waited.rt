//! What is told to a reader of changes that does not wait.
ghost use Rattle.std.specs.Prelude.{◌≡◌, ◌++◌, OnOk, IsOkUnless, string_bytes};
ghost use Rattle.mvd_http.specs.Json.{not_waited_text};

use crate::json_words::{push_digest, push_word};
use mvd_dots::Refusal;
use std::alloc::Global;

/// The root that it knows, with no key, and that it did not wait, behind what `out` holds.
pub fn push_not_waited(alloc: Global, out: &mut String, root: [u8; 32]) -> Result<(), Refusal>
    ensures text { OnOk result (string_bytes out.new ≡ string_bytes out.old ++ not_waited_text root) }
    ensures memory { IsOkUnless result Refusal.Memory }
{
    push_word(out, "{\"root\":")?;
    push_digest(alloc, out, root)?;
    push_word(out, ",\"keys\":[],\"resync\":false,\"wait\":0}")?;
    Ok(())
}
