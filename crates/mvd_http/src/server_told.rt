//! What is told of the site as a whole: its root, and what changed.
ghost use Rattle.std.specs.Prelude.{◌≡◌, ◌++◌, OnOk, IsOkUnless, string_bytes};
ghost use Rattle.mvd_http.specs.Json.{changes_text, root_json, totals_json, truth_text};

use crate::count_lists::push_key_list;
use crate::json_words::{push_digest, push_number, push_word};
use mvd_dots::Refusal;
use mvd_keys::Key;
use std::alloc::{AllocError, Global};

/// How many keys a site has: those held, those with a sibling, and those with more than one.
#[derive(Clone, Copy)]
pub struct Totals {
    pub keys: u64,
    pub live: u64,
    pub conflicts: u64,
}

/// The root of the hash tree, with the numbers of keys, and the site, behind what `out` holds.
pub fn push_root(
    alloc: Global,
    out: &mut String,
    digest: [u8; 32],
    totals: Totals,
    site: u32,
) -> Result<(), Refusal>
    ensures text { OnOk result (string_bytes out.new ≡ string_bytes out.old ++ root_json digest totals site) }
    ensures memory { IsOkUnless result Refusal.Memory }
{
    push_word(out, "{\"root\":")?;
    push_digest(alloc, out, digest)?;
    push_totals(out, totals)?;
    push_word(out, ",\"site\":")?;
    push_number(out, u64::from(site))?;
    push_word(out, "}")?;
    Ok(())
}

fn push_totals(out: &mut String, totals: Totals) -> Result<(), AllocError>
    ensures { OnOk result (string_bytes out.new ≡ string_bytes out.old ++ totals_json totals) }
{
    push_word(out, ",\"keys\":")?;
    push_number(out, totals.keys)?;
    push_word(out, ",\"live\":")?;
    push_number(out, totals.live)?;
    push_word(out, ",\"conflicts\":")?;
    push_number(out, totals.conflicts)
}

/// The root now, with the keys that changed, or that all is to be read anew, behind what `out` holds.
pub fn push_changes(
    alloc: Global,
    out: &mut String,
    root: [u8; 32],
    keys: &[Key],
    resync: bool,
) -> Result<(), Refusal>
    ensures text { OnOk result (string_bytes out.new ≡ string_bytes out.old ++ changes_text root keys.now resync) }
    ensures memory { IsOkUnless result Refusal.Memory }
{
    push_word(out, "{\"root\":")?;
    push_digest(alloc, out, root)?;
    push_word(out, ",\"keys\":[")?;
    push_key_list(alloc, out, keys)?;
    push_word(out, "],\"resync\":")?;
    push_truth(out, resync)?;
    push_word(out, "}")?;
    Ok(())
}

fn push_truth(out: &mut String, truth: bool) -> Result<(), AllocError>
    ensures { OnOk result (string_bytes out.new ≡ string_bytes out.old ++ truth_text truth) }
{
    push_word(out, if truth { "true" } else { "false" })
}
