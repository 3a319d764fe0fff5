//! The members of a JSON object.
ghost use Rattle.std.specs.Prelude.{◌≡◌, option_copied, option_map};
ghost use Rattle.serde_json.specs.Find.{as_object};
ghost use Rattle.serde_json.specs.View.{view};
ghost use Rattle.mvd_http.specs.Members.{member_count_of as count_told, text_if as text_told};

use serde_json::Value;

/// How many members it has, if it is an object.
#[tactic(auto, using(crate::proofs::Counting::counted))]
pub fn count_of(value: &Value) -> usize
    ensures { result ≡ count_told (as_object (view value.now)) }
{
    match value.as_object() {
        Some(object) => object.len(),
        None => 0,
    }
}

/// A member that is a text, where there is such a member.
pub fn text_if<'a>(member: Option<&'a Value>) -> Option<Option<&'a str>>
    ensures { option_map option_copied result ≡ text_told (option_map (λ v. view v.now) member.entry) }
{
    match member {
        None => Some(None),
        Some(value) => match value.as_str() {
            Some(text) => Some(Some(text)),
            None => None,
        },
    }
}
