//! The parts of a target.
ghost use Rattle.std.specs.Prelude.{◌≡◌, ◌≤◌, length, option_copied};
ghost use Rattle.mvd_http.specs.Paths.{text_before as front_of, text_behind as rest_of, given as value_of, position_of};
ghost use Rattle.mvd_http.specs.Paths.{without as left_behind, without_end as left_before};

/// How many bytes stand before the first one that is this.
fn place_of(text: &[u8], byte: u8) -> usize
    ensures value { result ≡ position_of byte text.now }
    ensures within { result ≤ length text.now }
{
    text.iter().take_while(|b| **b != byte).count()
}

/// What stands before the first such byte, or the whole text.
#[tactic(auto, unfolding(crate::specs::Paths::text_before))]
pub fn before(text: &[u8], byte: u8) -> &[u8]
    ensures { result.now ≡ front_of byte text.now }
{
    &text[..place_of(text, byte)]
}

/// What stands behind the first such byte, or nothing.
#[tactic(auto, unfolding(crate::specs::Paths::text_behind))]
pub fn behind(text: &[u8], byte: u8) -> &[u8]
    ensures { result.now ≡ rest_of byte text.now }
{
    let place = place_of(text, byte);
    if place == text.len() {
        return &[];
    }
    &text[place + 1..]
}

/// What is left behind this front.
#[tactic(auto, unfolding(crate::specs::Paths::without))]
pub fn without<'a>(text: &'a [u8], front: &[u8]) -> Option<&'a [u8]>
    ensures { option_copied result ≡ left_behind front.now text.now }
{
    text.strip_prefix(front)
}

/// What is left before this end.
#[tactic(auto, unfolding(crate::specs::Paths::without_end))]
pub fn without_end<'a>(text: &'a [u8], end: &[u8]) -> Option<&'a [u8]>
    ensures { option_copied result ≡ left_before end.now text.now }
{
    text.strip_suffix(end)
}

/// The value of the first option of this name, which has its `=`, or nothing.
pub fn given<'a>(query: &'a [u8], name: &[u8]) -> &'a [u8]
    ensures { result.now ≡ value_of name.now query.now }
{
    for option in query.split(|byte| *byte == b'&') {
        if let Some(value) = without(option, name) {
            return value;
        }
    }
    &[]
}
