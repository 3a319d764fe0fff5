//! Places as texts: `SITE:COUNTER KEY TERM`.
ghost use Rattle.std.specs.Prelude.{◌≡◌, ◌≤◌, length, IsTrue};
ghost use Rattle.std.specs.Char.{is_ascii_digit};
ghost use Rattle.std.specs.List.{list_all};
ghost use Rattle.std.specs.Str.Parse.{AllDigits, digits_value};
ghost use Rattle.mvd_dots.specs.Answer.{IsAnswer};
ghost use Rattle.mvd_http.specs.Dots.{dot_in as dot_read, dot_of as dot_from, number_in as number_read};
ghost use Rattle.mvd_http.specs.Asked.{if_given, place_in as place_read, place_of_text as place_text, place_asked as place_after};

use crate::target::{before, behind};
use crate::target_parts::{decoded, key_of, term_of};
use mvd_dots::{Dot, Refusal};
use mvd_keys::Place;
use std::alloc::Global;

fn are_digits(text: &[u8]) -> bool
    ensures { result ≡ list_all is_ascii_digit text.now }
{
    text.iter().all(|byte| byte.is_ascii_digit())
}

fn value_of(digits: &[u8]) -> u64
    requires digits { AllDigits 10 digits.now }
    requires short { length digits.now ≤ 15 }
    ensures value { result ≡ digits_value 10 digits.now }
{
    let mut value = 0;
    for digit in digits {
        value = value * 10 + u64::from(*digit - b'0');
    }
    value
}

/// The number of at most 15 decimal digits.
#[tactic(auto, using(crate::proofs::Texts::digits_all))]
pub fn number_in(text: &[u8]) -> Option<u64>
    ensures { result ≡ number_read text.now }
{
    if !are_digits(text) || text.is_empty() || text.len() > 15 {
        return None;
    }
    Some(value_of(text))
}

/// The dot of a site and a counter.
fn dot_of(site: Option<u64>, counter: Option<u64>) -> Result<Dot, Refusal>
    ensures { result ≡ dot_from site counter }
{
    let (Some(site), Some(counter)) = (site, counter) else {
        return Err(Refusal::BadBody);
    };
    if site > u64::from(u32::MAX) {
        return Err(Refusal::BadBody);
    }
    match Dot::new(site as u32, counter) {
        Some(dot) => Ok(dot),
        None => Err(Refusal::BadBody),
    }
}

pub fn dot_in(text: &[u8]) -> Result<Dot, Refusal>
    ensures { result ≡ dot_read text.now }
{
    dot_of(number_in(before(text, b':')), number_in(behind(text, b':')))
}

fn place_with(alloc: Global, dot: Dot, rest: &[u8]) -> Result<Place, Refusal>
    ensures { IsAnswer result (place_after dot rest.now) }
{
    let key = key_of(alloc, before(rest, b' '))?;
    let term = term_of(alloc, behind(rest, b' '))?;
    Ok(Place { term, key, dot })
}

fn place_of(alloc: Global, text: &[u8]) -> Result<Place, Refusal>
    ensures { IsAnswer result (place_text text.now) }
{
    let dot = dot_in(before(text, b' '))?;
    place_with(alloc, dot, behind(text, b' '))
}

fn place_in(alloc: Global, part: &[u8]) -> Result<Place, Refusal>
    ensures { IsAnswer result (place_read part.now) }
{
    let bytes = decoded(alloc, part)?;
    place_of(alloc, bytes.as_slice())
}

pub fn place_if_given(alloc: Global, part: &[u8]) -> Result<Option<Place>, Refusal>
    ensures { IsAnswer result (if_given place_read part.now) }
{
    if part.is_empty() {
        return Ok(None);
    }
    Ok(Some(place_in(alloc, part)?))
}
