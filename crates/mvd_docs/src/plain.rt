//! The texts that are plainly a document's own: a walk over the bytes, which makes no value. Another text may be a
//! document's own too, as one with an escape in a name, and is read to tell.
ghost use Rattle.std.specs.Prelude.{◌≡◌, ◌≤◌, ◌<◌, ◌^◌, ◌++◌, ◌∷◌, ℕ, List, [], Ok, length, take, slice_index};
ghost use Rattle.std.specs.Prelude.{false, IfNone, IfSome, IsTrue};
ghost use Rattle.std.specs.Fmt.{decimal};
ghost use Rattle.std.specs.Str.Parse.{AllDigits};
ghost use Rattle.json.specs.Print.{escape, escape_byte, quoted};
ghost use Rattle.mvd_docs.specs.Document.{document_of};
ghost use Rattle.mvd_docs.specs.Plain.{BeginsWithNumber, BeginsWithValue, BeginsWithMember, BeginsWithItems};
ghost use Rattle.mvd_docs.specs.Plain.{BeginsWithMembers};

/// How deep a document's members nest at most.
const MOST_NESTED: usize = 126;

/// The letters that escape a byte, behind a backslash.
const LETTERS: [u8; 7] = *b"\"\\bfnrt";

/// Each number of so many digits is an `i64`.
const MOST_DIGITS: usize = 18;

/// What is left behind this byte, where it stands first.
fn behind(text: &[u8], byte: u8) -> Option<&[u8]>
    ensures found { IfSome result (λ rest. text.now ≡ byte ∷ rest.now) }
    ensures none { IfNone result ((rest : List ℕ) → text.now ≡ byte ∷ rest → ⊥) }
{
    let (first, rest) = text.split_first()?;
    if *first == byte { Some(rest) } else { None }
}

/// Whether a string has the byte as it is.
#[tactic(auto, using(json::proofs::Printed::Strings::escape_byte_plain))]
fn is_unescaped(byte: u8) -> bool
    ensures { IsTrue result → escape_byte byte ≡ byte ∷ [] }
{
    b' ' <= byte && byte != b'"' && byte != b'\\'
}

/// How many bytes stand first that a string has as they are.
fn plain_count(text: &[u8]) -> usize
    ensures bound { result ≤ length text.now }
    ensures plain { escape (take result text.now) ≡ take result text.now }
{
    let mut count = 0;
    while count < text.len() && is_unescaped(text[count]) {
        count += 1;
    }
    count
}

/// A name without escapes, and what is left behind it.
fn name(text: &[u8]) -> Option<(&[u8], &[u8])>
    ensures { IfSome result (λ read. text.now ≡ quoted read.0.now ++ read.1.now) }
{
    let text = behind(text, b'"')?;
    let (name, rest) = text.split_at(plain_count(text));
    Some((name, behind(rest, b'"')?))
}

/// What is left behind an escape of one letter.
fn behind_escape(text: &[u8]) -> Option<&[u8]>
    ensures escape { IfSome result (λ rest. (x : ℕ) × (text.now ≡ escape_byte x ++ rest.now)) }
    ensures shorter { IfSome result (λ rest. length rest.now < length text.now) }
{
    let (letter, rest) = behind(text, b'\\')?.split_first()?;
    if LETTERS.contains(letter) {
        Some(rest)
    } else {
        None
    }
}

/// What is left behind the bytes of a string.
fn behind_bytes(text: &[u8]) -> &[u8]
    ensures { (s : List ℕ) × (text.now ≡ escape s ++ result.now) }
{
    let mut rest = text.split_at(plain_count(text)).1;
    while let Some(more) = behind_escape(rest) {
        rest = more.split_at(plain_count(more)).1;
    }
    rest
}

/// What is left behind a string.
fn string(text: &[u8]) -> Option<&[u8]>
    ensures { IfSome result (λ rest. (s : List ℕ) × (text.now ≡ quoted s ++ rest.now)) }
{
    behind(behind_bytes(behind(text, b'"')?), b'"')
}

/// How many digits stand first.
fn digit_count(text: &[u8]) -> usize
    ensures bound { result ≤ length text.now }
    ensures digits { AllDigits 10 (take result text.now) }
{
    let mut count = 0;
    while count < text.len() && text[count].is_ascii_digit() {
        count += 1;
    }
    count
}

/// Whether these digits are written as a number is: not too many, and no 0 before others.
fn is_numeral(digits: &[u8]) -> bool
    ensures some { IsTrue result → 0 < length digits.now }
    ensures short { IsTrue result → length digits.now ≤ 18 }
    ensures zero { IsTrue result → slice_index digits.now 0 ≡ 48 → length digits.now ≡ 1 }
{
    if digits.is_empty() || MOST_DIGITS < digits.len() {
        return false;
    }
    digits.len() == 1 || digits[0] != b'0'
}

/// What is left behind a number without a sign.
fn natural(text: &[u8]) -> Option<&[u8]>
    ensures { IfSome result (λ rest. (n : ℕ) × (n < 10 ^ 18) × (text.now ≡ decimal n ++ rest.now)) }
{
    let (digits, rest) = text.split_at(digit_count(text));
    if is_numeral(digits) { Some(rest) } else { None }
}

/// What is left behind a whole number.
fn number(text: &[u8]) -> Option<&[u8]>
    ensures { IfSome result (λ rest. BeginsWithNumber text.now rest.now) }
{
    let Some(digits) = behind(text, b'-') else {
        return natural(text);
    };
    if behind(digits, b'0').is_some() {
        return None;
    }
    natural(digits)
}

/// What is left behind this literal, where it stands first.
fn literal<'t>(text: &'t [u8], literal: &[u8]) -> Option<&'t [u8]>
    ensures { IfSome result (λ rest. text.now ≡ literal.now ++ rest.now) }
{
    text.strip_prefix(literal)
}

/// What is left behind a value that nests no deeper than `room`.
#[cycle(values)]
fn value(text: &[u8], room: usize) -> Option<&[u8]>
    ensures { IfSome result (λ rest. BeginsWithValue room text.now rest.now) }
{
    let (first, rest) = text.split_first()?;
    match *first {
        b'"' => string(text),
        b'{' => members(rest, room.checked_sub(1)?),
        b'[' => items(rest, room.checked_sub(1)?),
        b't' => literal(text, b"true"),
        b'f' => literal(text, b"false"),
        b'n' => literal(text, b"null"),
        _ => number(text),
    }
}

/// What is left behind an array whose opening bracket stands before this text.
#[cycle(values)]
fn items(text: &[u8], room: usize) -> Option<&[u8]>
    ensures { IfSome result (λ rest. BeginsWithItems room false text.now rest.now) }
{
    if let Some(rest) = behind(text, b']') {
        return Some(rest);
    }
    let mut rest = value(text, room)?;
    while let Some(more) = behind(rest, b',') {
        rest = value(more, room)?;
    }
    behind(rest, b']')
}

/// A member's name, and what is left behind the member.
#[cycle(values)]
fn member(text: &[u8], room: usize) -> Option<(&[u8], &[u8])>
    ensures { IfSome result (λ read. BeginsWithMember room text.now read.0.now read.1.now) }
{
    let (name, rest) = name(text)?;
    let rest = value(behind(rest, b':')?, room)?;
    Some((name, rest))
}

/// What is left behind an object whose opening brace stands before this text.
#[cycle(values)]
fn members(text: &[u8], room: usize) -> Option<&[u8]>
    ensures { IfSome result (λ rest. BeginsWithMembers room false text.now rest.now) }
{
    if let Some(rest) = behind(text, b'}') {
        return Some(rest);
    }
    let (mut name, mut rest) = member(text, room)?;
    while let Some(more) = behind(rest, b',') {
        let (next, left) = member(more, room)?;
        if name.cmp(&next).is_ge() {
            return None;
        }
        name = next;
        rest = left;
    }
    behind(rest, b'}')
}

/// Whether a text is plainly a document's own.
pub(crate) fn is_plain(text: &str) -> bool
    requires { length text.now ≤ 65536 }
    ensures { IsTrue result → document_of text.now ≡ Ok text.now }
{
    let Some(inner) = behind(text.as_bytes(), b'{') else {
        return false;
    };
    let Some(rest) = members(inner, MOST_NESTED) else {
        return false;
    };
    rest.is_empty()
}
