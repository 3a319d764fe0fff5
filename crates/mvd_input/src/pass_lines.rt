//! The lines of a file with tokens.
ghost use Rattle.std.specs.Prelude.{◌≡◌, ◌≤◌, length, option_copied, option_map};
ghost use Rattle.mvd_input.specs.Passes.{before_blank, behind_blank, blank_at, is_key_prefix as prefix_said, pass_of, said_by};
ghost use Rattle.mvd_input.specs.Passes.{prefix_in as prefix_told, writes_by as writes_told};

use crate::token_texts::{are_graphic, is_token};

const PREFIX_MAX: usize = 128;

/// What a line says: a token, whether who shows it may write, and what each key begins with that it allows.
#[derive(Clone, Copy)]
pub struct PassLine<'a> {
    pub token: &'a [u8],
    pub writes: bool,
    /// It is empty where all keys are allowed.
    pub prefix: &'a [u8],
}

/// What a line says, where it has the form of one: a token; a blank and `read` or `write`, or nothing; and a blank and a
/// prefix of keys, or nothing.
pub fn pass_line(line: &[u8]) -> Option<PassLine<'_>>
    ensures { option_map said_by result ≡ pass_of line.now }
{
    let (token, rest) = first_part(line);
    if !is_token(token) {
        return None;
    }
    let Some(rest) = rest else {
        return Some(PassLine {
            token,
            writes: true,
            prefix: &[],
        });
    };
    let (word, rest) = first_part(rest);
    let writes = writes_by(word)?;
    let prefix = prefix_in(rest)?;
    Some(PassLine {
        token,
        writes,
        prefix,
    })
}

/// How many bytes stand before the first blank.
fn blank_in(text: &[u8]) -> usize
    ensures value { result ≡ blank_at text.now }
    ensures within { result ≤ length text.now }
{
    text.iter().take_while(|byte| **byte != b' ').count()
}

/// What stands before the first blank, and behind it, if there is one.
fn first_part(text: &[u8]) -> (&[u8], Option<&[u8]>)
    ensures before { result.0.now ≡ before_blank text.now }
    ensures behind { option_copied result.1 ≡ behind_blank text.now }
{
    let at = blank_in(text);
    let behind = if at < text.len() {
        Some(&text[at + 1..])
    } else {
        None
    };
    (&text[..at], behind)
}

/// Whether a word lets write, where it is one of the two.
fn writes_by(word: &[u8]) -> Option<bool>
    ensures { result ≡ writes_told word.now }
{
    if word == b"read".as_slice() {
        Some(false)
    } else if word == b"write".as_slice() {
        Some(true)
    } else {
        None
    }
}

/// The prefix, which is empty where there is none.
fn prefix_in(text: Option<&[u8]>) -> Option<&[u8]>
    ensures { option_copied result ≡ prefix_told (option_copied text.entry) }
{
    match text {
        None => Some(&[]),
        Some(prefix) if is_key_prefix(prefix) => Some(prefix),
        Some(_) => None,
    }
}

/// Whether keys may begin so: 1 to 128 ASCII characters that are seen on paper.
fn is_key_prefix(prefix: &[u8]) -> bool
    ensures { result ≡ prefix_said prefix.now }
{
    !prefix.is_empty() && prefix.len() <= PREFIX_MAX && are_graphic(prefix)
}
