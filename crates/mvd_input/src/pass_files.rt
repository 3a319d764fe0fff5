//! Files with tokens.
ghost use Rattle.std.specs.Prelude.{◌≡◌, ◌≤◌, ◌<◌, ◌⊎◌, Err, IfErr, IfOk, MatchResult, Ok, Some, length, map, option_copied};
ghost use Rattle.mvd_input.specs.PassFiles.{has_token as token_told, passes_of, read_line, unless_empty as line_left};
ghost use Rattle.mvd_input.specs.Passes.{said_by};
ghost use Rattle.mvd_input.specs.declared.pass_files.PassFault.TheVariants.{Memory};

use crate::hexadecimal::first_line;
use crate::pass_lines::{PassLine, pass_line};
use std::alloc::{AllocError, AllocFailed, Global};
use thiserror::Error;

/// The most bytes of a file with tokens.
pub const TOKEN_FILE_MAX: usize = 65_536;

/// The most lines of it.
const LINES_MAX: usize = 64;

/// Why a text is no file with tokens. Lines are counted from 1.
#[derive(Debug, Clone, Copy, Error)]
pub enum PassFault {
    #[error("memory was refused")]
    Memory,
    #[error("line {0} is no token of 16 to 256 printable ASCII characters without a space, alone or with ` read` or ` write` behind it, and maybe a space and a prefix of keys")]
    BadLine(u64),
    #[error("the token of line {0} stands in a line before it")]
    SameToken(u64),
    #[error("it has more than 64 lines")]
    TooMany,
}

impl From<AllocError> for PassFault {
    ghost use Rattle.std.specs.Prelude.{◌≡◌};
    ghost use Rattle.mvd_input.specs.declared.pass_files.PassFault.TheVariants.{Memory};

    ghost from_gives = { λ _ fault. fault ≡ Memory };

    fn from(_error: AllocError) -> PassFault {
        PassFault::Memory
    }
}

impl<T: Drop> From<AllocFailed<T>> for PassFault {
    ghost use Rattle.std.specs.Prelude.{◌≡◌};
    ghost use Rattle.mvd_input.specs.declared.pass_files.PassFault.TheVariants.{Memory};

    ghost from_gives = { λ _ fault. fault ≡ Memory };

    fn from(_failed: AllocFailed<T>) -> PassFault {
        PassFault::Memory
    }
}

/// What the lines of a text say, which has at least one; or why it is no file with tokens.
pub fn passes_in(alloc: Global, text: &[u8]) -> Result<Vec<PassLine<'_>>, PassFault>
    ensures read { IfOk result (λ passes. passes_of text.now ≡ Ok (map said_by passes.items)) }
    ensures fault { IfErr result (λ fault. (fault ≡ Memory) ⊎ (passes_of text.now ≡ Err fault)) }
    ensures some { IfOk result (λ passes. 0 < length passes.items) }
{
    let mut passes = Vec::new(alloc);
    let mut rest = Some(text);
    while let Some(lines) = rest {
        let (line, after) = first_line(lines);
        let pass = next_pass(&passes, line)?;
        passes.push(pass)?;
        rest = unless_empty(after);
    }
    Ok(passes)
}

/// What the next line says, behind others.
fn next_pass<'a>(before: &[PassLine<'_>], line: &'a [u8]) -> Result<PassLine<'a>, PassFault>
    ensures { MatchResult result (λ pass. read_line (map said_by before.now) line.now ≡ Ok (said_by pass))
        (λ fault. read_line (map said_by before.now) line.now ≡ Err fault) }
{
    if before.len() >= LINES_MAX {
        return Err(PassFault::TooMany);
    }
    let number = before.len() as u64 + 1;
    match pass_line(line) {
        Some(pass) if has_token(before, pass.token) => Err(PassFault::SameToken(number)),
        Some(pass) => Ok(pass),
        None => Err(PassFault::BadLine(number)),
    }
}

fn has_token(before: &[PassLine<'_>], token: &[u8]) -> bool
    ensures { result ≡ token_told (map said_by before.now) token.now }
{
    for pass in before {
        if pass.token == token {
            return true;
        }
    }
    false
}

/// What follows a line, unless that is nothing.
fn unless_empty(after: Option<&[u8]>) -> Option<&[u8]>
    ensures { option_copied result ≡ line_left (option_copied after.entry) }
{
    match after {
        Some(rest) if rest.is_empty() => None,
        _ => after,
    }
}
