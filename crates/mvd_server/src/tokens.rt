//! Files with tokens: what a server lets in, and what it shows itself.
ghost use Rattle.std.specs.Prelude.{◌≡◌, ◌<◌, ◌⊎◌, Err, IfErr, IfOk, List, Ok, length, map};
ghost use Rattle.mvd_input.specs.Ends.{ReadsNot};
ghost use Rattle.mvd_input.specs.PassFiles.{passes_of};
ghost use Rattle.mvd_input.specs.Passes.{PassText, said_by};
ghost use Rattle.mvd_input.specs.declared.pass_files.PassFault.TheVariants.{Memory};
ghost use Rattle.mvd_server.specs.TokenFiles.{ArePassesOf, IsUnreadSo};

use mvd_conn::{Passes, Right};
use mvd_dots::Refusal;
use mvd_input::{Fault, PassFault, PassLine, TOKEN_FILE_MAX, passes_in, read_input};
use mvd_wire::Token;
use std::alloc::Global;
use std::fs::{self, Files};

/// What a file with tokens says.
#[derive(Drop)]
pub struct Tokens {
    pub passes: Passes,
    /// The first, which a client shows.
    pub first: Token,
    /// The one that a server shows its peers: the first that allows all, or else the first.
    pub shown: Token,
}

/// Why a file is none with tokens: it cannot be read, or what stands in it is none.
#[derive(Clone, Copy)]
pub enum TokensFault {
    Unread(Fault),
    Bad(PassFault),
}

/// What a file with tokens says.
pub fn read_tokens<F: Files>(rt: &F, alloc: Global, file: &str) -> Result<Tokens, TokensFault>
    ensures { IfErr result IsUnreadSo }
{
    let text = match text_of(rt, alloc, file) {
        Ok(text) => text,
        Err(fault) => return Err(TokensFault::Unread(fault)),
    };
    match tokens_of(alloc, &text) {
        Ok(tokens) => Ok(tokens),
        Err(fault) => Err(TokensFault::Bad(fault)),
    }
}

fn text_of<F: Files>(rt: &F, alloc: Global, file: &str) -> Result<Vec<u8>, Fault>
    ensures { IfErr result ReadsNot }
{
    let Ok(mut opened) = fs::open(rt, file) else {
        return Err(Fault::Stopped(Refusal::ReadFailed));
    };
    read_input(alloc, &mut opened, TOKEN_FILE_MAX)
}

/// What a text says that is one of tokens.
pub fn tokens_of(alloc: Global, text: &[u8]) -> Result<Tokens, PassFault>
    ensures passes { IfOk result (λ tokens. (texts : List PassText) × (passes_of text.now ≡ Ok texts) ×
        ArePassesOf texts tokens.passes) }
    ensures fault { IfErr result (λ fault. (fault ≡ Memory) ⊎ (passes_of text.now ≡ Err fault)) }
{
    let lines = passes_in(alloc, text)?;
    let first = token_of(alloc, &lines[0])?;
    let shown = token_of(alloc, shown_of(&lines))?;
    let passes = listed(alloc, &lines)?;
    Ok(Tokens {
        passes,
        first,
        shown,
    })
}

/// The first line that allows all, or else the first.
fn shown_of<'a, 'b>(lines: &'b [PassLine<'a>]) -> &'b PassLine<'a>
    requires { 0 < length lines.now }
{
    for line in lines {
        if line.writes && line.prefix.is_empty() {
            return line;
        }
    }
    &lines[0]
}

/// The token of a line. None is longer than may be.
fn token_of(alloc: Global, line: &PassLine<'_>) -> Result<Token, PassFault>
    ensures { IfErr result (λ fault. fault ≡ Memory) }
{
    match Token::read(alloc, line.token) {
        Ok(token) => Ok(token),
        Err(_) => Err(PassFault::Memory),
    }
}

/// The passes of lines.
fn listed(alloc: Global, lines: &[PassLine<'_>]) -> Result<Passes, PassFault>
    ensures passes { IfOk result (ArePassesOf (map said_by lines.now)) }
    ensures memory { IfErr result (λ fault. fault ≡ Memory) }
{
    let mut passes = Passes::new(alloc);
    for line in lines {
        // No line has a longer prefix than may be.
        let Some(right) = Right::new(line.writes, line.prefix) else {
            return Err(PassFault::Memory);
        };
        passes.add(line.token, right)?;
    }
    Ok(passes)
}
