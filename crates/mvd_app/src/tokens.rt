//! The tokens that a file holds.
ghost use Rattle.std.specs.Prelude.{◌≡◌, IfErr, IfOk, is_some};
ghost use Rattle.mvd_app.specs.Named.{IsTokenFault, StopsAtToken};
ghost use Rattle.mvd_app.specs.Tasks.{first_token};
ghost use Rattle.mvd_server.specs.TokenFiles.{IsUnreadSo};
ghost use Rattle.std.specs.Prelude.{option_copied};

use crate::paths::Paths;
use mvd_dots::Refusal;
use mvd_hint::Stop;
use mvd_input::PassFault;
use mvd_server::{Tokens, TokensFault};
use mvd_wire::Token;

/// The tokens of a file, or none where no file is named.
pub(crate) fn tokens_in<'a>(
    paths: &Paths<'_>,
    file: Option<&'a str>,
) -> Result<Option<Tokens>, Stop<'a>>
    ensures given { IfOk result (λ tokens. is_some tokens ≡ is_some file.entry) }
    // It is stopped only by such a file.
    ensures stopped { IfErr result (StopsAtToken file.entry) }
{
    let Some(file) = file else {
        return Ok(None);
    };
    match paths.tokens(file) {
        Ok(tokens) => Ok(Some(tokens)),
        Err(fault) => Err(stopped_by(file, fault)),
    }
}

/// What a command is stopped with by a file with tokens.
#[tactic(auto, using(crate::proofs::Stops::token_unread))]
fn stopped_by<'a>(file: &'a str, fault: TokensFault) -> Stop<'a>
    ensures { IsUnreadSo fault → IsTokenFault file.entry result.fault result.hint }
{
    match fault {
        TokensFault::Unread(fault) => Stop::in_token_file(file, fault),
        TokensFault::Bad(fault) => bad_file(file, fault),
    }
}

/// What a command is stopped with by a file that is none with tokens. Want of memory is told as such.
#[tactic(auto, using(crate::proofs::Stops::token_memory, crate::proofs::Stops::token_none))]
fn bad_file<'a>(file: &'a str, fault: PassFault) -> Stop<'a>
    ensures { IsTokenFault file.entry result.fault result.hint }
{
    match fault {
        PassFault::Memory => Stop::from(Refusal::Memory),
        fault => Stop::no_token(file, fault),
    }
}

/// The first of them, which a client shows.
pub(crate) fn first_of(tokens: Option<&Tokens>) -> Option<&Token>
    ensures { option_copied result ≡ first_token (option_copied tokens.entry) }
{
    match tokens {
        Some(tokens) => Some(&tokens.first),
        None => None,
    }
}
