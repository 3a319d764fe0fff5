//! What a client shows to be let in.
ghost use Rattle.std.specs.Prelude.{◌≡◌, ◌≤◌, ℕ, List, length, Ok};
ghost use Rattle.mvd_dots.specs.Answer.{IsAnswer};
ghost use Rattle.mvd_wire.specs.Token.{token_of_bytes};

use mvd_dots::Refusal;
use std::alloc::Global;
use std::marker::Model;

const MOST_BYTES: usize = 256;

/// A secret of 0 to 256 bytes.
#[derive(Drop)]
pub struct Token {
    bytes: Vec<u8>,
}

impl Model for Token {
    ghost Value = { List ℕ };

    ghost view = { λ token. token.bytes.items };

    ghost invariant = { λ token. length token.bytes.items ≤ 256 };
}

impl Token {
    pub fn read(alloc: Global, bytes: &[u8]) -> Result<Token, Refusal>
        ensures { IsAnswer result (token_of_bytes bytes.now) }
    {
        if bytes.len() > MOST_BYTES {
            return Err(Refusal::BadBody);
        }
        let bytes = Vec::from_slice(alloc, bytes)?;
        Ok(Token { bytes })
    }

    pub fn bytes(&self) -> &[u8]
        ensures same { result.now ≡ self.now }
        ensures short { length self.now ≤ 256 }
    {
        &self.bytes
    }

    pub fn copy(&self, alloc: Global) -> Result<Token, Refusal>
        ensures { IsAnswer result (Ok self.now) }
    {
        let bytes = Vec::from_slice(alloc, &self.bytes)?;
        Ok(Token { bytes })
    }
}
