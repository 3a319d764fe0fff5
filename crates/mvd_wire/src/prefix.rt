//! What keys begin with.
ghost use Rattle.std.specs.Prelude.{◌≡◌, ℕ, List, true, string_bytes, Ok};
ghost use Rattle.mvd_dots.specs.Answer.{IsAnswer};
ghost use Rattle.mvd_wire.specs.Prefix.{is_prefix, prefix_of_text};

use mvd_docs::is_graphic;
use mvd_dots::Refusal;
use std::alloc::Global;
use std::marker::Model;

const MOST_BYTES: usize = 128;

/// A text of 0 to 128 graphic ASCII characters, with which keys may begin.
#[derive(Drop)]
pub struct Prefix {
    text: String,
}

impl Model for Prefix {
    ghost Value = { List ℕ };

    ghost view = { λ prefix. string_bytes prefix.text };

    ghost invariant = { λ prefix. is_prefix (string_bytes prefix.text) ≡ true };
}

impl Prefix {
    pub fn read(alloc: Global, text: &str) -> Result<Prefix, Refusal>
        ensures { IsAnswer result (prefix_of_text text.now) }
    {
        if text.len() > MOST_BYTES || !is_graphic(text) {
            return Err(Refusal::BadKey);
        }
        let text = String::from_str(alloc, text)?;
        Ok(Prefix { text })
    }

    pub fn text(&self) -> &str
        ensures same { result.now ≡ self.now }
        ensures prefix { is_prefix self.now ≡ true }
    {
        self.text.as_str()
    }

    pub fn copy(&self, alloc: Global) -> Result<Prefix, Refusal>
        ensures { IsAnswer result (Ok self.now) }
    {
        let text = String::from_str(alloc, self.text.as_str())?;
        Ok(Prefix { text })
    }
}
