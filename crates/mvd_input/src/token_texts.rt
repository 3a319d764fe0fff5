//! Tokens.
ghost use Rattle.std.specs.Prelude.{◌≡◌};
ghost use Rattle.std.specs.List.{list_all};
ghost use Rattle.mvd_docs.specs.Name.{is_graphic};
ghost use Rattle.mvd_input.specs.Tokens.{is_token};

const LEAST_BYTES: usize = 16;

const MOST_BYTES: usize = 256;

/// Whether a line is a token: 16 to 256 ASCII characters that are seen on paper.
pub(crate) fn is_token(line: &[u8]) -> bool
    ensures { result ≡ is_token line.now }
{
    LEAST_BYTES <= line.len() && line.len() <= MOST_BYTES && are_graphic(line)
}

pub(crate) fn are_graphic(line: &[u8]) -> bool
    ensures { result ≡ list_all is_graphic line.now }
{
    line.iter().all(|byte| b'!' <= *byte && *byte <= b'~')
}
