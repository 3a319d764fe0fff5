//! Lists of names, as the options of a server have them.
ghost use Rattle.std.specs.Prelude.{◌≡◌};
ghost use Rattle.mvd_input.specs.Names.{commas_of, is_name_list as is_list};

/// The most names of a list, and the most bytes.
const MOST_NAMES: usize = 16;

const MOST_BYTES: usize = 4_096;

/// Whether a text is a list of names: 1 to 16 texts with commas between them, in at most 4,096 bytes.
pub(crate) fn is_name_list(list: &str) -> bool
    ensures { result ≡ is_list list.now }
{
    let bytes = list.as_bytes();
    if bytes.is_empty() || bytes.len() > MOST_BYTES {
        return false;
    }
    commas_in(bytes) < MOST_NAMES
}

fn commas_in(bytes: &[u8]) -> usize
    ensures { result ≡ commas_of bytes.now }
{
    bytes.iter().filter(|byte| **byte == b',').count()
}
