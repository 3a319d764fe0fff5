//! Which requests need no token.
ghost use Rattle.std.specs.Prelude.{◌≡◌};
ghost use Rattle.mvd_http.specs.OpenToAll.{is_open_path as path_open, is_open_to_all as open_told};

use crate::asked::verb_of;
use crate::question::Verb;
use crate::target::before;

/// Whether a request of this method and target is for everybody: it asks for the page, or whether the server can
/// answer.
pub fn is_open_to_all(method: &[u8], target: &[u8]) -> bool
    ensures { result ≡ open_told method.now target.now }
{
    match verb_of(method) {
        Verb::Read => is_open_path(before(target, b'?')),
        _ => false,
    }
}

fn is_open_path(path: &[u8]) -> bool
    ensures { result ≡ path_open path.now }
{
    path == b"/".as_slice() || path == b"/health".as_slice()
}
