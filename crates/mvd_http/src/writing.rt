//! Which requests ask for a change.
ghost use Rattle.std.specs.Prelude.{◌≡◌};
ghost use Rattle.mvd_http.specs.Asked.{takes_changes};
ghost use Rattle.mvd_http.specs.Writing.{is_write as is_write_told};

use crate::asked::verb_of;
use crate::question::Verb;
use crate::target::before;

/// Whether writes or states are sent to a path.
pub(crate) fn is_list_of_changes(path: &[u8]) -> bool
    ensures { result ≡ takes_changes path.now }
{
    path == b"/keys".as_slice() || path == b"/push".as_slice()
}

/// Whether a request of this method and target asks for a change.
pub fn is_write(method: &[u8], target: &[u8]) -> bool
    ensures { result ≡ is_write_told method.now target.now }
{
    match verb_of(method) {
        Verb::Put | Verb::Delete => true,
        Verb::Post => is_list_of_changes(before(target, b'?')),
        Verb::Read | Verb::Other => false,
    }
}
