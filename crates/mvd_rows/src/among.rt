//! Looking for a sibling in another state of its key.
ghost use Rattle.std.specs.Prelude.{◌≡◌, IsTrue};
ghost use Rattle.mvd_keys.specs.State.{pair_of, pairs_of, rises};
ghost use Rattle.mvd_rows.specs.Changes.{is_among};

use mvd_keys::Sibling;
use std::cmp::Ordering;

/// Whether the same document stands under the same dot there.
pub(crate) fn is_among(others: &[Sibling], sibling: &Sibling) -> bool
    requires { IsTrue (rises others.now) }
    ensures { result ≡ is_among (pairs_of others.now) (pair_of sibling.now) }
{
    let mut low = 0;
    let mut high = others.len();
    while low < high {
        let middle = low + (high - low) / 2;
        let other = &others[middle];
        match other.dot.cmp(&sibling.dot) {
            Ordering::Less => low = middle + 1,
            Ordering::Greater => high = middle,
            Ordering::Equal => return sibling.document.text() == other.document.text(),
        }
    }
    false
}
