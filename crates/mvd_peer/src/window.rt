//! Questions to a side that leave at once, and what it tells of them.
ghost use Rattle.std.specs.Prelude.{◌≡◌};
ghost use Rattle.mvd_peer.specs.Asking.{count_in};

use mvd_dots::Refusal;
use mvd_keys::{Key, KeyState, Path};
use mvd_wire::Digests;

/// A page of a bucket: at most a thousand keys, the first after a key, with their digests, and whether more are left.
pub type Page = (Vec<(Key, [u8; 32])>, bool);

/// Questions to a side that leave at once. No window of a session is empty.
#[derive(Drop)]
pub enum Window {
    /// Nodes of the hash tree: a session asks at most 64.
    Nodes(Vec<Path>),
    /// Pages of buckets, each after a key or from the first: at most 64.
    Pages(Vec<(Path, Option<Key>)>),
    /// The states of keys: at most 1,000.
    Gets(Vec<Key>),
    /// States to be joined to those of their keys: one, or frames of at most 1,048,576 bytes together.
    Pushes(Vec<(Key, KeyState)>),
}

impl Window {
    /// How many questions it has.
    pub fn count(&self) -> usize
        ensures { result ≡ count_in self.now }
    {
        match self {
            Window::Nodes(paths) => paths.len(),
            Window::Pages(pages) => pages.len(),
            Window::Gets(keys) => keys.len(),
            Window::Pushes(pairs) => pairs.len(),
        }
    }
}

/// What a side told of a window: an answer for each question, in order; or the refusal that it told in place of that.
#[derive(Drop)]
pub enum Told {
    Nodes(Vec<Result<Digests, Refusal>>),
    Pages(Vec<Result<Page, Refusal>>),
    States(Vec<Result<KeyState, Refusal>>),
    Pushes(Vec<Result<(), Refusal>>),
    Refused(Refusal),
}
