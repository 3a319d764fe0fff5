//! What a token allows.
ghost use Rattle.std.specs.Prelude.{◌≡◌, length, nat_le};
ghost use Rattle.std.specs.Prelude.{IfSome, is_some};
ghost use Rattle.std.specs.Str.{bytes_eq};
ghost use Rattle.mvd_conn.specs.Passes.{is_same_right};
ghost use Rattle.mvd_conn.specs.Rights.{covers, is_of_all as of_all, may, prefix_of};

use mvd_wire::Request;

/// The most bytes of a prefix of keys.
const PREFIX_MAX: usize = 128;

/// What whoever shows a token may ask: questions, or writes as well; of the keys that begin with a prefix. The empty one
/// is that of all keys.
#[derive(Clone, Copy)]
pub struct Right {
    pub writes: bool,
    /// The prefix is the first bytes, so many.
    pub bytes: [u8; 128],
    pub size: usize,
}

impl Right {
    /// All may be asked, of all keys.
    pub const ALL: Right = Right {
        writes: true,
        bytes: [0; 128],
        size: 0,
    };

    /// It is `None` where the prefix is longer than any key.
    pub fn new(writes: bool, prefix: &[u8]) -> Option<Right>
        ensures some { is_some result ≡ nat_le (length prefix.now) 128 }
        ensures writes { IfSome result (λ right. right.writes ≡ writes) }
        ensures prefix { IfSome result (λ right. prefix_of right ≡ prefix.now) }
    {
        if prefix.len() > PREFIX_MAX {
            return None;
        }
        let mut bytes = [0; 128];
        bytes[..prefix.len()].copy_from_slice(prefix);
        Some(Right {
            writes,
            bytes,
            size: prefix.len(),
        })
    }

    /// Whether it allows a request.
    pub fn allows(&self, request: &Request) -> bool
        ensures { result ≡ may self.now request.now }
    {
        match request {
            Request::Get(key) => self.covers(key.text()),
            Request::Put(key, _, _) => self.writes && self.covers(key.text()),
            Request::Delete(key, _) => self.writes && self.covers(key.text()),
            Request::Push(key, _) => self.writes && self.covers(key.text()),
            Request::Keys(prefix, _) => self.covers(prefix.text()),
            Request::Hello(_) | Request::Bye => true,
            _ => self.is_of_all(),
        }
    }

    /// Whether it is of all keys.
    pub fn is_of_all(&self) -> bool
        ensures { result ≡ of_all self.now }
    {
        self.prefix().is_empty()
    }

    /// Whether both allow the same.
    pub(crate) fn is_same(&self, other: &Right) -> bool
        ensures { result ≡ is_same_right self.now other.now }
    {
        self.writes == other.writes && self.prefix() == other.prefix()
    }

    /// What each key begins with.
    pub fn prefix(&self) -> &[u8]
        ensures { result.now ≡ prefix_of self.now }
    {
        match self.bytes.get(..self.size) {
            Some(prefix) => prefix,
            None => &self.bytes,
        }
    }

    /// Whether a text begins with the prefix.
    pub fn covers(&self, text: &str) -> bool
        ensures { result ≡ covers (prefix_of self.now) text.now }
    {
        text.as_bytes().starts_with(self.prefix())
    }
}
