//! SHA-256 computations. All bytes that one reads are counted here, and each of its ends.
ghost use Rattle.std.specs.Prelude.{◌≡◌, ℕ, List, [], ◌++◌, length};
ghost use Rattle.sha2.specs.Sha256.{sha256};
ghost use Rattle.mvd_digest.specs.Counted.{EndsDigest, Absorbed, Hashes, ReadsBytes};

use mvd_count::Count;
use sha2::{Digest, Sha256};

/// A SHA-256 computation ended.
pub struct Computation {}

/// A SHA-256 computation read a byte.
pub struct Byte {}

/// How much was hashed: how many SHA-256 computations ended, and how many bytes were read.
#[derive(Drop)]
pub struct Hashed {
    pub computations: Count<Computation>,
    pub bytes: Count<Byte>,
}

impl Hashed {
    fn count_bytes(&mut self, bytes: usize)
        ensures exact { ReadsBytes bytes self.old self.new }
        ensures counts { Hashes 0 bytes self.old self.new }
    {
        self.bytes.add(bytes as u64);
    }

    fn count_end(&mut self)
        ensures exact { EndsDigest self.old self.new }
        ensures counts { Hashes 1 0 self.old self.new }
    {
        self.computations.add(1);
    }
}

/// A SHA-256 computation, which is counted as it reads and as it ends.
#[derive(Drop)]
pub struct CountedHasher {
    hasher: Sha256,
}

impl CountedHasher {
    /// Nothing was read yet.
    pub fn new() -> Self
        ensures { Absorbed result [] }
    {
        CountedHasher {
            hasher: Sha256::new(),
        }
    }

    /// It reads these bytes, each of which is counted.
    pub fn update(&mut self, bytes: &[u8], hashed: &mut Hashed)
        ensures reads { (m : List ℕ) → Absorbed self.old m → Absorbed self.new (m ++ bytes.now) }
        ensures exact { ReadsBytes (length bytes.now) hashed.old hashed.new }
        ensures counts { Hashes 0 (length bytes.now) hashed.old hashed.new }
    {
        hashed.count_bytes(bytes.len());
        self.hasher.update(bytes);
    }

    /// A computation that has read the same.
    pub fn copy(&self) -> Self
        ensures { (m : List ℕ) → Absorbed self.now m → Absorbed result m }
    {
        match self.hasher.clone() {
            Ok(hasher) => CountedHasher { hasher },
            Err(_) => unreachable!(),
        }
    }

    /// The digest of what was read. This end is counted.
    pub fn finish(self, hashed: &mut Hashed) -> [u8; 32]
        ensures digest { (m : List ℕ) → Absorbed self m → result ≡ sha256 m }
        ensures exact { EndsDigest hashed.old hashed.new }
        ensures counts { Hashes 1 0 hashed.old hashed.new }
    {
        hashed.count_end();
        let CountedHasher { hasher } = self;
        hasher.finalize()
    }
}

/// The digest of a text, by one computation.
pub fn text_digest(text: &[u8], hashed: &mut Hashed) -> [u8; 32]
    ensures digest { result ≡ sha256 text.now }
    ensures counts { Hashes 1 (length text.now) hashed.old hashed.new }
{
    let mut hasher = CountedHasher::new();
    hasher.update(text, hashed);
    hasher.finish(hashed)
}
