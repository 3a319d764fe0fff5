//! SHA-256 (FIPS 180-4), each computation of which is counted as it reads and as it ends. Of the crates
//! that are counted no other reaches SHA-256.
#![tactic(auto)]

mod digest;

pub use digest::{Byte, Computation, CountedHasher, Hashed, text_digest};
