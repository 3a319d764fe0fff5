//! Leave to begin a count of work. A crate that does not stand on this one can begin none: so what is counted does not
//! (`crates.txt`).
#![tactic(auto)]

/// Leave to begin counts.
#[derive(Drop)]
pub struct Start {
    _leave: (),
}

impl Start {
    pub fn new() -> Start {
        Start { _leave: () }
    }
}
