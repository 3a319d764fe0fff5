//! How much a site works.
use mvd_count::Count;
use mvd_rows::Meter;
use mvd_tree::Hashed;

/// The state of a key was looked up.
pub struct HeldLook {}

/// Looks at held states, work on kept rows, and what was hashed. What answers is handed one, and adds to it.
#[derive(Drop)]
pub struct Work {
    pub looks: Count<HeldLook>,
    pub rows: Meter,
    pub hashed: Hashed,
}
