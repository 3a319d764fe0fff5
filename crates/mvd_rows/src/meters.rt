//! What work on kept rows is counted by.
ghost use Rattle.mvd_rows.specs.Counted.{CountsUpdate, CountsLook};

use mvd_count::Count;

/// An entry was put in, taken out or altered.
pub struct Update {}

/// An entry was looked at.
pub struct Look {}

/// How many entries of the kept rows were put in, taken out or altered, and how many were looked at: looked up by key,
/// or taken from a walk. This crate adds to the counts, and can begin none.
#[derive(Drop)]
pub struct Meter {
    pub updates: Count<Update>,
    pub looks: Count<Look>,
}

impl Meter {
    pub(crate) fn count_update(&mut self)
        ensures { CountsUpdate self.old self.new }
    {
        self.updates.add(1);
    }

    pub(crate) fn count_look(&mut self)
        ensures { CountsLook self.old self.new }
    {
        self.looks.add(1);
    }
}
