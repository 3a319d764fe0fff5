/// The version of the format.
#[derive(Clone, Copy)]
pub enum Version {
    First,
    Second,
}
