//! The head lines of a script.
ghost use Rattle.std.specs.Prelude.{◌<◌, ◌≤◌};
ghost use Rattle.std.specs.Option.{ForSome};

/// The head lines of a script: how many sites it has, and how many keys each may hold, where a line says so.
#[derive(Clone, Copy)]
pub(crate) struct Head {
    pub sites: u32,
    pub max_keys: Option<u32>,
    ghost some: { 0 < sites },
    ghost few: { sites ≤ 16 },
    ghost in_range: { ForSome max_keys (λ n. (0 < n) × (n ≤ 1000000)) },
}
