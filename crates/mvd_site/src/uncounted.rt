//! Work to be counted.
ghost use Rattle.mvd_kept.specs.Costs.{IsNoWork};

use mvd_count::Count;
use mvd_digest::Hashed;
use mvd_kept::Work;
use mvd_rows::Meter;
use mvd_start::Start;

/// Nothing was done yet.
pub fn no_work(start: &Start) -> Work
    ensures { IsNoWork result }
{
    Work {
        looks: Count::new(start),
        rows: Meter {
            updates: Count::new(start),
            looks: Count::new(start),
        },
        hashed: Hashed {
            computations: Count::new(start),
            bytes: Count::new(start),
        },
    }
}
