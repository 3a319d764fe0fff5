//! How long something takes, counted in buckets, and how that is told (Prometheus' text form).
use mvd_dots::Refusal;
use std::fmt::Write as Print;

const BUCKETS: usize = 10;

/// The bound of each bucket in microseconds, and in seconds as it is told.
const BOUNDS: [(u64, &str); BUCKETS] = [
    (100, "0.0001"),
    (300, "0.0003"),
    (1_000, "0.001"),
    (3_000, "0.003"),
    (10_000, "0.01"),
    (30_000, "0.03"),
    (100_000, "0.1"),
    (300_000, "0.3"),
    (1_000_000, "1"),
    (3_000_000, "3"),
];

/// How often something took how long. A bucket has those that took at most its bound, and more than the bound before.
#[derive(Clone, Copy)]
pub(crate) struct Histogram {
    buckets: [u64; BUCKETS],
    count: u64,
    /// The microseconds of all of them.
    sum: u64,
}

impl Histogram {
    pub fn new() -> Histogram {
        Histogram {
            buckets: [0; BUCKETS],
            count: 0,
            sum: 0,
        }
    }

    /// Notes that something took so many microseconds, so many times.
    pub fn note(&mut self, micros: u64, times: u64) {
        if times == 0 {
            return;
        }
        self.count = self.count.saturating_add(times);
        self.sum = self.sum.saturating_add(micros.saturating_mul(times));
        for place in 0..BUCKETS {
            if micros <= BOUNDS[place].0 {
                self.buckets[place] = self.buckets[place].saturating_add(times);
                return;
            }
        }
    }

    /// Prints it under a name, and as that of a kind where there is one.
    pub fn print(&self, name: &str, kind: Option<&str>, out: &mut String) -> Result<(), Refusal> {
        let mut count: u64 = 0;
        for place in 0..BUCKETS {
            count = count.saturating_add(self.buckets[place]);
            print_bucket(name, kind, BOUNDS[place].1, count, out)?;
        }
        print_bucket(name, kind, "+Inf", self.count, out)?;
        let (seconds, micros) = (self.sum / 1_000_000, self.sum % 1_000_000);
        print_name(name, "sum", kind, out)?;
        writeln!(out, " {seconds}.{micros:06}")?;
        print_name(name, "count", kind, out)?;
        writeln!(out, " {}", self.count)?;
        Ok(())
    }
}

/// Prints how many took at most so long.
fn print_bucket(
    name: &str,
    kind: Option<&str>,
    bound: &str,
    count: u64,
    out: &mut String,
) -> Result<(), Refusal> {
    write!(out, "{name}_bucket{{")?;
    if let Some(kind) = kind {
        write!(out, "kind=\"{kind}\",")?;
    }
    writeln!(out, "le=\"{bound}\"}} {count}")?;
    Ok(())
}

/// Prints a name with its label.
fn print_name(name: &str, part: &str, kind: Option<&str>, out: &mut String) -> Result<(), Refusal> {
    write!(out, "{name}_{part}")?;
    if let Some(kind) = kind {
        write!(out, "{{kind=\"{kind}\"}}")?;
    }
    Ok(())
}
