//! Random scripts, after which all sites hold the same.
ghost use Rattle.std.specs.Prelude.{◌<◌};

use crate::scripts::{printed, text_of};
use crate::session_scripts::RING;
use mvd_input::Fault;
use std::alloc::{AllocError, Global};
use std::test::Fail;

/// How many scripts are drawn, and how many steps each takes before all is sent.
const SCRIPTS: u64 = 12;

const STEPS: u64 = 120;

/// How many sites and keys a script has.
const SITES: u64 = 3;

const KEYS: u64 = 5;

/// A script that is drawn line by line.
#[derive(Drop)]
struct Draft {
    drawn: u64,
    sent: u64,
    text: String,
}

impl Draft {
    /// A number below this one, by a linear congruential generator.
    fn below(&mut self, count: u64) -> u64
        requires { 0 < count }
        ensures { result < count }
    {
        let product = self.drawn.wrapping_mul(6_364_136_223_846_793_005);
        self.drawn = product.wrapping_add(1_442_695_040_888_963_407);
        (self.drawn / 8_589_934_592) % count
    }

    /// A step at any site.
    fn push_step(&mut self, step: u64) -> Result<(), AllocError> {
        let site = self.below(SITES) + 1;
        let key = self.below(KEYS);
        match self.below(8) {
            0 | 1 => {
                write!(&mut self.text, "put {site} k{key} ")?;
                self.push_context()?;
                writeln!(&mut self.text, " {{\"n\":{step}}}")
            }
            2 => {
                write!(&mut self.text, "del {site} k{key} ")?;
                self.push_context()?;
                self.text.push_str("\n")
            }
            3 | 4 => self.push_send(site, key),
            5 | 6 => self.push_receive(site),
            _ => self.push_session(site),
        }
    }

    /// What the site shows, or other dots, that nobody may have minted.
    fn push_context(&mut self) -> Result<(), AllocError> {
        let site = self.below(SITES + 1) + 1;
        let base = self.below(6);
        let loose = self.below(4) + base + 2;
        match self.below(4) {
            0 => self.text.push_str("-"),
            1 => write!(&mut self.text, "{site}:{base}+{loose}"),
            _ => self.text.push_str("@"),
        }
    }

    fn push_send(&mut self, site: u64, key: u64) -> Result<(), AllocError> {
        self.sent = self.sent.saturating_add(1);
        writeln!(&mut self.text, "send {site} k{key}")
    }

    /// Any message that was sent.
    fn push_receive(&mut self, site: u64) -> Result<(), AllocError> {
        let sent = self.sent;
        if sent == 0 {
            return Ok(());
        }
        let message = self.below(sent) + 1;
        writeln!(&mut self.text, "recv {site} {message}")
    }

    /// A session with the next site.
    fn push_session(&mut self, site: u64) -> Result<(), AllocError> {
        let peer = site % SITES + 1;
        writeln!(&mut self.text, "sync {site} {peer}")
    }

    /// Every key of every site goes to every site, and each tells its digest.
    fn push_end(&mut self) -> Result<(), AllocError> {
        for site in 1..SITES + 1 {
            for key in 0..KEYS {
                self.push_send(site, key)?;
                self.push_arrivals()?;
            }
        }
        self.text.push_str("root 1\nroot 2\nroot 3\n")
    }

    /// The last message comes to every site.
    fn push_arrivals(&mut self) -> Result<(), AllocError> {
        let sent = self.sent;
        writeln!(
            &mut self.text,
            "recv 1 {sent}\nrecv 2 {sent}\nrecv 3 {sent}"
        )
    }

    /// All steps, and the end.
    fn push_all(&mut self) -> Result<(), AllocError> {
        for step in 0..STEPS {
            self.push_step(step)?;
        }
        self.push_end()
    }
}

fn drawn(alloc: Global, seed: u64) -> Result<String, AllocError> {
    let mut draft = Draft {
        drawn: seed,
        sent: 0,
        text: String::from_str(alloc, "sites 3\n")?,
    };
    draft.push_all()?;
    Ok(draft.text)
}

/// Whether no line was refused, and the last lines, of which each site told one, are alike.
fn ends_alike(out: &str) -> bool {
    let is_refused = |line: &str| line.starts_with("refused") || line.starts_with("none such");
    let mut last = out.lines().rev();
    let three = (last.next(), last.next(), last.next());
    matches!(three, (Some(a), Some(b), Some(c)) if a == b && b == c) && !out.lines().any(is_refused)
}

/// Whether a script ends so.
fn is_alike(alloc: Global, script: &str) -> Result<bool, Fault> {
    let out = printed(alloc, script)?;
    Ok(ends_alike(text_of(&out)))
}

/// Whether the script of this number does.
fn is_alike_drawn(alloc: Global, seed: u64) -> Result<bool, Fault> {
    let script = drawn(alloc, seed)?;
    is_alike(alloc, script.as_str())
}

#[test]
fn sites_that_learn_of_all_hold_the_same(rt: HostRuntime) -> Result<(), Fail> {
    assert!(rt; is_alike(rt.alloc(), RING)?);
    for seed in 0..SCRIPTS {
        assert!(rt; is_alike_drawn(rt.alloc(), seed)?, "{seed}");
    }
    Ok(())
}
