//! Where a server listens, and the root that it tells at its end.
ghost use Rattle.std.specs.Prelude.{◌≡◌, ◌⊎◌, IfErr, OnOk};
ghost use Rattle.mvd_dots.specs.declared.refusals.Refusal.TheVariants.{Memory, WriteFailed};
ghost use Rattle.mvd_input.specs.declared.fault.Fault.TheVariants.{Stopped};
ghost use Rattle.mvd_replica.specs.Replicas.{site_of};
ghost use Rattle.mvd_server.specs.Closing.{EndsAtFault, PrintsRoot};

use crate::terms::Terms;
use mvd_input::{Fault, tell};
use mvd_print::print_root;
use mvd_replica::Replica;
use sqlite::Alter;
use std::alloc::Global;
use std::fmt::Write as Print;
use std::io::Write;
use std::net::SocketAddr;

/// Tells where a server listens.
pub(crate) fn tell_listening<W: Write>(
    alloc: Global,
    address: SocketAddr,
    terms: Terms<'_>,
    writer: &mut W,
) -> Result<(), Fault>
    ensures { IfErr result (λ fault. (fault ≡ Stopped Memory) ⊎ (fault ≡ Stopped WriteFailed)) }
{
    let mut line = String::new(alloc);
    writeln!(line, "listening {address}")?;
    if let Some(address) = web_address(address, terms) {
        writeln!(line, "listening http://{address}/")?;
    }
    tell(writer, &mut line)
}

/// Tells the root digest.
#[tactic(auto, using(crate::proofs::Closing::prints_root))]
pub(crate) fn tell_root<S: Alter + Drop, W: Write>(
    alloc: Global,
    replica: &Replica<S>,
    writer: &mut W,
) -> Result<(), Fault>
    ensures root { OnOk result (PrintsRoot (site_of replica.now) (W.contents writer.old) (W.contents writer.new)) }
    ensures cause { IfErr result (EndsAtFault (site_of replica.now)) }
{
    let root = replica.root()?;
    let mut line = String::new(alloc);
    print_root(alloc, root, &mut line)?;
    tell(writer, &mut line)
}

/// The address at which HTTP is served, if it is.
pub(crate) fn web_address(address: SocketAddr, terms: Terms<'_>) -> Option<SocketAddr> {
    match terms.http {
        Some(port) => Some(SocketAddr::new(address.ip(), port)),
        None => None,
    }
}
