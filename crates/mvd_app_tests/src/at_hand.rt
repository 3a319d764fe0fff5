//! A session of a stored site with a site at hand, by what `mvd sync` calls.
ghost use Rattle.std.specs.Prelude.{◌≡◌, false, None};
ghost use Rattle.std.specs.declared.net.socket_addr.SocketAddr.{SocketAddr};
ghost use Rattle.mvd_client.specs.SyncsAt.{MeetsAt};
ghost use Rattle.mvd_line_tests.specs.Serving.{IsAtHand};
ghost use Rattle.mvd_replica.specs.Replicas.{site_of};

use mvd_client::{Dial, DialFault, Gone, sync_run};
use mvd_docs::Document;
use mvd_dots::{Context, Refusal};
use mvd_hint::Stop;
use mvd_keys::Key;
use mvd_line_tests::Served;
use mvd_remote::Line;
use mvd_replica::Replica;
use mvd_rows::Defs;
use mvd_site::{Config, Site};
use mvd_sync::Report;
use mvd_wire::Request;
use sqlite::{Alter, Connection};
use std::alloc::Global;
use std::io::Write;
use std::net::{IpAddr, Ipv4Addr, SocketAddr};
use std::test::Fail;

/// It leads each address to a new site of number 2.
#[derive(Clone, Copy)]
struct AtHand;

impl Dial for AtHand {
    type Dialed = Served;

    ghost gives = { λ _ _ served. IsAtHand served };

    fn dial(
        &self,
        alloc: Global,
        _address: SocketAddr,
        _idle: u32,
        gone: &mut Gone<Served>,
    ) -> Result<Served, DialFault> {
        let config = Config::new(2, 10, Defs::new(alloc));
        match Site::new(alloc, config) {
            Ok(site) => {
                let served = Served::new(alloc, site);
                gone.has(&served);
                Ok(served)
            }
            Err(_) => Err(DialFault::Memory),
        }
    }
}

/// The session meets whatever is there: no premise of the line is left.
fn sync_at_hand<'a, S: Alter + Drop, E: Write>(
    alloc: Global,
    replica: &mut Replica<S>,
    address: SocketAddr,
    gone: &mut Gone<Served>,
    told: Option<&mut E>,
) -> Result<Report, Stop<'a>>
    ensures { (site_of replica.old).broken ≡ false →
        MeetsAt ⟦<Served as Line>⟧ IsAtHand None address replica.old replica.new result }
{
    sync_run(&AtHand, alloc, replica, address, 5, None, gone, told)
}

/// How many keys a session with it exchanges, of a stored site that holds one.
fn exchanged(alloc: Global, gone: &mut Gone<Served>) -> Result<u64, Refusal> {
    let config = Config::new(1, 10, Defs::new(alloc));
    let mut replica = match Replica::open(alloc, Connection::open_in_memory(alloc)?, config) {
        Ok(replica) => replica,
        Err((refusal, conn)) => {
            drop(conn);
            return Err(refusal);
        }
    };
    let document = Document::read(alloc, "{}")?;
    let put = Request::Put(Key::read(alloc, "a")?, Context::new(alloc), document);
    let _reply = replica.answer(&put);
    let address = SocketAddr::new(IpAddr::V4(Ipv4Addr::LOCALHOST), 1);
    let told = sync_at_hand(alloc, &mut replica, address, gone, None::<&mut Vec<u8>>);
    drop(replica);
    match told {
        Ok(report) => Ok(report.keys),
        Err(_) => Err(Refusal::Broken),
    }
}

#[test]
fn a_site_at_hand_is_met(rt: HostRuntime) -> Result<(), Fail> {
    assert!(rt; exchanged(rt.alloc(), &mut Gone::new(&rt)) == Ok(1));
    Ok(())
}
