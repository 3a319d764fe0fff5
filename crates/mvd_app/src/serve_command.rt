//! A stored site, served, and the servers that it meets.
ghost use Rattle.std.specs.Option.{ForSome};
ghost use Rattle.mvd_app.specs.Tasks.{ServesTo};
ghost use Rattle.mvd_input.specs.Addresses.{IsAddressList};
ghost use Rattle.mvd_input.specs.Orders.{ArePeers};
ghost use Rattle.mvd_server.specs.TokenFiles.{names_asked, passes_asked};

use crate::outlet::{Outlet, STANDARD_ERROR, STANDARD_OUTPUT};
use crate::paths::Paths;
use mvd_dots::Refusal;
use mvd_hint::{Stop, Watch};
use mvd_input::{Peers, addresses_of, tell};
use mvd_replica::Replica;
use mvd_server::{Sockets, Terms};
use sqlite::Alter;
use std::alloc::{AllocError, Global};
use std::io::Write;
use std::net::{Net, SocketAddr};

/// What is told of a server that pages of other origins may ask without a token.
const OPEN_TO_PAGES: &str =
    "mvd: --origin without --token-file: whoever opens such a page reads and writes here\n";

/// Serves a stored site at an address, and meets the peers meanwhile, if there are any: those of the list but itself. It
/// waits for nobody who should read what it prints.
#[tactic(auto, using(crate::proofs::Unserved::serves_nothing))]
pub(crate) fn serve_stored<'a, N: Net, K: Sockets, S: Alter + Drop, W: Write>(
    rt: &N,
    paths: &Paths<'_>,
    sockets: &mut K,
    replica: &mut Replica<S>,
    address: SocketAddr,
    terms: Terms<'_>,
    peers: Option<Peers<'_>>,
    watch: &mut Watch,
    writer: &mut W,
) -> Result<(), Stop<'a>>
    requires { ForSome peers ArePeers }
    ensures { ServesTo K.Sockets (passes_asked terms.entry) (names_asked terms.entry)
        sockets.old replica.old sockets.new replica.new result }
{
    let mut outlet = match Outlet::new(rt, paths.alloc(), STANDARD_OUTPUT, writer) {
        Ok(outlet) => outlet,
        Err(error) => return Err(Stop::unheard(address, error)),
    };
    serve_met(
        rt,
        paths,
        sockets,
        replica,
        address,
        terms,
        peers,
        watch,
        &mut outlet,
    )
}

/// The same, where nobody waits for the writer. Nor does anybody for standard error.
#[tactic(auto, using(crate::proofs::Unserved::serves_nothing))]
fn serve_met<'a, N: Net, K: Sockets, S: Alter + Drop, W: Write>(
    rt: &N,
    paths: &Paths<'_>,
    sockets: &mut K,
    replica: &mut Replica<S>,
    address: SocketAddr,
    terms: Terms<'_>,
    peers: Option<Peers<'_>>,
    watch: &mut Watch,
    writer: &mut W,
) -> Result<(), Stop<'a>>
    requires { ForSome peers ArePeers }
    ensures { ServesTo K.Sockets (passes_asked terms.entry) (names_asked terms.entry)
        sockets.old replica.old sockets.new replica.new result }
{
    let alloc = paths.alloc();
    let mut stderr = paths.errors();
    let mut errors = match Outlet::new(rt, alloc, STANDARD_ERROR, &mut stderr) {
        Ok(errors) => errors,
        Err(error) => return Err(Stop::unheard(address, error)),
    };
    warn_of_pages(alloc, terms, &mut errors);
    let Some(peers) = peers else {
        return paths.serve(sockets, replica, address, terms, watch, writer, &mut errors);
    };
    let Ok(addresses) = met_by(alloc, address, peers.list) else {
        return Err(Stop::from(Refusal::Memory));
    };
    let terms = Terms {
        peers: &addresses,
        every: peers.every,
        ..terms
    };
    paths.serve(sockets, replica, address, terms, watch, writer, &mut errors)
}

/// Warns where pages of other origins may ask a server that asks for no token.
fn warn_of_pages<E: Write>(alloc: Global, terms: Terms<'_>, errors: &mut E) {
    if terms.origins.is_empty() || terms.tokens.is_some() {
        return;
    }
    let Ok(mut line) = String::from_str(alloc, OPEN_TO_PAGES) else {
        return;
    };
    let _ = tell(errors, &mut line);
}

/// The servers of a list that the one at `own` meets: each once, and not itself, since all servers may name one list.
fn met_by(alloc: Global, own: SocketAddr, list: &str) -> Result<Vec<SocketAddr>, AllocError>
    requires { IsAddressList list.now }
{
    let listed = addresses_of(alloc, own.ip(), list)?;
    let mut met = Vec::new(alloc);
    for peer in &listed {
        if !is_own(own, *peer) && !met.contains(peer) {
            met.push(*peer)?;
        }
    }
    Ok(met)
}

/// Whether whoever connects to `peer` comes to the server that listens at `own`.
fn is_own(own: SocketAddr, peer: SocketAddr) -> bool {
    let (at, to) = (own.ip(), peer.ip());
    own.port() == peer.port() && (at == to || (at.is_unspecified() && to.is_loopback()))
}
