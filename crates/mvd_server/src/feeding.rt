//! Bytes of frames, to the host and from it.
ghost use Rattle.std.specs.Prelude.{◌≡◌, ◌≤◌, ◌⊎◌, length, min};
ghost use Rattle.mvd_conn.specs.History.{WantsInput};
ghost use Rattle.mvd_host.specs.Hosts.{IfClient, IsClient, client_of};
ghost use Rattle.mvd_server.specs.HostBytes.{TakesBytes, sent_of, waits_of};

use mvd_dots::Refusal;
use mvd_host::Host;

/// Hands bytes of frames to the host, if it wants them.
#[tactic(auto, using(crate::proofs::Clients::wanted_if))]
pub(crate) fn feed(host: &mut Host, number: u64, bytes: &[u8])
    requires { length bytes.now ≤ 65536 }
    ensures wanted { IsClient (client_of host.old number) WantsInput → TakesBytes host.old number bytes.now host.new }
    ensures may { (host.new ≡ host.old) ⊎ TakesBytes host.old number bytes.now host.new }
{
    if !host.wants_input(number) {
        return;
    }
    if host.feed(number, bytes).is_err() {
        host.fail_input(number, Refusal::Memory);
    }
}

/// So many bytes that the host has for a client left.
pub(crate) fn sent(host: &mut Host, number: u64, count: usize)
    ensures { host.new ≡ sent_of host.old number (min count (length (waits_of host.old number))) }
{
    let count = count.min(waits(host, number));
    host.sent(number, count);
}

/// The number of bytes that wait in the host to leave to a client.
#[tactic(auto, using(crate::proofs::Handing::waits_some, crate::proofs::Handing::waits_none))]
fn waits(host: &Host, number: u64) -> usize
    ensures few { IfClient (client_of host.now number) (λ h. result ≤ length h.waits) }
    ensures count { result ≡ length (waits_of host.now number) }
{
    match host.waiting(number) {
        Some(bytes) => bytes.len(),
        None => 0,
    }
}
