//! The order in which the requests of a round are answered: first questions, then changes, and then the questions that
//! stand behind a change of their own client. So no question stands between changes, which then share a commit.
ghost use Rattle.std.specs.Prelude.{◌≡◌, ◌+◌, ◌≤◌, ◌∷◌, ◌++◌, ℕ, List, [], IfOk, false, length, true, zip};
ghost use Rattle.std.specs.BTreeSet.{Updates, contains};
ghost use Rattle.std.specs.Ordering.{nat_cmp};
ghost use Rattle.mvd_wire.specs.declared.request.Request.{Request};
ghost use Rattle.mvd_host.specs.Arranging.{Arranged, HasPlaces, Lays};

use mvd_replica::key_asked;
use mvd_wire::Request;
use std::alloc::{AllocError, Global};
use std::collections::BTreeSet;

/// Which requests lead.
#[derive(Clone, Copy)]
enum Kind {
    Questions,
    Changes,
}

/// Requests with their clients in two parts, of which the first is answered before the other.
#[derive(Drop)]
pub(crate) struct Lanes {
    kind: Kind,
    /// The requests of this kind, of clients of which none stands behind.
    leading_clients: Vec<u64>,
    leading: Vec<Request>,
    /// All other requests, as they came, and whose they are.
    later_clients: Vec<u64>,
    later: Vec<Request>,
    behind: BTreeSet<u64>,
    /// Memory was refused to remember a client: no further request leads.
    is_shut: bool,
}

impl Lanes {
    /// No request, with room for so many.
    fn with_room(alloc: Global, kind: Kind, most: usize) -> Result<Lanes, AllocError>
        ensures lays { IfOk result (Lays []) }
        ensures room { IfOk result (HasPlaces most) }
    {
        let leading_clients = Vec::with_capacity(alloc, most)?;
        let leading = Vec::with_capacity(alloc, most)?;
        let later_clients = Vec::with_capacity(alloc, most)?;
        let later = Vec::with_capacity(alloc, most)?;
        Ok(Lanes {
            kind,
            leading_clients,
            leading,
            later_clients,
            later,
            behind: BTreeSet::new(alloc),
            is_shut: false,
        })
    }

    /// Whether a request leads: it is of the kind that does, and none of its client stands behind.
    fn leads(&self, client: u64, request: &Request) -> bool
        ensures unshut { result ≡ true → self.now.is_shut ≡ false }
        ensures none { result ≡ true → contains nat_cmp self.now.behind client ≡ false }
    {
        if self.is_shut || !is_of(self.kind, request) {
            return false;
        }
        !self.behind.contains(&client)
    }

    fn lead(&mut self, client: u64, request: Request)
        requires room { (asked : List (ℕ × Request)) × Lays asked self.old × HasPlaces (length asked + 1) self.old }
        requires unshut { self.old.is_shut ≡ false }
        requires none { contains nat_cmp self.old.behind client ≡ false }
        ensures lays { (asked : List (ℕ × Request)) → Lays asked self.old →
            Lays (asked ++ (client, request) ∷ []) self.new }
        ensures room { (most : ℕ) → HasPlaces most self.old → HasPlaces most self.new }
    {
        self.leading_clients.push_reserved(client);
        self.leading.push_reserved(request);
    }

    fn follow(&mut self, client: u64, request: Request)
        requires room { (asked : List (ℕ × Request)) × Lays asked self.old × HasPlaces (length asked + 1) self.old }
        ensures lays { (asked : List (ℕ × Request)) → Lays asked self.old →
            Lays (asked ++ (client, request) ∷ []) self.new }
        ensures room { (most : ℕ) → HasPlaces most self.old → HasPlaces most self.new }
    {
        note(&mut self.behind, &mut self.is_shut, client);
        self.later_clients.push_reserved(client);
        self.later.push_reserved(request);
    }

    /// Puts a request behind those that came before it, in its part.
    fn place(&mut self, client: u64, request: Request)
        requires room { (asked : List (ℕ × Request)) × Lays asked self.old × HasPlaces (length asked + 1) self.old }
        ensures lays { (asked : List (ℕ × Request)) → Lays asked self.old →
            Lays (asked ++ (client, request) ∷ []) self.new }
        ensures room { (most : ℕ) → HasPlaces most self.old → HasPlaces most self.new }
    {
        if self.leads(client, &request) {
            return self.lead(client, request);
        }
        self.follow(client, request);
    }

    /// Puts requests there, each with its client.
    fn place_all(&mut self, clients: &[u64], requests: Vec<Request>)
        requires count { length clients.now ≡ length requests.items }
        requires none { Lays [] self.old }
        requires room { HasPlaces (length requests.items) self.old }
        ensures lays { Lays (zip clients.now requests.items) self.new }
        ensures room { HasPlaces (length requests.items) self.new }
    {
        let mut at = 0;
        for request in requests {
            self.place(clients[at], request);
            at += 1;
        }
    }

    /// Both parts, one behind the other.
    fn joined(self) -> (Vec<u64>, Vec<Request>)
        requires room { (asked : List (ℕ × Request)) × Lays asked self × HasPlaces (length asked) self }
        ensures { (asked : List (ℕ × Request)) → Lays asked self → Arranged asked result.0.items result.1.items }
    {
        let Lanes {
            mut leading_clients,
            mut leading,
            mut later_clients,
            mut later,
            ..
        } = self;
        // There is room for both.
        let _ = leading_clients.append(&mut later_clients);
        let _ = leading.append(&mut later);
        (leading_clients, leading)
    }
}

/// Notes that a request of a client stands behind.
pub(crate) fn note(behind: &mut BTreeSet<u64>, is_shut: &mut bool, client: u64)
    ensures unshut { is_shut.new ≡ false → is_shut.old ≡ false }
    ensures noted { is_shut.new ≡ false → Updates nat_cmp behind.old behind.new client true }
{
    match behind.insert(client) {
        Ok(_) => {}
        Err(_) => *is_shut = true,
    }
}

fn is_of(kind: Kind, request: &Request) -> bool {
    key_asked(request).is_some() == matches!(kind, Kind::Changes)
}

/// Whether a request of this kind stands behind one of the other.
fn is_mixed(kind: Kind, requests: &[Request]) -> bool {
    let mut others = false;
    for request in requests {
        if !is_of(kind, request) {
            others = true;
        } else if others {
            return true;
        }
    }
    false
}

/// Requests, each with its client, with those of a kind at the front that may lead. Where memory is refused for that,
/// they stay as they are.
fn led_by(
    kind: Kind,
    alloc: Global,
    clients: Vec<u64>,
    requests: Vec<Request>,
) -> (Vec<u64>, Vec<Request>)
    requires { length clients.items ≡ length requests.items }
    ensures { Arranged (zip clients.items requests.items) result.0.items result.1.items }
{
    if !is_mixed(kind, &requests) {
        return (clients, requests);
    }
    let Ok(mut lanes) = Lanes::with_room(alloc, kind, requests.len()) else {
        return (clients, requests);
    };
    lanes.place_all(&clients, requests);
    lanes.joined()
}

/// Requests, each with its client, in the order in which they are answered.
pub(crate) fn arranged(
    alloc: Global,
    clients: Vec<u64>,
    requests: Vec<Request>,
) -> (Vec<u64>, Vec<Request>)
    requires { length clients.items ≡ length requests.items }
    ensures { Arranged (zip clients.items requests.items) result.0.items result.1.items }
{
    let (clients, requests) = led_by(Kind::Changes, alloc, clients, requests);
    led_by(Kind::Questions, alloc, clients, requests)
}
