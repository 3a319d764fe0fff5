//! Lists of addresses.
ghost use Rattle.std.specs.Prelude.{◌≡◌, ◌∷◌, ◌↔◌, ◌≤◌, ◌<◌, ℕ, IfNone, IfOk, IfSome, IsTrue, length};
ghost use Rattle.std.specs.List.{AllZip};
ghost use Rattle.std.specs.Net.Grammar.{IsSocketText};
ghost use Rattle.std.specs.Net.Socket.{socket_port};
ghost use Rattle.std.specs.Option.{option_copied};
ghost use Rattle.mvd_input.specs.Addresses.{AreItems, HasItem, IsAddress, IsAddressList, IsAddressOf, IsItem, items_of, items_left};
ghost use Rattle.mvd_input.specs.Lines.{IsNumber};

use crate::command::number_of;
use std::alloc::{AllocError, Global};
use std::net::{IpAddr, SocketAddr};

/// The most items of a list.
const MOST_ITEMS: u32 = 16;

/// The last port.
const LAST_PORT: u64 = 65_535;

/// An item of a list: a port alone, or an address with its port.
#[derive(Clone, Copy)]
enum Item {
    Port(u16),
    At(SocketAddr),
}

impl Item {
    /// The address that it is, at this IP address where it is a port alone.
    fn at(self, ip: IpAddr) -> SocketAddr
        ensures { IsAddressOf ip self result }
    {
        match self {
            Item::Port(port) => SocketAddr::new(ip, port),
            Item::At(address) => address,
        }
    }
}

/// The item that a text spells. Each port is 1 to 65,535.
fn item_of(text: &str) -> Option<Item>
    ensures found { IfSome result (IsItem text.now) }
    ensures none { IfNone result ((item : Item) → IsItem text.now item → ⊥) }
{
    match (address_of(text), port_of(text)) {
        (Some(address), _) => Some(Item::At(address)),
        (None, Some(port)) => Some(Item::Port(port)),
        (None, None) => None,
    }
}

/// The address, with a port, that a text spells.
fn address_of(text: &str) -> Option<SocketAddr>
    ensures found { IfSome result (λ address. IsSocketText text.now address × (1 ≤ socket_port address)) }
    ensures none { IfNone result ((address : SocketAddr) → IsSocketText text.now address →
        1 ≤ socket_port address → ⊥) }
{
    match text.parse::<SocketAddr>() {
        Ok(address) if address.port() > 0 => Some(address),
        Ok(_) => None,
        Err(_) => None,
    }
}

/// The port that a text spells.
fn port_of(text: &str) -> Option<u16>
    ensures found { IfSome result (λ port. IsNumber port text.now × (1 ≤ port)) }
    ensures none { IfNone result ((port : ℕ) → IsNumber port text.now → 1 ≤ port → port ≤ 65535 → ⊥) }
{
    match number_of(text) {
        Some(port) if port > 0 && port <= LAST_PORT => Some(port as u16),
        Some(_) => None,
        None => None,
    }
}

/// The text before the first comma of a list, and what stands behind that.
fn first_item(list: &str) -> (&str, Option<&str>)
    ensures split { items_of list.now ≡ result.0.now ∷ items_left (option_copied result.1) }
    ensures shorter { IfSome result.1 (λ rest. length rest.now < length list.now) }
{
    match list.split_once(',') {
        Some((item, rest)) => (item, Some(rest)),
        None => (list, None),
    }
}

/// The address that an item's text is. An item that is a port alone is at this IP address.
pub(crate) fn address_at(ip: IpAddr, text: &str) -> Option<SocketAddr>
    ensures found { IfSome result (IsAddress ip text.now) }
    ensures none { IfNone result (HasItem text.now → ⊥) }
{
    match item_of(text) {
        Some(item) => Some(item.at(ip)),
        None => None,
    }
}

/// Whether a text is a list of addresses: 1 to 16 items with commas between them.
pub(crate) fn is_address_list(list: &str) -> bool
    ensures { IsTrue result ↔ IsAddressList list.now }
{
    are_items(list, MOST_ITEMS)
}

/// Whether a text has at most `most` items.
fn are_items(list: &str, most: u32) -> bool
    ensures { IsTrue result ↔ AreItems most (items_of list.now) }
{
    let (item, rest) = first_item(list);
    if most == 0 {
        return false;
    }
    match (item_of(item), rest) {
        (Some(_), Some(rest)) => are_items(rest, most - 1),
        (Some(_), None) => true,
        (None, _) => false,
    }
}

/// The addresses of a list, in its order. An item that is a port alone is at this IP address.
pub fn addresses_of(alloc: Global, ip: IpAddr, list: &str) -> Result<Vec<SocketAddr>, AllocError>
    requires { IsAddressList list.now }
    ensures { IfOk result (λ found. AllZip (IsAddress ip) (items_of list.now) found.items) }
{
    let mut found = Vec::new(alloc);
    let mut rest = Some(list);
    while let Some(left) = rest {
        let (text, after) = first_item(left);
        // Each text of a list is an item.
        let Some(item) = item_of(text) else {
            return Ok(found);
        };
        found.push(item.at(ip))?;
        rest = after;
    }
    Ok(found)
}
