//! Which hosts a request may name, and of which pages it may come.
ghost use Rattle.std.specs.Prelude.{◌≡◌, option_copied, string_bytes};
ghost use Rattle.std.specs.List.{list_all};
ghost use Rattle.mvd_http.specs.Guard.{has_item as is_in, is_foreign_host as host_foreign, is_foreign_origin as origin_foreign};
ghost use Rattle.mvd_http.specs.Guard.{has_part as is_among, parts_of};
ghost use Rattle.mvd_http.specs.Guard.{is_number_byte, is_safe_host as host_safe, is_safe_name as name_safe};
ghost use Rattle.mvd_http.specs.Guard.{is_this, name_in as name_of_host, named_by};
ghost use Rattle.mvd_http.specs.Guard.{origin_in as origin_of_other, stranger_of};

use crate::http_fault::Fault;
use crate::target::{before, without};

/// The names of a server beside its addresses and `localhost`, and the origins beside its own whose pages may ask it. In
/// each list there are commas between the items.
#[derive(Drop)]
pub struct Names {
    pub hosts: String,
    pub origins: String,
    /// It may be asked by any name.
    pub any_host: bool,
}

/// The name of a host, where that is no address and not `localhost`.
pub fn name_in(host: &[u8]) -> Option<&[u8]>
    ensures { option_copied result ≡ name_of_host host.now }
{
    if is_safe_host(host) {
        return None;
    }
    Some(before(host, b':'))
}

/// The origin of a page, where that is not the host's own.
pub fn origin_in<'a>(host: Option<&[u8]>, origin: Option<&'a [u8]>) -> Option<&'a [u8]>
    ensures { option_copied result ≡ origin_of_other (option_copied host.entry) (option_copied origin.entry) }
{
    let origin = origin?;
    if is_same(host, without(origin, b"http://")) || is_same(host, without(origin, b"https://")) {
        return None;
    }
    Some(origin)
}

/// Why a request is not answered that names such a host, and comes of such a page, if it is not.
pub fn stranger(names: &Names, host: Option<&[u8]>, origin: Option<&[u8]>) -> Option<Fault>
    ensures { result ≡ stranger_of (named_by names.now) (option_copied host.entry) (option_copied origin.entry) }
{
    if is_foreign_host(names, host) {
        return Some(Fault::ForeignHost);
    }
    if is_foreign_origin(names, origin) {
        return Some(Fault::ForeignOrigin);
    }
    None
}

fn is_foreign_host(names: &Names, host: Option<&[u8]>) -> bool
    ensures { result ≡ host_foreign (named_by names.now) (option_copied host.entry) }
{
    match host {
        Some(host) => !names.any_host && !has_item(names.hosts.as_str(), host),
        None => false,
    }
}

fn is_foreign_origin(names: &Names, origin: Option<&[u8]>) -> bool
    ensures { result ≡ origin_foreign (named_by names.now) (option_copied origin.entry) }
{
    match origin {
        Some(origin) => !has_item(names.origins.as_str(), origin),
        None => false,
    }
}

/// Whether a text is one of a list with commas between them.
fn has_item(list: &str, item: &[u8]) -> bool
    ensures { result ≡ is_in list.now item.now }
{
    !item.is_empty() && is_part(list.as_bytes(), item)
}

fn is_part(list: &[u8], item: &[u8]) -> bool
    ensures { result ≡ is_among item.now (parts_of list.now) }
{
    for part in list.split(|byte| *byte == b',') {
        if part == item {
            return true;
        }
    }
    false
}

/// Whether a host is this one.
fn is_same(host: Option<&[u8]>, other: Option<&[u8]>) -> bool
    ensures { result ≡ is_this (option_copied host.entry) (option_copied other.entry) }
{
    match (host, other) {
        (Some(host), Some(other)) => other == host,
        _ => false,
    }
}

/// Whether there are but digits and points.
fn are_number_bytes(name: &[u8]) -> bool
    ensures { result ≡ list_all is_number_byte name.now }
{
    name.iter()
        .all(|byte| byte.is_ascii_digit() || *byte == b'.')
}

fn is_safe_name(name: &[u8]) -> bool
    ensures { result ≡ name_safe name.now }
{
    if name == b"localhost".as_slice() {
        return true;
    }
    !name.is_empty() && are_number_bytes(name)
}

fn is_safe_host(host: &[u8]) -> bool
    ensures { result ≡ host_safe host.now }
{
    if host.is_empty() {
        return false;
    }
    host[0] == b'[' || is_safe_name(before(host, b':'))
}
