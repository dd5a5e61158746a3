//! Decides which requests are admitted: those that a page of this server, or a person's own program, sends to it by its own name.
//! So no page from elsewhere can talk to it, whatever name it has made a browser resolve to this machine.

ghost use Rattle.std.specs.Prelude.{◌≤◌, ◌↔◌, All, IfErr, IfOk, IsTrue, OnErr, OnOk, codes};
ghost use Rattle.http_header.specs.HeaderMap.{get_all};
ghost use Rattle.zt_view.specs.Guard.{IsAskedOnSite, IsOwnSite};

use http::{HeaderMap, HeaderValue, StatusCode, Uri, header};
use std::alloc::{AllocError, Global};

/// The server's own names: its address and its name, each with its port.
#[derive(Drop)]
pub struct Own {
    pub address: String,
    pub name: String,
    /// Whether the port is that of HTTP, which browsers leave out of the address and the name.
    pub is_port_left_out: bool,
}

/// The port of HTTP.
const HTTP: u16 = 80;

impl Own {
    ghost use Rattle.zt_view.specs.Guard.{IsAdmitted, IsAskedOf, IsOwnHost, IsOwnOf, IsOwnOrigin};

    /// Makes the names of a server at this port.
    pub fn new(alloc: Global, port: u16) -> Result<Own, AllocError>
        ensures { IfOk result (IsOwnOf port) }
    {
        Ok(Own {
            address: format!(in alloc; "127.0.0.1:{port}")?,
            name: format!(in alloc; "localhost:{port}")?,
            is_port_left_out: port == HTTP,
        })
    }

    /// Whether a request for this target with these headers is admitted. If it is not, the error is the status of the response.
    pub fn admits(&self, target: &Uri, headers: &HeaderMap) -> Result<(), StatusCode>
        ensures admitted { OnOk result (IsAdmitted self.now target.now headers.now) }
        ensures foreign { OnErr result (¬ (IsAdmitted self.now target.now headers.now)) }
        ensures status { IfErr result (λ status. 400 ≤ status) }
    {
        if target.scheme().is_some() || target.authority().is_some() {
            return Err(StatusCode::BAD_REQUEST);
        }
        if !self.is_asked(headers) {
            return Err(StatusCode::MISDIRECTED_REQUEST);
        }
        if self.is_asked_from_here(headers) && is_asked_on_site(headers) {
            Ok(())
        } else {
            Err(StatusCode::FORBIDDEN)
        }
    }

    /// Whether the headers name exactly one host, and it is this server.
    fn is_asked(&self, headers: &HeaderMap) -> bool
        ensures { IsTrue result ↔ IsAskedOf self.now (get_all headers.now (codes "host")) }
    {
        let mut hosts = headers.get_all(header::HOST).iter();
        match hosts.next() {
            Some(host) => match hosts.next() {
                Some(_) => false,
                None => self.is_host(host.as_bytes()),
            },
            None => false,
        }
    }

    /// Whether each origin in the headers is this server.
    fn is_asked_from_here(&self, headers: &HeaderMap) -> bool
        ensures { IsTrue result ↔ All (λ origin. IsOwnOrigin self.now origin.bytes) (get_all headers.now (codes "origin")) }
    {
        for origin in headers.get_all(header::ORIGIN) {
            if !self.is_origin(origin) {
                return false;
            }
        }
        true
    }

    /// Whether this origin is this server.
    fn is_origin(&self, origin: &HeaderValue) -> bool
        ensures { IsTrue result ↔ IsOwnOrigin self.now origin.now.bytes }
    {
        match origin.as_bytes().strip_prefix(b"http://".as_slice()) {
            Some(host) => self.is_host(host),
            None => false,
        }
    }

    /// Whether this is the server's address or name, with its port unless browsers leave it out.
    fn is_host(&self, host: &[u8]) -> bool
        ensures { IsTrue result ↔ IsOwnHost self.now host.now }
    {
        host.eq_ignore_ascii_case(self.address.as_bytes())
            || host.eq_ignore_ascii_case(self.name.as_bytes())
            || self.is_port_left_out
                && (host.eq_ignore_ascii_case(b"127.0.0.1")
                    || host.eq_ignore_ascii_case(b"localhost"))
    }
}

/// Whether no browser says that a page of another site asks. This is so if the header is missing, or if there is exactly one and
/// it names a page of this server or a person.
fn is_asked_on_site(headers: &HeaderMap) -> bool
    ensures { IsTrue result ↔ IsAskedOnSite (get_all headers.now (codes "sec-fetch-site")) }
{
    let mut sites = headers.get_all("sec-fetch-site").iter();
    match sites.next() {
        None => true,
        Some(site) => match sites.next() {
            None => is_own_site(site.as_bytes()),
            Some(_) => false,
        },
    }
}

/// Whether a browser says that a page of this server, or a person, asks.
fn is_own_site(site: &[u8]) -> bool
    ensures { IsTrue result ↔ IsOwnSite site.now }
{
    site == b"same-origin".as_slice() || site == b"none".as_slice()
}
