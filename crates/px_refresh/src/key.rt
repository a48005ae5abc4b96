//! What cookies are kept under: a site, a path and a name.
ghost use Rattle.std.specs.Prelude.{◌≡◌, IfOk, nat_eq, true};
ghost use Rattle.std.specs.List.{starts_with};
ghost use Rattle.px_message.specs.Value.{is_value};
ghost use Rattle.px_refresh.specs.Site.{is_same_cookie, is_same_site, site_of};

use crate::ordered::{OrderedBytes, OrderedValue};
use px_message::{Request, Value};
use px_text::{Bytes, NoMemory};
use std::alloc::{AllocError, Global};

/// Whom cookies are kept for: a host, in lower case, and a port.
#[derive(Debug, Drop, PartialEq, Eq, PartialOrd, Ord)]
pub struct Site {
    host: OrderedBytes,
    port: u16,
}

/// What a cookie is kept under: its site, the path that it is for, and its name.
///
/// Keys have an order: by these parts, one after the other, each byte by byte.
#[derive(Debug, Drop, PartialEq, Eq, PartialOrd, Ord)]
pub struct CookieKey {
    pub(crate) site: Site,
    path: OrderedBytes,
    name: OrderedValue,
}

impl Clone for Site {
    ghost is_clone = { λ x y. y ≡ x };

    fn clone(&self) -> Result<Site, AllocError> {
        Ok(Site {
            host: self.host.clone()?,
            port: self.port,
        })
    }
}

impl Clone for CookieKey {
    ghost is_clone = { λ x y. y ≡ x };

    fn clone(&self) -> Result<CookieKey, AllocError> {
        Ok(CookieKey {
            site: self.site.clone()?,
            path: self.path.clone()?,
            name: self.name.clone()?,
        })
    }
}

impl Site {
    /// The site of a request: its host without the case of its letters, and its port.
    pub fn of(alloc: Global, request: &Request) -> Result<Site, NoMemory>
        ensures { IfOk result (λ site. site ≡ site_of request.now) }
    {
        let host = request.host.bytes().to_ascii_lowercase(alloc)?;
        Ok(Site {
            host: OrderedBytes::new(Bytes::new(host)?),
            port: request.port,
        })
    }

    /// Whether the two are the same.
    pub fn is_same(&self, other: &Site) -> bool
        ensures { result ≡ is_same_site self.now other.now }
    {
        self == other
    }

    /// A copy of the same site. It shares the bytes.
    pub fn try_clone(&self) -> Result<Site, NoMemory>
        ensures { IfOk result (λ copy. copy ≡ self.now) }
    {
        Ok(self.clone()?)
    }
}

impl CookieKey {
    /// The key of these parts.
    pub fn new(site: Site, path: Bytes, name: Value) -> CookieKey
        ensures { result ≡ record { site = site; path = path; name = name } }
    {
        CookieKey {
            site,
            path: OrderedBytes::new(path),
            name: OrderedValue::new(name),
        }
    }

    /// The name.
    pub fn name(&self) -> &[u8]
        ensures bytes { result.now ≡ self.now.name }
        ensures valid { is_value self.now.name ≡ true }
    {
        self.name.bytes()
    }

    /// Whether its path is the beginning of this one.
    pub fn is_for(&self, path: &[u8]) -> bool
        ensures { result ≡ starts_with nat_eq path.now self.now.path }
    {
        path.starts_with(self.path.bytes())
    }

    /// Whether the two are the same.
    pub fn is_same(&self, other: &CookieKey) -> bool
        ensures { result ≡ is_same_cookie self.now other.now }
    {
        self == other
    }

    /// A copy of the same key. It shares the bytes.
    pub fn try_clone(&self) -> Result<CookieKey, NoMemory>
        ensures { IfOk result (λ copy. copy ≡ self.now) }
    {
        Ok(self.clone()?)
    }
}
