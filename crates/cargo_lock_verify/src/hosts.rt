//! In which index folders of Cargo's `registry/cache` the archives of a package lie.

ghost use Rattle.std.specs.Prelude.{◌≡◌, IfOk, Some, bytes_eq, map, option_copied, option_map};
ghost use Rattle.std.specs.Prelude.{string_bytes};
ghost use Rattle.std.specs.List.{list_any};
ghost use Rattle.cargo_lock_verify.specs.Hosts as spec;
ghost use Rattle.cargo_lock_verify.specs.Hosts.{hosts_data};

use cargo_lock_order::is_canonically_crates_io;
use cargo_lock_parts::package::{Package, SourceId};
use std::alloc::{AllocError, Global};
use url::Url;

/// The hosts in the names of the index folders in which Cargo keeps the archives of a package, and
/// unpacks them. Cargo names such a folder `HOST-HASH`, by the URL of the registry.
#[derive(Clone, Copy)]
pub struct Hosts<'p> {
    // The host of the URL of its source, empty where that has none; none without a source.
    own: Option<&'p str>,

    // Whether Cargo takes the source for crates.io, which has an index in git and a sparse one.
    is_crates_io: bool,
}

impl<'p> Hosts<'p> {
    /// The hosts of a package.
    ///
    /// # Errors
    ///
    /// Fails when out of memory.
    ///
    /// ```
    /// let hosts = Hosts::of(alloc, package)?;
    /// ```
    pub fn of(alloc: Global, package: &'p Package) -> Result<Hosts<'p>, AllocError>
        ensures { IfOk result (λ hosts. hosts_data hosts ≡ spec.hosts_of «package».now.source) }
    {
        match &package.source {
            Some(source) => Hosts::of_source(alloc, source),
            None => Ok(Hosts {
                own: None,
                is_crates_io: false,
            }),
        }
    }

    // The hosts of a source.
    fn of_source(alloc: Global, source: &'p SourceId) -> Result<Hosts<'p>, AllocError>
        ensures { IfOk result (λ hosts. hosts_data hosts ≡ spec.hosts_of (Some source.now)) }
    {
        let is_crates_io = is_canonically_crates_io(alloc, source)?;
        Ok(Hosts {
            own: Some(host_of(source.url())),
            is_crates_io,
        })
    }

    /// Whether what lies in an index folder of this host may be of a source with these hosts or of a
    /// mirror. What lies in no index folder always may.
    ///
    /// ```
    /// let is_near = hosts.reach(&[], &archive.host);
    /// ```
    pub fn reach(&self, mirrors: &[&str], host: &Option<String>) -> bool
        ensures { result ≡ spec.is_in_reach (map (λ t. t.now) mirrors.now) (hosts_data self.now)
            (option_map string_bytes host.now) }
    {
        match host {
            Some(host) => self.has(host) || is_among(mirrors, host),
            None => true,
        }
    }

    // Whether the host is one of these.
    fn has(&self, host: &str) -> bool
        ensures { result ≡ spec.has_host (hosts_data self.now) host.now }
    {
        self.is_own(host) || self.is_crates_io && is_host_of_crates_io(host)
    }

    // Whether it is the host of the source.
    fn is_own(&self, host: &str) -> bool
        ensures { result ≡ spec.is_own (option_copied self.now.own) host.now }
    {
        match self.own {
            Some(own) => own == host,
            None => false,
        }
    }
}

// The host of a URL, empty if it has none.
fn host_of(url: &Url) -> &str
    ensures { result.now ≡ spec.host_of url.now }
{
    url.host_str().unwrap_or("")
}

// Whether the host is that of an index of crates.io.
fn is_host_of_crates_io(host: &str) -> bool
    ensures { result ≡ spec.is_host_of_crates_io host.now }
{
    host == "github.com" || host == "index.crates.io"
}

// Whether the host is one of mirrors.
fn is_among(mirrors: &[&str], host: &str) -> bool
    ensures { result ≡ list_any (bytes_eq host.now) (map (λ t. t.now) mirrors.now) }
{
    is_one(mirrors, host)
}

// The same, as a test of each mirror.
fn is_one(mirrors: &[&str], host: &str) -> bool
    ensures { result ≡ list_any (λ mirror. bytes_eq host.now mirror.now) mirrors.now }
{
    mirrors.iter().any(|mirror| host == *mirror)
}
