//! URLs of the scheme `http`.
ghost use Rattle.std.specs.Prelude.{◌≡◌, ◌↔◌, ◌++◌, None, Some, Err, IfOk};
ghost use Rattle.address_routing.specs.Urls.{http_target, target_in, path_and_query};
ghost use Rattle.address_routing.specs.declared.http_target.UrlFault.TheVariants.{BadUrl, OutOfMemory as WantsMemory};

use proto_wire::{Mem, OutOfMemory, Text};
use std::alloc::Global;
use url::{ParseError, Url};

/// Where an HTTP request goes.
#[derive(Drop)]
pub struct HttpTarget {
    /// As it is written in a URL: an IPv6 address stands in brackets.
    pub host: Text,
    pub port: u16,
    /// The path, which begins with `/`, and the query behind it with its `?`, where there is one.
    pub path: Text,
}

/// Why a text gave no target.
#[derive(Clone, Copy, Debug, PartialEq, Eq)]
pub enum UrlFault {
    /// The URL Standard refuses it, its scheme is not `http`, it has a user name, a password or a fragment, or it has
    /// 4 GB or more.
    BadUrl,
    /// The call could not get the memory that it asked for.
    OutOfMemory,
}

impl From<OutOfMemory> for UrlFault {
    ghost from_gives = { λ _ e. e ≡ WantsMemory };

    fn from(_: OutOfMemory) -> UrlFault {
        UrlFault::OutOfMemory
    }
}

/// A text of so many bytes is no URL.
const TOO_LONG: usize = 4_294_967_296;

/// The host, the port and the path of a URL, read as the URL Standard says (section 4.4).
#[tactic(auto, unfolding(crate::specs::Urls::http_target))]
pub fn split_url(alloc: Global, text: &Text) -> Result<HttpTarget, UrlFault>
    ensures found { IfOk result (λ target. http_target text.now ≡ Some target) }
    ensures bad { (result ≡ Err BadUrl) → http_target text.now ≡ None }
{
    if text.len() >= TOO_LONG {
        return Err(UrlFault::BadUrl);
    }
    match Url::parse(alloc, text.as_str()) {
        Ok(url) => target_in(alloc, &url),
        // Text that is longer than the parser can keep is want of room as well.
        Err(ParseError::OutOfMemory) => Err(UrlFault::OutOfMemory),
        Err(ParseError::Overflow) => Err(UrlFault::OutOfMemory),
        Err(ParseError::EmptyHost) => Err(UrlFault::BadUrl),
        Err(ParseError::IdnaError) => Err(UrlFault::BadUrl),
        Err(ParseError::InvalidPort) => Err(UrlFault::BadUrl),
        Err(ParseError::InvalidIpv4Address) => Err(UrlFault::BadUrl),
        Err(ParseError::InvalidIpv6Address) => Err(UrlFault::BadUrl),
        Err(ParseError::InvalidDomainCharacter) => Err(UrlFault::BadUrl),
        Err(ParseError::RelativeUrlWithoutBase) => Err(UrlFault::BadUrl),
        Err(ParseError::RelativeUrlWithCannotBeABaseBase) => Err(UrlFault::BadUrl),
        Err(ParseError::SetHostOnCannotBeABaseUrl) => Err(UrlFault::BadUrl),
        Err(ParseError::CannotSet) => Err(UrlFault::BadUrl),
    }
}

/// The target of a URL.
#[tactic(auto, unfolding(crate::specs::Urls::target_in))]
fn target_in(alloc: Global, url: &Url) -> Result<HttpTarget, UrlFault>
    ensures found { IfOk result (λ target. target_in url.now ≡ Some target) }
    ensures bad { (result ≡ Err BadUrl) ↔ (target_in url.now ≡ None) }
{
    if url.scheme() != "http" || !url.username().is_empty() {
        return Err(UrlFault::BadUrl);
    }
    if url.password().is_some() || url.fragment().is_some() {
        return Err(UrlFault::BadUrl);
    }
    let Some(host) = url.host_str() else {
        return Err(UrlFault::BadUrl);
    };
    let host = Text::copy_of(alloc, host)?;
    let path = path_and_query(alloc, url)?;
    Ok(HttpTarget {
        host,
        port: url.port().unwrap_or(80),
        path,
    })
}

fn path_and_query(alloc: Global, url: &Url) -> Mem<Text>
    ensures { IfOk result (λ path. path ≡ path_and_query url.now) }
{
    let mut path = Text::copy_of(alloc, url.path())?;
    if let Some(query) = url.query() {
        path.append("?")?;
        path.append(query)?;
    }
    Ok(path)
}
