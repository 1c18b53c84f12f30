ghost use Rattle.std.specs.Prelude.{◌≡◌, string_bytes, IfOk, IsOkAnd, IsTrue, nat_eq};
ghost use Rattle.std.specs.List.{starts_with};
ghost use Rattle.pl_base.specs.Address as address;
ghost use Rattle.pl_base.specs.Address.{record_of};
ghost use Rattle.pl_link.specs.Parts.{ArePartsOf};

use crate::Canon;
use pl_base::{NoMemory, Txt};
use std::alloc::Global;
use url::{Position, Url};

/// The parts of a URL that the store keeps beside its text.
#[derive(Debug, Drop)]
pub struct Parts {
    /// The scheme with `://` where an authority follows, and with `:` elsewhere.
    pub prefix: Txt,
    /// The host with its port, without user name and password. It is often empty.
    pub host: Txt,
    /// The host without its port, its characters reversed, and a full stop.
    pub rev_host: Txt,
    /// Whether the URL holds a query of the store.
    pub is_place: bool,
}

/// The parts of the URL.
pub fn split(alloc: Global, url: &Canon) -> Result<Parts, NoMemory>
    ensures parts { IfOk result (λ parts.
        IsOkAnd (record_of url.now) (λ found. ArePartsOf found parts)) }
    ensures start { IfOk result (λ parts. IsTrue (starts_with nat_eq url.now parts.prefix)) }
{
    let record = url.record();
    Ok(Parts {
        prefix: Txt::copied(alloc, prefix(record))?,
        host: Txt::copied(alloc, host_and_port(record))?,
        rev_host: Txt::from(reversed_host(alloc, record)?),
        is_place: record.scheme() == "place",
    })
}

pub(crate) fn prefix(url: &Url) -> &str
    ensures { result.now ≡ address.prefix url.now }
{
    url.slice(Position::BeforeScheme, Position::BeforeUsername)
}

fn host_and_port(url: &Url) -> &str
    ensures { result.now ≡ address.host_and_port url.now }
{
    url.slice(Position::BeforeHost, Position::AfterPort)
}

fn reversed_host(alloc: Global, url: &Url) -> Result<String, NoMemory>
    ensures { IfOk result (λ text. string_bytes text ≡ address.reversed_host url.now) }
{
    let host = url.slice(Position::BeforeHost, Position::AfterHost);
    let mut reversed = host.chars().rev().collect::<String>(alloc)?;
    reversed.push('.')?;
    Ok(reversed)
}
