// The lines of the drill.
ghost use Rattle.std.specs.Prelude.{◌≡◌, ◌+◌, ◌≤◌, IfOk, decimal};
ghost use Rattle.std.specs.String.{string_bytes};
ghost use Rattle.pl_drill.specs.Drill as spec;

use crate::draws::Draws;
use pl_base::{NoMemory, VisitId};
use std::alloc::Global;

fn url(alloc: Global, draws: &Draws) -> Result<String, NoMemory>
    ensures { IfOk result (λ text. string_bytes text ≡ spec.url draws.now) }
{
    Ok(format!(in alloc; "https://h{}.example/p{}", draws.host, draws.path)?)
}

/// A visit on a date.
pub(crate) fn visit(
    alloc: Global,
    draws: &Draws,
    date: u64,
    last: Option<VisitId>,
) -> Result<String, NoMemory>
    requires { draws.now.tag ≤ 8 }
    ensures { IfOk result (λ line. string_bytes line
        ≡ spec.visit_line (decimal date) last draws.now) }
{
    let url = url(alloc, draws)?;
    let transition = draws.tag + 1;
    match last {
        Some(source) if transition == 5 || transition == 6 => Ok(format!(in alloc;
            "visit\t{url}\t{transition}\t{date}\t{}",
            source.0
        )?),
        _ => Ok(format!(in alloc; "visit\t{url}\t{transition}\t{date}")?),
    }
}

/// A bookmark among those that are unfiled, behind all others.
pub(crate) fn bookmark(
    alloc: Global,
    draws: &Draws,
    number: u32,
    date: u64,
) -> Result<String, NoMemory>
    ensures { IfOk result (λ line. string_bytes line
        ≡ spec.bookmark_line number (decimal date) draws.now) }
{
    let url = url(alloc, draws)?;
    Ok(format!(in alloc; "bookmark\t5\tend\t{url}\tt{number}\t{date}")?)
}

pub(crate) fn tag(alloc: Global, draws: &Draws, date: u64) -> Result<String, NoMemory>
    ensures { IfOk result (λ line. string_bytes line ≡ spec.tag_line (decimal date) draws.now) }
{
    let url = url(alloc, draws)?;
    Ok(format!(in alloc; "tag\t{url}\ttag{}\t{date}", draws.tag)?)
}

pub(crate) fn day(alloc: Global, day: u32) -> Result<String, NoMemory>
    ensures { IfOk result (λ line. string_bytes line ≡ spec.day_line day) }
{
    Ok(format!(in alloc; "day\t{day}")?)
}

pub(crate) fn title(alloc: Global, draws: &Draws, number: u32) -> Result<String, NoMemory>
    ensures { IfOk result (λ line. string_bytes line ≡ spec.title_line number draws.now) }
{
    let url = url(alloc, draws)?;
    Ok(format!(in alloc; "title\t{url}\tpage {number}")?)
}

/// The visits before a day go.
pub(crate) fn expire(alloc: Global, day: u32) -> Result<String, NoMemory>
    ensures { IfOk result (λ line. string_bytes line ≡ spec.expire_line day) }
{
    Ok(format!(in alloc; "expire\t{day}")?)
}

pub(crate) fn bar(alloc: Global, draws: &Draws) -> Result<String, NoMemory>
    ensures { IfOk result (λ line. string_bytes line ≡ spec.bar_line draws.now) }
{
    Ok(format!(in alloc; "bar\t10\tp{}", draws.path)?)
}
