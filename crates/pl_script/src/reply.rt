// The text of a reply.
ghost use Rattle.std.specs.Prelude.{◌≡◌, ◌<◌, [], ◌∷◌, length, IfOk, codes, decimal};
ghost use Rattle.std.specs.Fmt.{signed_decimal};
ghost use Rattle.std.specs.List.{join_with_byte};
ghost use Rattle.std.specs.String.{string_bytes};
ghost use Rattle.pl_script.specs.Reply as spec;
ghost use Rattle.pl_script.specs.Script.{escaped as escaped_text};

use crate::field::{date_text, escaped};
use crate::rows::{bar_text, found_text, list_text};
use pl_base::{Micros, NoMemory, PageId, Refusal, Txt};
use pl_step::Reply;
use std::alloc::Global;

/// The reply's lines, each with its LF: those of a list are its length and its items.
pub fn reply_text(alloc: Global, reply: &Reply) -> Result<Txt, NoMemory>
    ensures exact { IfOk result (λ text. text ≡ spec.reply_text reply.now) }
    ensures reads_back { IfOk result (λ text. spec.AreLinesOf (spec.reply_lines reply.now) text) }
    ensures texts { IfOk result (λ text. spec.TellsTexts reply.now text) }
    ensures never_empty { IfOk result (λ text. 0 < length text) }
{
    match reply {
        Reply::Day { day, changed } => Ok(Txt::from(format!(in alloc;
            "day\t{}\tchanged\t{changed}\n",
            day.0
        )?)),
        Reply::Visit {
            visit,
            page,
            frecency,
        } => Ok(Txt::from(format!(in alloc;
            "visit\t{}\tpage\t{}\tfrecency\t{frecency}\n",
            visit.0, page.0
        )?)),
        Reply::Done => Txt::copied(alloc, "ok\n"),
        Reply::Page {
            id,
            frecency,
            count,
            last,
            typed,
            hidden,
            bookmarked,
            url,
            title,
            tags,
        } => {
            let numbers = numbers(alloc, *id, *frecency, *count, *last)?;
            let marks = marks(alloc, *typed, *hidden, *bookmarked)?;
            let texts = texts(alloc, url, title, tags)?;
            Ok(Txt::from(format!(in alloc; "page\t{numbers}\t{marks}\t{texts}\n")?))
        }
        Reply::Origin {
            prefix,
            host,
            reversed,
            total,
            pages,
            passes,
        } => {
            let names = texts(alloc, prefix, host, reversed)?;
            let passes = truth_text(*passes);
            Ok(Txt::from(format!(in alloc; "origin\t{names}\t{total}\t{pages}\t{passes}\n")?))
        }
        Reply::Stats {
            pages,
            visits,
            items,
            origins,
            sum,
            slots,
        } => {
            let rows = rows(alloc, *pages, *visits, *items)?;
            let totals = totals(alloc, *origins, *sum, *slots)?;
            Ok(Txt::from(format!(in alloc; "stats\t{rows}\t{totals}\n")?))
        }
        Reply::Removed { visits, pages } => Ok(Txt::from(format!(in alloc;
            "removed\tvisits\t{visits}\tpages\t{pages}\n"
        )?)),
        Reply::Item(id) => Ok(Txt::from(format!(in alloc; "item\t{}\n", id.0)?)),
        Reply::List(rows) => Ok(Txt::from(list_text(alloc, rows.as_slice())?)),
        Reply::Rows(rows) => Ok(Txt::from(found_text(alloc, rows.as_slice())?)),
        Reply::Place(text) => Ok(Txt::from(place_text(alloc, text)?)),
        Reply::Bar(rows) => Ok(Txt::from(bar_text(alloc, rows.as_slice())?)),
        Reply::Fill { group, total } => Ok(Txt::from(fill_text(alloc, group, *total)?)),
        Reply::NoFill => Txt::copied(alloc, "nofill\n"),
        Reply::Imported {
            items,
            tags,
            skipped,
        } => Ok(Txt::from(format!(in alloc;
            "imported\titems\t{items}\ttags\t{tags}\tskipped\t{skipped}\n"
        )?)),
        Reply::Restored {
            items,
            tags,
            skipped,
        } => Ok(Txt::from(format!(in alloc;
            "restored\titems\t{items}\ttags\t{tags}\tskipped\t{skipped}\n"
        )?)),
        Reply::Refused(refusal) => Ok(Txt::from(refusal_text(alloc, refusal)?)),
    }
}

// The fields of a page's line that are numbers.
fn numbers(
    alloc: Global,
    id: PageId,
    frecency: i64,
    count: u32,
    last: Option<Micros>,
) -> Result<String, NoMemory>
    ensures { IfOk result (λ text. string_bytes text ≡ join_with_byte 9
        (decimal id.0 ∷ signed_decimal frecency ∷ decimal count ∷ spec.date_text last ∷ [])) }
{
    let last = date_text(alloc, last)?;
    Ok(format!(in alloc; "{}\t{frecency}\t{count}\t{last}", id.0)?)
}

// Those that are truth values.
fn marks(alloc: Global, typed: bool, hidden: bool, bookmarked: bool) -> Result<String, NoMemory>
    ensures { IfOk result (λ text. string_bytes text ≡ join_with_byte 9
        (spec.truth_text typed ∷ spec.truth_text hidden ∷ spec.truth_text bookmarked ∷ [])) }
{
    let typed = truth_text(typed);
    let hidden = truth_text(hidden);
    let bookmarked = truth_text(bookmarked);
    Ok(format!(in alloc; "{typed}\t{hidden}\t{bookmarked}")?)
}

// The fields of a store's line that tell its rows.
fn rows(alloc: Global, pages: u32, visits: u32, items: u32) -> Result<String, NoMemory>
    ensures { IfOk result (λ text. string_bytes text ≡ join_with_byte 9
        (codes "pages" ∷ decimal pages ∷ codes "visits" ∷ decimal visits
        ∷ codes "items" ∷ decimal items ∷ [])) }
{
    Ok(format!(in alloc; "pages\t{pages}\tvisits\t{visits}\titems\t{items}")?)
}

// Those that tell the totals of its origins, and its slots.
fn totals(alloc: Global, origins: u32, sum: u64, slots: u64) -> Result<String, NoMemory>
    ensures { IfOk result (λ text. string_bytes text ≡ join_with_byte 9
        (codes "origins" ∷ decimal origins ∷ codes "sum" ∷ decimal sum
        ∷ codes "slots" ∷ decimal slots ∷ [])) }
{
    Ok(format!(in alloc; "origins\t{origins}\tsum\t{sum}\tslots\t{slots}")?)
}

// Those that are texts.
fn texts(alloc: Global, url: &Txt, title: &Txt, tags: &Txt) -> Result<String, NoMemory>
    ensures exact { IfOk result (λ text. string_bytes text ≡ join_with_byte 9
        (escaped_text url.now ∷ escaped_text title.now ∷ escaped_text tags.now ∷ [])) }
    ensures url { IfOk result (λ _. spec.IsReadAgain url.now) }
    ensures title { IfOk result (λ _. spec.IsReadAgain title.now) }
    ensures tags { IfOk result (λ _. spec.IsReadAgain tags.now) }
{
    let url = escaped(alloc, url.as_str())?;
    let title = escaped(alloc, title.as_str())?;
    let tags = escaped(alloc, tags.as_str())?;
    Ok(format!(in alloc; "{url}\t{title}\t{tags}")?)
}

// The line of a query's canonical text.
fn place_text(alloc: Global, text: &Txt) -> Result<String, NoMemory>
    ensures exact { IfOk result (λ written. string_bytes written
        ≡ spec.line_text (spec.reply_fields (Reply.Place text.now))) }
    ensures read_again { IfOk result (λ _. spec.IsReadAgain text.now) }
{
    let text = escaped(alloc, text.as_str())?;
    Ok(format!(in alloc; "place\t{text}\n")?)
}

// The line of a group of hosts that is filled in.
fn fill_text(alloc: Global, group: &Txt, total: u64) -> Result<String, NoMemory>
    ensures exact { IfOk result (λ written. string_bytes written
        ≡ spec.line_text (spec.reply_fields (Reply.Fill group.now total))) }
    ensures read_again { IfOk result (λ _. spec.IsReadAgain group.now) }
{
    let group = escaped(alloc, group.as_str())?;
    Ok(format!(in alloc; "fill\t{group}\t{total}\n")?)
}

fn truth_text(value: bool) -> &'static str
    ensures { result.now ≡ spec.truth_text value }
{
    if value { "1" } else { "0" }
}

fn refusal_text(alloc: Global, refusal: &Refusal) -> Result<String, NoMemory>
    ensures { IfOk result (λ text. string_bytes text
        ≡ spec.line_text (spec.reply_fields (Reply.Refused refusal.now))) }
{
    let number = refusal.number();
    match refusal {
        Refusal::NoVisit(id) => refused_for(alloc, number, u64::from(id.0)),
        Refusal::DayBack(kept) => refused_for(alloc, number, u64::from(kept.0)),
        Refusal::NoItem(id) | Refusal::NotAFolder(id) | Refusal::Fixed(id) | Refusal::Inside(id) =>
            refused_for(alloc, number, u64::from(id.0)),
        Refusal::BadPlace(position, length) => {
            Ok(format!(in alloc; "refused\t{number}\t{position}\t{length}\n")?)
        }
        Refusal::NoIds(kind) => refused_for(alloc, number, u64::from(kind.number())),
        Refusal::BadQuery(piece) => refused_for(alloc, number, *piece),
        Refusal::TooMany(rows) => refused_for(alloc, number, *rows),
        Refusal::Full(slots) => refused_for(alloc, number, *slots),
        Refusal::BadLine(column) => refused_for(alloc, number, u64::from(*column)),
        Refusal::BadUrl
        | Refusal::NotRecorded
        | Refusal::NoPage
        | Refusal::DupTag
        | Refusal::BadDate
        | Refusal::BadTag
        | Refusal::NoTag => Ok(format!(in alloc; "refused\t{number}\n")?),
    }
}

// The line of a refusal that tells one value.
fn refused_for(alloc: Global, number: u8, value: u64) -> Result<String, NoMemory>
    ensures { IfOk result (λ text. string_bytes text
        ≡ spec.line_text (codes "refused" ∷ decimal number ∷ decimal value ∷ [])) }
{
    Ok(format!(in alloc; "refused\t{number}\t{value}\n")?)
}
