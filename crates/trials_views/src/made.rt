// Views that are made for a trial.
use pl_base::{Day, Micros, NoMemory, PageId, Txt, View};
use std::alloc::Global;

/// What a view is made of.
#[derive(Clone, Copy)]
pub struct Look<'a> {
    pub id: PageId,
    pub url: &'a str,
    pub prefix: &'a str,
    pub host: &'a str,
    pub title: &'a str,
    pub mark_title: &'a str,
    pub tags: &'a str,
    pub frecency: i64,
    pub last: Option<Micros>,
    pub due: Option<Day>,
}

impl<'a> Look<'a> {
    /// What this view is made of.
    pub fn of(view: &'a View) -> Look<'a> {
        Look {
            id: view.id,
            url: view.url.as_str(),
            prefix: view.prefix.as_str(),
            host: view.host.as_str(),
            title: view.title.as_str(),
            mark_title: view.mark_title.as_str(),
            tags: view.tags.as_str(),
            frecency: view.frecency,
            last: view.last,
            due: view.due,
        }
    }
}

/// The view that is made of this.
pub fn view(alloc: Global, look: Look) -> Result<View, NoMemory> {
    Ok(View {
        id: look.id,
        url: Txt::copied(alloc, look.url)?,
        title: Txt::copied(alloc, look.title)?,
        mark_title: Txt::copied(alloc, look.mark_title)?,
        tags: Txt::copied(alloc, look.tags)?,
        prefix: Txt::copied(alloc, look.prefix)?,
        host: Txt::copied(alloc, look.host)?,
        frecency: look.frecency,
        count: 1,
        last: look.last,
        due: look.due,
        typed: false,
        hidden: false,
        bookmarked: !look.mark_title.is_empty(),
        referenced: !look.mark_title.is_empty() || !look.tags.is_empty(),
    })
}

/// A number below an end that looks drawn at random, the same one for the same part of the same
/// turn; 0 where the end is 0.
pub fn drawn(turn: u32, part: u32, end: u32) -> u32 {
    let number = (u64::from(turn) << 32) | u64::from(part);
    let mut mixed = number.wrapping_mul(0x9e37_79b9_7f4a_7c15);
    mixed = (mixed ^ (mixed >> 30)).wrapping_mul(0xbf58_476d_1ce4_e5b9);
    mixed = (mixed ^ (mixed >> 27)).wrapping_mul(0x94d0_49bb_1331_11eb);
    match end {
        0 => 0,
        _ => ((mixed ^ (mixed >> 31)) % u64::from(end)) as u32,
    }
}
