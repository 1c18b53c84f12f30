// A page comes, is changed and goes, in slots and beside them over vectors.
ghost use Rattle.std.specs.Prelude.{◌≡◌, ◌<◌};

use pl_base::{Day, Mark, PageId, Rows, Steps};
use pl_link::Canon;
use pl_linked::Linked;
use pl_plain::Flat;
use std::alloc::Global;
use std::marker::Brand;
use std::process::Abort;
use std::sync::ledger::{Blank, Ledger};
use std::test::Fail;

const URL: &str = "https://a.example/a-path-that-takes-two-slots-since-it-has-more-than-one-\
    hundred-and-twenty-bytes-as-a-page-of-a-long-name-may-have/";

fn check_page<L: Ledger>(
    rt: &impl Abort,
    linked: &Linked,
    flat: &Flat,
    page: PageId,
    steps: &mut Steps<L>,
) -> Result<(), Fail> {
    assert_eq!(rt; linked.page_at(page, steps), flat.page_at(page, steps));
    assert_eq!(rt; linked.ids(steps), flat.ids(steps));
    assert_eq!(rt; linked.day(steps), flat.day(steps));
    assert_eq!(rt; linked.live(steps), flat.live(steps));
    Ok(())
}

fn change_page<L: Ledger>(rt: &impl Abort, alloc: Global, blank: Blank) -> Result<(), Fail>
    requires name { blank.name ≡ L.name }
    requires parts { blank.parts ≡ L.parts }
    requires some { 0 < blank.parts }
{
    let steps = &mut Steps::<L>::none(blank);
    let mut linked = Linked::opening(alloc)?;
    let mut flat = Flat::opening(alloc)?;
    let url = Canon::read(alloc, URL)?;
    let page = linked.insert_page(url.text(), None, steps)?;
    assert_eq!(rt; flat.insert_page(url.text(), None, steps)?, page);
    check_page(rt, &linked, &flat, page, steps)?;
    linked.set_day(Day(20_000), steps);
    flat.set_day(Day(20_000), steps);
    linked.set_title(page, "A title", steps)?;
    flat.set_title(page, "A title", steps)?;
    check_page(rt, &linked, &flat, page, steps)?;
    linked.remove_page(page, steps);
    flat.remove_page(page, steps);
    check_page(rt, &linked, &flat, page, steps)
}

// Both texts of a page are read back.
fn read_texts<L: Ledger>(rt: &impl Abort, alloc: Global, blank: Blank) -> Result<(), Fail>
    requires name { blank.name ≡ L.name }
    requires parts { blank.parts ≡ L.parts }
    requires some { 0 < blank.parts }
{
    let steps = &mut Steps::<L>::none(blank);
    let mut linked = Linked::opening(alloc)?;
    let url = Canon::read(alloc, URL)?;
    let page = linked.insert_page(url.text(), None, steps)?;
    assert_eq!(rt; linked.url(page, steps)?.as_str(), url.text());
    linked.set_title(page, "A title", steps)?;
    assert_eq!(rt; linked.title(page, steps)?.as_str(), "A title");
    Ok(())
}

#[test]
fn a_page_comes_and_goes_as_over_vectors(rt: HostRuntime) -> Result<(), Fail> {
    change_page::<Brand>(&rt, rt.alloc(), Blank::new(1))
}

#[test]
fn the_texts_of_a_page_are_read_back(rt: HostRuntime) -> Result<(), Fail> {
    read_texts::<Brand>(&rt, rt.alloc(), Blank::new(1))
}
