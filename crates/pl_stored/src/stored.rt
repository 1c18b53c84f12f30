use pl_base::{Day, Ids, Micros, PageId, Transition, TreeItem, Txt, VisitId};
use pl_link::Canon;
use std::marker::Model;

/// A page as a file has it.
#[derive(Debug, Drop)]
pub struct StoredPage {
    pub id: PageId,
    pub typed: bool,
    pub frecency: i64,
    pub url: Canon,
    pub title: Txt,
}

/// A visit as a file has it.
#[derive(Clone, Copy, Debug)]
pub struct StoredVisit {
    pub id: VisitId,
    pub page: PageId,
    pub date: Micros,
    pub transition: Transition,
    pub source: Option<VisitId>,
}

/// The rows of a file.
#[derive(Debug, Drop)]
pub struct StoredRows {
    pub day: Day,
    pub ids: Ids,
    pub pages: Vec<StoredPage>,
    pub visits: Vec<StoredVisit>,
    pub items: Vec<TreeItem>,
}

impl Model for StoredRows {
    ghost use Rattle.pl_stored.specs.Stored.{Stored};

    ghost Value = { Stored };

    ghost view = { λ r. record {
      day = r.day;
      ids = r.ids;
      pages = r.pages.items;
      visits = r.visits.items;
      items = r.items.items;
    } };
}
