use pl_base::number_32;

/// How the rows are kept.
#[derive(Clone, Copy, Debug, PartialEq, Eq)]
pub enum Form {
    Linked,
    Flat,
}

impl Form {
    fn of(word: &str) -> Option<Form> {
        match word {
            "linked" => Some(Form::Linked),
            "flat" => Some(Form::Flat),
            _ => None,
        }
    }
}

/// A group of calls on rows that are drawn.
#[derive(Clone, Copy, Debug, PartialEq, Eq)]
pub enum Group {
    /// A page is looked up, and what belongs to it.
    Pages,
    /// A visit is looked up, and those beside it.
    Visits,
    /// An item is looked up, and those beside it.
    Items,
    Texts,
    /// What is kept of all rows together.
    Whole,
    /// The day, a frecency and a total are set.
    Marks,
    /// A page gets a title of another length.
    Titles,
    /// A visit comes and goes.
    VisitChanges,
    /// A folder comes, moves, gets a title and goes.
    ItemChanges,
}

/// What is done with rows.
#[derive(Clone, Copy, Debug, PartialEq, Eq)]
pub enum Work {
    Rounds(Group),
    /// A page comes and goes, with its origin.
    PageChanges,
}

impl Work {
    fn of(word: &str) -> Option<Work> {
        let group = match word {
            "pages" => Group::Pages,
            "visits" => Group::Visits,
            "items" => Group::Items,
            "texts" => Group::Texts,
            "whole" => Group::Whole,
            "marks" => Group::Marks,
            "titles" => Group::Titles,
            "visit-changes" => Group::VisitChanges,
            "item-changes" => Group::ItemChanges,
            "page-changes" => return Some(Work::PageChanges),
            _ => return None,
        };
        Some(Work::Rounds(group))
    }
}

/// What the words ask for: rows of this form, and the work, so many times.
#[derive(Clone, Copy, Debug, PartialEq, Eq)]
pub struct Order {
    pub form: Form,
    pub work: Work,
    pub times: u32,
}

impl Order {
    /// What the words say, if they say it.
    pub fn of(words: &[String]) -> Option<Order> {
        let [form, work, times] = words else {
            return None;
        };
        Some(Order {
            form: Form::of(form.as_str())?,
            work: Work::of(work.as_str())?,
            times: number_32(times.as_bytes())?,
        })
    }
}
