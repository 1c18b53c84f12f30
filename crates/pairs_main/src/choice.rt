ghost use Rattle.std.specs.Prelude.{◌≤◌, IfSome};
ghost use Rattle.pl_base.specs.Live.{slot_limit};

use pl_base::{SLOT_LIMIT, number_32};

/// On which engines the work is done.
#[derive(Clone, Copy, Debug, PartialEq, Eq)]
pub enum Choice {
    Both,
    Linked,
    Flat,
}

impl Choice {
    fn of(word: &str) -> Option<Choice> {
        match word {
            "both" => Some(Choice::Both),
            "linked" => Some(Choice::Linked),
            "flat" => Some(Choice::Flat),
            _ => None,
        }
    }
}

/// What is done with standard input.
#[derive(Clone, Copy, Debug, PartialEq, Eq)]
pub enum Work {
    /// Its lines are performed.
    Script,
    /// It is a bookmark file, which is imported.
    Import,
    /// The same, and then the bookmarks are exported.
    Export,
}

impl Work {
    fn of(word: &str) -> Option<Work> {
        match word {
            "script" => Some(Work::Script),
            "import" => Some(Work::Import),
            "export" => Some(Work::Export),
            _ => None,
        }
    }
}

/// What the words ask for: the engines, the work, and how many slots a store may take.
#[derive(Clone, Copy, Debug, PartialEq, Eq)]
pub struct Order {
    pub choice: Choice,
    pub work: Work,
    pub limit: u32,
}

impl Order {
    /// What the words say, if they say it.
    pub fn of(words: &[String]) -> Option<Order>
        ensures { IfSome result (λ order. order.limit ≤ slot_limit) }
    {
        match words {
            [choice, work] => Order::within(choice.as_str(), work.as_str(), SLOT_LIMIT),
            [choice, work, limit] => {
                let limit = number_32(limit.as_bytes())?;
                Order::within(choice.as_str(), work.as_str(), limit)
            }
            _ => None,
        }
    }

    fn within(choice: &str, work: &str, limit: u32) -> Option<Order>
        ensures { IfSome result (λ order. order.limit ≤ slot_limit) }
    {
        if limit > SLOT_LIMIT {
            return None;
        }
        Some(Order {
            choice: Choice::of(choice)?,
            work: Work::of(work)?,
            limit,
        })
    }
}
