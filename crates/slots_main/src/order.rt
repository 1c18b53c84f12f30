ghost use Rattle.std.specs.Prelude.{◌≤◌, IfSome};

use pl_base::number_32;

/// What is done with slots.
#[derive(Clone, Copy, Debug, PartialEq, Eq)]
pub enum Work {
    Read,
    Write,
    /// A field is set by reading and writing its row.
    Field,
    /// A field is set as a link.
    Link,
    Touched,
    Texts,
}

impl Work {
    fn of(word: &str) -> Option<Work> {
        match word {
            "read" => Some(Work::Read),
            "write" => Some(Work::Write),
            "field" => Some(Work::Field),
            "link" => Some(Work::Link),
            "touched" => Some(Work::Touched),
            "texts" => Some(Work::Texts),
            _ => None,
        }
    }
}

/// What the words ask for: the work, on so many live slots, so many times.
#[derive(Clone, Copy, Debug, PartialEq, Eq)]
pub struct Order {
    pub work: Work,
    pub count: u32,
    pub times: u32,
}

impl Order {
    /// What the words say, if they say it.
    pub fn of(words: &[String]) -> Option<Order>
        ensures { IfSome result (λ order. 1 ≤ order.count) }
    {
        let [work, count, times] = words else {
            return None;
        };
        let work = Work::of(work.as_str())?;
        let count = number_32(count.as_bytes())?;
        let times = number_32(times.as_bytes())?;
        if count == 0 {
            return None;
        }
        Some(Order { work, count, times })
    }
}
