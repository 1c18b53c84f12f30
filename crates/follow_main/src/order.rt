use pl_base::number_32;

/// What follows the views.
#[derive(Clone, Copy, Debug, PartialEq, Eq)]
pub enum Kept {
    Nothing,
    Urls,
    Orders,
    Texts,
    Days,
    Totals,
    All,
}

impl Kept {
    fn of(word: &str) -> Option<Kept> {
        match word {
            "none" => Some(Kept::Nothing),
            "urls" => Some(Kept::Urls),
            "orders" => Some(Kept::Orders),
            "texts" => Some(Kept::Texts),
            "days" => Some(Kept::Days),
            "totals" => Some(Kept::Totals),
            "all" => Some(Kept::All),
            _ => None,
        }
    }
}

/// What the words ask for: what follows so many views, and so many changes of them.
#[derive(Clone, Copy, Debug, PartialEq, Eq)]
pub struct Order {
    pub kept: Kept,
    pub views: u32,
    pub changes: u32,
}

impl Order {
    /// What the words say, if they say it.
    pub fn of(words: &[String]) -> Option<Order> {
        let [kept, views, changes] = words else {
            return None;
        };
        Some(Order {
            kept: Kept::of(kept.as_str())?,
            views: number_32(views.as_bytes())?,
            changes: number_32(changes.as_bytes())?,
        })
    }
}
