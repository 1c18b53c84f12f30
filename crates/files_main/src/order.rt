/// What is done with standard input.
#[derive(Clone, Copy, Debug, PartialEq, Eq)]
pub enum Work {
    /// It is a script, and the file that it leaves is written.
    Write,
    /// It is a file, and the slots of its store are counted.
    Check,
    /// It is a file, and all its rows are said.
    Rows,
    /// It is a script, and the rows of the file that it leaves are said, as they are checked again.
    Again,
}

impl Work {
    /// What the words say, if they say it.
    pub fn of(words: &[String]) -> Option<Work> {
        let [word] = words else {
            return None;
        };
        match word.as_str() {
            "write" => Some(Work::Write),
            "check" => Some(Work::Check),
            "rows" => Some(Work::Rows),
            "again" => Some(Work::Again),
            _ => None,
        }
    }
}
