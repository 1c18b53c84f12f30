ghost use Rattle.std.specs.Prelude.{◌≡◌};
ghost use Rattle.pl_task.specs.Task.{spelled, task_alone, task_drill, task_of, task_on_file};

use pl_base::{number, number_32};
use pl_drill::MOST_LINES;

/// Reading a script stops where this many bytes were read.
pub const SCRIPT_LIMIT: usize = 2_147_483_648;

/// What the words ask for.
#[derive(Clone, Copy, Debug, PartialEq, Eq)]
pub enum Task {
    /// A script on a store in memory.
    Try,
    /// A new store in an empty file.
    New,
    /// A script on the store of a file.
    Run,
    /// A bookmark file put into the store of a file.
    Import,
    /// The bookmark file of the store of a file.
    Export,
    /// The JSON backup of the bookmarks of the store of a file.
    Backup,
    /// A JSON backup in place of the bookmarks of the store of a file.
    Restore,
    /// So many generated lines, drawn from a seed, on the store of a file.
    Drill(u32, u64),
}

impl Task {
    /// What these words ask for: the name of a task, behind each but `try` the path of the store's
    /// file, and behind that of a drill a number of lines from 1 to 100,000 and a seed of 64 bits,
    /// both in decimal digits without leading zeros.
    pub fn of(words: &[&str]) -> Option<Task>
        ensures { result ≡ task_of (spelled words.now) }
    {
        match words {
            [word] => Task::alone(word),
            [word, _] => Task::on_file(word),
            [word, _, count, seed] => Task::drill(word, count, seed),
            _ => None,
        }
    }

    // What a word alone asks for.
    fn alone(word: &str) -> Option<Task>
        ensures { result ≡ task_alone word.now }
    {
        match word {
            "try" => Some(Task::Try),
            _ => None,
        }
    }

    // What a word with the path of a store's file asks for.
    fn on_file(word: &str) -> Option<Task>
        ensures { result ≡ task_on_file word.now }
    {
        match word {
            "new" => Some(Task::New),
            "run" => Some(Task::Run),
            "import" => Some(Task::Import),
            "export" => Some(Task::Export),
            "backup" => Some(Task::Backup),
            "restore" => Some(Task::Restore),
            _ => None,
        }
    }

    // What a word with the path of a store's file, a number of lines and a seed asks for.
    fn drill(word: &str, count: &str, seed: &str) -> Option<Task>
        ensures { result ≡ task_drill word.now count.now seed.now }
    {
        if word != "drill" {
            return None;
        }
        let count = number_32(count.as_bytes())?;
        let seed = number(seed.as_bytes())?;
        if !(1..=MOST_LINES).contains(&count) {
            return None;
        }
        Some(Task::Drill(count, seed))
    }
}
