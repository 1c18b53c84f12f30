use crate::fault::Fault;
use pl_base::Txt;
use std::io;

/// Two texts that should be the same.
#[derive(Debug, Drop)]
pub struct Apart {
    pub left: Txt,
    pub right: Txt,
}

/// How the work ended on two engines.
#[derive(Debug, Drop)]
pub enum Outcome {
    /// So many replies are the same, and so are the bookmarks behind them, where these were asked
    /// for.
    Alike(u64),
    /// The replies to the line of this number differ.
    Replies(u64, Apart),
    /// All replies are the same, and the bookmarks behind them differ.
    Bookmarks(Apart),
}

impl Outcome {
    /// The exit status.
    pub fn status(&self) -> u8 {
        match self {
            Outcome::Alike(_) => 0,
            _ => 1,
        }
    }

    /// Prints it.
    pub fn say(&self, rt: &impl Print) -> Result<(), Fault> {
        self.print(rt).map_err(|_| Fault::NotSaid)
    }

    fn print(&self, rt: &impl Print) -> io::Result<()> {
        match self {
            Outcome::Alike(count) => println!(rt; "{count} replies alike"),
            Outcome::Replies(line, apart) => {
                println!(rt; "line {line}")?;
                apart.print(rt)
            }
            Outcome::Bookmarks(apart) => {
                println!(rt; "bookmarks")?;
                apart.print(rt)
            }
        }
    }
}

impl Apart {
    fn print(&self, rt: &impl Print) -> io::Result<()> {
        print!(rt; "{}", self.left.as_str())?;
        print!(rt; "{}", self.right.as_str())
    }
}
