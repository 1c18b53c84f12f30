//! Reads a JSON backup from standard input, and says how many nodes it holds and how many values
//! were left out, or why it is none. It is timed by `bench/backups_read.py`.
#![tactic(auto)]

ghost use Rattle.std.specs.Prelude.{◌<◌, IfOk};
ghost use Rattle.std.specs.Vec.{vec_len};
ghost use Rattle.pl_nbread.specs.BookmarkFile.{file_limit};

use pl_backup::read;
use pl_nbread::{FILE_LIMIT, Tree};
use std::alloc::Global;
use std::io::{self, Read};

fn main(rt: HostRuntime) -> io::Result<()> {
    let bytes = input(&rt)?;
    match read(rt.alloc(), &bytes) {
        Ok(tree) => say(&rt, &tree),
        Err(error) => println!(rt; "{error}"),
    }
}

// The bytes of standard input, of which a file has fewer than the limit.
fn input(rt: &HostRuntime) -> io::Result<Vec<u8>>
    ensures { IfOk result (λ bytes. vec_len bytes < file_limit) }
{
    let mut bytes = Vec::new(rt.alloc());
    rt.stdin().read_to_end(&mut bytes)?;
    bytes.truncate(FILE_LIMIT - 1);
    Ok(bytes)
}

fn say(rt: &impl Print, tree: &Tree) -> io::Result<()> {
    let lists = [&tree.menu, &tree.toolbar, &tree.unfiled, &tree.mobile];
    for nodes in lists {
        println!(rt; "{}", nodes.as_slice().len())?;
    }
    println!(rt; "skipped {}", tree.skipped)
}
