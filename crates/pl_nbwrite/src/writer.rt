// The text of a tree.
ghost use Rattle.std.specs.Prelude.{◌≡◌, IfOk, None};
ghost use Rattle.pl_nbread.specs.BookmarkFile.{offset};
ghost use Rattle.pl_nbread.specs.BookmarkTree.{tree_of};
ghost use Rattle.pl_nbwrite.specs.BookmarkText.{file_text};
ghost use Rattle.pl_nbwrite.specs.Plain.{IsPlain};

use crate::lists::{push_nodes, push_root};
use pl_base::{NoMemory, Txt};
use pl_nbread::Tree;
use std::alloc::Global;

// What stands before the nodes of the menu.
const HEADER: &str = "<!DOCTYPE NETSCAPE-Bookmark-file-1>\n\
    <META HTTP-EQUIV=\"Content-Type\" CONTENT=\"text/html; charset=UTF-8\">\n\
    <TITLE>Bookmarks</TITLE>\n<H1>Bookmarks Menu</H1>\n\n<DL><p>\n";

// The attributes of the other roots.
const TOOLBAR: &str = " PERSONAL_TOOLBAR_FOLDER=\"true\"";

const UNFILED: &str = " UNFILED_BOOKMARKS_FOLDER=\"true\"";

const MOBILE: &str = " MOBILE_BOOKMARKS_FOLDER=\"true\"";

/// The bookmark file of a tree, as Firefox writes it.
pub fn text(alloc: Global, tree: &Tree) -> Result<Txt, NoMemory>
    ensures text { IfOk result (λ text. text ≡ file_text tree.now) }

    // It is read, and gives the tree again if that has nothing that a file cannot keep.
    ensures taken { IfOk result (λ text. offset text ≡ None) }
    ensures reads { IfOk result (λ text. IsPlain tree.now → tree_of text ≡ tree.now) }
{
    let mut file = String::from_str(alloc, HEADER)?;
    push_nodes(&mut file, 1, tree.menu.as_slice())?;
    push_root(
        &mut file,
        TOOLBAR,
        "Bookmarks Toolbar",
        tree.toolbar.as_slice(),
    )?;
    push_root(
        &mut file,
        UNFILED,
        "Other Bookmarks",
        tree.unfiled.as_slice(),
    )?;
    push_root(
        &mut file,
        MOBILE,
        "Mobile Bookmarks",
        tree.mobile.as_slice(),
    )?;
    file.push_str("</DL><p>\n")?;
    Ok(Txt::from(file))
}
