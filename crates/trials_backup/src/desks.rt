// Backups of a store in memory that is kept as a file, and the texts that are wanted.
use pl_base::NoMemory;
use pl_desk::MemDesk;
use std::alloc::Global;
use std::process::Abort;
use std::test::Fail;
use trials_desks::{done, new_store, said_text};

/// The values below the four roots, from the menu on.
pub type Roots<'a> = (&'a str, &'a str, &'a str, &'a str);

// What stands behind the children of the top and of each root.
const TOP_END: &str = "],\"dateAdded\":0,\"guid\":\"root________\",\"lastModified\":0,\
    \"root\":\"placesRoot\",\"title\":\"\",\"type\":\"text/x-moz-place-container\",\"typeCode\":2}\n";

const MENU_END: &str = "],\"dateAdded\":0,\"guid\":\"menu________\",\"lastModified\":0,\
    \"root\":\"bookmarksMenuFolder\",\"title\":\"\",\
    \"type\":\"text/x-moz-place-container\",\"typeCode\":2}";

const TOOLBAR_END: &str = "],\"dateAdded\":0,\"guid\":\"toolbar_____\",\"lastModified\":0,\
    \"root\":\"toolbarFolder\",\"title\":\"\",\
    \"type\":\"text/x-moz-place-container\",\"typeCode\":2}";

const UNFILED_END: &str = "],\"dateAdded\":0,\"guid\":\"unfiled_____\",\"lastModified\":0,\
    \"root\":\"unfiledBookmarksFolder\",\"title\":\"\",\
    \"type\":\"text/x-moz-place-container\",\"typeCode\":2}";

const MOBILE_END: &str = "],\"dateAdded\":0,\"guid\":\"mobile______\",\"lastModified\":0,\
    \"root\":\"mobileFolder\",\"title\":\"\",\
    \"type\":\"text/x-moz-place-container\",\"typeCode\":2}";

/// The whole text that has these values below the roots.
pub fn backup_of(alloc: Global, roots: Roots) -> Result<String, NoMemory> {
    let (menu, toolbar, unfiled, mobile) = roots;
    Ok(format!(in alloc;
        "{{\"children\":[{{\"children\":[{menu}{MENU_END},\
        {{\"children\":[{toolbar}{TOOLBAR_END},\
        {{\"children\":[{unfiled}{UNFILED_END},\
        {{\"children\":[{mobile}{MOBILE_END}{TOP_END}"
    )?)
}

/// A new store after the import of a bookmark file with this body, and a script behind it.
pub fn made(alloc: Global, file: &str, script: &str) -> Result<MemDesk, Fail> {
    let file = format!(in alloc; "<!DOCTYPE NETSCAPE-Bookmark-file-1>{file}")?;
    let desk = new_store(alloc, &[])?;
    let desk = done(alloc, &desk, &["import", "s"], file.as_str().as_bytes())?;
    done(alloc, &desk, &["run", "s"], script.as_bytes())
}

/// A desk with the file of another, on which its backup was said.
pub fn backed_up(alloc: Global, desk: &MemDesk) -> Result<MemDesk, Fail> {
    done(alloc, desk, &["backup", "s"], b"")
}

/// A backup of the store has these values below the roots, and leaves the file as it was.
pub fn expect_roots(
    rt: &impl Abort,
    alloc: Global,
    desk: &MemDesk,
    roots: Roots,
) -> Result<(), Fail> {
    let wanted = backup_of(alloc, roots)?;
    let next = backed_up(alloc, desk)?;
    assert_eq!(rt; said_text(&next), wanted.as_str());
    assert!(rt; next.bytes() == desk.bytes());
    Ok(())
}
