// The list of a root, with what stands below its nodes.
ghost use Rattle.std.specs.Prelude.{◌≡◌, ◌+◌, ◌^◌, ◌<◌, [], IfOk, None, OnOk};
ghost use Rattle.pl_backup.specs.BackupTree as spec;
ghost use Rattle.pl_backup.specs.BackupTree.{above, bookmark_found, items_found, node, nothing};
ghost use Rattle.pl_backup.specs.Reading.{HasFound, HasNone, fields, opens, own};
ghost use Rattle.pl_backup.specs.Weights.{items_weight};
ghost use Rattle.serde_json.specs.View.{items_view, view};

use crate::fields::{below, date, kind, tags, title, url};
use pl_base::{ItemKind, Micros, NoMemory, Seq};
use pl_link::Canon;
use pl_nbread::Node;
use pl_words::TagName;
use serde_json::Value;
use std::alloc::Global;

/// What was found of a list.
#[derive(Drop)]
pub(crate) struct Found {
    /// In preorder.
    pub nodes: Vec<Node>,
    /// How many values are no nodes.
    pub skipped: u32,
}

impl Found {
    pub(crate) fn new(alloc: Global) -> Found
        ensures { HasNone result }
    {
        Found {
            nodes: Vec::new(alloc),
            skipped: 0,
        }
    }

    /// Adds what stands in a list at this depth.
    pub(crate) fn push_values(
        &mut self,
        alloc: Global,
        values: &[Value],
        depth: u32,
    ) -> Result<(), NoMemory>
        requires room { self.old.skipped + items_weight (items_view values.now) < 2 ^ 32 }
        requires shallow { depth + items_weight (items_view values.now) < 2 ^ 32 }
        ensures { OnOk result
            (HasFound (items_found depth (items_view values.now)) self.old self.new) }
    {
        let mut left = values;
        while let Some((value, behind)) = left.split_first() {
            if self.push_value(alloc, value, depth)? {
                self.push_values(alloc, below(value), depth + 1)?;
            }
            left = behind;
        }
        Ok(())
    }

    // Adds a value, without what stands in its children. Tells whether they count.
    fn push_value(&mut self, alloc: Global, value: &Value, depth: u32) -> Result<bool, NoMemory>
        requires room { self.old.skipped + 1 < 2 ^ 32 }
        ensures { IfOk result (λ inner. (inner ≡ opens (view value.now))
            × HasFound (own depth (view value.now)) self.old self.new) }
    {
        match kind(value) {
            Some(ItemKind::Bookmark) => {
                self.push_bookmark(alloc, value, depth)?;
                Ok(false)
            }
            Some(ItemKind::Folder) => {
                self.push_plain(alloc, ItemKind::Folder, value, depth)?;
                Ok(true)
            }
            Some(ItemKind::Separator) => {
                self.push_plain(alloc, ItemKind::Separator, value, depth)?;
                Ok(false)
            }
            None => {
                self.skipped += 1;
                Ok(false)
            }
        }
    }

    // Adds a bookmark, if its address is a URL of the store.
    fn push_bookmark(&mut self, alloc: Global, value: &Value, depth: u32) -> Result<(), NoMemory>
        requires room { self.old.skipped + 1 < 2 ^ 32 }
        ensures { OnOk result (HasFound
            (bookmark_found depth (spec.url (fields (view value.now))) (fields (view value.now)))
            self.old self.new) }
    {
        let Some(url) = url(alloc, value)? else {
            self.skipped += 1;
            return Ok(());
        };
        let tags = tags(alloc, value)?;
        let bookmark = node(alloc, value, depth, ItemKind::Bookmark, Some(url), tags)?;
        self.nodes.push(bookmark)?;
        Ok(())
    }

    // Adds a node that is no bookmark.
    fn push_plain(
        &mut self,
        alloc: Global,
        kind: ItemKind,
        value: &Value,
        depth: u32,
    ) -> Result<(), NoMemory>
        ensures { OnOk result (HasFound
            (above (node depth kind None [] (fields (view value.now))) nothing)
            self.old self.new) }
    {
        let tags = Seq::from(Vec::new(alloc));
        let plain = node(alloc, value, depth, kind, None, tags)?;
        self.nodes.push(plain)?;
        Ok(())
    }
}

// A node with the title and the dates of an object.
fn node(
    alloc: Global,
    value: &Value,
    depth: u32,
    kind: ItemKind,
    url: Option<Canon>,
    tags: Seq<TagName>,
) -> Result<Node, NoMemory>
    ensures { IfOk result (λ made. made ≡ node depth kind url tags (fields (view value.now))) }
{
    let added = date(value, "dateAdded").unwrap_or(Micros(0));
    Ok(Node {
        depth,
        kind,
        url,
        title: title(alloc, value)?,
        added,
        modified: date(value, "lastModified").unwrap_or(added),
        tags,
    })
}
