// The roots whose children a backup holds.
ghost use Rattle.std.specs.Prelude.{◌≡◌};
ghost use Rattle.pl_backup.specs.BackupTree as spec;
ghost use Rattle.pl_backup.specs.Reading.{fields};
ghost use Rattle.serde_json.specs.View.{view};

use crate::fields::text;
use serde_json::Value;

#[derive(Clone, Copy, Debug, PartialEq, Eq)]
pub(crate) enum Root {
    Menu,
    Toolbar,
    Unfiled,
    Mobile,
}

impl Root {
    /// The root that a child of the top is. Its guid decides where it is that of a root.
    pub(crate) fn of(value: &Value) -> Option<Root>
        ensures { result ≡ spec.root (fields (view value.now)) }
    {
        match text(value, "guid").and_then(Root::with_guid) {
            Some(root) => Some(root),
            None => Root::named(text(value, "root")?),
        }
    }

    fn with_guid(guid: &str) -> Option<Root>
        ensures { result ≡ spec.root_with_guid guid.now }
    {
        match guid {
            "menu________" => Some(Root::Menu),
            "toolbar_____" => Some(Root::Toolbar),
            "unfiled_____" => Some(Root::Unfiled),
            "mobile______" => Some(Root::Mobile),
            _ => None,
        }
    }

    fn named(name: &str) -> Option<Root>
        ensures { result ≡ spec.root_named name.now }
    {
        match name {
            "bookmarksMenuFolder" => Some(Root::Menu),
            "toolbarFolder" => Some(Root::Toolbar),
            "unfiledBookmarksFolder" => Some(Root::Unfiled),
            "mobileFolder" => Some(Root::Mobile),
            _ => None,
        }
    }
}
