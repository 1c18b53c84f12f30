// The tree, built as the parts of a file come.
ghost use Rattle.std.specs.Prelude.{◌≡◌, ◌+◌, ℕ, List, [], ◌∷◌, IfOk, OnOk};
ghost use Rattle.pl_nbread.specs.BookmarkTree.{made_of, tree_with};
ghost use Rattle.pl_nbread.specs.Building.{Adds, Closes, IsWithin, most_parts, yields};
ghost use Rattle.pl_nbread.specs.Parts as parts;
ghost use Rattle.pl_nbread.specs.Scanned.{Sees, Tells};
ghost use Rattle.pl_nbread.specs.Tokens.{Attribute};

mod nodes;

use crate::attributes::Attributes;
use crate::open_list::{OpenList, Root};
use crate::part::Part;
use crate::tree::{Node, Tree};
use crate::values;
use nodes::{bookmark, folder, root_at, separator};
use pl_base::{NoMemory, Seq};
use std::alloc::Global;

/// A node whose title is still being read, and the list that it comes into.
#[derive(Drop)]
pub(crate) struct Titled {
    root: Root,
    node: Node,
}

/// A tree of which more is to come.
#[derive(Drop)]
pub(crate) struct Builder {
    menu: Vec<Node>,
    toolbar: Vec<Node>,
    unfiled: Vec<Node>,
    mobile: Vec<Node>,
    skipped: u32,
    /// Where the next child stands, by the lists that are open: the innermost, and those around it.
    here: OpenList,
    outer: Vec<OpenList>,
    /// Where the children stand of a heading whose list has not begun.
    pending: Option<OpenList>,
    titled: Option<Titled>,
    /// The text of that title so far.
    title: String,
}

impl Builder {
    pub(crate) fn new(alloc: Global) -> Self
        ensures tree { (more : List parts.Part) → yields result more ≡ tree_with (made_of more) }
        ensures within { IsWithin 0 result }
    {
        Builder {
            menu: Vec::new(alloc),
            toolbar: Vec::new(alloc),
            unfiled: Vec::new(alloc),
            mobile: Vec::new(alloc),
            skipped: 0,
            here: OpenList {
                root: Root::Menu,
                depth: 0,
            },
            outer: Vec::new(alloc),
            pending: None,
            titled: None,
            title: String::new(alloc),
        }
    }

    /// Takes the next part. A part puts no list deeper by more than one, and leaves out one
    /// bookmark at most.
    pub(crate) fn take(&mut self, alloc: Global, part: &Part<'_>) -> Result<(), NoMemory>
        requires room { IsWithin most_parts self.old }
        ensures tree { (this : parts.Part) (more : List parts.Part) → Sees this part.now
            → OnOk result (yields self.new more ≡ yields self.old (this ∷ more)) }
        ensures within { (n : ℕ) → IsWithin n self.old → OnOk result (IsWithin (n + 1) self.new) }
    {
        match part {
            Part::Heading(attributes) => self.heading(alloc, attributes),
            Part::Link(attributes) => self.link(alloc, attributes),
            Part::ListStart => self.begin_list(alloc),
            Part::ListEnd => self.end_list(alloc),
            Part::Rule => self.rule(alloc),
            Part::TitleEnd => self.close(alloc),
            Part::Text(text) => self.text(text),
            Part::Other => Ok(()),
        }
    }

    /// The tree, where nothing more comes.
    pub(crate) fn finish(mut self, alloc: Global) -> Result<Tree, NoMemory>
        ensures { IfOk result (λ tree. tree ≡ yields self []) }
    {
        self.close(alloc)?;
        Ok(Tree {
            menu: Seq::from(self.menu),
            toolbar: Seq::from(self.toolbar),
            unfiled: Seq::from(self.unfiled),
            mobile: Seq::from(self.mobile),
            skipped: self.skipped,
        })
    }

    // A heading: it makes a folder, or stands for a root.
    fn heading(&mut self, alloc: Global, attributes: &Attributes<'_>) -> Result<(), NoMemory>
        requires room { IsWithin most_parts self.old }
        ensures tree { (all : List Attribute) (more : List parts.Part) → Tells attributes.now all
            → OnOk result (yields self.new more ≡ yields self.old (parts.Heading all ∷ more)) }
        ensures within { (n : ℕ) → IsWithin n self.old → OnOk result (IsWithin (n + 1) self.new) }
    {
        self.close(alloc)?;
        let here = self.here;
        if let Some(root) = root_at(alloc, here, attributes)? {
            self.pending = Some(OpenList { root, depth: 0 });
            return Ok(());
        }
        let node = folder(alloc, here, attributes)?;
        self.titled = Some(Titled {
            root: here.root,
            node,
        });
        self.pending = Some(OpenList {
            root: here.root,
            depth: here.depth + 1,
        });
        Ok(())
    }

    // A link: a bookmark, or one that is left out.
    fn link(&mut self, alloc: Global, attributes: &Attributes<'_>) -> Result<(), NoMemory>
        requires room { IsWithin most_parts self.old }
        ensures tree { (all : List Attribute) (more : List parts.Part) → Tells attributes.now all
            → OnOk result (yields self.new more ≡ yields self.old (parts.Link all ∷ more)) }
        ensures within { (n : ℕ) → IsWithin n self.old → OnOk result (IsWithin (n + 1) self.new) }
    {
        self.close(alloc)?;
        self.pending = None;
        let Some(node) = bookmark(alloc, self.here, attributes)? else {
            self.skipped += 1;
            return Ok(());
        };
        self.titled = Some(Titled {
            root: self.here.root,
            node,
        });
        Ok(())
    }

    // A list begins within the one that is open.
    fn begin_list(&mut self, alloc: Global) -> Result<(), NoMemory>
        ensures tree { (more : List parts.Part)
            → OnOk result (yields self.new more ≡ yields self.old (parts.ListStart ∷ more)) }
        ensures within { (n : ℕ) → IsWithin n self.old → OnOk result (IsWithin (n + 1) self.new) }
    {
        self.close(alloc)?;
        self.outer.push(self.here)?;
        self.here = self.pending.take().unwrap_or(self.here);
        Ok(())
    }

    // The list that is open ends. The last one goes on.
    fn end_list(&mut self, alloc: Global) -> Result<(), NoMemory>
        ensures tree { (more : List parts.Part)
            → OnOk result (yields self.new more ≡ yields self.old (parts.ListEnd ∷ more)) }
        ensures within { (n : ℕ) → IsWithin n self.old → OnOk result (IsWithin (n + 1) self.new) }
    {
        self.close(alloc)?;
        self.pending = None;
        if let Some(around) = self.outer.pop() {
            self.here = around;
        }
        Ok(())
    }

    // A rule: a separator.
    fn rule(&mut self, alloc: Global) -> Result<(), NoMemory>
        ensures tree { (more : List parts.Part)
            → OnOk result (yields self.new more ≡ yields self.old (parts.Rule ∷ more)) }
        ensures within { (n : ℕ) → IsWithin n self.old → OnOk result (IsWithin (n + 1) self.new) }
    {
        self.close(alloc)?;
        self.pending = None;
        self.add(self.here.root, separator(alloc, self.here))
    }

    // A text: it belongs to the title that is being read, if there is one.
    fn text(&mut self, text: &str) -> Result<(), NoMemory>
        ensures tree { (more : List parts.Part)
            → OnOk result (yields self.new more ≡ yields self.old (parts.Words text.now ∷ more)) }
        ensures within { (n : ℕ) → IsWithin n self.old → OnOk result (IsWithin (n + 1) self.new) }
    {
        if self.titled.is_some() {
            self.title.push_str(text)?;
        }
        Ok(())
    }

    // Puts the node whose title has ended into its list.
    fn close(&mut self, alloc: Global) -> Result<(), NoMemory>
        ensures { OnOk result (Closes self.old self.new) }
    {
        if let Some(Titled { root, node }) = self.titled.take() {
            let title = values::title(alloc, self.title.as_str())?;
            self.add(root, Node { title, ..node })?;
        }
        self.title.clear();
        Ok(())
    }

    // Puts a node into the list of a root, behind those that are there.
    fn add(&mut self, root: Root, node: Node) -> Result<(), NoMemory>
        ensures { OnOk result (Adds root node self.old self.new) }
    {
        match root {
            Root::Menu => self.menu.push(node)?,
            Root::Toolbar => self.toolbar.push(node)?,
            Root::Unfiled => self.unfiled.push(node)?,
            Root::Mobile => self.mobile.push(node)?,
        }
        Ok(())
    }
}
