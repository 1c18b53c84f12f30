use pl_base::Change;
use pl_step::Reply;

/// What a command that was performed says, and what becomes of the views of the pages.
#[derive(Drop)]
pub struct Done {
    pub reply: Reply,
    /// By ascending id of their pages, and none where a view stays the same.
    pub changes: Vec<Change>,
}
