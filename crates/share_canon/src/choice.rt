// Which bodies an image has.
use il_model::Key;
use sqlite_items::Items;

/// The bodies that are chosen for an image, in order: for each the number of its method, and its key.
#[derive(Drop)]
pub struct Choice {
    pub picks: Items<(u16, Key)>,
}
