use ante_pack::Digest;
use ante_types::Block;
use std::rc::Rc;

/// A kept block and its id.
#[derive(Drop)]
pub struct Node {
    pub id: Digest,
    pub block: Rc<Block>,
}
