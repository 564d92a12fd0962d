//! Trees of genesis alone, and blocks that are pushed onto them.
use ante_fork::{AddError, ForkTree, genesis_head};
use ante_pack::{Bytes, Digest, Seq};
use ante_types::{Block, Header, block_id, block_num, read_genesis};
use std::alloc::Global;
use std::io;
use std::io::ErrorKind;

/// The tree of genesis alone.
pub fn start(alloc: Global, packed: &[u8]) -> io::Result<ForkTree> {
    let genesis = read_genesis(alloc, packed).map_err(|_| ErrorKind::InvalidData)?;
    let count = genesis.producers.len();
    if count == 0 || count > 21 {
        return Err(ErrorKind::InvalidData.into());
    }
    let head = genesis_head(&genesis, packed);
    Ok(ForkTree::new(alloc, &genesis, head)?)
}

/// The id of a header, if its number isn't past the last one.
pub fn id_of(header: &Header) -> Option<Digest> {
    if block_num(&header.previous) == u32::MAX {
        return None;
    }
    Some(block_id(header))
}

/// Keeps a block without receipts, makes it the head where its branch is longer, and settles. Says whether it is the head.
pub fn push(tree: &mut ForkTree, alloc: Global, header: Header) -> Result<bool, AddError> {
    let block = Block {
        header,
        seal: Bytes::new(alloc),
        receipts: Seq::new(alloc),
    };
    tree.add(alloc, block)?;
    let best = tree.best();
    let head = tree.head();
    let longer = block_num(&head) < block_num(&best) && tree.block(&best).is_some();
    if longer {
        tree.set_head(&best);
    }
    tree.settle();
    Ok(longer)
}

/// What is printed of a push.
pub fn outcome(pushed: Result<bool, AddError>) -> &'static str {
    match pushed {
        Ok(true) => "Head",
        Ok(false) => "Kept",
        Err(AddError::OutOfMemory) => "OutOfMemory",
        Err(AddError::Known) => "Known",
        Err(AddError::Unlinkable { .. }) => "Unlinkable",
        Err(AddError::BadRoot) => "BadRoot",
        Err(AddError::BadSlot) => "BadSlot",
        Err(AddError::BadProducer) => "BadProducer",
    }
}
