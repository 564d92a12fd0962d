ghost use Rattle.std.specs.Prelude.{◌≡◌, ℕ, ◌<◌, None};
ghost use Rattle.ante_pack.specs.Forms.{list_of};
ghost use Rattle.ante_types.specs.Chain.{receipt};
ghost use Rattle.ante_types.specs.Ids as ids;
ghost use Rattle.ante_control.specs.Pushing.{Enters};

use crate::error::PushError;
use ante_fork::ForkTree;
use ante_pack::Digest;
use ante_types::{Block, block_id, block_num};
use ante_verdicts::Verdicts;
use std::alloc::Global;

/// Adds a block that breaks no rule, and answers its id. After an error the tree is as before.
pub fn enter<V: Verdicts>(
    alloc: Global,
    tree: &mut ForkTree,
    block: Block,
    verdicts: &V,
) -> Result<Digest, PushError>
    requires { (list_of receipt).Fits block.receipts }
    ensures { Enters (V.judge verdicts.now) block tree.old tree.new result }
{
    let _head = tree.head();
    let header = block.header;
    let previous = header.previous;
    if block_num(&previous) == 4294967295 {
        return Err(PushError::Unlinkable { previous });
    }
    let id = block_id(&header);
    let accepted = verdicts.block_ok(header.producer.0, &id, block.seal.as_slice());
    tree.add(alloc, block)?;
    if !accepted {
        tree.drop_block(&id);
        return Err(PushError::BadSeal);
    }
    Ok(id)
}
