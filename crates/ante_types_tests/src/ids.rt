//! Ids and digests, which were computed apart from the program.

use ante_pack::{Digest, ReadFault};
use ante_types::{block_id, block_num, builtin_head, read_block, signing_digest, trx_id, trx_root};
use std::alloc::Global;
use std::test::Fail;

const PING: &str = "0000000000000000000000000000010000000000ea30550000000000c0a6ab000000";

/// A block on the built-in genesis with one receipt, of the ping transaction.
const BLOCK: &str =
    "010000000000000000ea305500000001a02ff9999db508509f7eaf28d07ca33d8ecce87712bb5d8043b4c5c96ed6517e54bf355c6bf2e44a85abeadbb6776c0001049708fd753a128b91bb07024f4b0107000000220000000000000000000000000000010000000000ea30550000000000c0a6ab00000001024f4b";

fn text_of(alloc: Global, digest: Digest) -> Result<String, Fail> {
    Ok(hex::encode(alloc, digest)?)
}

#[test]
fn of_a_transaction(rt: HostRuntime) -> Result<(), Fail> {
    let alloc = rt.alloc();
    let ping: Vec<u8> = hex::decode(alloc, PING)?;
    assert_eq!(rt;
        text_of(alloc, trx_id(&ping))?.as_str(),
        "ed56c81f576f183b712530e3dce000e8263b8faa889c0ee2bacad0e7841cf04b"
    );
    assert_eq!(rt;
        text_of(alloc, signing_digest(&[0; 32], &ping))?.as_str(),
        "e58d86bf5e067e0f4928d43ce4db549b8fe92c4d88310e8d416866a1e6b1fd80"
    );
    Ok(())
}

fn has_its_root(alloc: Global, packed: &[u8]) -> Result<bool, ReadFault> {
    let block = read_block(alloc, packed)?;
    let root = trx_root(alloc, &block.receipts)?;
    Ok(root == block.header.trx_root)
}

#[test]
fn of_a_block(rt: HostRuntime) -> Result<(), Fail> {
    let alloc = rt.alloc();
    let packed: Vec<u8> = hex::decode(alloc, BLOCK)?;
    assert!(rt; has_its_root(alloc, &packed)?);
    let block = read_block(alloc, &packed)?;
    let head = builtin_head();
    assert_eq!(rt; head.id, block.header.previous);
    if block_num(&block.header.previous) < u32::MAX {
        let id = block_id(&block.header);
        assert_eq!(rt;
            text_of(alloc, id)?.as_str(),
            "000000028713eaf00d8bf24d80ff02f8851171553df9ce63d47c1747c6c7cb70"
        );
    }
    Ok(())
}
