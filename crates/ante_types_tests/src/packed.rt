//! Packed values both ways, and damaged spellings with their faults. Digests and spellings were computed apart from the
//! program.

use ante_pack::{
    Bytes, PackFault, PackReader, PackWriter, ReadFault, read_authority, write_authority,
};
use ante_types::{
    ReadJob, builtin_packed, read_action, read_block, read_genesis, read_trx, write_block,
    write_genesis, write_trx,
};
use std::alloc::Global;
use std::test::Fail;

/// The numbers 7, 258, 16909060 and 1, by their widths.
const NUMBERS: &str = "070201040302010100000000000000";

/// The name `eosio`, the varuints 300 and 4294967295, a digest and a key.
const OTHERS: &str =
    "0000000000ea3055ac02ffffffff0f090909090909090909090909090909090909090909090909090909090909090901010101010101010101010101010101010101010101010101010101010101010101";

/// The authority of the built-in genesis: threshold 1, and one key at weight 1.
const AUTHORITY: &str =
    "01000000010002000000000000000000000000000000000000000000000000000000000000000001000000";

const PING: &str = "0000000000000000000000000000010000000000ea30550000000000c0a6ab000000";

const ACTION: &str = "0000000000ea30550000000000c0a6ab010000000000ea305500000000a8ed323203010203";

/// A block on the built-in genesis with one receipt, of the ping transaction.
const BLOCK: &str =
    "010000000000000000ea305500000001a02ff9999db508509f7eaf28d07ca33d8ecce87712bb5d8043b4c5c96ed6517e54bf355c6bf2e44a85abeadbb6776c0001049708fd753a128b91bb07024f4b0107000000220000000000000000000000000000010000000000ea30550000000000c0a6ab00000001024f4b";

fn bytes_of(alloc: Global, text: &str) -> Result<Vec<u8>, Fail> {
    Ok(hex::decode(alloc, text)?)
}

fn copy_numbers(
    alloc: Global,
    from: &mut PackReader<'_>,
    to: &mut PackWriter,
) -> Result<(), ReadFault> {
    to.put_u8(alloc, from.u8()?)?;
    to.put_u16(alloc, from.u16()?)?;
    to.put_u32(alloc, from.u32()?)?;
    to.put_u64(alloc, from.u64()?)?;
    Ok(())
}

fn copy_others(
    alloc: Global,
    from: &mut PackReader<'_>,
    to: &mut PackWriter,
) -> Result<(), ReadFault> {
    to.put_name(alloc, from.name()?)?;
    to.put_varuint(alloc, from.varuint()?)?;
    to.put_varuint(alloc, from.varuint()?)?;
    to.put_digest(alloc, &from.digest()?)?;
    to.put_key(alloc, &from.key()?)?;
    Ok(())
}

#[test]
fn numbers_go_both_ways(rt: HostRuntime) -> Result<(), Fail> {
    let packed = bytes_of(rt.alloc(), NUMBERS)?;
    let mut reader = PackReader::new(&packed);
    let mut writer = PackWriter::new(rt.alloc());
    copy_numbers(rt.alloc(), &mut reader, &mut writer)?;
    assert_eq!(rt; writer.into_bytes().as_slice(), packed.as_slice());
    Ok(())
}

#[test]
fn other_fields_go_both_ways(rt: HostRuntime) -> Result<(), Fail> {
    let packed = bytes_of(rt.alloc(), OTHERS)?;
    let mut reader = PackReader::new(&packed);
    let mut writer = PackWriter::new(rt.alloc());
    copy_others(rt.alloc(), &mut reader, &mut writer)?;
    assert_eq!(rt; writer.into_bytes().as_slice(), packed.as_slice());
    Ok(())
}

fn authority_again(alloc: Global, packed: &[u8]) -> Result<Bytes, ReadFault> {
    let authority = read_authority(alloc, &mut PackReader::new(packed))?;
    let mut writer = PackWriter::new(alloc);
    write_authority(alloc, &mut writer, &authority)?;
    Ok(writer.into_bytes())
}

fn genesis_again(alloc: Global, packed: &[u8]) -> Result<Bytes, ReadFault> {
    let genesis = read_genesis(alloc, packed)?;
    Ok(write_genesis(alloc, &genesis)?)
}

fn trx_again(alloc: Global, packed: &[u8]) -> Result<Bytes, ReadFault> {
    let trx = read_trx(alloc, packed)?;
    Ok(write_trx(alloc, &trx)?)
}

fn block_again(alloc: Global, packed: &[u8]) -> Result<Bytes, ReadFault> {
    let block = read_block(alloc, packed)?;
    Ok(write_block(alloc, &block)?)
}

#[test]
fn values_go_both_ways(rt: HostRuntime) -> Result<(), Fail> {
    let alloc = rt.alloc();
    let packed = bytes_of(alloc, AUTHORITY)?;
    assert_eq!(rt;
        authority_again(alloc, &packed)?.as_slice(),
        packed.as_slice()
    );
    let packed = builtin_packed();
    assert_eq!(rt;
        genesis_again(alloc, &packed)?.as_slice(),
        packed.as_slice()
    );
    let packed = bytes_of(alloc, PING)?;
    assert_eq!(rt; trx_again(alloc, &packed)?.as_slice(), packed.as_slice());
    let packed = bytes_of(alloc, BLOCK)?;
    assert_eq!(rt; block_again(alloc, &packed)?.as_slice(), packed.as_slice());
    Ok(())
}

fn is_short(answer: Result<Bytes, ReadFault>) -> bool {
    matches!(answer, Err(ReadFault::Pack(PackFault::Short { .. })))
}

#[test]
fn each_proper_prefix_is_short(rt: HostRuntime) -> Result<(), Fail> {
    let alloc = rt.alloc();
    let packed = bytes_of(alloc, AUTHORITY)?;
    for len in 0..packed.len() {
        let (front, _) = packed.split_at(len);
        assert!(rt; is_short(authority_again(alloc, front)), "{len}");
    }
    let packed = builtin_packed();
    for len in 0..packed.len() {
        let (front, _) = packed.split_at(len);
        assert!(rt; is_short(genesis_again(alloc, front)), "{len}");
    }
    Ok(())
}

#[test]
fn an_action_is_read(rt: HostRuntime) -> Result<(), Fail> {
    let action = read_action(rt.alloc(), &bytes_of(rt.alloc(), ACTION)?)?;
    assert_eq!(rt; action.bytes.as_slice(), [1, 2, 3].as_slice());
    Ok(())
}

#[test]
fn damaged_transactions_are_named(rt: HostRuntime) -> Result<(), Fail> {
    let alloc = rt.alloc();
    let rows = [
        ("", PackFault::Short { at: 0 }),
        ("00000000000000000000", PackFault::Short { at: 10 }),
        (
            "000000000000000000008000",
            PackFault::LongVaruint { at: 10 },
        ),
        (
            "00000000000000000000ffffffff1f",
            PackFault::LongVaruint { at: 10 },
        ),
        ("00000000000000000000ff", PackFault::Short { at: 10 }),
        (
            "00000000000000000000ffffffff0f00",
            PackFault::Short { at: 16 },
        ),
        (
            "0000000000000000000000000000000000",
            PackFault::Trailing { at: 16 },
        ),
        ("0000000000000000000000000005", PackFault::Short { at: 14 }),
        (
            "0000000000000000000000000000ffffffff0f",
            PackFault::Short { at: 19 },
        ),
    ];
    for (text, fault) in rows {
        let answer = trx_again(alloc, &bytes_of(alloc, text)?);
        assert_eq!(rt; answer.err(), Some(ReadFault::Pack(fault)), "{text}");
    }
    Ok(())
}

#[test]
fn damaged_keys_are_named(rt: HostRuntime) {
    let mut key = [0; 34];
    key[0] = 2;
    let (front, _) = key.split_at(33);
    assert_eq!(rt;
        PackReader::new(&key).key(),
        Err(PackFault::KeyKind { at: 0 })
    );
    assert_eq!(rt;
        PackReader::new(front).key(),
        Err(PackFault::Short { at: 0 })
    );
}

#[test]
fn a_job_keeps_its_bytes(rt: HostRuntime) -> Result<(), Fail> {
    let alloc = rt.alloc();
    let packed = bytes_of(alloc, PING)?;
    let job = ReadJob::new(alloc, Bytes::from_slice(alloc, &packed)?)?;
    assert_eq!(rt; job.packed().as_slice(), packed.as_slice());
    assert_eq!(rt; job.trx().actions.len(), 1);
    Ok(())
}
