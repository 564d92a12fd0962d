use ante_pack::{Authority, Bytes, KeyWeight, PackFault, ReadFault, Seq};
use std::test::Fail;

#[test]
fn lists_grow(rt: HostRuntime) -> Result<(), Fail> {
    let mut bytes = Bytes::new(rt.alloc());
    bytes.push(rt.alloc(), 1)?;
    bytes.append(rt.alloc(), &[2, 3])?;
    assert_eq!(rt; bytes.as_slice(), [1, 2, 3].as_slice());
    Ok(())
}

#[test]
fn lists_are_joined(rt: HostRuntime) -> Result<(), Fail> {
    let mut first = Seq::new(rt.alloc());
    let mut second = Seq::new(rt.alloc());
    first.push(rt.alloc(), 1u8)?;
    second.push(rt.alloc(), 2u8)?;
    first.append(rt.alloc(), &mut second)?;
    assert_eq!(rt; first.as_slice(), [1, 2].as_slice());
    assert_eq!(rt; second.len(), 0);
    Ok(())
}

#[test]
fn copies_are_equal(rt: HostRuntime) -> Result<(), Fail> {
    let bytes = Bytes::from_slice(rt.alloc(), &[1, 2])?;
    assert!(rt; bytes.try_clone(rt.alloc())? == bytes);
    let mut keys = Seq::new(rt.alloc());
    keys.push(
        rt.alloc(),
        KeyWeight {
            key: [0; 34],
            weight: 1,
        },
    )?;
    let authority = Authority {
        threshold: 1,
        keys,
        accounts: Seq::new(rt.alloc()),
        waits: Seq::new(rt.alloc()),
    };
    let mut copy = authority.try_clone(rt.alloc())?;
    assert!(rt; copy == authority);
    copy.threshold = 2;
    assert!(rt; copy != authority);
    Ok(())
}

#[test]
fn faults_are_shown(rt: HostRuntime) -> Result<(), Fail> {
    let fault = ReadFault::from(PackFault::Short { at: 7 });
    let text = format!(in rt.alloc(); "{fault}")?;
    assert_eq!(rt; text.as_str(), "the field at byte 7 doesn't fit");
    Ok(())
}
