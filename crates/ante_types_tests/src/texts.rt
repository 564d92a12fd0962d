//! JSON texts that are written piece by piece.

use ante_json_text::{Member, Scalar, put_object, put_string};
use ante_pack::{Bytes, Name};
use ante_types::Label;
use std::test::Fail;

#[test]
fn strings_are_escaped(rt: HostRuntime) -> Result<(), Fail> {
    let mut out = Bytes::new(rt.alloc());
    put_string(rt.alloc(), &mut out, b"a\"b\\c\n\x01")?;
    assert_eq!(rt; out.as_slice(), b"\"a\\\"b\\\\c\\n\\u0001\"".as_slice());
    Ok(())
}

#[test]
fn an_object_has_its_members(rt: HostRuntime) -> Result<(), Fail> {
    let mut out = Bytes::new(rt.alloc());
    put_object(
        rt.alloc(),
        &mut out,
        &[
            Member(b"a", Scalar::Null),
            Member(b"b", Scalar::Bool(true)),
            Member(b"c", Scalar::Signed(-7)),
            Member(b"d", Scalar::Hex(&[171])),
        ],
    )?;
    assert_eq!(rt;
        out.as_slice(),
        b"{\"a\":null,\"b\":true,\"c\":-7,\"d\":\"ab\"}".as_slice()
    );
    Ok(())
}

#[test]
fn a_name_is_a_label(rt: HostRuntime) -> Result<(), Fail> {
    let label = Label::of_name(rt.alloc(), Name(6138663577826885632))?;
    assert_eq!(rt; label.as_slice(), b"eosio".as_slice());
    Ok(())
}
