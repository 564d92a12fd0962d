//! The text of failures with arguments of each shape.

use ante_pack::{Bytes, Name, Seq};
use ante_types::{Failure, Label, Trace, builtin_head, trace_text};
use std::alloc::{AllocError, Global};
use std::test::Fail;

const EOSIO: Name = Name(6138663577826885632);

fn text_of(alloc: Global, failure: Failure) -> Result<Bytes, AllocError> {
    let trace = Trace {
        position: 3,
        head: builtin_head(),
        id: [0; 32],
        failure: Some(failure),
        steps: 5,
        actions: Seq::new(alloc),
    };
    trace_text(alloc, &trace)
}

fn failure_text(failure: &str) -> [&str; 3] {
    [
        "{\"actions\":[],\"block_id\":\"00000001a02ff9999db508509f7eaf28d07ca33d8ecce87712bb5d8043b4c5c9\",\"block_num\":1,\"failure\":",
        failure,
        ",\"id\":\"0000000000000000000000000000000000000000000000000000000000000000\",\"position\":3,\"steps\":5}",
    ]
}

fn expected(alloc: Global, failure: &str) -> Result<Bytes, AllocError> {
    let mut text = Bytes::new(alloc);
    for part in failure_text(failure) {
        text.append(alloc, part.as_bytes())?;
    }
    Ok(text)
}

#[test]
fn failures_have_their_texts(rt: HostRuntime) -> Result<(), Fail> {
    let alloc = rt.alloc();
    let message = Bytes::from_slice(alloc, b"no")?;
    let kind = Label::new(alloc, b"DivZero")?;
    let rows = [
        (
            Failure::StepLimit,
            "{\"args\":[],\"code\":9,\"name\":\"StepLimit\"}",
        ),
        (
            Failure::Assert { message },
            "{\"args\":[\"6e6f\"],\"code\":6,\"name\":\"Assert\"}",
        ),
        (
            Failure::Trap { kind },
            "{\"args\":[\"DivZero\"],\"code\":8,\"name\":\"Trap\"}",
        ),
        (
            Failure::BadIterator { value: -2 },
            "{\"args\":[-2],\"code\":13,\"name\":\"BadIterator\"}",
        ),
        (
            Failure::RamExceeded {
                account: EOSIO,
                used: 7,
                quota: -1,
            },
            "{\"args\":[\"eosio\",7,-1],\"code\":17,\"name\":\"RamExceeded\"}",
        ),
        (
            Failure::MissingAuth {
                actor: EOSIO,
                permission: Name(0),
            },
            "{\"args\":[\"eosio\",\"\"],\"code\":19,\"name\":\"MissingAuth\"}",
        ),
    ];
    for (failure, text) in rows {
        assert_eq!(rt;
            text_of(alloc, failure)?.as_slice(),
            expected(alloc, text)?.as_slice()
        );
    }
    Ok(())
}
