// The script.
use crate::trial::Trial;
use ante_calls::RowCall;
use ante_calls::RowCall::*;
use std::alloc::{AllocError, Global};
use std::process::Abort;

const EOSIO: u64 = 6138663577826885632;

// An end iterator, -2, as an i32.
const END: u64 = 0xFFFF_FFFE;

// Each call, with its arguments, its reply and the steps that are left.
const SCRIPT: [(RowCall, &[u64], &str); 25] = [
    (Store, &[1, 2, EOSIO, 5, 0, 130], "Value(0) 98"),
    (
        Store,
        &[1, 2, EOSIO, 5, 0, 130],
        "Refused(KeyExists { primary: 5 }) 96",
    ),
    (Store, &[1, 2, EOSIO, 6, 65533, 4], "Refused(BadPointer) 96"),
    (Store, &[1, 2, EOSIO, 6, 65536, 0], "Value(1) 96"),
    (
        Store,
        &[1, 2, 0, 7, 0, 0],
        "Refused(BadPayer { account: Name(0) }) 96",
    ),
    (Get, &[0, 100, 0], "Value(130) 96"),
    (Get, &[0, 65535, 2], "Refused(BadPointer) 96"),
    (Get, &[0, 65408, 128], "Value(128) 94"),
    (Get, &[0, 0, 131], "Value(130) 92"),
    (Next, &[0, 65528], "Value(1) 92"),
    (Next, &[0, 65529], "Refused(BadPointer) 92"),
    (Next, &[1, 0], "Value(4294967294) 92"),
    (Previous, &[END, 8], "Value(1) 92"),
    (Previous, &[0, 8], "Value(4294967295) 92"),
    (Find, &[EOSIO, 1, 2, 5], "Value(0) 92"),
    (Find, &[EOSIO, 1, 2, 7], "Value(4294967294) 92"),
    (Find, &[EOSIO, 1, 3, 5], "Value(4294967295) 92"),
    (LowerBound, &[EOSIO, 1, 2, 6], "Value(1) 92"),
    (UpperBound, &[EOSIO, 1, 2, 5], "Value(1) 92"),
    (End, &[EOSIO, 1, 2], "Value(4294967294) 92"),
    (Update, &[0, 0, 0, 64], "Nothing 91"),
    (
        Update,
        &[9, 0, 0, 64],
        "Refused(BadIterator { value: 9 }) 90",
    ),
    (Remove, &[1], "Nothing 90"),
    (Get, &[1, 0, 0], "Refused(BadIterator { value: 1 }) 90"),
    (Store, &[1, 2, EOSIO, 8, 0, 5888], "StepLimit 0"),
];

fn check(
    rt: &impl Abort,
    alloc: Global,
    trial: &mut Trial,
    script: &[(RowCall, &[u64], &str)],
) -> Result<(), AllocError> {
    for (call, args, wanted) in script {
        let reply = trial.call(alloc, *call, args)?;
        assert_eq!(rt; reply.as_str(), *wanted, "{call:?}");
    }
    Ok(())
}

#[test]
fn calls_reply_by_their_rules(rt: HostRuntime) -> Result<(), AllocError> {
    let alloc = rt.alloc();
    let mut trial = Trial::new(alloc, 100)?;
    check(&rt, alloc, &mut trial, &SCRIPT)?;
    assert_eq!(rt; trial.long_at(65528), Some(6));
    assert_eq!(rt; trial.long_at(8), Some(6));
    Ok(())
}
