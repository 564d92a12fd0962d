//! What native actions and the check of a genesis answer, in words.
use ante_execution::{GenesisFault, NativeFault};
use ante_pack::{Name, name_text};
use ante_types::{Failure, Label};
use std::io;

fn print_text(rt: &impl Print, text: &[u8]) -> io::Result<()> {
    for byte in text {
        print!(rt; "{}", *byte as char)?;
    }
    Ok(())
}

// A space and the name, which is `-` where it is empty.
fn print_name(rt: &impl Print, name: Name) -> io::Result<()> {
    let (text, length) = name_text(name);
    if length == 0 {
        return print!(rt; " -");
    }
    print!(rt; " ")?;
    print_text(rt, text.split_at(length).0)
}

fn print_named(rt: &impl Print, text: &str, name: Name) -> io::Result<()> {
    print!(rt; "{text}")?;
    print_name(rt, name)?;
    println!(rt; "")
}

fn print_labelled(rt: &impl Print, text: &str, label: &Label) -> io::Result<()> {
    print!(rt; "{text} ")?;
    print_text(rt, label.as_slice())?;
    println!(rt; "")
}

fn print_failure(rt: &impl Print, failure: &Failure) -> io::Result<()> {
    match failure {
        Failure::WriteRefused { intrinsic } => print_labelled(rt, "WriteRefused", intrinsic),
        Failure::Unsupported { field } => print_labelled(rt, "Unsupported", field),
        Failure::UnknownAccount { name } => print_named(rt, "UnknownAccount", *name),
        Failure::MissingAuth { actor, permission } => {
            print!(rt; "MissingAuth")?;
            print_name(rt, *actor)?;
            print_named(rt, "", *permission)
        }
        Failure::DataFault { at } => println!(rt; "DataFault {at}"),
        Failure::Native { rule } => println!(rt; "Native {rule}"),
        other => println!(rt; "{other:?}"),
    }
}

/// What became of a run.
pub fn print_answer(rt: &impl Print, answer: Result<bool, NativeFault>) -> io::Result<()> {
    match answer {
        Ok(true) => println!(rt; "done"),
        Ok(false) => println!(rt; "not native"),
        Err(NativeFault::OutOfMemory) => println!(rt; "OutOfMemory"),
        Err(NativeFault::Failed(failure)) => print_failure(rt, &failure),
    }
}

/// What a genesis is refused for, if it is.
pub fn print_judged(rt: &impl Print, judged: Result<(), GenesisFault>) -> io::Result<()> {
    match judged {
        Ok(()) => println!(rt; "Ok"),
        Err(GenesisFault::Version { found }) => println!(rt; "Version {found}"),
        Err(GenesisFault::BadAuthority { account }) => print_named(rt, "BadAuthority", account),
        Err(GenesisFault::BadCode { account }) => print_named(rt, "BadCode", account),
        Err(other) => println!(rt; "{other:?}"),
    }
}
