//! What is wrong with a transaction, in words.
use ante_pack::{Name, name_text};
use ante_types::Failure;
use std::io;

fn print_text(rt: &impl Print, text: &[u8]) -> io::Result<()> {
    print!(rt; " ")?;
    for byte in text {
        print!(rt; "{}", *byte as char)?;
    }
    Ok(())
}

fn print_name(rt: &impl Print, name: Name) -> io::Result<()> {
    let (text, length) = name_text(name);
    if length == 0 {
        return print_text(rt, b"-");
    }
    let (text, _) = text.split_at(length);
    print_text(rt, text)
}

fn print_level(rt: &impl Print, what: &str, actor: Name, permission: Name) -> io::Result<()> {
    print!(rt; "{what}")?;
    print_name(rt, actor)?;
    print_name(rt, permission)
}

fn print_failure(rt: &impl Print, failure: &Failure) -> io::Result<()> {
    match failure {
        Failure::Unsupported { field } => {
            print!(rt; "Unsupported")?;
            print_text(rt, field.as_slice())
        }
        Failure::UnknownAccount { name } => {
            print!(rt; "UnknownAccount")?;
            print_name(rt, *name)
        }
        Failure::MissingAuth { actor, permission } => {
            print_level(rt, "MissingAuth", *actor, *permission)
        }
        Failure::Irrelevant { actor, permission } => {
            print_level(rt, "Irrelevant", *actor, *permission)
        }
        Failure::RamExceeded {
            account,
            used,
            quota,
        } => {
            print!(rt; "RamExceeded")?;
            print_name(rt, *account)?;
            print!(rt; " {used} {quota}")
        }
        failure => print!(rt; "{failure:?}"),
    }
}

/// The first refusal, or that there is none.
pub fn print_refusal(rt: &impl Print, refusal: &Option<Failure>) -> io::Result<()> {
    match refusal {
        Some(failure) => print_failure(rt, failure)?,
        None => print!(rt; "none")?,
    }
    println!(rt; "")
}
