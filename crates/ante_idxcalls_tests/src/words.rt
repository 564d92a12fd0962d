//! Reading a line's words. One that is missing or isn't a number reads as zero, and shows so in what is printed.
use ante_calls::IndexCall;
use std::str::SplitWhitespace;

pub fn word<'a>(words: &mut SplitWhitespace<'a>) -> &'a str {
    words.next().unwrap_or("")
}

pub fn number(words: &mut SplitWhitespace) -> u64 {
    word(words).parse().unwrap_or(0)
}

pub fn address(words: &mut SplitWhitespace) -> u32 {
    word(words).parse().unwrap_or(0)
}

/// The arguments of a call: one that isn't named is 0, as calls read it.
pub fn args(words: &mut SplitWhitespace) -> [u64; 7] {
    let mut args = [0; 7];
    for arg in args.iter_mut() {
        *arg = number(words);
    }
    args
}

pub fn call_of(name: &str) -> IndexCall {
    match name {
        "store" => IndexCall::Store,
        "update" => IndexCall::Update,
        "remove" => IndexCall::Remove,
        "next" => IndexCall::Next,
        "previous" => IndexCall::Previous,
        "find_primary" => IndexCall::FindPrimary,
        "find_secondary" => IndexCall::FindSecondary,
        "lowerbound" => IndexCall::LowerBound,
        "upperbound" => IndexCall::UpperBound,
        _ => IndexCall::End,
    }
}
