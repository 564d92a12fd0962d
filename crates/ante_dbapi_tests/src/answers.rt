//! What the calls answer, in words.
use ante_calls::DbFault;
use std::alloc::Global;
use std::io;

pub fn print_number(rt: &impl Print, answer: Result<i32, DbFault>) -> io::Result<()> {
    match answer {
        Ok(it) => println!(rt; "{it}"),
        Err(fault) => println!(rt; "{fault:?}"),
    }
}

pub fn print_done(rt: &impl Print, answer: Result<(), DbFault>) -> io::Result<()> {
    match answer {
        Ok(()) => println!(rt; "done"),
        Err(fault) => println!(rt; "{fault:?}"),
    }
}

pub fn print_row(rt: &impl Print, answer: Result<(i32, Option<u64>), DbFault>) -> io::Result<()> {
    match answer {
        Ok((it, Some(primary))) => println!(rt; "{it}, primary {primary}"),
        Ok((it, None)) => println!(rt; "{it}"),
        Err(fault) => println!(rt; "{fault:?}"),
    }
}

pub fn print_bytes(
    rt: &impl Print,
    alloc: Global,
    answer: Result<(u32, &[u8]), DbFault>,
) -> io::Result<()> {
    match answer {
        Ok((count, [])) => println!(rt; "{count}, bytes -"),
        Ok((count, bytes)) => {
            let bytes = hex::encode(alloc, bytes)?;
            println!(rt; "{count}, bytes {bytes}")
        }
        Err(fault) => println!(rt; "{fault:?}"),
    }
}
