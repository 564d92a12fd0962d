//! Prints the numbers and types of some of the host's functions, and what some binaries are decoded to.
#![tactic(auto)]

use ante_wdecode::decode;
use ante_wtree::{host_number, host_type};
use std::alloc::{AllocError, Global};
use std::io;
use std::io::Print;

const NAMES: [&[u8]; 6] = [
    b"abort",
    b"db_end_i64",
    b"db_idx64_store",
    b"db_idx256_end",
    b"abor",
    b"",
];

const NUMBERS: [u32; 4] = [0, 83, 87, 88];

const EMPTY: &[u8] = b"\0asm\x01\0\0\0";

const CODES: [&[u8]; 45] = [
    // The empty module.
    b"\0asm\x01\0\0\0",
    // A floating-point constant, and a byte that is no opcode.
    b"\0asm\x01\0\0\0\x01\x04\x01`\0\0\x03\x02\x01\0\x0A\x0A\x01\x08\0C\0\0\0\0\x1A\x0B",
    b"\0asm\x01\0\0\0\x01\x04\x01`\0\0\x03\x02\x01\0\x0A\x05\x01\x03\0\xC0\x0B",
    // Another magic, and another version.
    b"\0asn\x01\0\0\0",
    b"\0asm\x02\0\0\0",
    // A section of an unknown number, one that comes twice, one out of order, and contents that end before their
    // size or go past it.
    b"\0asm\x01\0\0\0\x0C\0",
    b"\0asm\x01\0\0\0\x03\x01\0\x03\x01\0",
    b"\0asm\x01\0\0\0\x03\x01\0\x01\x01\0",
    b"\0asm\x01\0\0\0\x01\x02\0\0",
    b"\0asm\x01\0\0\0\x01\x02\x01`",
    // Integers: a size in too many bytes, one with bits above its width, one in five bytes that is read, and an s32
    // whose last bits disagree.
    b"\0asm\x01\0\0\0\x01\x81\x80\x80\x80\x80\0\0",
    b"\0asm\x01\0\0\0\x01\x81\x80\x80\x80\x10\0",
    b"\0asm\x01\0\0\0\x01\x81\x80\x80\x80\0\0",
    b"\0asm\x01\0\0\0\x01\x04\x01`\0\0\x03\x02\x01\0\x0A\x0B\x01\x09\0A\xFF\xFF\xFF\xFFG\x1A\x0B",
    // A floating-point kind of a parameter, of a block and of a local; a kind that there is not.
    b"\0asm\x01\0\0\0\x01\x05\x01`\x01|\0",
    b"\0asm\x01\0\0\0\x01\x04\x01`\0\0\x03\x02\x01\0\x0A\x07\x01\x05\0\x02}\x0B\x0B",
    b"\0asm\x01\0\0\0\x01\x04\x01`\0\0\x03\x02\x01\0\x0A\x06\x01\x04\x01\x01|\x0B",
    b"\0asm\x01\0\0\0\x01\x05\x01`\x01@\0",
    // A name that is not UTF-8; a custom section without a whole name, and one with anything after its name.
    b"\0asm\x01\0\0\0\x07\x06\x01\x02a\xFF\0\0",
    b"\0asm\x01\0\0\0\0\x04\x05abc",
    b"\0asm\x01\0\0\0\0\x07\x04name\xFF\xFF",
    // Custom sections between and after the others.
    b"\0asm\x01\0\0\0\0\x02\x01a\x05\x04\x01\x01\x01\x02\0\x02\x01b\0\x02\0\0",
    // A reserved byte that is 1; a body whose last `end` is missing, and one with more after it.
    b"\0asm\x01\0\0\0\x01\x04\x01`\0\0\x03\x02\x01\0\x0A\x07\x01\x05\0?\x01\x1A\x0B",
    b"\0asm\x01\0\0\0\x01\x04\x01`\0\0\x03\x02\x01\0\x0A\x06\x01\x04\0\x02@\x0B",
    b"\0asm\x01\0\0\0\x01\x04\x01`\0\0\x03\x02\x01\0\x0A\x05\x01\x03\0\x0B\x01",
    // More bodies than functions, and functions without bodies.
    b"\0asm\x01\0\0\0\x0A\x04\x01\x02\0\x0B",
    b"\0asm\x01\0\0\0\x01\x04\x01`\0\0\x03\x02\x01\0",
    // A constant expression of another instruction, and one that goes on.
    b"\0asm\x01\0\0\0\x06\x06\x01\x7F\0 \0\x0B",
    b"\0asm\x01\0\0\0\x06\x08\x01\x7F\0A\0A\0\x0B",
    // A size of more than is left, a size that is cut off, and the magic alone.
    b"\0asm\x01\0\0\0\x01\x05\0",
    b"\0asm\x01\0\0\0\x01\x80",
    b"\0asm",
    // Limits: 1,025 types, 8,193 table elements, 4,097 parameters, and locals beside a parameter.
    b"\0asm\x01\0\0\0\x01\x02\x81\x08",
    b"\0asm\x01\0\0\0\x04\x05\x01p\0\x81@",
    b"\0asm\x01\0\0\0\x01\x04\x01`\x81 ",
    b"\0asm\x01\0\0\0\x01\x05\x01`\x01\x7F\0\x03\x02\x01\0\x0A\x07\x01\x05\x01\x80 \x7F\x0B",
    // Limits: 8,193 imports, 8,192 functions beside an imported one, 1,025 globals, 8,193 exports, 1,025 elements
    // and data, 8,193 targets.
    b"\0asm\x01\0\0\0\x02\x02\x81@",
    b"\0asm\x01\0\0\0\x02\x07\x01\x01m\x01f\0\0\x03\x02\x80@",
    b"\0asm\x01\0\0\0\x06\x02\x81\x08",
    b"\0asm\x01\0\0\0\x07\x02\x81@",
    b"\0asm\x01\0\0\0\x09\x02\x81\x08",
    b"\0asm\x01\0\0\0\x0B\x02\x81\x08",
    b"\0asm\x01\0\0\0\x01\x04\x01`\0\0\x03\x02\x01\0\x0A\x07\x01\x05\0\x0E\x81@\x0B",
    // A table, a memory, globals, a start, elements and data; table number 0 in two bytes.
    b"\0asm\x01\0\0\0\x01\x04\x01`\0\0\x02\x18\x03\x01m\x01g\x03~\x01\x01m\x01t\x01p\x01\x01\x02\x01m\x01n\x02\0\x01\x03\x02\x01\0\x04\x05\x01p\x01\x01\x02\x05\x03\x01\0\x01\x06\x10\x03\x7F\0A\x7F\x0B~\x01B~\x0B~\0#\0\x0B\x07\x0D\x03\x01t\x01\0\x01n\x02\0\x01g\x03\0\x08\x01\0\x09\x08\x01\x80\0A\0\x0B\x01\0\x0A\x06\x01\x04\x01\x02~\x0B\x0B\x09\x01\0A\x01\x0B\x03xyz",
    // Another table than 0.
    b"\0asm\x01\0\0\0\x09\x06\x01\x01A\0\x0B\0",
];

/// A contract that keeps sums in a table, under a key each, and is asked for them.
const LEDGER: &[u8] =
    b"\0asm\x01\0\0\0\x012\x07`\x02\x7F\x7F\x01\x7F`\x04~~~~\x01\x7F`\x06~~~~\x7F\x7F\x01\x7F`\x04\x7F~\
    \x7F\x7F\0`\x03\x7F\x7F\x7F\x01\x7F`\x02\x7F\x7F\0`\x03~~~\0\x02\x80\x01\x06\x03env\x10read_action_d\
    ata\0\0\x03env\x0Bdb_find_i64\0\x01\x03env\x0Cdb_store_i64\0\x02\x03env\x0Ddb_update_i64\0\x03\x03en\
    v\x0Adb_get_i64\0\x04\x03env\x17set_action_return_value\0\x05\x03\x02\x01\x06\x05\x03\x01\0\x01\x07\
    \x09\x01\x05apply\0\x06\x0A\x95\x01\x01\x92\x01\x01\x01\x7FA\0A\x10\x10\0\x1A\x20\0\x20\0B\x80\x80\
    \x80\x80\x80\x80\xE0\x9C\xBD\x7FA\0)\x03\0\x10\x01!\x03\x20\x02B\x80\x80\x80\x80\x80\x80\x80\xA92Q\
    \x04@\x20\x03A\0H\x04@\x20\0B\x80\x80\x80\x80\x80\x80\xE0\x9C\xBD\x7F\x20\0A\0)\x03\0A\x08A\x08\x10\
    \x02\x1A\x05\x20\x03A\x10A\x08\x10\x04\x1AA\x08A\x08)\x03\0A\x10)\x03\0|7\x03\0\x20\x03B\0A\x08A\x08\
    \x10\x03\x0B\x05\x20\x03A\0N\x04@\x20\x03A\x08A\x08\x10\x04\x1AA\x08A\x08\x10\x05\x0B\x0B\x0B";

/// A module of one function up to its blocks, of which there are 1,024 and 1,025.
const HEAD_1024: &[u8] =
    b"\0asm\x01\0\0\0\x01\x04\x01`\0\0\x03\x02\x01\0\x0A\x85\x18\x01\x82\x18\0";

const HEAD_1025: &[u8] =
    b"\0asm\x01\0\0\0\x01\x04\x01`\0\0\x03\x02\x01\0\x0A\x88\x18\x01\x85\x18\0";

fn print_hosts(rt: &impl Print) -> io::Result<()> {
    for name in NAMES {
        println!(rt; "{:?}", host_number(name))?;
    }
    for number in NUMBERS {
        println!(rt; "{:?}", host_type(number))?;
    }
    Ok(())
}

fn print_decoded(rt: &impl Print, alloc: Global, code: &[u8]) -> io::Result<()> {
    println!(rt; "{:?}", decode(alloc, code))
}

fn print_codes(rt: &impl Print, alloc: Global) -> io::Result<()> {
    for length in 0..EMPTY.len() {
        print_decoded(rt, alloc, &EMPTY[..length])?;
    }
    for code in CODES {
        print_decoded(rt, alloc, code)?;
    }
    print_decoded(rt, alloc, LEDGER)
}

fn nested(alloc: Global, head: &[u8], depth: usize) -> Result<Vec<u8>, AllocError> {
    let mut code = Vec::from_slice(alloc, head)?;
    for _ in 0..depth {
        code.extend_from_slice(b"\x02\x40")?;
    }
    for _ in 0..depth {
        code.push(0x0B)?;
    }
    code.push(0x0B)?;
    Ok(code)
}

fn zeros(alloc: Global, length: usize) -> Result<Vec<u8>, AllocError> {
    let mut code = Vec::new(alloc);
    code.resize(length, 0)?;
    Ok(code)
}

fn print_nested(rt: &impl Print, alloc: Global, head: &[u8], depth: usize) -> io::Result<()> {
    let Ok(code) = nested(alloc, head, depth) else {
        return println!(rt; "out of memory");
    };
    match decode(alloc, code.as_slice()) {
        Ok(module) => println!(rt; "{depth} blocks, {} bodies", module.codes.len()),
        Err(why) => println!(rt; "{depth} blocks, {why:?}"),
    }
}

/// The longest code that is read, and one more byte.
fn print_long(rt: &impl Print, alloc: Global, length: usize) -> io::Result<()> {
    let Ok(code) = zeros(alloc, length) else {
        return println!(rt; "out of memory");
    };
    print_decoded(rt, alloc, code.as_slice())
}

fn main(rt: HostRuntime) -> io::Result<()> {
    print_hosts(&rt)?;
    print_codes(&rt, rt.alloc())?;
    print_nested(&rt, rt.alloc(), HEAD_1024, 1024)?;
    print_nested(&rt, rt.alloc(), HEAD_1025, 1025)?;
    print_long(&rt, rt.alloc(), 1_048_576)?;
    print_long(&rt, rt.alloc(), 1_048_577)
}
