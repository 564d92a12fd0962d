//! A table's lines: blocks, and trees onto which they are pushed.
use crate::pushes::{id_of, outcome, push, start};
use ante_fork::ForkTree;
use ante_pack::{Digest, Name, Seq, name_from_text, name_text};
use ante_types::{Block, Header, trx_root};
use std::alloc::Global;
use std::io;
use std::io::ErrorKind;
use std::str::SplitWhitespace;

/// A block of the table.
#[derive(Clone, Copy, Debug)]
struct Entry {
    name: Name,
    id: Digest,
    header: Header,
}

/// The blocks so far, and the tree of the last push.
#[derive(Drop)]
pub struct Table {
    packed: Vec<u8>,
    entries: Vec<Entry>,
    tree: Option<ForkTree>,
}

const LAST: Digest = [255; 32];

fn invalid<T>() -> io::Result<T> {
    Err(ErrorKind::InvalidData.into())
}

fn name_of(text: &str) -> io::Result<Name> {
    Ok(name_from_text(text).map_err(|_| ErrorKind::InvalidData)?)
}

fn word<'a>(words: &mut SplitWhitespace<'a>) -> io::Result<&'a str> {
    Ok(words.next().ok_or(ErrorKind::InvalidData)?)
}

fn number(text: &str) -> io::Result<u32> {
    Ok(text.parse().map_err(|_| ErrorKind::InvalidData)?)
}

fn print_name(rt: &impl Print, name: Name) -> io::Result<()> {
    let (text, length) = name_text(name);
    for byte in text.iter().take(length) {
        print!(rt; "{}", *byte as char)?;
    }
    Ok(())
}

/// The root of no receipts, or another one.
fn root(alloc: Global, spoilt: bool) -> io::Result<Digest> {
    let mut root = trx_root(alloc, &Seq::new(alloc))?;
    if spoilt {
        root[0] ^= 1;
    }
    Ok(root)
}

impl Table {
    pub fn new(alloc: Global) -> Table {
        Table {
            packed: Vec::new(alloc),
            entries: Vec::new(alloc),
            tree: None,
        }
    }

    fn entry(&self, text: &str) -> io::Result<Entry> {
        let name = name_of(text)?;
        for entry in self.entries.iter() {
            if entry.name == name {
                return Ok(*entry);
            }
        }
        invalid()
    }

    fn print_id(&self, rt: &impl Print, id: &Digest) -> io::Result<()> {
        for entry in self.entries.iter() {
            if entry.id == *id {
                return print_name(rt, entry.name);
            }
        }
        print!(rt; "unknown")
    }

    fn print_block(&self, rt: &impl Print, block: Option<&Block>) -> io::Result<()> {
        let Some(block) = block else {
            return print!(rt; "none");
        };
        match id_of(&block.header) {
            Some(id) => self.print_id(rt, &id),
            None => print!(rt; "unknown"),
        }
    }

    fn begin(&mut self, alloc: Global, text: &str) -> io::Result<()> {
        self.packed = hex::decode(alloc, text).map_err(|_| ErrorKind::InvalidData)?;
        let tree = start(alloc, self.packed.as_slice())?;
        let id = tree.head();
        let Some(block) = tree.block(&id) else {
            return invalid();
        };
        let header = block.header;
        let name = name_of("genesis")?;
        Ok(self.entries.push(Entry { name, id, header })?)
    }

    fn previous(&self, text: &str) -> io::Result<Digest> {
        if text == "last" {
            return Ok(LAST);
        }
        Ok(self.entry(text)?.id)
    }

    fn add_block(&mut self, alloc: Global, text: &str) -> io::Result<()> {
        let mut words = text.split_whitespace();
        let name = name_of(word(&mut words)?)?;
        let previous = self.previous(word(&mut words)?)?;
        let slot = number(word(&mut words)?)?;
        let producer = name_of(word(&mut words)?)?;
        let trx_root = root(alloc, words.next().is_some())?;
        let header = Header {
            slot,
            producer,
            previous,
            trx_root,
        };
        let id = id_of(&header).unwrap_or(LAST);
        Ok(self.entries.push(Entry { name, id, header })?)
    }

    fn push_all(&mut self, rt: &impl Print, alloc: Global, text: &str) -> io::Result<()> {
        let mut tree = start(alloc, self.packed.as_slice())?;
        for name in text.split_whitespace() {
            let entry = self.entry(name)?;
            let outcome = outcome(push(&mut tree, alloc, entry.header));
            print!(rt; " {name}:{outcome}/")?;
            self.print_id(rt, &tree.head())?;
            print!(rt; "/{}", tree.irreversible())?;
        }
        self.tree = Some(tree);
        println!(rt; "")
    }

    fn print_path(&self, rt: &impl Print, tree: &ForkTree, id: &Digest) -> io::Result<()> {
        let Some(path) = tree.path(id) else {
            return println!(rt; " none");
        };
        print!(rt; " ")?;
        self.print_id(rt, &path.fork.id)?;
        print!(rt; " {}, {} above:", path.fork.num, path.above)?;
        for k in 0..path.above {
            print!(rt; " ")?;
            self.print_block(rt, tree.block_above(id, k))?;
        }
        println!(rt; "")
    }

    fn ask(&self, rt: &impl Print, tree: &ForkTree, line: &str) -> io::Result<()> {
        if let Some(name) = line.strip_prefix("path ") {
            return self.print_path(rt, tree, &self.entry(name)?.id);
        }
        if let Some(text) = line.strip_prefix("num ") {
            print!(rt; " ")?;
            self.print_block(rt, tree.by_num(number(text)?))?;
            return println!(rt; "");
        }
        if let Some(name) = line.strip_prefix("kept ") {
            let kept = tree.block(&self.entry(name)?.id).is_some();
            return println!(rt; " {}", if kept { "kept" } else { "none" });
        }
        invalid()
    }

    /// Does what the line says and prints what comes of it.
    pub fn print(&mut self, rt: &impl Print, alloc: Global, line: &str) -> io::Result<()> {
        if let Some(text) = line.strip_prefix("genesis ") {
            return self.begin(alloc, text);
        }
        if let Some(text) = line.strip_prefix("block ") {
            return self.add_block(alloc, text);
        }
        if let Some(text) = line.strip_prefix("push ") {
            print!(rt; "{line} =>")?;
            return self.push_all(rt, alloc, text);
        }
        if is_question(line)
            && let Some(tree) = &self.tree
        {
            print!(rt; "{line} =>")?;
            return self.ask(rt, tree, line);
        }
        println!(rt; "{line}")
    }
}

fn is_question(line: &str) -> bool {
    line.starts_with("path ") || line.starts_with("num ") || line.starts_with("kept ")
}
