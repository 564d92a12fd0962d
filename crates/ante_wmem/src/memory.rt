//! The memory itself.
ghost use Rattle.std.specs.Prelude.{◌≡◌, ◌+◌, ◌*◌, ◌<◌, ◌≤◌, ◌↔◌, ◌&&◌, length, replicate, IsTrue, is_ok, IsOk, IfOk, OnOk, OnErr};

use crate::limits::PAGE_SIZE;
use crate::{OutOfBounds, Width, bytes};
use std::alloc::{AllocError, Global};
use std::marker::Model;

/// A linear memory (section 4.2.8): bytes in whole pages, and the pages that it may grow to at most.
#[derive(Drop)]
pub struct Memory {
    bytes: Vec<u8>,
    most: u32,
}

impl Model for Memory {
    ghost use Rattle.std.specs.Prelude.{◌≡◌, ◌*◌, ◌/◌, ◌≤◌, length};
    ghost use Rattle.ante_wmem.specs.Limits.{page_size, most_memory_pages};
    ghost use Rattle.ante_wmem.specs.Linear.{LinearMemory};

    ghost Value = { LinearMemory };

    ghost view = { λ m. record { bytes = m.bytes.items; most = m.most } };

    ghost invariant = { λ m.
        (page_size * (length m.bytes.items / page_size) ≡ length m.bytes.items) ×
        (length m.bytes.items / page_size ≤ m.most) × (m.most ≤ most_memory_pages) };
}

impl Memory {
    ghost use Rattle.ante_wmem.specs.Limits.{page_size, most_memory_pages};
    ghost use Rattle.ante_wmem.specs.Linear.{page_count, IsInside, is_inside, bytes_at, written};
    ghost use Rattle.ante_wmem.specs.Linear.{little_endian, low_bytes, byte_count, may_grow, growth_answer, grown};

    /// A memory of zeros.
    pub fn new(alloc: Global, pages: u32, most: u32) -> Result<Memory, AllocError>
        requires pages { pages ≤ most }
        requires most { most ≤ most_memory_pages }
        ensures { IfOk result (λ m. m ≡ record { bytes = replicate (page_size * pages) 0; most = most }) }
    {
        let bytes = vec![in alloc; 0u8; PAGE_SIZE * pages as usize]?;
        Ok(Memory { bytes, most })
    }

    /// The size in pages: `memory.size`.
    pub fn pages(&self) -> u32
        ensures count { result ≡ page_count self.now }
        ensures whole { page_size * result ≡ length self.now.bytes }
        ensures room { result ≤ self.now.most }
        ensures limit { self.now.most ≤ most_memory_pages }
    {
        (self.bytes.len() / PAGE_SIZE) as u32
    }

    /// The most pages that the memory may grow to.
    pub fn most(&self) -> u32
        ensures { result ≡ self.now.most }
    {
        self.most
    }

    /// The number in the bytes from `address + offset` on: the loads, before they extend its sign.
    pub fn load(&self, address: u32, offset: u32, width: Width) -> Result<u64, OutOfBounds>
        ensures inside { is_ok result ≡ is_inside self.now.bytes (address + offset) (byte_count width) }
        ensures each { IsOk result ↔ IsInside self.now.bytes (address + offset) (byte_count width) }
        ensures value { IfOk result (λ v. v ≡ little_endian (bytes_at self.now.bytes (address + offset) (byte_count width))) }
    {
        let at = bytes::effective_address(address, offset);
        let bytes = self.bytes.as_slice();
        if bytes::is_inside(bytes, at, bytes::byte_count(width)) {
            Ok(bytes::number_at(bytes, at, width))
        } else {
            Err(OutOfBounds)
        }
    }

    /// Puts the lowest bytes of the number at `address + offset`.
    pub fn store(
        &mut self,
        address: u32,
        offset: u32,
        width: Width,
        value: u64,
    ) -> Result<(), OutOfBounds>
        ensures inside { is_ok result ≡ is_inside self.old.bytes (address + offset) (byte_count width) }
        ensures each { IsOk result ↔ IsInside self.old.bytes (address + offset) (byte_count width) }
        ensures stored { OnOk result (self.new ≡ written self.old (address + offset) (low_bytes (byte_count width) value)) }
        ensures refused { OnErr result (self.new ≡ self.old) }
    {
        let at = bytes::effective_address(address, offset);
        if !bytes::is_inside(self.bytes.as_slice(), at, bytes::byte_count(width)) {
            return Err(OutOfBounds);
        }
        bytes::put_number(self.bytes.as_mut_slice(), at, width, value);
        Ok(())
    }

    /// The range's bytes. A range of no bytes is there at any address.
    pub fn read_bytes(&self, at: u32, count: u32) -> Result<&[u8], OutOfBounds>
        ensures inside { is_ok result ≡ is_inside self.now.bytes at count }
        ensures each { IsOk result ↔ IsInside self.now.bytes at count }
        ensures bytes { IfOk result (λ part. part.now ≡ bytes_at self.now.bytes at count) }
    {
        let (at, count) = (at as usize, count as usize);
        let bytes = self.bytes.as_slice();
        if !bytes::is_inside(bytes, at, count) {
            Err(OutOfBounds)
        } else if count == 0 {
            Ok(&bytes[..0])
        } else {
            Ok(&bytes[at..at + count])
        }
    }

    /// Puts the bytes from `at` on. No bytes can be put at any address.
    pub fn write_bytes(&mut self, at: u32, bytes: &[u8]) -> Result<(), OutOfBounds>
        ensures inside { is_ok result ≡ is_inside self.old.bytes at (length bytes.now) }
        ensures each { IsOk result ↔ IsInside self.old.bytes at (length bytes.now) }
        ensures written { OnOk result (self.new ≡ written self.old at bytes.now) }
        ensures refused { OnErr result (self.new ≡ self.old) }
    {
        let at = at as usize;
        if !bytes::is_inside(self.bytes.as_slice(), at, bytes.len()) {
            return Err(OutOfBounds);
        }
        if !bytes.is_empty() {
            let into = self.bytes.as_mut_slice();
            into[at..at + bytes.len()].copy_from_slice(bytes);
        }
        Ok(())
    }

    /// Copies the bytes from `from` on to `to`, as if through a second buffer. No bytes can be copied between any addresses.
    pub fn copy_bytes(&mut self, to: u32, from: u32, count: u32) -> Result<(), OutOfBounds>
        ensures inside { is_ok result ≡ (is_inside self.old.bytes to count && is_inside self.old.bytes from count) }
        ensures each { IsOk result ↔ IsInside self.old.bytes to count × IsInside self.old.bytes from count }
        ensures copied { OnOk result (self.new ≡ written self.old to (bytes_at self.old.bytes from count)) }
        ensures refused { OnErr result (self.new ≡ self.old) }
    {
        let (to, from, count) = (to as usize, from as usize, count as usize);
        let bytes = self.bytes.as_mut_slice();
        if !bytes::is_inside(bytes, to, count) || !bytes::is_inside(bytes, from, count) {
            return Err(OutOfBounds);
        }
        bytes::copy(bytes, to, from, count);
        Ok(())
    }

    /// Puts the byte so many times from `at` on. No bytes can be put at any address.
    pub fn fill_bytes(&mut self, at: u32, byte: u8, count: u32) -> Result<(), OutOfBounds>
        ensures inside { is_ok result ≡ is_inside self.old.bytes at count }
        ensures each { IsOk result ↔ IsInside self.old.bytes at count }
        ensures filled { OnOk result (self.new ≡ written self.old at (replicate count byte)) }
        ensures refused { OnErr result (self.new ≡ self.old) }
    {
        let (at, count) = (at as usize, count as usize);
        let bytes = self.bytes.as_mut_slice();
        if !bytes::is_inside(bytes, at, count) {
            return Err(OutOfBounds);
        }
        bytes::fill(bytes, at, byte, count);
        Ok(())
    }

    /// Room for so many bytes, and ahead for as many again where the memory may have them, so that growth page by page
    /// moves each byte a few times at most.
    fn make_room(&mut self, length: usize) -> Result<(), AllocError>
        requires { length ≤ page_size * self.old.most }
        ensures { self.new ≡ self.old }
    {
        let count = self.bytes.len();
        if length <= self.bytes.capacity() || length <= count {
            return Ok(());
        }
        let most = PAGE_SIZE * self.most as usize;
        let room = if length < most / 2 { 2 * length } else { most };
        self.bytes.reserve_exact(room - count)
    }

    /// `memory.grow`: the old size in pages, or 4,294,967,295 where the sum would pass the most.
    pub fn grow(&mut self, _alloc: Global, pages: u32) -> Result<u32, AllocError>
        ensures answer { IfOk result (λ answer. answer ≡ growth_answer self.old pages) }
        ensures memory { OnOk result (self.new ≡ grown self.old pages) }

        // Memory is wanted only where it may grow, and a refusal changes nothing.
        ensures wanted { OnErr result (IsTrue (may_grow self.old pages)) }
        ensures refused { OnErr result (self.new ≡ self.old) }
    {
        let old = self.pages();
        if pages > self.most - old {
            return Ok(u32::MAX);
        }
        if pages > 0 {
            let length = PAGE_SIZE * (old + pages) as usize;
            self.make_room(length)?;
            self.bytes.resize(length, 0)?;
        }
        Ok(old)
    }
}
