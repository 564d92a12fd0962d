//! The limits of this profile on memories.
ghost use Rattle.std.specs.Prelude.{◌≡◌};
ghost use Rattle.ante_wmem.specs.Limits.{page_size, most_memory_pages};

/// The bytes of a page.
pub const PAGE_SIZE: usize = 65_536;

/// The pages that a memory may have.
pub const MOST_MEMORY_PAGES: u32 = 528;

/// A law: the constants are the definitions of their names.
pub fn memory_limits()
    ensures page { PAGE_SIZE ≡ page_size }
    ensures pages { MOST_MEMORY_PAGES ≡ most_memory_pages }
{}
