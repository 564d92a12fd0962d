ghost use Rattle.std.specs.Prelude.{◌≡◌};
ghost use Rattle.ante_digest.specs.Digest.{state_digest};

use crate::store::Store;
use ante_digest::digest_of_parts;
use ante_pack::Digest;

impl Store {
    /// The SHA-256 of the packed state: accounts, permissions, links, usage, recent transactions, references, tables,
    /// primary rows, and the rows of secondary indexes of 64, 128 and 256 bits.
    pub fn digest(&self) -> Digest
        ensures { result ≡ state_digest self.now.top }
    {
        let usage = self.usage();
        usage.entries_hold();
        digest_of_parts(self.objects(), usage, self.rows(), self.indexes())
    }
}
