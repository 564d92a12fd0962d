ghost use Rattle.std.specs.Prelude.{◌≡◌, IfOk, OnOk, OnErr};
ghost use Rattle.ante_pack.specs.Adds.{Adds};
ghost use Rattle.ante_pack.specs.Forms.{ReadsAt};
ghost use Rattle.ante_pack.specs.Packed.{authority};

use crate::Key;
use crate::fault::ReadFault;
use crate::lists::Seq;
use crate::names::Name;
use crate::packed::{Packed, read_seq_fields, write_seq_fields};
use crate::reader::PackReader;
use crate::writer::PackWriter;
use std::alloc::{AllocError, Global};

/// An account's permission.
#[derive(Clone, Copy, Debug, PartialEq, Eq, PartialOrd, Ord, Hash)]
pub struct Level {
    pub actor: Name,
    pub permission: Name,
}

/// A key and what it counts towards a threshold.
#[derive(Clone, Copy, Debug, PartialEq, Eq)]
pub struct KeyWeight {
    pub key: Key,
    pub weight: u16,
}

/// Another permission and what it counts towards a threshold.
#[derive(Clone, Copy, Debug, PartialEq, Eq)]
pub struct LevelWeight {
    pub level: Level,
    pub weight: u16,
}

/// A wait and what it counts towards a threshold.
#[derive(Clone, Copy, Debug, PartialEq, Eq)]
pub struct WaitWeight {
    pub seconds: u32,
    pub weight: u16,
}

/// What satisfies a permission: keys, permissions and waits whose weights reach the threshold.
#[derive(Debug, Drop, PartialEq, Eq)]
pub struct Authority {
    pub threshold: u32,
    pub keys: Seq<KeyWeight>,
    pub accounts: Seq<LevelWeight>,
    pub waits: Seq<WaitWeight>,
}

impl Packed for Name {
    ghost use Rattle.ante_pack.specs.Packed.{name};
    ghost use Rattle.ante_pack.specs.Codecs.{IsCodec-name};

    ghost form = { name };

    ghost is_codec = { IsCodec-name };

    fn read_fields(_alloc: Global, reader: &mut PackReader<'_>) -> Result<Name, ReadFault> {
        Ok(reader.name()?)
    }

    fn write_fields(&self, alloc: Global, writer: &mut PackWriter) -> Result<(), AllocError> {
        writer.put_name(alloc, *self)
    }
}

impl Packed for Level {
    ghost use Rattle.ante_pack.specs.Packed.{level};
    ghost use Rattle.ante_pack.specs.Codecs.{IsCodec-level};

    ghost form = { level };

    ghost is_codec = { IsCodec-level };

    #[tactic(auto, unfolding(crate::specs::Packed::level))]
    fn read_fields(_alloc: Global, reader: &mut PackReader<'_>) -> Result<Level, ReadFault> {
        let actor = reader.name()?;
        let permission = reader.name()?;
        Ok(Level { actor, permission })
    }

    #[tactic(auto, using(crate::proofs::Pieces::onto), unfolding(crate::specs::Packed::level))]
    fn write_fields(&self, alloc: Global, writer: &mut PackWriter) -> Result<(), AllocError> {
        writer.put_name(alloc, self.actor)?;
        writer.put_name(alloc, self.permission)
    }
}

impl Packed for KeyWeight {
    ghost use Rattle.ante_pack.specs.Packed.{key_weight};
    ghost use Rattle.ante_pack.specs.Codecs.{IsCodec-key_weight};

    ghost form = { key_weight };

    ghost is_codec = { IsCodec-key_weight };

    #[tactic(auto, unfolding(crate::specs::Packed::key_weight))]
    fn read_fields(_alloc: Global, reader: &mut PackReader<'_>) -> Result<KeyWeight, ReadFault> {
        let key = reader.key()?;
        let weight = reader.u16()?;
        Ok(KeyWeight { key, weight })
    }

    #[tactic(auto, using(crate::proofs::Pieces::onto), unfolding(crate::specs::Packed::key_weight))]
    fn write_fields(&self, alloc: Global, writer: &mut PackWriter) -> Result<(), AllocError> {
        writer.put_key(alloc, &self.key)?;
        writer.put_u16(alloc, self.weight)
    }
}

impl Packed for LevelWeight {
    ghost use Rattle.ante_pack.specs.Packed.{level_weight};
    ghost use Rattle.ante_pack.specs.Codecs.{IsCodec-level_weight};

    ghost form = { level_weight };

    ghost is_codec = { IsCodec-level_weight };

    #[tactic(auto, unfolding(crate::specs::Packed::level_weight))]
    fn read_fields(alloc: Global, reader: &mut PackReader<'_>) -> Result<LevelWeight, ReadFault> {
        let level = Level::read_fields(alloc, reader)?;
        let weight = reader.u16()?;
        Ok(LevelWeight { level, weight })
    }

    #[tactic(auto, using(crate::proofs::Pieces::onto), unfolding(crate::specs::Packed::level_weight))]
    fn write_fields(&self, alloc: Global, writer: &mut PackWriter) -> Result<(), AllocError> {
        self.level.write_fields(alloc, writer)?;
        writer.put_u16(alloc, self.weight)
    }
}

impl Packed for WaitWeight {
    ghost use Rattle.ante_pack.specs.Packed.{wait_weight};
    ghost use Rattle.ante_pack.specs.Codecs.{IsCodec-wait_weight};

    ghost form = { wait_weight };

    ghost is_codec = { IsCodec-wait_weight };

    #[tactic(auto, unfolding(crate::specs::Packed::wait_weight))]
    fn read_fields(_alloc: Global, reader: &mut PackReader<'_>) -> Result<WaitWeight, ReadFault> {
        let seconds = reader.u32()?;
        let weight = reader.u16()?;
        Ok(WaitWeight { seconds, weight })
    }

    #[tactic(auto, using(crate::proofs::Pieces::onto), unfolding(crate::specs::Packed::wait_weight))]
    fn write_fields(&self, alloc: Global, writer: &mut PackWriter) -> Result<(), AllocError> {
        writer.put_u32(alloc, self.seconds)?;
        writer.put_u16(alloc, self.weight)
    }
}

impl Packed for Authority {
    ghost use Rattle.ante_pack.specs.Packed.{authority};
    ghost use Rattle.ante_pack.specs.Codecs.{IsCodec-authority};

    ghost form = { authority };

    ghost is_codec = { IsCodec-authority };

    #[tactic(auto, unfolding(crate::specs::Packed::authority))]
    fn read_fields(alloc: Global, reader: &mut PackReader<'_>) -> Result<Authority, ReadFault> {
        let threshold = reader.u32()?;
        let keys = read_seq_fields(alloc, reader)?;
        let accounts = read_seq_fields(alloc, reader)?;
        let waits = read_seq_fields(alloc, reader)?;
        Ok(Authority {
            threshold,
            keys,
            accounts,
            waits,
        })
    }

    #[tactic(auto, using(crate::proofs::Pieces::onto), unfolding(crate::specs::Packed::authority))]
    fn write_fields(&self, alloc: Global, writer: &mut PackWriter) -> Result<(), AllocError> {
        writer.put_u32(alloc, self.threshold)?;
        write_seq_fields(alloc, writer, &self.keys)?;
        write_seq_fields(alloc, writer, &self.accounts)?;
        write_seq_fields(alloc, writer, &self.waits)
    }
}

impl Authority {
    /// A copy of all its lists.
    pub fn try_clone(&self, alloc: Global) -> Result<Authority, AllocError>
        ensures { IfOk result (λ copy. copy ≡ self.now) }
    {
        let keys = self.keys.try_clone(alloc)?;
        let accounts = self.accounts.try_clone(alloc)?;
        let waits = self.waits.try_clone(alloc)?;
        Ok(Authority {
            threshold: self.threshold,
            keys,
            accounts,
            waits,
        })
    }
}

/// Reads an authority at the reader's place.
pub fn read_authority(alloc: Global, reader: &mut PackReader<'_>) -> Result<Authority, ReadFault>
    ensures { ReadsAt authority reader.old reader.new result }
{
    let mut ahead = reader.fork();
    let value = Authority::read_fields(alloc, &mut ahead)?;
    *reader = ahead;
    Ok(value)
}

/// Writes the one spelling of an authority.
pub fn write_authority(
    alloc: Global,
    writer: &mut PackWriter,
    value: &Authority,
) -> Result<(), AllocError>
    requires { authority.Fits value.now }
    ensures ok { OnOk result (Adds writer.old writer.new (authority.spell value.now)) }
    ensures err { OnErr result (writer.new ≡ writer.old) }
{
    value.write(alloc, writer)
}
