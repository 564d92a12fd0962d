// An authority in its packed form, whatever its keys are.
ghost use Rattle.std.specs.Prelude.{◌≡◌, IfOk, OnOk};
ghost use Rattle.std.specs.List.{flat_map};
ghost use Rattle.ante_pack.specs.Adds.{Adds};
ghost use Rattle.ante_pack.specs.Forms.{Form, list_of};
ghost use Rattle.ante_pack.specs.Packed.{authority};

use ante_pack::{Authority, Bytes, KeyWeight, LevelWeight, PackWriter, Seq, WaitWeight};
use std::alloc::{AllocError, Global};

/// The spelling of an authority. A list of 2^32 items or more has none, and wants memory.
#[tactic(auto, using(ante_pack::proofs::Pieces::onto), unfolding(ante_pack::specs::Packed::authority))]
pub(crate) fn packed_authority(alloc: Global, value: &Authority) -> Result<Bytes, AllocError>
    ensures { IfOk result (λ bytes. bytes ≡ authority.spell value.now) }
{
    let mut writer = PackWriter::new(alloc);
    writer.put_u32(alloc, value.threshold)?;
    put_items(alloc, &mut writer, &value.keys)?;
    put_items(alloc, &mut writer, &value.accounts)?;
    put_items(alloc, &mut writer, &value.waits)?;
    Ok(writer.into_bytes())
}

/// What can be spelled without being looked at.
trait Spelled {
    ghost form: { Form Self };

    fn put(&self, alloc: Global, writer: &mut PackWriter) -> Result<(), AllocError>
        ensures { OnOk result (Adds writer.old writer.new (form.spell self.now)) };
}

impl Spelled for KeyWeight {
    ghost use Rattle.ante_pack.specs.Packed.{key_weight};

    ghost form = { key_weight };

    #[tactic(auto, using(ante_pack::proofs::Pieces::onto), unfolding(ante_pack::specs::Packed::key_weight))]
    fn put(&self, alloc: Global, writer: &mut PackWriter) -> Result<(), AllocError> {
        writer.put_key(alloc, &self.key)?;
        writer.put_u16(alloc, self.weight)
    }
}

impl Spelled for LevelWeight {
    ghost use Rattle.ante_pack.specs.Packed.{level_weight};

    ghost form = { level_weight };

    #[tactic(auto, using(ante_pack::proofs::Pieces::onto), unfolding(ante_pack::specs::Packed::level_weight, ante_pack::specs::Packed::level))]
    fn put(&self, alloc: Global, writer: &mut PackWriter) -> Result<(), AllocError> {
        writer.put_name(alloc, self.level.actor)?;
        writer.put_name(alloc, self.level.permission)?;
        writer.put_u16(alloc, self.weight)
    }
}

impl Spelled for WaitWeight {
    ghost use Rattle.ante_pack.specs.Packed.{wait_weight};

    ghost form = { wait_weight };

    #[tactic(auto, using(ante_pack::proofs::Pieces::onto), unfolding(ante_pack::specs::Packed::wait_weight))]
    fn put(&self, alloc: Global, writer: &mut PackWriter) -> Result<(), AllocError> {
        writer.put_u32(alloc, self.seconds)?;
        writer.put_u16(alloc, self.weight)
    }
}

// A count and the items.
#[tactic(auto, using(ante_pack::proofs::Pieces::onto))]
fn put_items<T: Spelled>(
    alloc: Global,
    writer: &mut PackWriter,
    items: &Seq<T>,
) -> Result<(), AllocError>
    ensures { OnOk result (Adds writer.old writer.new ((list_of T.form).spell items.now)) }
{
    let Ok(count) = u32::try_from(items.len()) else {
        return Err(AllocError);
    };
    writer.put_varuint(alloc, count)?;
    put_each(alloc, writer, items.as_slice())
}

fn put_each<T: Spelled>(
    alloc: Global,
    writer: &mut PackWriter,
    items: &[T],
) -> Result<(), AllocError>
    ensures { OnOk result (Adds writer.old writer.new (flat_map T.form.spell items.now)) }
{
    for item in items {
        item.put(alloc, writer)?;
    }
    Ok(())
}
