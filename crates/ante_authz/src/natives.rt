// What two of the native actions name in their data.
ghost use Rattle.std.specs.Prelude.{◌≡◌};
ghost use Rattle.ante_pack.specs.Forms.{IsWhole, whole};
ghost use Rattle.ante_execution.specs.NativeData.{updateauth, deleteauth};
ghost use Rattle.ante_authz.specs.Gains.{names_updated, name_deleted};

use ante_pack::{Authority, Name, PackFault, PackReader, Packed, ReadFault};
use std::alloc::Global;

// The permission that an `updateauth` is about, and its parent.
pub(crate) fn read_updated(alloc: Global, bytes: &[u8]) -> Result<(Name, Name), ReadFault>
    ensures { IsWhole result (names_updated (whole updateauth bytes.now)) }
{
    let mut reader = PackReader::new(bytes);
    reader.name()?;
    let permission = reader.name()?;
    let parent = reader.name()?;
    Authority::read_fields(alloc, &mut reader)?;
    reader.end()?;
    Ok((permission, parent))
}

// The permission that a `deleteauth` is about.
pub(crate) fn read_deleted(bytes: &[u8]) -> Result<Name, PackFault>
    ensures { result ≡ name_deleted (whole deleteauth bytes.now) }
{
    let mut reader = PackReader::new(bytes);
    reader.name()?;
    let permission = reader.name()?;
    reader.end()?;
    Ok(permission)
}
