ghost use Rattle.std.specs.Prelude.{◌≡◌, ℕ, List, length, IfOk, OnOk, OnErr, All, Result, Ok, Err};
ghost use Rattle.std.specs.List.{flat_map, AllByRecursion};
ghost use Rattle.ante_pack.specs.Adds.{Adds};
ghost use Rattle.ante_pack.specs.Forms.{Cursor, Form, ReadsTo, ReadsWhole, IsWhole, list_of, items_at, whole};
ghost use Rattle.ante_pack.specs.Codec.{IsCodec};

use crate::fault::{PackFault, ReadFault};
use crate::lists::{Bytes, Seq};
use crate::reader::PackReader;
use crate::writer::PackWriter;
use std::alloc::{AllocError, Global};

/// A type with a packed form, which is a codec: what is read is spelled so, and what is spelled is read, whatever
/// follows.
pub trait Packed: Drop {
    ghost form: { Form Self };

    /// Reads the fields one after the other, as a part of a larger value or for `read`. After a refusal the reader's
    /// place says nothing.
    fn read_fields(alloc: Global, reader: &mut PackReader<'_>) -> Result<Self, ReadFault>
        ensures { ReadsTo result reader.new (form.read reader.old) };

    /// Writes the fields one after the other, as a part of a larger value or for `write`. After a refusal what was
    /// written says nothing.
    fn write_fields(&self, alloc: Global, writer: &mut PackWriter) -> Result<(), AllocError>
        requires { form.Fits self.now }
        ensures { OnOk result (Adds writer.old writer.new (form.spell self.now)) };

    ghost is_codec: { IsCodec form };

    /// Reads a value at the reader's place, which stays after a refusal.
    final fn read(alloc: Global, reader: &mut PackReader<'_>) -> Result<Self, ReadFault>
        ensures reads { ReadsTo result reader.new (form.read reader.old) }
        ensures stays { OnErr result (reader.new ≡ reader.old) }
    {
        let mut ahead = reader.fork();
        let value = Self::read_fields(alloc, &mut ahead)?;
        *reader = ahead;
        Ok(value)
    }

    /// Writes the one spelling of a value, or nothing.
    final fn write(&self, alloc: Global, writer: &mut PackWriter) -> Result<(), AllocError>
        requires { form.Fits self.now }
        ensures ok { OnOk result (Adds writer.old writer.new (form.spell self.now)) }
        ensures err { OnErr result (writer.new ≡ writer.old) }
    {
        let packed = write_whole(alloc, self)?;
        writer.put_raw(alloc, packed.as_slice())
    }
}

fn read_items<T: Packed>(
    alloc: Global,
    count: u32,
    reader: &mut PackReader<'_>,
) -> Result<Seq<T>, ReadFault>
    ensures { ReadsTo result reader.new (items_at T.form.read count reader.old) }
{
    let mut items = Seq::new(alloc);
    for _ in 0..count {
        let item = T::read_fields(alloc, reader)?;
        items.push(alloc, item)?;
    }
    Ok(items)
}

/// Reads a count and that many items, as a part of a larger value. After a refusal the reader's place says nothing.
/// Memory grows with the items that are there, and not with the count.
pub fn read_seq_fields<T: Packed>(
    alloc: Global,
    reader: &mut PackReader<'_>,
) -> Result<Seq<T>, ReadFault>
    ensures { ReadsTo result reader.new ((list_of T.form).read reader.old) }
{
    let count = reader.varuint()?;
    read_items(alloc, count, reader)
}

/// Reads a count and that many items at the reader's place, which stays after a refusal.
pub fn read_seq<T: Packed>(alloc: Global, reader: &mut PackReader<'_>) -> Result<Seq<T>, ReadFault>
    ensures reads { ReadsTo result reader.new ((list_of T.form).read reader.old) }
    ensures stays { OnErr result (reader.new ≡ reader.old) }
{
    let mut ahead = reader.fork();
    let items = read_seq_fields(alloc, &mut ahead)?;
    *reader = ahead;
    Ok(items)
}

/// Reads all the bytes as one value.
pub fn read_whole<T: Packed>(alloc: Global, packed: &[u8]) -> Result<T, ReadFault>
    ensures { ReadsWhole T.form packed.now result }
{
    read_to_end(alloc, packed)
}

fn read_to_end<T: Packed>(alloc: Global, packed: &[u8]) -> Result<T, ReadFault>
    ensures { IsWhole result (whole T.form packed.now) }
{
    let mut reader = PackReader::new(packed);
    let value = T::read_fields(alloc, &mut reader)?;
    reader.end()?;
    Ok(value)
}

fn write_items<T: Packed>(
    alloc: Global,
    writer: &mut PackWriter,
    items: &[T],
) -> Result<(), AllocError>
    requires { All T.form.Fits items.now }
    ensures { OnOk result (Adds writer.old writer.new (flat_map T.form.spell items.now)) }
{
    for item in items {
        item.write_fields(alloc, writer)?;
    }
    Ok(())
}

/// Writes a count and the items, as a part of a larger value. After a refusal what was written says nothing.
pub fn write_seq_fields<T: Packed>(
    alloc: Global,
    writer: &mut PackWriter,
    items: &Seq<T>,
) -> Result<(), AllocError>
    requires { (list_of T.form).Fits items.now }
    ensures { OnOk result (Adds writer.old writer.new ((list_of T.form).spell items.now)) }
{
    writer.put_varuint(alloc, items.len() as u32)?;
    write_items(alloc, writer, items.as_slice())
}

/// Writes a count and the items, or nothing.
pub fn write_seq<T: Packed>(
    alloc: Global,
    writer: &mut PackWriter,
    items: &Seq<T>,
) -> Result<(), AllocError>
    requires { (list_of T.form).Fits items.now }
    ensures ok { OnOk result (Adds writer.old writer.new ((list_of T.form).spell items.now)) }
    ensures err { OnErr result (writer.new ≡ writer.old) }
{
    let mut aside = PackWriter::new(alloc);
    write_seq_fields(alloc, &mut aside, items)?;
    writer.put_raw(alloc, aside.as_slice())
}

/// The spelling of a value.
pub fn write_whole<T: Packed>(alloc: Global, value: &T) -> Result<Bytes, AllocError>
    requires { T.form.Fits value.now }
    ensures { IfOk result (λ bytes. bytes ≡ T.form.spell value.now) }
{
    let mut writer = PackWriter::new(alloc);
    value.write_fields(alloc, &mut writer)?;
    Ok(writer.into_bytes())
}

impl Packed for Bytes {
    ghost use Rattle.ante_pack.specs.Forms.{string};
    ghost use Rattle.ante_pack.specs.Codecs.{IsCodec-bytes};

    ghost form = { string };

    ghost is_codec = { IsCodec-bytes };

    fn read_fields(alloc: Global, reader: &mut PackReader<'_>) -> Result<Bytes, ReadFault> {
        let bytes = reader.bytes()?;
        Ok(Bytes::from_slice(alloc, bytes)?)
    }

    #[tactic(auto, unfolding(crate::specs::Forms::string))]
    fn write_fields(&self, alloc: Global, writer: &mut PackWriter) -> Result<(), AllocError> {
        writer.put_bytes(alloc, self.as_slice())
    }
}
