ghost use Rattle.std.specs.Prelude.{◌≡◌, IfOk};
ghost use Rattle.ante_pack.specs.Forms.{ReadsWhole};
ghost use Rattle.ante_types.specs.Chain.{action, transaction, block, genesis};

use crate::chain::{
    Action, Block, Extension, Genesis, GenesisAccount, Header, Receipt, Transaction,
};
use ante_pack::{
    Authority, Bytes, PackReader, PackWriter, Packed, ReadFault, read_seq_fields, read_whole,
    write_seq_fields, write_whole,
};
use std::alloc::{AllocError, Global};

impl Packed for Action {
    ghost use Rattle.ante_types.specs.Chain.{action};
    ghost use Rattle.ante_types.specs.Codecs.{IsCodec-action};

    ghost form = { action };

    ghost is_codec = { IsCodec-action };

    #[tactic(auto, unfolding(crate::specs::Chain::action))]
    fn read_fields(alloc: Global, reader: &mut PackReader<'_>) -> Result<Action, ReadFault> {
        let account = reader.name()?;
        let name = reader.name()?;
        let authorization = read_seq_fields(alloc, reader)?;
        let bytes = Bytes::read_fields(alloc, reader)?;
        Ok(Action {
            account,
            name,
            authorization,
            bytes,
        })
    }

    #[tactic(auto, using(ante_pack::proofs::Pieces::onto), unfolding(crate::specs::Chain::action))]
    fn write_fields(&self, alloc: Global, writer: &mut PackWriter) -> Result<(), AllocError> {
        writer.put_name(alloc, self.account)?;
        writer.put_name(alloc, self.name)?;
        write_seq_fields(alloc, writer, &self.authorization)?;
        self.bytes.write_fields(alloc, writer)
    }
}

impl Packed for Extension {
    ghost use Rattle.ante_types.specs.Chain.{extension};
    ghost use Rattle.ante_types.specs.Codecs.{IsCodec-extension};

    ghost form = { extension };

    ghost is_codec = { IsCodec-extension };

    #[tactic(auto, unfolding(crate::specs::Chain::extension))]
    fn read_fields(alloc: Global, reader: &mut PackReader<'_>) -> Result<Extension, ReadFault> {
        let kind = reader.u16()?;
        let bytes = Bytes::read_fields(alloc, reader)?;
        Ok(Extension { kind, bytes })
    }

    #[tactic(auto, using(ante_pack::proofs::Pieces::onto), unfolding(crate::specs::Chain::extension))]
    fn write_fields(&self, alloc: Global, writer: &mut PackWriter) -> Result<(), AllocError> {
        writer.put_u16(alloc, self.kind)?;
        self.bytes.write_fields(alloc, writer)
    }
}

impl Packed for Transaction {
    ghost use Rattle.ante_types.specs.Chain.{transaction};
    ghost use Rattle.ante_types.specs.Codecs.{IsCodec-transaction};

    ghost form = { transaction };

    ghost is_codec = { IsCodec-transaction };

    #[tactic(auto, unfolding(crate::specs::Chain::transaction))]
    fn read_fields(alloc: Global, reader: &mut PackReader<'_>) -> Result<Transaction, ReadFault> {
        let expiration = reader.u32()?;
        let ref_block_num = reader.u16()?;
        let ref_block_prefix = reader.u32()?;
        let max_net_usage_words = reader.varuint()?;
        let max_cpu_usage_ms = reader.u8()?;
        let delay_sec = reader.varuint()?;
        let context_free_actions = read_seq_fields(alloc, reader)?;
        let actions = read_seq_fields(alloc, reader)?;
        let extensions = read_seq_fields(alloc, reader)?;
        Ok(Transaction {
            expiration,
            ref_block_num,
            ref_block_prefix,
            max_net_usage_words,
            max_cpu_usage_ms,
            delay_sec,
            context_free_actions,
            actions,
            extensions,
        })
    }

    #[tactic(auto, unfolding(crate::specs::Chain::transaction))]
    fn write_fields(&self, alloc: Global, writer: &mut PackWriter) -> Result<(), AllocError> {
        writer.put_u32(alloc, self.expiration)?;
        writer.put_u16(alloc, self.ref_block_num)?;
        writer.put_u32(alloc, self.ref_block_prefix)?;
        writer.put_varuint(alloc, self.max_net_usage_words)?;
        writer.put_u8(alloc, self.max_cpu_usage_ms)?;
        writer.put_varuint(alloc, self.delay_sec)?;
        write_seq_fields(alloc, writer, &self.context_free_actions)?;
        write_seq_fields(alloc, writer, &self.actions)?;
        write_seq_fields(alloc, writer, &self.extensions)?;
        Ok(())
    }
}

impl Packed for Receipt {
    ghost use Rattle.ante_types.specs.Chain.{receipt};
    ghost use Rattle.ante_types.specs.Codecs.{IsCodec-receipt};

    ghost form = { receipt };

    ghost is_codec = { IsCodec-receipt };

    #[tactic(auto, unfolding(crate::specs::Chain::receipt))]
    fn read_fields(alloc: Global, reader: &mut PackReader<'_>) -> Result<Receipt, ReadFault> {
        let steps = reader.u32()?;
        let packed = Bytes::read_fields(alloc, reader)?;
        let signatures = read_seq_fields(alloc, reader)?;
        Ok(Receipt {
            steps,
            packed,
            signatures,
        })
    }

    #[tactic(auto, using(ante_pack::proofs::Pieces::onto), unfolding(crate::specs::Chain::receipt))]
    fn write_fields(&self, alloc: Global, writer: &mut PackWriter) -> Result<(), AllocError> {
        writer.put_u32(alloc, self.steps)?;
        self.packed.write_fields(alloc, writer)?;
        write_seq_fields(alloc, writer, &self.signatures)
    }
}

impl Packed for Header {
    ghost use Rattle.ante_types.specs.Chain.{header};
    ghost use Rattle.ante_types.specs.Codecs.{IsCodec-header};

    ghost form = { header };

    ghost is_codec = { IsCodec-header };

    #[tactic(auto, unfolding(crate::specs::Chain::header))]
    fn read_fields(_alloc: Global, reader: &mut PackReader<'_>) -> Result<Header, ReadFault> {
        let slot = reader.u32()?;
        let producer = reader.name()?;
        let previous = reader.digest()?;
        let trx_root = reader.digest()?;
        Ok(Header {
            slot,
            producer,
            previous,
            trx_root,
        })
    }

    #[tactic(auto, using(ante_pack::proofs::Pieces::onto), unfolding(crate::specs::Chain::header))]
    fn write_fields(&self, alloc: Global, writer: &mut PackWriter) -> Result<(), AllocError> {
        writer.put_u32(alloc, self.slot)?;
        writer.put_name(alloc, self.producer)?;
        writer.put_digest(alloc, &self.previous)?;
        writer.put_digest(alloc, &self.trx_root)
    }
}

impl Packed for Block {
    ghost use Rattle.ante_types.specs.Chain.{block};
    ghost use Rattle.ante_types.specs.Codecs.{IsCodec-block};

    ghost form = { block };

    ghost is_codec = { IsCodec-block };

    #[tactic(auto, unfolding(crate::specs::Chain::block))]
    fn read_fields(alloc: Global, reader: &mut PackReader<'_>) -> Result<Block, ReadFault> {
        let header = Header::read_fields(alloc, reader)?;
        let seal = Bytes::read_fields(alloc, reader)?;
        let receipts = read_seq_fields(alloc, reader)?;
        Ok(Block {
            header,
            seal,
            receipts,
        })
    }

    #[tactic(auto, using(ante_pack::proofs::Pieces::onto), unfolding(crate::specs::Chain::block))]
    fn write_fields(&self, alloc: Global, writer: &mut PackWriter) -> Result<(), AllocError> {
        self.header.write_fields(alloc, writer)?;
        self.seal.write_fields(alloc, writer)?;
        write_seq_fields(alloc, writer, &self.receipts)
    }
}

impl Packed for GenesisAccount {
    ghost use Rattle.ante_types.specs.Chain.{genesis_account};
    ghost use Rattle.ante_types.specs.Codecs.{IsCodec-genesis_account};

    ghost form = { genesis_account };

    ghost is_codec = { IsCodec-genesis_account };

    #[tactic(auto, unfolding(crate::specs::Chain::genesis_account))]
    fn read_fields(
        alloc: Global,
        reader: &mut PackReader<'_>,
    ) -> Result<GenesisAccount, ReadFault> {
        let name = reader.name()?;
        let owner = Authority::read_fields(alloc, reader)?;
        let active = Authority::read_fields(alloc, reader)?;
        let code = Bytes::read_fields(alloc, reader)?;
        Ok(GenesisAccount {
            name,
            owner,
            active,
            code,
        })
    }

    #[tactic(auto, using(ante_pack::proofs::Pieces::onto), unfolding(crate::specs::Chain::genesis_account))]
    fn write_fields(&self, alloc: Global, writer: &mut PackWriter) -> Result<(), AllocError> {
        writer.put_name(alloc, self.name)?;
        self.owner.write_fields(alloc, writer)?;
        self.active.write_fields(alloc, writer)?;
        self.code.write_fields(alloc, writer)
    }
}

impl Packed for Genesis {
    ghost use Rattle.ante_types.specs.Chain.{genesis};
    ghost use Rattle.ante_types.specs.Codecs.{IsCodec-genesis};

    ghost form = { genesis };

    ghost is_codec = { IsCodec-genesis };

    #[tactic(auto, unfolding(crate::specs::Chain::genesis))]
    fn read_fields(alloc: Global, reader: &mut PackReader<'_>) -> Result<Genesis, ReadFault> {
        let version = reader.u32()?;
        let slot = reader.u32()?;
        let producers = read_seq_fields(alloc, reader)?;
        let accounts = read_seq_fields(alloc, reader)?;
        Ok(Genesis {
            version,
            slot,
            producers,
            accounts,
        })
    }

    #[tactic(auto, using(ante_pack::proofs::Pieces::onto), unfolding(crate::specs::Chain::genesis))]
    fn write_fields(&self, alloc: Global, writer: &mut PackWriter) -> Result<(), AllocError> {
        writer.put_u32(alloc, self.version)?;
        writer.put_u32(alloc, self.slot)?;
        write_seq_fields(alloc, writer, &self.producers)?;
        write_seq_fields(alloc, writer, &self.accounts)
    }
}

/// Reads all the bytes as one transaction.
pub fn read_trx(alloc: Global, packed: &[u8]) -> Result<Transaction, ReadFault>
    ensures { ReadsWhole transaction packed.now result }
{
    read_whole(alloc, packed)
}

/// The packed form of a transaction.
pub fn write_trx(alloc: Global, value: &Transaction) -> Result<Bytes, AllocError>
    requires { transaction.Fits value.now }
    ensures { IfOk result (λ bytes. bytes ≡ transaction.spell value.now) }
{
    write_whole(alloc, value)
}

/// Reads all the bytes as one action.
pub fn read_action(alloc: Global, packed: &[u8]) -> Result<Action, ReadFault>
    ensures { ReadsWhole action packed.now result }
{
    read_whole(alloc, packed)
}

/// Reads all the bytes as one block.
pub fn read_block(alloc: Global, packed: &[u8]) -> Result<Block, ReadFault>
    ensures { ReadsWhole block packed.now result }
{
    read_whole(alloc, packed)
}

/// The packed form of a block.
pub fn write_block(alloc: Global, value: &Block) -> Result<Bytes, AllocError>
    requires { block.Fits value.now }
    ensures { IfOk result (λ bytes. bytes ≡ block.spell value.now) }
{
    write_whole(alloc, value)
}

/// Reads all the bytes as one genesis.
pub fn read_genesis(alloc: Global, packed: &[u8]) -> Result<Genesis, ReadFault>
    ensures { ReadsWhole genesis packed.now result }
{
    read_whole(alloc, packed)
}

/// The packed form of a genesis.
pub fn write_genesis(alloc: Global, value: &Genesis) -> Result<Bytes, AllocError>
    requires { genesis.Fits value.now }
    ensures { IfOk result (λ bytes. bytes ≡ genesis.spell value.now) }
{
    write_whole(alloc, value)
}
