ghost use Rattle.std.specs.Prelude.{◌≡◌, ◌<◌, ◌^◌, length, Ok, IfOk};
ghost use Rattle.ante_pack.specs.Forms.{Packs, IsWhole};
ghost use Rattle.ante_types.specs.declared.chain.Transaction.{Transaction};
ghost use Rattle.ante_types.specs.Chain.{transaction};
ghost use Rattle.ante_types.specs.Jobs.{job_of};

use crate::chain::Transaction;
use crate::forms::read_trx;
use ante_pack::{Bytes, ReadFault};
use std::alloc::Global;
use std::marker::Model;

/// A transaction with the bytes that it is read from.
#[derive(Debug, Drop)]
pub struct ReadJob {
    pub packed: Bytes,
    pub trx: Transaction,
}

impl Model for ReadJob {
    ghost use Rattle.ante_pack.specs.Forms.{Packs};
    ghost use Rattle.ante_types.specs.Chain.{transaction};
    ghost use Rattle.ante_types.specs.Jobs.{Job};

    ghost Value = { Job };

    ghost view = { λ j. record { packed = j.packed; trx = j.trx } };

    ghost invariant = { λ j. Packs transaction j.trx j.packed };
}

impl ReadJob {
    /// Reads all the bytes as one transaction, and keeps them with it.
    pub fn new(alloc: Global, packed: Bytes) -> Result<ReadJob, ReadFault>
        ensures fault { IsWhole result (job_of packed) }
        ensures found { IfOk result (λ job. Packs transaction job.trx packed) }
        ensures packed { IfOk result (λ job. job.packed ≡ packed) }
        ensures only { (trx : Transaction) → Packs transaction trx packed → IsWhole result (Ok (record { packed = packed; trx = trx })) }
    {
        let trx = read_trx(alloc, packed.as_slice())?;
        Ok(ReadJob { packed, trx })
    }

    /// The bytes that the transaction was read from.
    pub fn packed(&self) -> &Bytes
        ensures { result.now ≡ self.now.packed }
    {
        &self.packed
    }

    /// The transaction, whose lists are as long as packed lists can be.
    #[tactic(auto, using(crate::proofs::Jobs::few_actions))]
    pub fn trx(&self) -> &Transaction
        ensures trx { result.now ≡ self.now.trx }
        ensures reads { Packs transaction self.now.trx self.now.packed }
        ensures few { length self.now.trx.actions < 2 ^ 32 }
    {
        &self.trx
    }
}
