// Blocks and transactions on a map of numbers.
ghost use Rattle.std.specs.Prelude.{◌≡◌, IfOk};
ghost use Rattle.ante_control_tests.specs.Numbers.{asked, failure_of, trace_of};
ghost use Rattle.ante_control_tests.specs.Numbers as numbers;

use ante_pack::{Bytes, Digest, ReadFault, Seq};
use ante_session_machine::Effects;
use ante_sessions::set_entry;
use ante_types::{BlockInfo, Failure, Head, Trace, read_trx, trx_id};
use ante_undo::Layered;
use ante_verdicts::Verdicts;
use std::alloc::{AllocError, Global};

/// A transaction puts its block's number at its expiration, and fails where that is 0.
#[derive(Drop)]
pub struct Numbers;

impl Effects<Layered<u32, u32>> for Numbers {
    ghost use Rattle.ante_control_tests.specs.Numbers.{number_steps};
    ghost use Rattle.ante_control_tests.specs.Sound.{sound_numbers};

    ghost steps = { number_steps };

    fn begin(
        &self,
        alloc: Global,
        _chain: &Digest,
        state: &mut Layered<u32, u32>,
        info: BlockInfo,
    ) -> Result<(), AllocError> {
        set_entry(alloc, state, 0, Some(info.slot))
    }

    fn trx<V: Verdicts>(
        &self,
        alloc: Global,
        _chain: &Digest,
        state: &mut Layered<u32, u32>,
        info: BlockInfo,
        packed: &[u8],
        signatures: &Seq<Bytes>,
        _verdicts: &V,
    ) -> Result<Trace, AllocError> {
        let asked = number_asked(alloc, packed)?;
        let failure = failure_by(alloc, is_big(packed, signatures), asked);
        if failure.is_none() {
            set_entry(alloc, state, asked, Some(info.num))?;
        }
        Ok(trace(alloc, info, packed, failure))
    }

    fn finish(
        &self,
        alloc: Global,
        _chain: &Digest,
        state: &mut Layered<u32, u32>,
        num: u32,
        _id: &Digest,
    ) -> Result<(), AllocError> {
        set_entry(alloc, state, 1, Some(num))
    }

    ghost sound = { λ chain judge w info packed signatures. sound_numbers w info packed signatures };
}

fn number_asked(alloc: Global, packed: &[u8]) -> Result<u32, AllocError>
    ensures { IfOk result (λ n. n ≡ asked packed.now) }
{
    match read_trx(alloc, packed) {
        Ok(trx) => Ok(trx.expiration),
        Err(ReadFault::OutOfMemory) => Err(AllocError),
        Err(ReadFault::Pack(_)) => Ok(0),
    }
}

fn is_big(packed: &[u8], signatures: &Seq<Bytes>) -> bool
    ensures { result ≡ numbers.is_big packed.now signatures.now }
{
    if signatures.as_slice().is_empty() {
        return packed.len() > 1000;
    }
    true
}

fn failure_by(alloc: Global, big: bool, asked: u32) -> Option<Failure>
    ensures { result ≡ failure_of big asked }
{
    if big {
        return Some(Failure::TooBig);
    }
    if asked == 0 {
        let message = Bytes::new(alloc);
        return Some(Failure::Assert { message });
    }
    None
}

fn trace(alloc: Global, info: BlockInfo, packed: &[u8], failure: Option<Failure>) -> Trace
    ensures { result ≡ trace_of info packed.now failure }
{
    let num = info.num.saturating_sub(1);
    let id = info.previous;
    Trace {
        position: 0,
        head: Head { num, id },
        id: trx_id(packed),
        failure,
        steps: 7,
        actions: Seq::new(alloc),
    }
}
