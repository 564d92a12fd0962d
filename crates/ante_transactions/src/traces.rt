//! Traces of transactions.
ghost use Rattle.std.specs.Prelude.{◌≡◌};
ghost use Rattle.ante_execution.specs.Transactions.{head_of, trace_with};

use ante_pack::Seq;
use ante_types::{ActionTrace, BlockInfo, Failure, Head, Trace, trx_id};

/// The predecessor of the block that a transaction runs in.
pub(crate) fn head_of(info: BlockInfo) -> Head
    ensures { result ≡ head_of info }
{
    let num = info.num.saturating_sub(1);
    let id = info.previous;
    Head { num, id }
}

pub(crate) fn trace_with(
    position: u64,
    head: Head,
    packed: &[u8],
    failure: Option<Failure>,
    steps: u64,
    actions: Seq<ActionTrace>,
) -> Trace
    ensures { result ≡ trace_with position head packed.now failure steps actions }
{
    Trace {
        position,
        head,
        id: trx_id(packed),
        failure,
        steps,
        actions,
    }
}
