ghost use Rattle.std.specs.Prelude.{◌≡◌, ℕ, List, IfOk, OnOk, OnErr};
ghost use Rattle.ante_undo.specs.Stack.{with_top};
ghost use Rattle.ante_types.specs.declared.chain.BlockInfo.{BlockInfo};
ghost use Rattle.ante_verdicts.specs.Judge.{Judge};
ghost use Rattle.ante_machine.specs.Steps.{Steps, IsSoundTrx};
ghost use Rattle.ante_session_machine.specs.Under.{IsOpened};

use ante_pack::{Bytes, Digest, Seq};
use ante_sessions::Sessions;
use ante_types::{BlockInfo, Trace};
use ante_verdicts::Verdicts;
use std::alloc::{AllocError, Global};

/// What begins, runs and ends a block on a value with sessions.
pub trait Effects<S: Sessions>: Drop {
    ghost steps: { Steps S.Map };

    /// After want of memory the newest value may be any.
    fn begin(
        &self,
        alloc: Global,
        chain: &Digest,
        state: &mut S,
        info: BlockInfo,
    ) -> Result<(), AllocError>
        requires opened { IsOpened (S.stack state.old) }
        ensures ok { OnOk result (S.stack state.new ≡ with_top (steps.begin chain.now (S.stack state.old).top info) (S.stack state.old)) }
        ensures err { OnErr result (S.stack state.new ≡ with_top (S.stack state.new).top (S.stack state.old)) };

    fn trx<V: Verdicts>(
        &self,
        alloc: Global,
        chain: &Digest,
        state: &mut S,
        info: BlockInfo,
        packed: &[u8],
        signatures: &Seq<Bytes>,
        verdicts: &V,
    ) -> Result<Trace, AllocError>
        requires opened { IsOpened (S.stack state.old) }
        ensures ok { OnOk result (S.stack state.new ≡ with_top (steps.trx chain.now (V.judge verdicts.now) (S.stack state.old).top info packed.now signatures.now).0 (S.stack state.old)) }
        ensures trace { IfOk result (λ trace. trace ≡ (steps.trx chain.now (V.judge verdicts.now) (S.stack state.old).top info packed.now signatures.now).1) }
        ensures err { OnErr result (S.stack state.new ≡ S.stack state.old) };

    fn finish(
        &self,
        alloc: Global,
        chain: &Digest,
        state: &mut S,
        num: u32,
        id: &Digest,
    ) -> Result<(), AllocError>
        requires opened { IsOpened (S.stack state.old) }
        ensures ok { OnOk result (S.stack state.new ≡ with_top (steps.finish chain.now (S.stack state.old).top num id.now) (S.stack state.old)) }
        ensures err { OnErr result (S.stack state.new ≡ S.stack state.old) };

    /// A law: each transaction is sound.
    ghost sound: { (chain : List ℕ) (judge : Judge) (w : S.Map) (info : BlockInfo) (packed : List ℕ) (signatures : List (List ℕ)) → IsSoundTrx w packed signatures (steps.trx chain judge w info packed signatures) };
}
