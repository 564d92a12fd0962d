// Numbers drawn one after another.
ghost use Rattle.std.specs.Prelude.{◌≡◌, ◌*◌, IfOk, OnOk};
ghost use Rattle.ante_gen.specs.Workload.{next_state, number_of, after_draws, pairs_from, keys_from};

use ante_pack::Seq;
use std::alloc::{AllocError, Global};

const FACTOR: u64 = 6_364_136_223_846_793_005;

const STEP: u64 = 1_442_695_040_888_963_407;

fn draw(state: &mut u64) -> u64
    ensures state { state.new ≡ next_state state.old }
    ensures number { result ≡ number_of state.new }
{
    *state = state.wrapping_mul(FACTOR).wrapping_add(STEP);
    *state >> 33
}

#[tactic(auto, using(crate::proofs::Drawing::pairs_more, crate::proofs::Drawing::after_two), unfolding(crate::specs::Workload::after_draws, crate::specs::Workload::pairs_from))]
pub(crate) fn draw_pairs(
    alloc: Global,
    state: &mut u64,
    count: usize,
) -> Result<Seq<(u64, u64)>, AllocError>
    ensures pairs { IfOk result (λ pairs. pairs ≡ pairs_from count state.old) }
    ensures state { OnOk result (state.new ≡ after_draws (2 * count) state.old) }
{
    let mut pairs = Seq::new(alloc);
    for _ in 0..count {
        let key = draw(state) % 1000;
        let amount = draw(state) % 100;
        pairs.push(alloc, (key, amount))?;
    }
    Ok(pairs)
}

#[tactic(auto, using(crate::proofs::Drawing::keys_more, crate::proofs::Drawing::after_more), unfolding(crate::specs::Workload::after_draws, crate::specs::Workload::keys_from))]
pub(crate) fn draw_keys(
    alloc: Global,
    state: &mut u64,
    count: usize,
) -> Result<Seq<u64>, AllocError>
    ensures { IfOk result (λ keys. keys ≡ keys_from count state.old) }
{
    let mut keys = Seq::new(alloc);
    for _ in 0..count {
        keys.push(alloc, draw(state) % 1000)?;
    }
    Ok(keys)
}
