//! A host that counts its calls in what it is lent, driven twice.
ghost use Rattle.std.specs.Prelude.{◌≡◌, ℕ, ◌+◌, ◌%◌, ◌^◌, IfOk};
ghost use Rattle.std.proofs.Common.{arith};
ghost use Rattle.ante_wtree.specs.Trees.{tree_of};
ghost use Rattle.ante_wtree.specs.Intrinsics.{type_at};
ghost use Rattle.ante_wmem.specs.Keeping.{always_kept};
ghost use Rattle.ante_wrun_tests.specs.Counting.{Counted, counted, Leads};

use ante_base::NeverStop;
use ante_wmeaning::imports_have_host_types;
use ante_wmem::Memory;
use ante_wrun::{Host, HostAnswer, HostFn, Machine, RunEnd};
use ante_wtree::host_type;
use ante_wvalid::ValidModule;
use std::alloc::{AllocError, Global};
use std::marker::Model;

/// What counts calls.
pub trait Counter {
    // what was counted
    ghost count: { Self → ℕ };

    fn add(&mut self)
        ensures { count self.new ≡ (count self.old + 1) % 2 ^ 64 };
}

impl Counter for u64 {
    ghost count = { λ n. n };

    fn add(&mut self) {
        *self = self.wrapping_add(1);
    }
}

/// A host that counts its calls in what it is lent.
#[derive(Drop)]
pub struct Counting<'a, C: Counter> {
    counter: &'a mut C,
}

impl<'a, C: Counter> Model for Counting<'a, C> {
    ghost Value = { Counted };

    ghost view = { λ h. record { count = C.count h.counter.now; holder = h.counter.ghost_name } };
}

impl<C: Counter> Host for Counting<'_, C> {
    type Refusal = u32;

    ghost allowed = { λ host function arguments left. Unit {0} };

    ghost meaning = { λ host function arguments memory left. counted host function memory left };

    ghost stands = { λ host function arguments memory left answer after. after ≡ host };

    fn call(
        &mut self,
        function: HostFn,
        args: &[u64],
        memory: &mut Memory,
        left: &mut u64,
    ) -> HostAnswer<u32> {
        self.counter.add();
        match host_type(function.0) {
            Some((_, Some(_))) => HostAnswer::Value(0),
            _ => HostAnswer::Nothing,
        }
    }

    ghost lower = { λ host function arguments left less le holds. tt };

    ghost falls = { λ host function arguments memory left. Prim.omega arith };

    ghost keeps = { λ host function arguments memory left holds. let outcome = counted host function memory left in
        always_kept (λ w f args n. Unit {0}) (λ w f args n. tt) host left outcome.reply outcome.left };
}

/// One run.
fn run_once<C: Counter>(
    alloc: Global,
    module: &ValidModule,
    host: &mut Counting<'_, C>,
    steps: u64,
) -> Result<RunEnd<u32>, AllocError>
    ensures holder { host.new.holder ≡ host.old.holder }
    ensures count { IfOk result (λ end. Leads (tree_of module.now) steps host.old.count end host.new.count) }
{
    let mut left = steps;
    imports_have_host_types(module);
    Machine::new().run(alloc, module, [1, 2, 3], host, &mut NeverStop, &mut left)
}

/// Two runs over a counter that is lent to one host.
pub fn run_twice<C: Counter>(
    alloc: Global,
    module: &ValidModule,
    counter: &mut C,
    steps: u64,
) -> Result<(RunEnd<u32>, RunEnd<u32>), AllocError>
    ensures { IfOk result (λ ends. (between : ℕ)
        × Leads (tree_of module.now) steps (C.count counter.old) ends.0 between
        × Leads (tree_of module.now) steps between ends.1 (C.count counter.new)) }
{
    let mut host = Counting { counter };
    let first = run_once(alloc, module, &mut host, steps);
    let second = run_once(alloc, module, &mut host, steps);
    let Counting { counter: _back } = host;
    Ok((first?, second?))
}
