//! The run of one module over the chain's tables.
ghost use Rattle.std.specs.Prelude.{◌≡◌, ◌≤◌, ◌<◌, ℕ, Ok};
ghost use Rattle.ante_calls.specs.ActionData.{IsPacked};
ghost use Rattle.ante_calls.specs.Views.{base_of, no_lists, ReadyFor};
ghost use Rattle.ante_execution.specs.Hosts.{Allows, most_met};
ghost use Rattle.ante_execution.specs.Runs.{arguments};
ghost use Rattle.ante_execution.specs.Stopping.{Reaches, AskedAt};
ghost use Rattle.ante_host.specs.Owned.{lists_of};
ghost use Rattle.ante_host.specs.Code.{seen, run_alone, RunsAs, Leads};
ghost use Rattle.ante_wmeaning.specs.declared.ends.RunEnd.TheVariants as end;
ghost use Rattle.ante_wtree.specs.Trees.{tree_of};

use crate::host::RunHost;
use crate::own::Own;
use ante_base::Stop;
use ante_store::Tables;
use ante_types::{Failure, RunContext};
use ante_wmeaning::imports_have_host_types;
use ante_wrun::{Machine, RunEnd};
use ante_wvalid::ValidModule;
use std::alloc::{AllocError, Global};

// One run over a host.
fn run_on<T: Tables, P: Stop>(
    alloc: Global,
    host: &mut RunHost<'_, '_, '_, T>,
    module: &ValidModule,
    args: [u64; 3],
    stop: &mut P,
    left: &mut u64,
) -> Result<RunEnd<Failure>, AllocError>
    requires allowed { Allows host.old left.old }
    ensures base { host.new.base ≡ host.old.base }
    ensures holder { host.new.holder ≡ host.old.holder }
    ensures runs { RunsAs (run_alone (tree_of module.now) args host.old.seen left.old) (P.looks stop.old) (P.looks stop.new) result host.new.seen left.new }
    ensures reaches { Reaches P.may stop.old stop.new }
    ensures cut { (at : ℕ) → result ≡ Ok (end.Cut at) → AskedAt P.may stop.old at stop.new }
    ensures falls { left.new ≤ left.old }
{
    imports_have_host_types(module);
    Machine::new().run(alloc, module, args, host, stop, left)
}

// One run over the tables, and what the run has of its own.
fn run_with<T: Tables, P: Stop>(
    alloc: Global,
    tables: &mut T,
    module: &ValidModule,
    packed: &[u8],
    own: &mut Own,
    stop: &mut P,
    left: &mut u64,
) -> Result<RunEnd<Failure>, AllocError>
    requires ready { ReadyFor own.old.run.mode (T.stack tables.old) (T.writing tables.old) }
    requires packed { IsPacked packed.now }
    requires lists { lists_of own.old ≡ no_lists }
    requires room { left.old < most_met }
    ensures base { base_of (T.stack tables.new) (T.writing tables.new) (T.lent tables.new) ≡
        base_of (T.stack tables.old) (T.writing tables.old) (T.lent tables.old) }
    ensures runs { Leads (run_alone (tree_of module.now) (arguments own.old.run) (seen (T.stack tables.old).top own.old.run packed.now) left.old)
        (P.looks stop.old) (P.looks stop.new) result (T.stack tables.new).top own.new.run left.new }
    ensures reaches { Reaches P.may stop.old stop.new }
    ensures cut { (at : ℕ) → result ≡ Ok (end.Cut at) → AskedAt P.may stop.old at stop.new }
    ensures falls { left.new ≤ left.old }
{
    let run = &own.run;
    let args = [run.receiver.0, run.action.account.0, run.action.name.0];
    let mut host = RunHost {
        tables,
        own,
        packed,
        alloc,
    };
    let end = run_on(alloc, &mut host, module, args, stop, left);
    // Taken apart, so that what is lent is known again.
    let RunHost {
        tables: lent,
        own: kept,
        ..
    } = host;
    let _tables = lent;
    let _own = kept;
    end
}

/// Runs the module's `apply` with the receiver, the action's account and the action's name, and gives the run's context back. After want of memory
/// and after a cut the newest state may have changed.
pub fn run_code<T: Tables, P: Stop>(
    alloc: Global,
    tables: &mut T,
    module: &ValidModule,
    packed: &[u8],
    run: RunContext,
    stop: &mut P,
    left: &mut u64,
) -> (Result<RunEnd<Failure>, AllocError>, RunContext)
    requires ready { ReadyFor run.mode (T.stack tables.old) (T.writing tables.old) }
    requires packed { IsPacked packed.now }
    requires room { left.old < most_met }
    ensures base { base_of (T.stack tables.new) (T.writing tables.new) (T.lent tables.new) ≡
        base_of (T.stack tables.old) (T.writing tables.old) (T.lent tables.old) }
    ensures runs { Leads (run_alone (tree_of module.now) (arguments run) (seen (T.stack tables.old).top run packed.now) left.old) (P.looks stop.old) (P.looks stop.new)
        result.0 (T.stack tables.new).top result.1 left.new }
    ensures reaches { Reaches P.may stop.old stop.new }
    ensures cut { (at : ℕ) → result.0 ≡ Ok (end.Cut at) → AskedAt P.may stop.old at stop.new }
    ensures falls { left.new ≤ left.old }
{
    let mut own = Own::new(alloc, run);
    let end = run_with(alloc, tables, module, packed, &mut own, stop, left);
    (end, own.run)
}
