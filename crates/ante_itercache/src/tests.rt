// A script of calls, with the numbers that the rule gives: rows from 0 upwards, ends of tables from -2 downwards.
ghost use Rattle.std.specs.Prelude.{◌+◌, ◌<◌, ◌≤◌, ◌^◌, length};

use crate::Iters;
use ante_pack::{Name, TableKey};
use std::alloc::{AllocError, Global};
use std::process::Abort;

// One call, with what it is to answer. A table is named by its scope.
#[derive(Clone, Copy, Debug)]
enum Step {
    Table(u64, i32),
    Row(u64, u64, i32),
    End(i32, Option<u64>),
    Get(i32, Option<(u64, u64)>),
    Removed(i32),
}

fn table(scope: u64) -> TableKey {
    TableKey {
        code: Name(1),
        scope: Name(scope),
        table: Name(2),
    }
}

// Whether the call answers what it is to answer.
#[tactic(auto, using(crate::proofs::Removed::rows_removed, crate::proofs::Removed::tables_removed))]
fn answers(iters: &mut Iters, alloc: Global, step: Step) -> Result<bool, AllocError>
    requires tables { length iters.old.tables + 1 < 2 ^ 31 }
    requires rows { length iters.old.rows < 2 ^ 31 }
    ensures tables { length iters.new.tables ≤ length iters.old.tables + 1 }
    ensures rows { length iters.new.rows ≤ length iters.old.rows + 1 }
{
    match step {
        Step::Table(scope, number) => Ok(iters.table(alloc, table(scope))? == number),
        Step::Row(scope, primary, number) => {
            Ok(iters.row(alloc, table(scope), primary)? == number)
        }
        Step::End(number, scope) => Ok(iters.end_table(number) == scope.map(table)),
        Step::Get(number, row) => {
            Ok(iters.get(number) == row.map(|(scope, primary)| (table(scope), primary)))
        }
        Step::Removed(number) => {
            iters.removed(number);
            Ok(true)
        }
    }
}

#[test]
fn numbers_follow_the_rule(rt: HostRuntime) -> Result<(), AllocError> {
    use Step::*;
    const LAST: u64 = u64::MAX;
    let script = [
        Get(0, None),
        End(-2, None),
        Table(7, -2),
        Table(7, -2),
        Row(7, 5, 0),
        Row(7, 5, 0),
        Row(7, LAST, 1),
        Row(7, 0, 2),
        Table(8, -3),
        Row(8, 5, 3),
        End(-2, Some(7)),
        End(-3, Some(8)),
        End(-4, None),
        End(-1, None),
        End(0, None),
        End(i32::MIN, None),
        Get(0, Some((7, 5))),
        Get(1, Some((7, LAST))),
        Get(2, Some((7, 0))),
        Get(3, Some((8, 5))),
        Get(4, None),
        Get(-1, None),
        Get(i32::MAX, None),
        Removed(0),
        Get(0, None),
        Row(7, 5, 4),
        Row(7, 5, 4),
        Row(8, 5, 3),
        // None of these is the number of a live row.
        Removed(0),
        Removed(-2),
        Removed(5),
        Get(4, Some((7, 5))),
        Table(7, -2),
        Table(9, -4),
        Row(9, 0, 5),
    ];
    let mut iters = Iters::new(rt.alloc());
    for at in 0..script.len() {
        let step = script[at];
        let answered = answers(&mut iters, rt.alloc(), step)?;
        assert!(rt; answered, "{step:?}");
    }
    Ok(())
}

#[test]
fn what_was_met_last_is_taken_back(rt: HostRuntime) -> Result<(), AllocError> {
    let mut iters = Iters::new(rt.alloc());
    iters.table(rt.alloc(), table(7))?;
    iters.row(rt.alloc(), table(7), 5)?;
    assert_eq!(rt; iters.met(), (1, 1));
    iters.back_to(1, 0);
    assert_eq!(rt; iters.met(), (1, 0));
    assert_eq!(rt; iters.get(0), None);
    assert_eq!(rt; iters.row(rt.alloc(), table(7), 6)?, 0);
    Ok(())
}
