use crate::sessions::{Call, Trial, Written, write_stack};
use ante_pack::{Bytes, Name, TableKey};
use ante_rows::{PrimaryRow, Rows, TableRow};
use std::alloc::{AllocError, Global};
use std::process::Abort;

// One call, with what it is to answer. A table is named by its number in `table`.
#[derive(Clone, Copy, Debug)]
enum Step {
    // table, primary key, payer, the one byte of the row
    Put(u8, u64, u64, u8),
    Remove(u8, u64, bool),
    // table, payer, count
    Table(u8, u64, u32),
    NoTable(u8),
    In(Call),
}

// Six tables in their order: the least key, three of one contract in two scopes, one of another contract, the greatest key.
fn table(number: u8) -> TableKey {
    let (code, scope, table) = match number {
        0 => (0, 0, 0),
        1 => (1, 1, 1),
        2 => (1, 1, u64::MAX),
        3 => (1, 2, 0),
        4 => (2, 0, 0),
        _ => (u64::MAX, u64::MAX, u64::MAX),
    };
    TableKey {
        code: Name(code),
        scope: Name(scope),
        table: Name(table),
    }
}

impl Written for Rows {
    // The tables with payer and count, and then the rows with payer and bytes.
    fn write(&self, text: &mut String) -> Result<(), AllocError> {
        for number in 0..6 {
            if let Some(row) = self.table(&table(number)) {
                let payer = row.payer.0;
                let count = row.count;
                write!(text, " {number}:{payer}*{count}")?;
            }
        }
        for number in 0..6 {
            write_rows(self, number, text)?;
        }
        Ok(())
    }
}

fn write_rows(rows: &Rows, number: u8, text: &mut String) -> Result<(), AllocError> {
    let mut next = rows.row_from(&table(number), 0);
    for _ in 0..100 {
        let Some((primary, row)) = next else { break };
        let payer = row.payer.0;
        let byte = row.bytes.get(0).unwrap_or(0);
        write!(text, " {number}/{primary}={payer}:{byte}")?;
        next = rows.row_after(&table(number), primary);
    }
    Ok(())
}

impl Trial<Rows> {
    fn step(&mut self, alloc: Global, step: Step) -> Result<bool, AllocError> {
        if let Step::In(call) = step {
            return self.call(alloc, call);
        }
        if !self.is_above(1) {
            return Ok(false);
        }
        match step {
            Step::Put(number, primary, payer, byte) => {
                let row = PrimaryRow {
                    payer: Name(payer),
                    bytes: Bytes::from_slice(alloc, &[byte])?,
                };
                self.state.put_row(alloc, table(number), primary, row)?;
                Ok(true)
            }
            Step::Remove(number, primary, there) => {
                Ok(self.state.remove_row(alloc, &table(number), primary)? == there)
            }
            Step::Table(number, payer, count) => {
                let row = TableRow {
                    payer: Name(payer),
                    count,
                };
                self.state.set_table(alloc, table(number), Some(row))?;
                Ok(true)
            }
            Step::NoTable(number) => {
                self.state.set_table(alloc, table(number), None)?;
                Ok(true)
            }
            Step::In(_) => Ok(false),
        }
    }
}

fn trial(alloc: Global) -> Trial<Rows> {
    Trial {
        state: Rows::new(alloc, 5),
        shelf: None,
    }
}

// Makes the steps on no rows at revision 5, each of which may be made and answers as it is to, and compares what stands then.
fn check(rt: &impl Abort, alloc: Global, steps: &[Step], stack: &str) -> Result<(), AllocError> {
    let mut trial = trial(alloc);
    for step in steps {
        assert!(rt; trial.step(alloc, *step)?, "{step:?} before {stack}");
    }
    let mut text = String::new(alloc);
    write_stack(&mut trial, &mut text)?;
    assert_eq!(rt; text.as_str(), stack);
    Ok(())
}

const LAST: u64 = u64::MAX;

#[test]
fn a_script_leaves_the_stack_written_beside_it(rt: HostRuntime) -> Result<(), AllocError> {
    use Call::*;
    use Step::*;
    let alloc = rt.alloc();

    // Rows of several tables, put, overwritten and removed in nested sessions.
    check(
        &rt,
        alloc,
        &[
            Table(1, 7, 1),
            Put(1, 3, 7, 10),
            In(Begin(6)),
            Put(1, 3, 8, 11),
            Put(4, 3, 7, 12),
            Table(4, 7, 1),
            In(Begin(7)),
            Remove(1, 3, true),
            Remove(1, 3, false),
            Remove(2, 3, false),
            NoTable(1),
        ],
        " 4:7*1 4/3=7:12 | 1:7*1 4:7*1 1/3=8:11 4/3=7:12 | 1:7*1 1/3=7:10",
    )?;

    // A table's payer and count are taken back with its rows.
    check(
        &rt,
        alloc,
        &[
            Table(1, 7, 1),
            Put(1, 3, 7, 10),
            In(Begin(6)),
            Table(1, 7, 2),
            Put(1, 4, 8, 11),
            In(Begin(7)),
            Table(1, 9, 3),
            In(Undo),
            Put(1, LAST, 9, 12),
        ],
        " 1:7*2 1/3=7:10 1/4=8:11 1/18446744073709551615=9:12 | 1:7*1 1/3=7:10",
    )?;
    check(
        &rt,
        alloc,
        &[
            In(Begin(6)),
            Put(0, 0, 1, 1),
            Table(0, 1, 1),
            In(Begin(7)),
            Put(5, LAST, 2, 2),
            Table(5, 2, 1),
            In(Squash),
        ],
        " 0:1*1 5:2*1 0/0=1:1 5/18446744073709551615=2:2 |",
    )?;
    Ok(())
}

#[test]
fn sessions_are_closed_shelved_and_brought_back(rt: HostRuntime) -> Result<(), AllocError> {
    use Call::*;
    use Step::*;
    let alloc = rt.alloc();
    check(
        &rt,
        alloc,
        &[
            In(Begin(6)),
            Put(1, 3, 7, 10),
            In(Begin(7)),
            Table(1, 7, 1),
            In(Begin(8)),
            Remove(1, 3, true),
            In(Commit(6)),
        ],
        " 1:7*1 | 1:7*1 1/3=7:10 | 1/3=7:10",
    )?;

    // A shelf over both kinds, new sessions beside it, and the shelf back.
    check(
        &rt,
        alloc,
        &[
            Put(1, 3, 7, 10),
            In(Begin(6)),
            Table(1, 7, 1),
            In(Begin(7)),
            Remove(1, 3, true),
            In(Shelve(5)),
            In(Begin(6)),
            Put(1, 3, 8, 11),
            Table(2, 8, 1),
            In(Unshelve),
        ],
        " 1:7*1 | 1:7*1 1/3=7:10 | 1/3=7:10",
    )?;
    check(
        &rt,
        alloc,
        &[
            Put(1, 3, 7, 10),
            In(Begin(6)),
            Table(1, 7, 1),
            In(Begin(7)),
            Remove(1, 3, true),
            In(Shelve(6)),
            In(Begin(7)),
            Put(1, 3, 8, 11),
            In(DropShelf),
        ],
        " 1:7*1 1/3=8:11 | 1:7*1 1/3=7:10 | 1/3=7:10",
    )?;
    Ok(())
}

// What the look-ups answer at a primary key of a table: the payer of its row, and the keys at or after, after and before it.
#[derive(Clone, Copy)]
struct Case {
    table: u8,
    primary: u64,
    payer: Option<u64>,
    from: Option<u64>,
    after: Option<u64>,
    before: Option<u64>,
}

fn check_case(rt: &impl Abort, rows: &Rows, case: Case) {
    let key = table(case.table);
    let number = case.table;
    let primary = case.primary;
    let row = rows.row(&key, primary);
    assert_eq!(rt;
        row.map(|row| row.payer.0),
        case.payer,
        "{primary} in {number}"
    );
    let from = rows.row_from(&key, primary);
    assert_eq!(rt;
        from.map(|row| row.0),
        case.from,
        "from {primary} in {number}"
    );
    let after = rows.row_after(&key, primary);
    assert_eq!(rt;
        after.map(|row| row.0),
        case.after,
        "after {primary} in {number}"
    );
    let before = rows.row_before(&key, primary);
    assert_eq!(rt;
        before.map(|row| row.0),
        case.before,
        "before {primary} in {number}"
    );
}

// Rows in three of the tables, some of which were removed or put again in a later session.
fn rows_of_three_tables(alloc: Global) -> Result<(Trial<Rows>, bool), AllocError> {
    use Call::*;
    use Step::*;
    let mut trial = trial(alloc);
    let mut done = true;
    for step in [
        Put(1, 5, 1, 0),
        Put(1, 9, 1, 0),
        Put(1, LAST, 1, 0),
        Put(2, 0, 2, 0),
        Put(2, 7, 2, 0),
        Put(5, 4, 3, 0),
        Table(1, 1, 3),
        Table(2, 2, 2),
        Table(5, 3, 1),
        In(Begin(6)),
        Remove(1, 9, true),
        Put(2, 7, 4, 0),
        NoTable(2),
    ] {
        done &= trial.step(alloc, step)?;
    }
    Ok((trial, done))
}

#[test]
fn neighbours_stay_in_their_table(rt: HostRuntime) -> Result<(), AllocError> {
    let (trial, done) = rows_of_three_tables(rt.alloc())?;
    assert!(rt; done);
    let rows = &trial.state;
    for (table, primary, payer, from, after, before) in [
        (0, 0, None, None, None, None),
        (0, LAST, None, None, None, None),
        (1, 0, None, Some(5), Some(5), None),
        (1, 5, Some(1), Some(5), Some(LAST), None),
        (1, 9, None, Some(LAST), Some(LAST), Some(5)),
        (1, LAST, Some(1), Some(LAST), None, Some(5)),
        (2, 0, Some(2), Some(0), Some(7), None),
        (2, 7, Some(4), Some(7), None, Some(0)),
        (2, LAST, None, None, None, Some(7)),
        (3, 3, None, None, None, None),
        (5, 0, None, Some(4), Some(4), None),
        (5, LAST, None, None, None, Some(4)),
    ] {
        let case = Case {
            table,
            primary,
            payer,
            from,
            after,
            before,
        };
        check_case(&rt, rows, case);
    }
    for (number, last) in [
        (0, None),
        (1, Some(LAST)),
        (2, Some(7)),
        (3, None),
        (5, Some(4)),
    ] {
        let found = rows.row_last(&table(number));
        assert_eq!(rt; found.map(|row| row.0), last, "last of {number}");
    }
    Ok(())
}

#[test]
fn tables_are_walked_in_order(rt: HostRuntime) -> Result<(), AllocError> {
    let (trial, done) = rows_of_three_tables(rt.alloc())?;
    assert!(rt; done);
    // The number of a table, the payer of its object, and the payers of those at or after it and after it.
    for (number, payer, from, after) in [
        (0, None, Some(1), Some(1)),
        (1, Some(1), Some(1), Some(3)),
        (2, None, Some(3), Some(3)),
        (4, None, Some(3), Some(3)),
        (5, Some(3), Some(3), None),
    ] {
        check_table(&rt, &trial.state, number, payer, from, after);
    }
    Ok(())
}

fn check_table(
    rt: &impl Abort,
    rows: &Rows,
    number: u8,
    payer: Option<u64>,
    from: Option<u64>,
    after: Option<u64>,
) {
    let key = table(number);
    assert_eq!(rt;
        rows.table(&key).map(|row| row.payer.0),
        payer,
        "table {number}"
    );
    assert_eq!(rt;
        rows.table_from(&key).map(|found| found.1.payer.0),
        from,
        "from {number}"
    );
    assert_eq!(rt;
        rows.table_after(&key).map(|found| found.1.payer.0),
        after,
        "after {number}"
    );
}
