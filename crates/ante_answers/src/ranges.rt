// The rows of a table between two bounds, one after the other.
ghost use Rattle.std.specs.Prelude.{◌≡◌, reverse, IsTrue};
ghost use Rattle.std.specs.Option.{option_map};
ghost use Rattle.std.specs.Ordering.{nat_cmp};
ghost use Rattle.std.specs.FinMap.Entries.{is_sorted};
ghost use Rattle.ante_undo.specs.Entries.{first_entry, first_where};
ghost use Rattle.ante_state.specs.Orders.{table_order};
ghost use Rattle.ante_rows.specs.Rows.{rows_of};
ghost use Rattle.ante_answers.specs.Answers.{not_below, not_above, rows_between};
ghost use Rattle.ante_answers.specs.Walks.{within, Follows};

use ante_pack::TableKey;
use ante_rows::Rows;
use ante_state::PrimaryRow;

#[derive(Clone, Copy)]
pub(crate) struct Range {
    pub table: TableKey,
    pub lower: Option<u64>,
    pub upper: Option<u64>,
    /// From the greatest key down.
    pub backward: bool,
}

pub(crate) fn first_row(rows: &Rows, range: Range) -> Option<(u64, &PrimaryRow)>
    ensures { option_map (λ e. (e.0, e.1.now)) result
        ≡ first_entry (rows_between range.lower range.upper range.backward range.table rows.now.top.rows) }
{
    if range.backward {
        from_lower(range.lower, last_up_to(rows, &range.table, range.upper))
    } else {
        up_to_upper(range.upper, first_from(rows, &range.table, range.lower))
    }
}

/// The row that is given after the one with this key.
pub(crate) fn row_past(rows: &Rows, range: Range, primary: u64) -> Option<(u64, &PrimaryRow)>
    ensures { Follows (rows_between range.lower range.upper range.backward range.table rows.now.top.rows) primary
        (option_map (λ e. (e.0, e.1.now)) result) }
{
    if range.backward {
        from_lower(range.lower, rows.row_before(&range.table, primary))
    } else {
        up_to_upper(range.upper, rows.row_after(&range.table, primary))
    }
}

pub(crate) fn not_below(lower: Option<u64>, key: u64) -> bool
    ensures { result ≡ not_below lower key }
{
    match lower {
        Some(bound) => bound <= key,
        None => true,
    }
}

fn not_above(upper: Option<u64>, key: u64) -> bool
    ensures { result ≡ not_above upper key }
{
    match upper {
        Some(bound) => key <= bound,
        None => true,
    }
}

fn up_to_upper<'a>(
    upper: Option<u64>,
    row: Option<(u64, &'a PrimaryRow)>,
) -> Option<(u64, &'a PrimaryRow)>
    ensures { option_map (λ e. (e.0, e.1.now)) result ≡ within (not_above upper) (option_map (λ e. (e.0, e.1.now)) row.entry) }
{
    match row {
        Some((primary, row)) => {
            if not_above(upper, primary) {
                Some((primary, row))
            } else {
                None
            }
        }
        None => None,
    }
}

fn from_lower<'a>(
    lower: Option<u64>,
    row: Option<(u64, &'a PrimaryRow)>,
) -> Option<(u64, &'a PrimaryRow)>
    ensures { option_map (λ e. (e.0, e.1.now)) result ≡ within (not_below lower) (option_map (λ e. (e.0, e.1.now)) row.entry) }
{
    match row {
        Some((primary, row)) => {
            if not_below(lower, primary) {
                Some((primary, row))
            } else {
                None
            }
        }
        None => None,
    }
}

// The table's first row that isn't below the bound.
fn first_from<'a>(
    rows: &'a Rows,
    table: &TableKey,
    lower: Option<u64>,
) -> Option<(u64, &'a PrimaryRow)>
    ensures nearest { option_map (λ e. (e.0, e.1.now)) result
        ≡ first_where (not_below lower) (rows_of table_order table.now rows.now.top.rows) }
    ensures ordered { IsTrue (is_sorted nat_cmp (rows_of table_order table.now rows.now.top.rows)) }
{
    match lower {
        Some(bound) => rows.row_from(table, bound),
        None => rows.row_from(table, 0),
    }
}

// The table's last row that isn't above the bound.
fn last_up_to<'a>(
    rows: &'a Rows,
    table: &TableKey,
    upper: Option<u64>,
) -> Option<(u64, &'a PrimaryRow)>
    ensures nearest { option_map (λ e. (e.0, e.1.now)) result
        ≡ first_where (not_above upper) (reverse (rows_of table_order table.now rows.now.top.rows)) }
    ensures ordered { IsTrue (is_sorted nat_cmp (rows_of table_order table.now rows.now.top.rows)) }
{
    match upper {
        Some(bound) => last_at(rows, table, bound),
        None => {
            // It tells that the rows are in order.
            let _least = rows.row_from(table, 0);
            rows.row_last(table)
        }
    }
}

fn last_at<'a>(rows: &'a Rows, table: &TableKey, bound: u64) -> Option<(u64, &'a PrimaryRow)>
    ensures nearest { option_map (λ e. (e.0, e.1.now)) result
        ≡ first_where (not_above (Some bound)) (reverse (rows_of table_order table.now rows.now.top.rows)) }
    ensures ordered { IsTrue (is_sorted nat_cmp (rows_of table_order table.now rows.now.top.rows)) }
{
    let before = rows.row_before(table, bound);
    match rows.row(table, bound) {
        Some(row) => Some((bound, row)),
        None => before,
    }
}
