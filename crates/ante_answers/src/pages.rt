// The rows that are given at once.
ghost use Rattle.std.specs.Prelude.{◌≡◌, ◌+◌, ◌<◌, ◌==◌, ◌&&◌, ◌||◌, nat_lt, nat_le, length, Some, None, IfOk, if◌then◌else◌};
ghost use Rattle.ante_answers.specs.Answers.{most_bytes, rows_between, rows_answer};

use crate::ranges::{Range, first_row, row_past};
use ante_pack::Seq;
use ante_rows::Rows;
use ante_views::ViewAnswer;
use std::alloc::{AllocError, Global};

/// The most bytes of rows that are given at once; one row alone may have more.
const MOST_BYTES: u64 = 1_048_576;

pub(crate) fn page(
    alloc: Global,
    rows: &Rows,
    range: Range,
    limit: u32,
) -> Result<ViewAnswer, AllocError>
    ensures { IfOk result (λ answer. answer
        ≡ rows_answer limit (rows_between range.lower range.upper range.backward range.table rows.now.top.rows)) }
{
    let mut given = Seq::new(alloc);
    let mut total: u64 = 0;
    let mut next = first_row(rows, range);
    while let Some((primary, row)) = next {
        let Some(sum) = total_with(given.len(), limit, total, row.bytes.len()) else {
            return Ok(ViewAnswer::Rows {
                more: true,
                next_key: Some(primary),
                rows: given,
            });
        };
        let bytes = row.bytes.try_clone(alloc)?;
        given.push(alloc, bytes)?;
        total = sum;
        next = row_past(rows, range, primary);
    }
    Ok(ViewAnswer::Rows {
        more: false,
        next_key: None,
        rows: given,
    })
}

// The bytes of the rows with one row more, if that one is given too.
fn total_with(count: usize, limit: u32, total: u64, size: usize) -> Option<u64>
    requires { count ≡ 0 → total ≡ 0 }
    ensures { result ≡ (if nat_lt count limit && (count == 0 || nat_le (total + size) most_bytes) then Some (total + size) else None) }
{
    if count >= limit as usize {
        return None;
    }
    if count == 0 {
        return Some(size as u64);
    }
    match total.checked_add(size as u64) {
        Some(sum) => { if sum <= MOST_BYTES { Some(sum) } else { None } }
        None => None,
    }
}
