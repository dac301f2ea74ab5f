// Where a job lies in the lent table: the lowest free place, the job with a serial, the job with a serial that a connection holds, and
// the job that a connection is given (`queue`). The column of serials is searched, and of a row only what its test asks is read. An inner
// crate: it asks for all of the table's bytes, and `held_row` for a table that obeys the rules; an answer is a place or nowhere.
#![tactic(auto)]

mod queue;

ghost use Rattle.std.specs.Prelude.{◌≡◌, cond, true, ◌≤◌, ◌<◌, length, get_or, eqb, Some};
ghost use Rattle.lists.specs.Lists.{find};
ghost use Rattle.server.specs.Sizes.{connection_count, job_count};
ghost use Rattle.server.specs.Layout.{table_of, table_size};
ghost use Rattle.server.specs.Call.{is_sound};
ghost use Rattle.plan.specs.Values.{held_row, serial_row};
ghost use Rattle.server.specs.Table.{ables_of, best_row, free_row, rows_of};

use queue::Best;
use server::{ABLE_AT, FUNCTIONS, JOBS, SERIALS_AT};

// The lowest place where the number stands.
fn lowest(column: &[u32; JOBS], x: u32) -> Option<usize>
    ensures { result ≡ find (λ k. eqb k x) column.now }
{
    column.iter().position(|k| *k == x)
}

// The lowest free place: a free row has serial 0.
pub fn free_row(table: &[u8]) -> Option<usize>
    requires { table_size connection_count ≤ length table.now }
    ensures { result ≡ free_row (rows_of (table_of connection_count table.now)) }
{
    let serials = table_columns::fours(table, SERIALS_AT);
    lowest(&serials, 0)
}

// The place of the unfinished job with this serial: no job has serial 0.
pub fn serial_row(table: &[u8], serial: u32) -> Option<usize>
    requires { table_size connection_count ≤ length table.now }
    ensures { result ≡ serial_row serial (rows_of (table_of connection_count table.now)) }
{
    if serial == 0 {
        return None;
    }
    let serials = table_columns::fours(table, SERIALS_AT);
    lowest(&serials, serial)
}

// The place of the job with this serial, if connection c holds it. Serials are distinct, so no other row is asked.
pub fn held_row(table: &[u8], c: usize, serial: u32) -> Option<usize>
    requires { (is_sound connection_count table.now ≡ true) × (table_size connection_count ≤ length table.now) × (c < connection_count) }
    ensures { result ≡ held_row c serial (rows_of (table_of connection_count table.now)) }
{
    let p = serial_row(table, serial)?;
    let row = table_rows::row_at(table, p);
    (row.holder as usize == c + 1).then_some(p)
}

// The place of the job that connection c is given: of the highest priority, then of the lowest serial. A connection that can do nothing is
// given none, and no row is looked at.
pub fn best_row(table: &[u8], c: usize) -> Option<usize>
    requires { (table_size connection_count ≤ length table.now) × (c < connection_count) }
    ensures { result ≡ best_row (ables_of (table_of connection_count table.now)) (rows_of (table_of connection_count table.now)) c }
{
    if !sets::has(table_columns::joined(table, ABLE_AT, FUNCTIONS), c) {
        return None;
    }
    let mut v = Best {
        place: None,
        rank: 0,
    };
    for group in 0..JOBS / 8 {
        v = queue::next_group(v, table, 8 * group, c);
    }
    v.place
}
