// What refusal 1 asks of the numbers of each job's row by itself: a free row is zero, a live one has a priority, a function, and nobody or a
// connection as its holder, and a queued job is background or has a listener. Each column is read in one loop without an exit; columns of
// wider numbers become columns of marks first, so that a row's fields are compared in one width.
#![tactic(auto)]

ghost use Rattle.std.specs.Prelude.{◌≡◌, true, ℕ, ◌+◌, ◌*◌, ◌<◌, ◌≤◌, length, get_or, leb};
ghost use Rattle.lists.specs.Lists.{all, numbers};
ghost use Rattle.server.specs.Sizes.{connection_count, job_count};
ghost use Rattle.server.specs.Layout.{backgrounds_at, little_at, row_in, serials_at, table_size};
ghost use Rattle.table_laws.specs.Tests.{are_flags};
ghost use Rattle.check_rows.specs.Rows.{Marked, bytes_in_range, free_or_awaited, holder_in_range, mark_of, rows_mean};

use server::{
    BACKGROUNDS_AT, CONNECTIONS, FUNCTIONS, FUNCTIONS_AT, HOLDERS_AT, JOBS, LISTENERS_AT,
    PRIORITIES_AT, SIZES_AT,
};
use std::array;

// ---- marks

// 1 for a number that is not 0.
fn mark(x: u32) -> u8
    ensures { result ≡ mark_of x }
{
    u8::from(x != 0)
}

// The marks of the 32 numbers of four bytes from `at` on.
pub fn marks4(table: &[u8], at: usize) -> [u8; JOBS]
    requires { at + 128 ≤ length table.now }
    ensures { Marked 4 table.now at result }
{
    array::from_fn(|p| mark(table_little::number4(table, at + 4 * p)))
}

// The same of two bytes.
fn marks2(table: &[u8], at: usize) -> [u8; JOBS]
    requires { at + 64 ≤ length table.now }
    ensures { Marked 2 table.now at result }
{
    array::from_fn(|p| mark(u32::from(table_little::number2(table, at + 2 * p))))
}

// The highest number of a function's place, and of a holder: one more than its connection's.
const LAST_FUNCTION: u8 = (FUNCTIONS - 1) as u8;

const LAST_HOLDER: u16 = CONNECTIONS as u16;

// ---- rows

// Whether the priority of the row at place `p` is at most 2 and its function is the place of one.
fn row_in_range(table: &[u8], p: usize) -> bool
    requires { (table_size connection_count ≤ length table.now) × (p < job_count) }
    ensures { result ≡ bytes_in_range table.now p }
{
    (table[PRIORITIES_AT + p] <= 2) & (table[FUNCTIONS_AT + p] <= LAST_FUNCTION)
}

// Whether each priority is at most 2 and each function is the place of one.
fn bytes_in_range(table: &[u8]) -> bool
    requires { table_size connection_count ≤ length table.now }
    ensures { result ≡ all (bytes_in_range table.now) (numbers 0 job_count) }
{
    let mut ok = true;
    for i in 0..JOBS {
        ok = ok & row_in_range(table, i);
    }
    ok
}

// Whether each holder is nobody or one of the connections.
fn holders_in_range(table: &[u8]) -> bool
    requires { table_size connection_count ≤ length table.now }
    ensures { result ≡ all (holder_in_range table.now) (numbers 0 job_count) }
{
    let mut ok = true;
    for i in 0..JOBS {
        ok = ok & (table_fields::holder(table, i) <= LAST_HOLDER);
    }
    ok
}

// Whether the row at place `p` is held, listened to or background if it is live, and zero if it is free, by the marks of serials, listeners,
// holders and sizes.
fn row_free_or_awaited(
    live: &[u8; JOBS],
    heard: &[u8; JOBS],
    held: &[u8; JOBS],
    sized: &[u8; JOBS],
    table: &[u8],
    p: usize,
) -> bool
    requires { (table_size connection_count ≤ length table.now) × (p < job_count) }
    ensures { result ≡ free_or_awaited live.now heard.now held.now sized.now table.now p }
{
    let alone = (held[p] == 0) & ((heard[p] == 0) & (table[BACKGROUNDS_AT + p] == 0));
    let unused = alone
        & ((sized[p] == 0) & ((table[PRIORITIES_AT + p] == 0) & (table[FUNCTIONS_AT + p] == 0)));
    ((live[p] == 0) | !alone) & ((live[p] != 0) | unused)
}

// Whether each row is so.
fn free_or_awaited(
    live: &[u8; JOBS],
    heard: &[u8; JOBS],
    held: &[u8; JOBS],
    sized: &[u8; JOBS],
    table: &[u8],
) -> bool
    requires { table_size connection_count ≤ length table.now }
    ensures { result ≡ all (free_or_awaited live.now heard.now held.now sized.now table.now) (numbers 0 job_count) }
{
    let mut ok = true;
    for i in 0..JOBS {
        ok = ok & row_free_or_awaited(live, heard, held, sized, table, i);
    }
    ok
}

// Whether the numbers of each row have a meaning and each queued job is awaited. `live` has the marks of the serials.
pub fn rows_mean(table: &[u8], live: &[u8; JOBS]) -> bool
    requires { (table_size connection_count ≤ length table.now) × (are_flags job_count table.now backgrounds_at ≡ true) × Marked 4 table.now serials_at live.now }
    ensures { result ≡ rows_mean table.now }
{
    if bytes_in_range(table) {
        if holders_in_range(table) {
            let heard = marks4(table, LISTENERS_AT);
            let held = marks2(table, HOLDERS_AT);
            let sized = marks2(table, SIZES_AT);
            return free_or_awaited(live, &heard, &held, &sized, table);
        }
    }
    false
}
