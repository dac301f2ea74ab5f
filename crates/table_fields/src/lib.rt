// One number of one row or function, read where it lies in the lent table. Each is a function of its own, so that a comparison of the number
// is one of the whole number and not of its bytes. An inner crate: each function asks its callers that the place is one, and refuses nothing.
#![tactic(auto)]

ghost use Rattle.std.specs.Prelude.{◌≡◌, ◌<◌, ◌≤◌, length};
ghost use Rattle.server.specs.Sizes.{connection_count, function_count, job_count};
ghost use Rattle.server.specs.Layout.{function_in, row_in, table_size};

use server::{ABLE_AT, HOLDERS_AT, SERIALS_AT, SIZES_AT};

// The serial of the job at place `p`; 0, if there is none.
pub fn serial(table: &[u8], p: usize) -> u32
    requires { (table_size connection_count ≤ length table.now) × (p < job_count) }
    ensures { result ≡ (row_in connection_count table.now p).serial }
{
    table_little::number4(table, SERIALS_AT + 4 * p)
}

// How long the workload of the job at place `p` is.
pub fn size(table: &[u8], p: usize) -> u16
    requires { (table_size connection_count ≤ length table.now) × (p < job_count) }
    ensures { result ≡ (row_in connection_count table.now p).size }
{
    table_little::number2(table, SIZES_AT + 2 * p)
}

// Who holds the job at place `p`, as its row names it: one more than the connection's number, or 0.
pub fn holder(table: &[u8], p: usize) -> u16
    requires { (table_size connection_count ≤ length table.now) × (p < job_count) }
    ensures { result ≡ (row_in connection_count table.now p).holder }
{
    table_little::number2(table, HOLDERS_AT + 2 * p)
}

// The connections able to do the function at place `q`.
pub fn able(table: &[u8], q: usize) -> u32
    requires { (table_size connection_count ≤ length table.now) × (q < function_count) }
    ensures { result ≡ (function_in connection_count table.now q).able }
{
    table_little::number4(table, ABLE_AT + 4 * q)
}
