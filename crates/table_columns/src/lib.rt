// Columns of the table's numbers in the lent bytes: read into an array by value, 01's "rows as arrays by value", or gathered into one
// set. Numbers are little-endian. An inner crate: each function asks its callers that the column lies inside the bytes, and refuses nothing.
#![tactic(auto)]

ghost use Rattle.std.specs.Prelude.{◌≡◌, map, ◌+◌, ◌*◌, ◌≤◌, length};
ghost use Rattle.lists.specs.Lists.{numbers};
ghost use Rattle.server.specs.Sizes.{job_count};
ghost use Rattle.server.specs.Layout.{little_at};
ghost use Rattle.table_passes.specs.Unions.{Joined};

use server::JOBS;
use std::array;

// The 32 numbers of four bytes from `at` on.
pub fn fours(table: &[u8], at: usize) -> [u32; JOBS]
    requires { at + 128 ≤ length table.now }
    ensures { result ≡ map (λ k. little_at 4 table.now (at + 4 * k)) (numbers 0 job_count) }
{
    array::from_fn(|k| table_little::number4(table, at + 4 * k))
}

// The union of the `n` sets of four bytes from `at` on.
pub fn joined(table: &[u8], at: usize, n: usize) -> u32
    requires { at + 4 * n ≤ length table.now }
    ensures { Joined (λ k. little_at 4 table.now (at + 4 * k)) n result }
{
    let mut s = 0;
    for i in 0..n {
        s = sets::union(s, table_little::number4(table, at + 4 * i));
    }
    s
}
