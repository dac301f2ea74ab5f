// The numbers of a table read from the lent bytes: one row, one set or one connection at its place, or all of them into arrays by value.
// docs/TABLE.md has the columns, little-endian; texts stay in the bytes. An inner crate: each function asks its callers that the table
// lies inside the bytes, and refuses nothing; a place beyond the last is read as an empty one.
#![tactic(auto)]

ghost use Rattle.std.specs.Prelude.{◌≡◌, ◌≤◌, ◌<◌, length, get_or};
ghost use Rattle.server.specs.Sizes.{connection_count, job_count};
ghost use Rattle.server.specs.Table.{closed, no_row, ables_of, rows_of};
ghost use Rattle.server.specs.Layout.{table_of, table_size};
ghost use Rattle.server.specs.Layout as L;
ghost use Rattle.plan.specs.Values.{values_of};
ghost use Rattle.plan.specs.Parts as P;

use plan::Values;
use server::{
    ABLE_AT, ASLEEP_AT, BACKGROUNDS_AT, CONNECTIONS, Connection, EXCEPTIONS_AT, FUNCTIONS,
    FUNCTIONS_AT, HOLDERS_AT, JOBS, JobRow, LAST_AT, LISTENERS_AT, OPENED_AT, PRIORITIES_AT,
    SERIALS_AT, SIZES_AT,
};
use std::array;

// ---- one place

// The row of the job at a place.
fn read_row(table: &[u8], p: usize) -> JobRow
    requires { (table_size connection_count ≤ length table.now) × (p < job_count) }
    ensures { result ≡ L.row_in connection_count table.now p }
{
    JobRow {
        serial: table_little::number4(table, SERIALS_AT + 4 * p),
        function: table[FUNCTIONS_AT + p],
        priority: table[PRIORITIES_AT + p],
        background: table[BACKGROUNDS_AT + p] == 1,
        listeners: table_little::number4(table, LISTENERS_AT + 4 * p),
        holder: table_little::number2(table, HOLDERS_AT + 2 * p),
        size: table_little::number2(table, SIZES_AT + 2 * p),
    }
}

// The row of one connection.
fn read_connection(table: &[u8], c: usize) -> Connection
    requires { (table_size connection_count ≤ length table.now) × (c < connection_count) }
    ensures { result ≡ L.connection_in connection_count table.now c }
{
    Connection {
        opened: table[OPENED_AT + c] == 1,
        asleep: table[ASLEEP_AT + c] == 1,
        exceptions: table[EXCEPTIONS_AT + c] == 1,
    }
}

// The row of the job at a place: a free one beyond the last.
pub fn row_at(table: &[u8], p: usize) -> JobRow
    requires { table_size connection_count ≤ length table.now }
    ensures { result ≡ P.row_in (values_of (table_of connection_count table.now)) p }
{
    if JOBS <= p {
        return server::no_row();
    }
    read_row(table, p)
}

// The connections able to do the function at a place: nobody beyond the last.
pub fn able_at(table: &[u8], q: usize) -> u32
    requires { table_size connection_count ≤ length table.now }
    ensures { result ≡ get_or (values_of (table_of connection_count table.now)).able q 0 }
{
    if FUNCTIONS <= q {
        return 0;
    }
    table_little::number4(table, ABLE_AT + 4 * q)
}

// The row of a connection: a closed one beyond the last.
pub fn connection_at(table: &[u8], c: usize) -> Connection
    requires { table_size connection_count ≤ length table.now }
    ensures { result ≡ P.connection_in (values_of (table_of connection_count table.now)) c }
{
    if CONNECTIONS <= c {
        return server::closed();
    }
    read_connection(table, c)
}

// The last serial given out.
pub fn last(table: &[u8]) -> u32
    requires { table_size connection_count ≤ length table.now }
    ensures { result ≡ (values_of (table_of connection_count table.now)).last }
{
    table_little::number4(table, LAST_AT)
}

// ---- all numbers

// The rows of all jobs.
pub fn read_rows(table: &[u8]) -> [JobRow; JOBS]
    requires { table_size connection_count ≤ length table.now }
    ensures { result ≡ rows_of (table_of connection_count table.now) }
{
    array::from_fn(|p| read_row(table, p))
}

// The sets of connections able to do each function.
fn read_able(table: &[u8]) -> [u32; FUNCTIONS]
    requires { table_size connection_count ≤ length table.now }
    ensures { result ≡ ables_of (table_of connection_count table.now) }
{
    array::from_fn(|q| table_little::number4(table, ABLE_AT + 4 * q))
}

// The connections' rows.
fn read_connections(table: &[u8]) -> [Connection; CONNECTIONS]
    requires { table_size connection_count ≤ length table.now }
    ensures { result ≡ (table_of connection_count table.now).connections }
{
    array::from_fn(|c| read_connection(table, c))
}

// The numbers of the table that the bytes hold.
pub fn read_values(table: &[u8]) -> Values
    requires { table_size connection_count ≤ length table.now }
    ensures { result ≡ values_of (table_of connection_count table.now) }
{
    Values {
        last: last(table),
        connections: read_connections(table),
        able: read_able(table),
        rows: read_rows(table),
    }
}
