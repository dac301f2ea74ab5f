// The numbers of a table by value, read and put anew at a place. A place beyond the last is read as an empty one, and nothing is put
// there. An inner crate: its callers name connections that there are.
#![tactic(auto)]

ghost use Rattle.std.specs.Prelude.{◌≡◌, ◌<◌, get_or, set};
ghost use Rattle.server.specs.Sizes.{connection_count};
ghost use Rattle.server.specs.Table.{no_row};
ghost use Rattle.server.specs.Events.{submitted_by};
ghost use Rattle.plan.specs.Values.{with_ables};

use plan::Values;
use server::{CONNECTIONS, Connection, FUNCTIONS, JOBS, JobRow};

// The row at a place.
pub fn row_at(rows: [JobRow; JOBS], p: usize) -> JobRow
    ensures { result ≡ get_or rows p no_row }
{
    rows.get(p).copied().unwrap_or(server::no_row())
}

// The connections with another row at a place.
pub fn set_connection(
    connections: [Connection; CONNECTIONS],
    c: usize,
    x: Connection,
) -> [Connection; CONNECTIONS]
    ensures { result ≡ set connections c x }
{
    if CONNECTIONS <= c {
        return connections;
    }
    let mut next = connections;
    next[c] = x;
    next
}

// The values with other able sets.
pub fn with_able(v: Values, able: [u32; FUNCTIONS]) -> Values
    ensures { result ≡ with_ables able v }
{
    Values { able, ..v }
}

// The row with a submitter more: in the background, or among the listeners.
pub fn submitted(row: JobRow, c: usize, background: bool) -> JobRow
    requires { c < connection_count }
    ensures { result ≡ submitted_by c background row }
{
    if background {
        return server::in_background(row);
    }
    server::with_listeners(row, sets::insert(row.listeners, c))
}
