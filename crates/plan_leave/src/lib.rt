// All numbers of a table after a step that is not lean: a connection gives up its abilities, or it leaves. Loops over the rows by
// value. An inner crate: its callers name connections that there are.
#![tactic(auto)]

ghost use Rattle.std.specs.Prelude.{◌≡◌, false, map, ◌<◌};
ghost use Rattle.sets.specs.Sets as S;
ghost use Rattle.server.specs.Sizes.{connection_count};
ghost use Rattle.server.specs.Events.{deaf_to};
ghost use Rattle.plan.specs.Parts as P;
ghost use Rattle.plan.specs.Parts.{closed_in};
ghost use Rattle.plan.specs.Values.{with_ables};
ghost use Rattle.plan.specs.Steps.{Inside, is_lean, stepped};

use plan::{Step, Values};
use server::{Connection, FUNCTIONS, JOBS, JobRow};

// The row without the connection among its listeners.
fn deaf(row: JobRow, c: usize) -> JobRow
    requires { c < connection_count }
    ensures { result ≡ deaf_to c row }
{
    server::with_listeners(row, sets::remove(row.listeners, c))
}

// The row that the connection leaves: without it among the listeners, and back in the queue if it was the holder.
fn left_row(row: JobRow, c: usize) -> JobRow
    requires { c < connection_count }
    ensures { result ≡ P.left_row c row }
{
    let quiet = deaf(row, c);
    let holder = (c + 1) as u16;
    if (row.serial != 0) & (row.holder == holder) {
        return server::with_holder(quiet, 0);
    }
    quiet
}

// Each row as the connection leaves it.
fn left_rows(rows: [JobRow; JOBS], c: usize) -> [JobRow; JOBS]
    requires { c < connection_count }
    ensures { result ≡ map (P.left_row c) rows }
{
    let mut next = rows;
    for i in 0..JOBS {
        next[i] = left_row(rows[i], c);
    }
    next
}

// The able sets without the connection.
fn unable_all(able: [u32; FUNCTIONS], c: usize) -> [u32; FUNCTIONS]
    requires { c < connection_count }
    ensures { result ≡ map (λ s. S.remove s c) able }
{
    let mut next = able;
    for i in 0..FUNCTIONS {
        next[i] = sets::remove(able[i], c);
    }
    next
}

// The numbers without a connection's abilities.
fn reset(v: Values, c: usize) -> Values
    requires { c < connection_count }
    ensures { result ≡ with_ables (map (λ s. S.remove s c) v.able) v }
{
    let able = v.able;
    plan_rows::with_able(v, unable_all(able, c))
}

// The numbers that a closed connection leaves.
fn left(v: Values, c: usize) -> Values
    requires { c < connection_count }
    ensures { result ≡ closed_in c v }
{
    let old = v.connections;
    let able = v.able;
    let rows = v.rows;
    let connections = plan_rows::set_connection(old, c, server::closed());
    Values {
        connections,
        able: unable_all(able, c),
        rows: left_rows(rows, c),
        ..v
    }
}

// All numbers after a step that is not lean.
pub fn stepped(step: Step, v: Values) -> Values
    requires { Inside step × (is_lean step ≡ false) }
    ensures { result ≡ stepped step v }
{
    match step {
        Step::Reset { connection } => reset(v, connection),
        Step::Leave { connection } => left(v, connection),
        _ => v,
    }
}
