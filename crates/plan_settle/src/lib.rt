// The end of every event that is done, on the numbers by value: lost jobs are dropped, sleepers with a grabbable job are woken, and
// the functions that are still wanted are marked. Refuses nothing.
#![tactic(auto)]

ghost use Rattle.std.specs.Prelude.{◌≡◌, ◌<◌, cond, ◌&&◌};
ghost use Rattle.sets.specs.Sets.{has};
ghost use Rattle.server.specs.Sizes.{connection_count};
ghost use Rattle.server.specs.Table.{no_row};
ghost use Rattle.server.specs.Events.{awake, lost};
ghost use Rattle.plan.specs.Settling.{dropped_rows, settled_values, wanted_marks};
ghost use Rattle.plan.specs.Busy.{able_for, busy_set, name_of, named_set, to_wake_set, wakes_now, woken_by};

use plan::Values;
use server::{CONNECTIONS, Connection, FUNCTIONS, JOBS, JobRow};

// A queued job in the foreground that nobody listens to.
fn is_lost(r: JobRow) -> bool
    ensures { result ≡ lost r }
{
    ((r.serial != 0) & (r.holder == 0)) & (!r.background & (r.listeners == 0))
}

// The row, or a free one if its job is lost.
fn unless_lost(r: JobRow) -> JobRow
    ensures { result ≡ cond (lost r) no_row r }
{
    if is_lost(r) {
        return server::no_row();
    }
    r
}

// The rows without the lost jobs.
pub fn dropped(rows: [JobRow; JOBS]) -> [JobRow; JOBS]
    ensures { result ≡ dropped_rows rows }
{
    let mut kept = rows;
    for i in 0..JOBS {
        kept[i] = unless_lost(rows[i]);
    }
    kept
}

// The connections that can do the job, if it is queued.
fn able_for(able: [u32; FUNCTIONS], r: JobRow) -> u32
    ensures { result ≡ able_for able r }
{
    if plan_search::is_queued(r) {
        return plan_search::able_to(able, r.function);
    }
    0
}

// The connections that can do some queued job.
pub fn busy(able: [u32; FUNCTIONS], rows: [JobRow; JOBS]) -> u32
    ensures { result ≡ busy_set able rows }
{
    let mut s = 0;
    for r in rows {
        s = sets::union(s, able_for(able, r));
    }
    s
}

// The connection's row, not asleep if it belongs to the busy.
fn roused(x: Connection, wakes: bool) -> Connection
    ensures { result ≡ cond (x.asleep && wakes) (awake x) x }
{
    server::with_asleep(x, x.asleep & !wakes)
}

// The connections' rows, with the busy ones awake.
pub fn woken(connections: [Connection; CONNECTIONS], busy: u32) -> [Connection; CONNECTIONS]
    ensures { result ≡ woken_by busy connections }
{
    let mut next = connections;
    for i in 0..CONNECTIONS {
        next[i] = roused(connections[i], sets::has(busy, i));
    }
    next
}

// Connection c as a set, if it wakes.
pub fn waking(x: Connection, busy: u32, c: usize) -> u32
    requires { c < connection_count }
    ensures { result ≡ wakes_now busy c x }
{
    if x.asleep & sets::has(busy, c) {
        return sets::insert(0, c);
    }
    0
}

// The sleepers among the busy: those that wake.
pub fn to_wake(connections: [Connection; CONNECTIONS], busy: u32) -> u32
    ensures { result ≡ to_wake_set busy connections }
{
    let mut s = 0;
    for i in 0..CONNECTIONS {
        s = sets::union(s, waking(connections[i], busy, i));
    }
    s
}

// The place of the job's function as a set, if a job stands here and the place is one of 16.
fn name_of(r: JobRow) -> u32
    ensures { result ≡ name_of r }
{
    let q = r.function as usize;
    if (r.serial != 0) & (q < FUNCTIONS) {
        return sets::insert(0, q);
    }
    0
}

// The functions that unfinished jobs name.
fn named(rows: [JobRow; JOBS]) -> u32
    ensures { result ≡ named_set rows }
{
    let mut s = 0;
    for r in rows {
        s = sets::union(s, name_of(r));
    }
    s
}

// Which functions some connection can do or an unfinished job names.
pub fn wanted(able: [u32; FUNCTIONS], rows: [JobRow; JOBS]) -> [bool; FUNCTIONS]
    ensures { result ≡ wanted_marks able rows }
{
    let s = named(rows);
    let mut marks = [false; FUNCTIONS];
    for i in 0..FUNCTIONS {
        marks[i] = (able[i] != 0) | sets::has(s, i);
    }
    marks
}

// The numbers of the settled table.
pub fn settled(v: Values) -> Values
    ensures { result ≡ settled_values v }
{
    let able = v.able;
    let before = v.rows;
    let sleeping = v.connections;
    let rows = dropped(before);
    let connections = woken(sleeping, busy(able, rows));
    Values {
        connections,
        rows,
        ..v
    }
}
