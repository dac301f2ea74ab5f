// What the end of an event does beyond its step, from the table's lent bytes before the event: the sleepers that wake, and the
// function that is forgotten. An inner crate: its callers lend a table's bytes and a step inside it, and it refuses nothing.
#![tactic(auto)]

ghost use Rattle.std.specs.Prelude.{◌≡◌, cond, ◌&&◌, ◌≤◌, ◌<◌, length, get_or, set, None};
ghost use Rattle.sets.specs.Sets.{insert};
ghost use Rattle.lists.specs.Lists.{any};
ghost use Rattle.server.specs.Sizes.{connection_count, job_count};
ghost use Rattle.server.specs.Table.{names, no_row, grabbable};
ghost use Rattle.server.specs.Layout.{table_of, table_size};
ghost use Rattle.plan.specs.Values.{values_of};
ghost use Rattle.plan.specs.Parts.{row_in};
ghost use Rattle.plan.specs.Busy.{to_wake_set};
ghost use Rattle.plan.specs.Steps.{Inside, is_lean, unwanted};
ghost use Rattle.plan.specs.Steps as S;

use plan::{Ending, Step};
use server::{CONNECTIONS, JOBS, JobRow};

// The sleepers of a set.
fn sleepers(table: &[u8], able: u32) -> u32
    requires { table_size connection_count ≤ length table.now }
    ensures { result ≡ to_wake_set able (values_of (table_of connection_count table.now)).connections }
{
    let mut s = 0;
    for c in 0..CONNECTIONS {
        s = sets::union(
            s,
            plan_settle::waking(table_rows::connection_at(table, c), able, c),
        );
    }
    s
}

// Whether the job waits in the queue and names the function.
fn waits(r: JobRow, q: usize) -> bool
    ensures { result ≡ S.waits q r }
{
    ((r.serial != 0) & (r.holder == 0)) & (r.function as usize == q)
}

// Whether some queued job names the function.
fn some_wait(table: &[u8], q: usize) -> bool
    requires { table_size connection_count ≤ length table.now }
    ensures { result ≡ any (S.waits q) (values_of (table_of connection_count table.now)).rows }
{
    let mut found = false;
    for i in 0..JOBS {
        found = found | waits(table_rows::row_at(table, i), q);
    }
    found
}

// Whether the job at place i names the function, unless it is the one at place `over`.
fn names_still(table: &[u8], q: usize, over: usize, i: usize) -> bool
    requires { (table_size connection_count ≤ length table.now) × (i < job_count) }
    ensures { result ≡ names q (get_or (set (values_of (table_of connection_count table.now)).rows over no_row) i no_row) }
{
    if i == over {
        return false;
    }
    let r = table_rows::row_at(table, i);
    (r.serial != 0) & (r.function as usize == q)
}

// Whether some job but the one at place `over` names the function.
fn some_name(table: &[u8], q: usize, over: usize) -> bool
    requires { table_size connection_count ≤ length table.now }
    ensures { result ≡ any (names q) (set (values_of (table_of connection_count table.now)).rows over no_row) }
{
    let mut found = false;
    for i in 0..JOBS {
        found = found | names_still(table, q, over, i);
    }
    found
}

// Whether the connection can grab the job at place i.
fn grabs(table: &[u8], c: usize, i: usize) -> bool
    requires { (table_size connection_count ≤ length table.now) × (c < connection_count) }
    ensures { result ≡ grabbable (values_of (table_of connection_count table.now)).able c (row_in (values_of (table_of connection_count table.now)) i) }
{
    let r = table_rows::row_at(table, i);
    ((r.serial != 0) & (r.holder == 0))
        & sets::has(table_rows::able_at(table, r.function as usize), c)
}

// Whether the connection can grab some job.
fn some_grab(table: &[u8], c: usize) -> bool
    requires { (table_size connection_count ≤ length table.now) × (c < connection_count) }
    ensures { result ≡ any (grabbable (values_of (table_of connection_count table.now)).able c) (values_of (table_of connection_count table.now)).rows }
{
    let mut found = false;
    for i in 0..JOBS {
        found = found | grabs(table, c, i);
    }
    found
}

// The function, if nobody is able to do it and no job but the one at place `over` names it.
fn forgotten(table: &[u8], q: usize, able: u32, over: usize) -> Option<usize>
    requires { table_size connection_count ≤ length table.now }
    ensures { result ≡ unwanted q able (set (values_of (table_of connection_count table.now)).rows over no_row) }
{
    if able != 0 {
        return None;
    }
    if some_name(table, q, over) {
        return None;
    }
    Some(q)
}

// The ending that forgets nothing.
fn woken(s: u32) -> Ending
    ensures { result ≡ record { woken = s; forgotten = None } }
{
    Ending {
        woken: s,
        forgotten: None,
    }
}

// A connection that falls asleep, or not, as a set if it wakes at once.
fn roused(table: &[u8], c: usize, asleep: bool) -> u32
    requires { (table_size connection_count ≤ length table.now) × (c < connection_count) }
    ensures { result ≡ cond (asleep && any (grabbable (values_of (table_of connection_count table.now)).able c) (values_of (table_of connection_count table.now)).rows) (insert 0 c) 0 }
{
    if asleep {
        if some_grab(table, c) {
            return sets::insert(0, c);
        }
    }
    0
}

// The sleepers of the set that is able to do a function now, if a job of it waits.
fn enabled(table: &[u8], q: usize, able: u32) -> u32
    requires { table_size connection_count ≤ length table.now }
    ensures { result ≡ cond (any (S.waits q) (values_of (table_of connection_count table.now)).rows) (to_wake_set able (values_of (table_of connection_count table.now)).connections) 0 }
{
    let s = sleepers(table, able);
    if s == 0 {
        return 0;
    }
    if some_wait(table, q) {
        return s;
    }
    0
}

// Whether the end of an event with this step is known beforehand.
pub fn is_lean(step: Step) -> bool
    ensures { result ≡ is_lean step }
{
    match step {
        Step::Reset { .. } => false,
        Step::Leave { .. } => false,
        _ => true,
    }
}

// The end of an event with this step.
pub fn of_step(table: &[u8], step: Step) -> Ending
    requires { (table_size connection_count ≤ length table.now) × Inside step }
    ensures { result ≡ S.ending step (values_of (table_of connection_count table.now)) }
{
    match step {
        Step::End { place } => {
            let r = table_rows::row_at(table, place);
            let q = r.function as usize;
            Ending {
                woken: 0,
                forgotten: forgotten(table, q, table_rows::able_at(table, q), place),
            }
        }
        Step::New { row, .. } => woken(sleepers(
            table,
            table_rows::able_at(table, row.function as usize),
        )),
        Step::Flags { connection, flags } => woken(roused(table, connection, flags.asleep)),
        Step::Able { function, set } => Ending {
            woken: enabled(table, function, set),
            forgotten: forgotten(table, function, set, JOBS),
        },
        _ => woken(0),
    }
}
