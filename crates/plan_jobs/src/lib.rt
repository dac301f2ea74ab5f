// What an event comes to, as a plan: from what the searches found, and the row, set or connection of the lent table that it is about.
// An inner crate: it asks for all of the table's bytes, and refuses nothing; a plan carries the number of a refusal.
#![tactic(auto)]

ghost use Rattle.std.specs.Prelude.{◌≡◌, ℕ, ◌≤◌, ◌<◌, length, Some};
ghost use Rattle.server.specs.Sizes.{connection_count, function_count};
ghost use Rattle.server.specs.Layout.{table_of, table_size};
ghost use Rattle.plan.specs.Values.{values_of};
ghost use Rattle.plan.specs.Plans.{plan_can_do, plan_cant_do, plan_grab, plan_join, plan_new, plan_submit, sleeping_row};
ghost use Rattle.plan.specs.Plans as B;

use plan::{Change, Order, Plan, Step};
use server::{Connection, JobRow};

// A refusal.
pub fn refused(number: u8) -> Plan
    ensures { result ≡ B.refusal number }
{
    Plan {
        number,
        step: Step::Nothing,
        change: Change::Nothing,
        order: Order::Nothing,
    }
}

// An event that is done.
pub fn done(step: Step, change: Change, order: Order) -> Plan
    ensures { result ≡ B.done step change order }
{
    Plan {
        number: 0,
        step,
        change,
        order,
    }
}

// CAN_DO, from the place that the function has or would take: 11 where there is none.
pub fn can_do(table: &[u8], room: Option<usize>, c: usize) -> Plan
    requires { (table_size connection_count ≤ length table.now) × (c < connection_count) }
    ensures { result ≡ plan_can_do room c (values_of (table_of connection_count table.now)) }
{
    match room {
        None => refused(11),
        Some(q) => {
            let s = sets::insert(table_rows::able_at(table, q), c);
            done(
                Step::Able {
                    function: q,
                    set: s,
                },
                Change::Name { function: q },
                Order::Nothing,
            )
        }
    }
}

// CANT_DO, from the place of the function: an unknown one changes nothing.
pub fn cant_do(table: &[u8], known: Option<usize>, c: usize) -> Plan
    requires { (table_size connection_count ≤ length table.now) × (c < connection_count) }
    ensures { result ≡ plan_cant_do known c (values_of (table_of connection_count table.now)) }
{
    match known {
        None => done(Step::Nothing, Change::Nothing, Order::Nothing),
        Some(q) => {
            let s = sets::remove(table_rows::able_at(table, q), c);
            done(
                Step::Able {
                    function: q,
                    set: s,
                },
                Change::Nothing,
                Order::Nothing,
            )
        }
    }
}

// A connection's row, asleep or awake.
pub fn sleeping(table: &[u8], c: usize, asleep: bool) -> Connection
    requires { table_size connection_count ≤ length table.now }
    ensures { result ≡ sleeping_row asleep c (values_of (table_of connection_count table.now)) }
{
    let x = table_rows::connection_at(table, c);
    server::with_asleep(x, asleep)
}

// GRAB_JOB and GRAB_JOB_UNIQ, from the place of the job that is given.
pub fn grab(table: &[u8], best: Option<usize>, uniq: bool, c: usize) -> Plan
    requires { (table_size connection_count ≤ length table.now) × (c < connection_count) }
    ensures { result ≡ plan_grab best uniq c (values_of (table_of connection_count table.now)) }
{
    let awake = sleeping(table, c, false);
    match best {
        None => done(
            Step::Flags {
                connection: c,
                flags: awake,
            },
            Change::Nothing,
            Order::NoJob,
        ),
        Some(p) => {
            let held = server::with_holder(table_rows::row_at(table, p), (c + 1) as u16);
            done(
                Step::Grab {
                    place: p,
                    row: held,
                    connection: c,
                    flags: awake,
                },
                Change::Nothing,
                Order::Assign { uniq, place: p },
            )
        }
    }
}

// A submission, from the job that it joins, the place of its function and the lowest free place.
pub fn submit(
    table: &[u8],
    joined: Option<usize>,
    room: Option<usize>,
    free: Option<usize>,
    c: usize,
    priority: u8,
    background: bool,
    size: u16,
) -> Plan
    requires { (table_size connection_count ≤ length table.now) × (c < connection_count) × ((q : ℕ) → room ≡ Some q → q < function_count) }
    ensures { result ≡ plan_submit joined room free c priority background size (values_of (table_of connection_count table.now)) }
{
    match joined {
        Some(p) => join(table, p, c, background),
        None => submit_new(table, room, free, c, priority, background, size),
    }
}

// A join: the job has a submitter more, and JOB_CREATED names it.
fn join(table: &[u8], p: usize, c: usize, background: bool) -> Plan
    requires { (table_size connection_count ≤ length table.now) × (c < connection_count) }
    ensures { result ≡ plan_join p c background (values_of (table_of connection_count table.now)) }
{
    let row = table_rows::row_at(table, p);
    let joined = plan_rows::submitted(row, c, background);
    done(
        Step::Row {
            place: p,
            row: joined,
        },
        Change::Nothing,
        Order::Created { serial: row.serial },
    )
}

// A new job: refusals 11 to 13 in order.
fn submit_new(
    table: &[u8],
    room: Option<usize>,
    free: Option<usize>,
    c: usize,
    priority: u8,
    background: bool,
    size: u16,
) -> Plan
    requires { (table_size connection_count ≤ length table.now) × (c < connection_count) × ((q : ℕ) → room ≡ Some q → q < function_count) }
    ensures { result ≡ plan_new room free c priority background size (values_of (table_of connection_count table.now)) }
{
    match room {
        None => refused(11),
        Some(q) => match free {
            None => refused(12),
            Some(p) => accept(table, q, p, c, priority, background, size),
        },
    }
}

// A new job with its places: 13 where the serials are used up.
fn accept(
    table: &[u8],
    q: usize,
    p: usize,
    c: usize,
    priority: u8,
    background: bool,
    size: u16,
) -> Plan
    requires { (table_size connection_count ≤ length table.now) × (c < connection_count) × (q < function_count) }
    ensures { result ≡ plan_new (Some q) (Some p) c priority background size (values_of (table_of connection_count table.now)) }
{
    let last = table_rows::last(table);
    if last < 4294967295 {
        let serial = last + 1;
        let function = q as u8;
        let row = server::fresh_row(serial, function, priority, size);
        let new = plan_rows::submitted(row, c, background);
        return done(
            Step::New { place: p, row: new },
            Change::Job {
                place: p,
                function: q,
            },
            Order::Created { serial },
        );
    }
    refused(13)
}
