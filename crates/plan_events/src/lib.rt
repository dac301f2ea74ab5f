// What the rest of the events come to, as plans: abilities, sleep and client id of a connection, open and close, worker packets, status
// and options. An inner crate: it asks for all of the table's bytes, and refuses nothing; a plan carries the number of a refusal.
#![tactic(auto)]

ghost use Rattle.std.specs.Prelude.{◌≡◌, cond, true, ◌≤◌, ◌<◌, length};
ghost use Rattle.sets.specs.Sets.{remove};
ghost use Rattle.server.specs.Sizes.{connection_count};
ghost use Rattle.server.specs.Layout.{table_of, table_size};
ghost use Rattle.plan.specs.declared.Change.TheVariants as CV;
ghost use Rattle.plan.specs.declared.Order.TheVariants as OV;
ghost use Rattle.plan.specs.Values.{values_of};
ghost use Rattle.plan.specs.Parts as P;
ghost use Rattle.plan.specs.declared.Step.TheVariants as SV;
ghost use Rattle.plan.specs.Plans.{plan_closing, plan_identify, plan_opening, plan_option, plan_status, plan_work, sleeping_row};
ghost use Rattle.plan.specs.Plans as B;
ghost use Rattle.plan_events.specs.Works.{work_of};

use plan::{Change, Order, Plan, Step};
use server::{CONNECTIONS, Connection};

// What a worker says of its job: data or a warning, a status, its end, an exception.
#[derive(Clone, Copy)]
pub enum Work {
    Tells,
    Reports,
    Ends,
    Throws,
}

// RESET_ABILITIES.
pub fn reset(c: usize) -> Plan
    ensures { result ≡ B.done (SV.Reset c) CV.Nothing OV.Nothing }
{
    plan_jobs::done(
        Step::Reset { connection: c },
        Change::Nothing,
        Order::Nothing,
    )
}

// PRE_SLEEP.
pub fn pre_sleep(table: &[u8], c: usize) -> Plan
    requires { table_size connection_count ≤ length table.now }
    ensures { result ≡ B.done (SV.Flags c (sleeping_row true c (values_of (table_of connection_count table.now)))) CV.Nothing OV.Nothing }
{
    let x = plan_jobs::sleeping(table, c, true);
    plan_jobs::done(
        Step::Flags {
            connection: c,
            flags: x,
        },
        Change::Nothing,
        Order::Nothing,
    )
}

// SET_CLIENT_ID.
pub fn identify(c: usize) -> Plan
    ensures { result ≡ plan_identify c }
{
    plan_jobs::done(Step::Nothing, Change::Id { connection: c }, Order::Nothing)
}

// Opening a connection.
pub fn open(c: usize) -> Plan
    ensures { result ≡ plan_opening c }
{
    let x = server::just_opened();
    plan_jobs::done(
        Step::Flags {
            connection: c,
            flags: x,
        },
        Change::Nothing,
        Order::Nothing,
    )
}

// Closing a connection.
pub fn close(c: usize) -> Plan
    ensures { result ≡ plan_closing c }
{
    plan_jobs::done(
        Step::Leave { connection: c },
        Change::Left { connection: c },
        Order::Nothing,
    )
}

// What a worker says of the job at a place: 14 where the connection holds no such job. WORK_STATUS stores its two texts; WORK_COMPLETE,
// WORK_FAIL and WORK_EXCEPTION end the job; only listeners with the option hear the last, and the others are told of a failure.
pub fn worked(table: &[u8], held: Option<usize>, how: Work) -> Plan
    requires { table_size connection_count ≤ length table.now }
    ensures { result ≡ plan_work held (work_of how) (values_of (table_of connection_count table.now)) }
{
    match held {
        None => plan_jobs::refused(14),
        Some(p) => {
            let row = table_rows::row_at(table, p);
            let to = row.listeners;
            match how {
                Work::Tells => {
                    plan_jobs::done(Step::Nothing, Change::Nothing, Order::Copies { to })
                }
                Work::Reports => plan_jobs::done(
                    Step::Nothing,
                    Change::Texts { place: p },
                    Order::Copies { to },
                ),
                Work::Ends => plan_jobs::done(
                    Step::End { place: p },
                    Change::Nothing,
                    Order::Copies { to },
                ),
                Work::Throws => plan_jobs::done(
                    Step::End { place: p },
                    Change::Nothing,
                    Order::Told {
                        to,
                        heard: heard(table, to),
                        serial: row.serial,
                    },
                ),
            }
        }
    }
}

// The listeners of the set that have the option.
fn heard(table: &[u8], listeners: u32) -> u32
    requires { table_size connection_count ≤ length table.now }
    ensures { result ≡ P.heard (values_of (table_of connection_count table.now)).connections listeners }
{
    let mut s = listeners;
    for i in 0..CONNECTIONS {
        let x = table_rows::connection_at(table, i);
        s = kept(s, i, x.exceptions);
    }
    s
}

// The set as it is, or without the connection.
fn kept(s: u32, c: usize, stays: bool) -> u32
    requires { c < connection_count }
    ensures { result ≡ cond stays s (remove s c) }
{
    if stays {
        return s;
    }
    sets::remove(s, c)
}

// GET_STATUS, from the place of the job.
pub fn status(found: Option<usize>) -> Plan
    ensures { result ≡ plan_status found }
{
    match found {
        None => plan_jobs::done(Step::Nothing, Change::Nothing, Order::Unknown),
        Some(p) => plan_jobs::done(Step::Nothing, Change::Nothing, Order::Status { place: p }),
    }
}

// OPTION_REQ: 15 where the option is not `exceptions`.
pub fn option(table: &[u8], served: bool, c: usize) -> Plan
    requires { table_size connection_count ≤ length table.now }
    ensures { result ≡ plan_option served c (values_of (table_of connection_count table.now)) }
{
    if !served {
        return plan_jobs::refused(15);
    }
    let x = table_rows::connection_at(table, c);
    let next = server::with_exceptions(x, true);
    plan_jobs::done(
        Step::Flags {
            connection: c,
            flags: next,
        },
        Change::Nothing,
        Order::Optioned,
    )
}
