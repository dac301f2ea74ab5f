// From a request that was read to its plan: what the server would do, from the table in the lent bytes and the request's arguments.
// An inner crate: it asks for a table that obeys the rules and for a packet that was read; a plan carries the number of a refusal.
#![tactic(auto)]

ghost use Rattle.std.specs.Prelude.{◌≡◌, true, ◌≤◌, ◌<◌, length};
ghost use Rattle.packet.specs.Packet.{read, requests};
ghost use Rattle.packet.specs.Answers.{answer_of, found};
ghost use Rattle.server.specs.Sizes.{connection_count};
ghost use Rattle.server.specs.Table.{best, job_of};
ghost use Rattle.server.specs.Requests.{request_in};
ghost use Rattle.server.specs.Events.{held_job_of};
ghost use Rattle.server.specs.Layout.{table_of, table_size};
ghost use Rattle.server.specs.Call.{is_sound};
ghost use Rattle.plan.specs.Values.{values_of};
ghost use Rattle.plan.specs.Plans.{plan_grab, plan_served};
ghost use Rattle.plan_request.specs.Submissions.{Submits};

use packet::Ends;
use plan::{Change, Order, Plan, Step};
use plan_events::Work;

// The place of the job that connection c holds under this handle: nowhere, where the text is no handle of this hub.
fn held(table: &[u8], c: usize, handle: &[u8]) -> Option<usize>
    requires { (is_sound connection_count table.now ≡ true) × (table_size connection_count ≤ length table.now) × (c < connection_count) }
    ensures { result ≡ held_job_of (table_of connection_count table.now) c handle.now }
{
    match handle::serial_of(table_texts::hub_of(table), handle) {
        Some(serial) => plan_find_rows::held_row(table, c, serial),
        None => None,
    }
}

// The place of the unfinished job with this handle, whoever holds it: nowhere, where the text is no handle of this hub.
fn found(table: &[u8], handle: &[u8]) -> Option<usize>
    requires { (is_sound connection_count table.now ≡ true) × (table_size connection_count ≤ length table.now) }
    ensures { result ≡ job_of (table_of connection_count table.now) handle.now }
{
    match handle::serial_of(table_texts::hub_of(table), handle) {
        Some(serial) => plan_find_rows::serial_row(table, serial),
        None => None,
    }
}

// The plan of a submission: it joins an unfinished job, or is a new one.
fn submit(table: &[u8], c: usize, kind: u32, packet: &[u8], ends: Ends) -> Plan
    requires { (is_sound connection_count table.now ≡ true) × (table_size connection_count ≤ length table.now) × (c < connection_count)
        × (answer_of (read requests packet.now) ≡ found kind ends) × Submits kind }
    ensures { result ≡ plan_served c (request_in packet.now) (table_of connection_count table.now) }
{
    let f = packet_read::argument(packet, ends, 0);
    let u = packet_read::argument(packet, ends, 1);
    let workload = packet_read::argument(packet, ends, 2);
    let row = packet_kinds::kind_of(kind);
    let places = plan_find_texts::places_for(table, f, u);
    let joined = places.joined;
    let room = places.room;
    let free = plan_find_rows::free_row(table);
    plan_jobs::submit(
        table,
        joined,
        room,
        free,
        c,
        row.priority,
        row.background,
        workload.len() as u16,
    )
}

// A grab, with the unique or without it.
fn grab(table: &[u8], uniq: bool, c: usize) -> Plan
    requires { (table_size connection_count ≤ length table.now) × (c < connection_count) }
    ensures { result ≡ plan_grab (best (table_of connection_count table.now) c) uniq c (values_of (table_of connection_count table.now)) }
{
    plan_jobs::grab(table, plan_find_rows::best_row(table, c), uniq, c)
}

// The plan of a request that was read.
pub fn plan_request(table: &[u8], c: usize, kind: u32, packet: &[u8], ends: Ends) -> Plan
    requires { (is_sound connection_count table.now ≡ true) × (table_size connection_count ≤ length table.now) × (c < connection_count) × (answer_of (read requests packet.now) ≡ found kind ends) }
    ensures { result ≡ plan_served c (request_in packet.now) (table_of connection_count table.now) }
{
    let first = packet_read::argument(packet, ends, 0);
    match kind {
        1 => plan_jobs::can_do(table, plan_find_texts::room_for(table, first), c), // CAN_DO
        2 => plan_jobs::cant_do(table, plan_find_texts::known(table, first), c), // CANT_DO
        3 => plan_events::reset(c), // RESET_ABILITIES
        4 => plan_events::pre_sleep(table, c), // PRE_SLEEP
        7 | 18 | 21 | 32..=34 => submit(table, c, kind, packet, ends), // SUBMIT_JOB and its five kin
        9 => grab(table, false, c), // GRAB_JOB
        12 => plan_events::worked(table, held(table, c, first), Work::Reports), // WORK_STATUS
        13..=14 => plan_events::worked(table, held(table, c, first), Work::Ends), // WORK_COMPLETE, WORK_FAIL
        15 => plan_events::status(found(table, first)), // GET_STATUS
        16 => plan_jobs::done(Step::Nothing, Change::Nothing, Order::Echo), // ECHO_REQ
        22 => plan_events::identify(c), // SET_CLIENT_ID
        25 => plan_events::worked(table, held(table, c, first), Work::Throws), // WORK_EXCEPTION
        26 => plan_events::option(table, octets::equal(first, b"exceptions"), c), // OPTION_REQ
        28..=29 => plan_events::worked(table, held(table, c, first), Work::Tells), // WORK_DATA, WORK_WARNING
        30 => grab(table, true, c), // GRAB_JOB_UNIQ
        _ => plan_jobs::refused(9), // not served
    }
}
