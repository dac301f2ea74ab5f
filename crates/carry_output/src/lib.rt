// The packets that an event sends, laid over the lent output from its first byte on: those of its order, and then a NOOP for each
// connection that wakes. An inner crate: its callers lend a table that obeys the rules, and an output with room for the packets;
// nothing is refused.
#![tactic(auto)]

ghost use Rattle.std.specs.Prelude.{◌≡◌, true, ◌≤◌, ◌<◌, length, []};
ghost use Rattle.octets.specs.Put.{put};
ghost use Rattle.packet.specs.Layout as L;
ghost use Rattle.packet.specs.Arguments.{fits};
ghost use Rattle.sets.specs.Sets.{members};
ghost use Rattle.server.specs.Sizes.{connection_count, job_count, workloads_size};
ghost use Rattle.server.specs.Table.{job_at, live};
ghost use Rattle.server.specs.Layout.{table_of, table_size};
ghost use Rattle.server.specs.Call.{is_sound};
ghost use Rattle.plan.specs.declared.Order.TheVariants as OV;
ghost use Rattle.plan.specs.Settling.{dropped_rows};
ghost use Rattle.server.specs.Events.{to_wake_in};
ghost use Rattle.carry_output.specs.Orderly.{Orderly};
ghost use Rattle.carry_output.specs.Ordered.{answer_bytes, order_bytes};

use carry_packet::Request;
use plan::{Order, Values};
use server::{
    CONNECTIONS, Connection, DENOMINATORS_AT, FUNCTIONS, JOBS, JobRow, NAME_SIZE, NAMES_AT,
    NUMBER_SIZE, NUMERATORS_AT, UNIQUE_SIZE, UNIQUES_AT, WORKLOAD_SIZE,
};

// Lays the job at a place as JOB_ASSIGN or JOB_ASSIGN_UNIQ, with its workload.
fn send_job(
    output: &mut [u8],
    c: u8,
    uniq: bool,
    place: usize,
    table: &[u8],
    workloads: &[u8],
) -> usize
    requires { (is_sound connection_count table.now ≡ true) × (table_size connection_count ≤ length table.now) × (workloads_size ≤ length workloads.now)
        × (place < job_count) × (live (job_at (table_of connection_count table.now) place).row ≡ true)
        × (length (order_bytes (OV.Assign uniq place) c 0 [] [] table.now workloads.now) ≤ length output.old) }
    ensures { (result ≡ length (order_bytes (OV.Assign uniq place) c 0 [] [] table.now workloads.now))
        × (output.new ≡ put 0 (order_bytes (OV.Assign uniq place) c 0 [] [] table.now workloads.now) output.old) }
{
    let row = table_rows::row_at(table, place);
    let q = row.function as usize;
    let function = table_texts::text(table, NAMES_AT + NAME_SIZE * q, NAME_SIZE);
    let unique = table_texts::text(table, UNIQUES_AT + UNIQUE_SIZE * place, UNIQUE_SIZE);
    let start = WORKLOAD_SIZE * place;
    let end = start + row.size as usize;
    let workload = &workloads[start..end];
    let hub = table_texts::hub_of(table);
    carry_packet::send_assign(
        output, 0, c, hub, uniq, row.serial, function, unique, workload,
    )
}

// Lays the status of the job at a place as STATUS_RES, with the handle as asked.
fn send_progress(output: &mut [u8], c: u8, place: usize, table: &[u8], job: &[u8]) -> usize
    requires { (is_sound connection_count table.now ≡ true) × (table_size connection_count ≤ length table.now)
        × (place < job_count) × (live (job_at (table_of connection_count table.now) place).row ≡ true) × (fits L.handle job.now ≡ true)
        × (length (order_bytes (OV.Status place) c 0 job.now [] table.now []) ≤ length output.old) }
    ensures { (result ≡ length (order_bytes (OV.Status place) c 0 job.now [] table.now []))
        × (output.new ≡ put 0 (order_bytes (OV.Status place) c 0 job.now [] table.now []) output.old) }
{
    let row = table_rows::row_at(table, place);
    let numerator = table_texts::text(table, NUMERATORS_AT + NUMBER_SIZE * place, NUMBER_SIZE);
    let denominator = table_texts::text(table, DENOMINATORS_AT + NUMBER_SIZE * place, NUMBER_SIZE);
    carry_packet::send_status(
        output,
        0,
        c,
        job,
        true,
        row.holder != 0,
        numerator,
        denominator,
    )
}

// Lays the packets of an order, and returns how many bytes they are.
pub fn send_order(
    output: &mut [u8],
    order: Order,
    c: u8,
    table: &[u8],
    workloads: &[u8],
    request: Request,
    job: &[u8],
) -> usize
    requires { (is_sound connection_count table.now ≡ true) × (table_size connection_count ≤ length table.now) × (workloads_size ≤ length workloads.now)
        × Orderly order (table_of connection_count table.now) request.bytes.now request.ends request.kind job.now
        × (length (order_bytes order c request.kind job.now request.bytes.now table.now workloads.now) ≤ length output.old) }
    ensures { (result ≡ length (order_bytes order c request.entry.kind job.now request.entry.bytes.now table.now workloads.now))
        × (output.new ≡ put 0 (order_bytes order c request.entry.kind job.now request.entry.bytes.now table.now workloads.now) output.old) }
{
    match order {
        Order::Nothing => 0,
        Order::Created { serial } => {
            carry_packet::send_created(output, 0, c, table_texts::hub_of(table), serial)
        }
        Order::NoJob => carry_packet::send_empty(output, 0, c, 10),
        Order::Assign { uniq, place } => send_job(output, c, uniq, place, table, workloads),
        Order::Copies { to } => carry_several::forward_all(
            output,
            0,
            to,
            request.kind,
            request.data(),
        ),
        Order::Told { to, heard, serial } => {
            let hub = table_texts::hub_of(table);
            carry_several::tell_all(
                output,
                0,
                to,
                heard,
                request.kind,
                request.data(),
                hub,
                serial,
            )
        }
        Order::Echo => carry_packet::forward(output, 0, c, 17, request),
        Order::Status { place } => send_progress(output, c, place, table, job),
        Order::Unknown => carry_packet::send_status(output, 0, c, job, false, false, b"0", b"0"),
        Order::Optioned => carry_packet::send_option(output, 0, c),
    }
}

// The sleepers that these numbers wake.
fn waking(
    connections: [Connection; CONNECTIONS],
    able: [u32; FUNCTIONS],
    before: [JobRow; JOBS],
) -> u32
    ensures { members connection_count result ≡ to_wake_in able (dropped_rows before) connections }
{
    let rows = plan_settle::dropped(before);
    plan_settle::to_wake(connections, plan_settle::busy(able, rows))
}

// Lays all packets of an event that is done, and returns how many bytes they are; `v` are the numbers that it leaves.
pub fn answer(
    output: &mut [u8],
    order: Order,
    v: Values,
    c: u8,
    table: &[u8],
    workloads: &[u8],
    request: Request,
    job: &[u8],
) -> usize
    requires { (is_sound connection_count table.now ≡ true) × (table_size connection_count ≤ length table.now) × (workloads_size ≤ length workloads.now)
        × Orderly order (table_of connection_count table.now) request.bytes.now request.ends request.kind job.now
        × (length (answer_bytes order v c request.kind job.now request.bytes.now table.now workloads.now) ≤ length output.old) }
    ensures { (result ≡ length (answer_bytes order v c request.entry.kind job.now request.entry.bytes.now table.now workloads.now))
        × (output.new ≡ put 0 (answer_bytes order v c request.entry.kind job.now request.entry.bytes.now table.now workloads.now) output.old) }
{
    let at = send_order(output, order, c, table, workloads, request, job);
    carry_several::wake_all(output, at, waking(v.connections, v.able, v.rows))
}
