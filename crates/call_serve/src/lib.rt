// The job server: opening and closing a connection, and one packet from a connection, over bytes that the caller lends. Format: the
// table of docs/TABLE.md, 32 workloads of 1,024 bytes, and addressed packets in the output. Bad input is refused by document 01's
// numbers: nothing is changed then, and by one that has a text the output holds one ERROR packet. No caller has to check anything first.
#![tactic(auto)]

ghost use Rattle.std.specs.Prelude.{◌≡◌, cond, false, []};
ghost use Rattle.packet.specs.Packet.{read, requests};
ghost use Rattle.packet.specs.Answers.{answer_of, found};
ghost use Rattle.server.specs.Sizes.{connection_count};
ghost use Rattle.server.specs.Requests.{closes, opens, sends};
ghost use Rattle.server.specs.Call.{call, left};
ghost use Rattle.plan.specs.Plans.{plan_closing, plan_opening};
ghost use Rattle.call_admit.specs.Admission.{admission};

use carry_event::Answer;
use carry_packet::Request;
use packet::{Ends, Packet};
use plan::Plan;

// The request of an event that brings none.
fn no_request() -> Request<'static>
    ensures { (result.kind ≡ 0) × (result.bytes.now ≡ []) × (result.ends ≡ record { first = 0; second = 0; third = 0; fourth = 0; fifth = 0 }) }
{
    let ends = Ends {
        first: 0,
        second: 0,
        third: 0,
        fourth: 0,
        fifth: 0,
    };
    Request {
        kind: 0,
        bytes: b"",
        ends,
    }
}

// A refusal that writes nothing.
fn refused(number: u8) -> Answer
    ensures { result ≡ record { number = number; length = 0 } }
{
    Answer { number, length: 0 }
}

// The plan of an open, or of a close.
fn plan_open_or_close(c: usize, to_open: bool) -> Plan
    ensures { result ≡ cond to_open (plan_opening c) (plan_closing c) }
{
    if to_open {
        plan_events::open(c)
    } else {
        plan_events::close(c)
    }
}

// Opens a connection, or closes it.
fn open_or_close(
    table: &mut [u8],
    workloads: &mut [u8],
    output: &mut [u8],
    connection: u32,
    to_open: bool,
) -> Answer
    ensures { left result.number result.length output.new table.new workloads.new
        ≡ call connection_count (cond to_open (opens connection) (closes connection)) table.old workloads.old output.old }
{
    if let Err(refusal) = call_admit::admission(table, workloads, output, connection, to_open) {
        return refused(refusal.number());
    }
    let plan = plan_open_or_close(connection as usize, to_open);
    let c = connection as u8;
    carry_event::conclude(table, workloads, output, plan, c, no_request())
}

// Opens a connection.
pub fn open(table: &mut [u8], workloads: &mut [u8], output: &mut [u8], connection: u32) -> Answer
    ensures { left result.number result.length output.new table.new workloads.new
        ≡ call connection_count (opens connection) table.old workloads.old output.old }
{
    open_or_close(table, workloads, output, connection, true)
}

// Closes a connection.
pub fn close(table: &mut [u8], workloads: &mut [u8], output: &mut [u8], connection: u32) -> Answer
    ensures { left result.number result.length output.new table.new workloads.new
        ≡ call connection_count (closes connection) table.old workloads.old output.old }
{
    open_or_close(table, workloads, output, connection, false)
}

// A request that was read, on a connection that is open.
fn serve(
    table: &mut [u8],
    workloads: &mut [u8],
    output: &mut [u8],
    connection: u32,
    packet: &[u8],
    kind: u32,
    ends: Ends,
) -> Answer
    requires { (0 ≡ admission false connection table.old workloads.old output.old) × (answer_of (read requests packet.now) ≡ found kind ends) }
    ensures { left result.number result.length output.new table.new workloads.new
        ≡ call connection_count (sends connection packet.now) table.old workloads.old output.old }
{
    let plan = plan_request::plan_request(table, connection as usize, kind, packet, ends);
    let c = connection as u8;
    let request = Request {
        kind,
        bytes: packet,
        ends,
    };
    carry_event::conclude(table, workloads, output, plan, c, request)
}

// Takes one packet from a connection.
pub fn packet(
    table: &mut [u8],
    workloads: &mut [u8],
    output: &mut [u8],
    connection: u32,
    packet: &[u8],
) -> Answer
    ensures { left result.number result.length output.new table.new workloads.new
        ≡ call connection_count (sends connection packet.now) table.old workloads.old output.old }
{
    if let Err(no_packet) = call_admit::admission(table, workloads, output, connection, false) {
        return refused(no_packet.number());
    }
    match packet_read::read_request(packet) {
        Err(refusal) => {
            let number = refusal.number();
            let length = carry_event::refuse(output, connection as u8, number);
            Answer { number, length }
        }
        Ok(Packet { kind, ends }) => serve(
            table, workloads, output, connection, packet, kind, ends,
        ),
    }
}
