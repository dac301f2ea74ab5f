// The job server for a host in C: include/lap.h has these functions with their promises in words. Format: the table of docs/TABLE.md,
// 32 workloads of 1,024 bytes, and addressed packets in the output, or the connection's byte and one text. Each function answers document 01's number: 0 is done, any
// other refuses, and then table and workloads are as they were. No caller has to check anything first but that the buffers do not overlap.
#![tactic(auto)]

ghost use Rattle.std.specs.Prelude.{◌≡◌};
ghost use Rattle.server.specs.Sizes.{connection_count};
ghost use Rattle.server.specs.Requests.{closes, opens, sends};
ghost use Rattle.server.specs.Call.{call, left, made, make};
ghost use Rattle.command.specs.Say.{say};

use carry_event::Answer;

// Makes a fresh table for the hub of this name.
#[unsafe(no_mangle)]
pub extern "C" fn lap_fresh(table: &mut [u8], workloads: &mut [u8], name: &[u8]) -> u32
    ensures { made result table.new workloads.new ≡ make connection_count name.now table.old workloads.old }
{
    call_fresh::fresh(table, workloads, name) as u32
}

// Opens a connection.
#[unsafe(no_mangle)]
pub extern "C" fn lap_open(
    table: &mut [u8],
    workloads: &mut [u8],
    output: &mut [u8],
    connection: u32,
    length: &mut u32,
) -> u32
    ensures { left result length.new output.new table.new workloads.new
        ≡ call connection_count (opens connection) table.old workloads.old output.old }
{
    let opened: Answer = call_serve::open(table, workloads, output, connection);
    *length = opened.length as u32;
    opened.number as u32
}

// Closes a connection.
#[unsafe(no_mangle)]
pub extern "C" fn lap_close(
    table: &mut [u8],
    workloads: &mut [u8],
    output: &mut [u8],
    connection: u32,
    length: &mut u32,
) -> u32
    ensures { left result length.new output.new table.new workloads.new
        ≡ call connection_count (closes connection) table.old workloads.old output.old }
{
    let closed: Answer = call_serve::close(table, workloads, output, connection);
    *length = closed.length as u32;
    closed.number as u32
}

// Takes one packet from a connection.
#[unsafe(no_mangle)]
pub extern "C" fn lap_packet(
    table: &mut [u8],
    workloads: &mut [u8],
    output: &mut [u8],
    connection: u32,
    packet: &[u8],
    length: &mut u32,
) -> u32
    ensures { left result length.new output.new table.new workloads.new
        ≡ call connection_count (sends connection packet.now) table.old workloads.old output.old }
{
    let taken: Answer = call_serve::packet(table, workloads, output, connection, packet);
    *length = taken.length as u32;
    taken.number as u32
}

// Answers one line of a technician. Table and workloads are only read.
#[unsafe(no_mangle)]
pub extern "C" fn lap_text(
    table: &[u8],
    workloads: &[u8],
    output: &mut [u8],
    connection: u32,
    line: &[u8],
    length: &mut u32,
) -> u32
    ensures { left result length.new output.new table.now workloads.now
        ≡ say connection_count connection line.now table.now workloads.now output.old }
{
    let said: Answer = call_text::text(table, workloads, output, connection, line);
    *length = said.length as u32;
    said.number as u32
}
