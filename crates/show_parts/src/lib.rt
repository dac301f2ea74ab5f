// The parts of what `show` prints for a line of a capture, laid over a lent text: the line's number, digits and words, what the server
// answered, and how the table stands. docs/SHOW.md has the layout. Each function returns the place after what it laid. An inner crate:
// its callers see to the room.
#![tactic(auto)]

ghost use Rattle.std.specs.Prelude.{◌≡◌, true, ◌++◌, ◌+◌, ◌*◌, ◌≤◌, length};
ghost use Rattle.octets.specs.Put.{put};
ghost use Rattle.handle.specs.Handle.{decimal, is_hub_name};
ghost use Rattle.server.specs.Sizes.{connection_count};
ghost use Rattle.server.specs.Rules.{hub_named};
ghost use Rattle.server.specs.Layout.{table_of, table_size};
ghost use Rattle.capture.specs.Frames.{Bounded, event_of};
ghost use Rattle.capture.specs.Packets.{Packed, packet_lines, packets_in};
ghost use Rattle.show_packet.specs.Lines.{request_line};
ghost use Rattle.show_table.specs.Standing.{below};
ghost use Rattle.show_parts.specs.Parts.{answer_text, close_jobs, digits_text, event_text, frame_digits, header_seen, heading_text, jobs_after, named_text, number_text, packet_jobs, sent_text, table_text};

use capture::{FRAME_SIZE, Frame};
use server::{JOBS, JobRow};

// The header of a packet, where it is good, and nothing of it otherwise.
fn header_seen(packet: &[u8]) -> &[u8]
    ensures { result.now ≡ header_seen packet.now }
{
    match packet_read::read_request(packet) {
        Err(refusal) => {
            if refusal.number() < 9 {
                return lines::front(packet, 0);
            }
            lines::front(packet, 12)
        }
        Ok(_) => lines::front(packet, 12),
    }
}

// Lays a space and the digits of a frame: its kind, its connection, and its packet's header.
fn put_digits(text: &mut [u8], at: usize, kind: u8, connection: u8, header: &[u8]) -> usize
    requires { at + length (frame_digits kind connection header.now) ≤ length text.old }
    ensures { (result ≡ at + length (frame_digits kind connection header.now)) × (text.new ≡ put at (frame_digits kind connection header.now) text.old) }
{
    let digits = octets::put(text, at, b" ");
    let place = hexadecimal::put_hex(text, digits, &[kind, connection]);
    hexadecimal::put_hex(text, place, header)
}

// Lays the digits of a frame, as far as they may be seen.
fn put_seen(text: &mut [u8], at: usize, frame: Option<Frame>, bytes: &[u8; FRAME_SIZE]) -> usize
    requires { Bounded frame × (at + length (digits_text (event_of frame bytes.now)) ≤ length text.old) }
    ensures { (result ≡ at + length (digits_text (event_of frame bytes.now))) × (text.new ≡ put at (digits_text (event_of frame bytes.now)) text.old) }
{
    let Some(called) = frame else {
        return at;
    };
    match called {
        Frame::Open { connection } => put_digits(text, at, 1, connection, b""),
        Frame::Close { connection } => put_digits(text, at, 2, connection, b""),
        Frame::Packet { connection, end } => {
            let all = &bytes[..];
            put_digits(text, at, 3, connection, header_seen(&all[2..end]))
        }
    }
}

// Lays a connection and what it does.
fn put_deed(text: &mut [u8], at: usize, connection: u8, word: &[u8]) -> usize
    requires { at + length (below ++ (decimal connection ++ word.now)) ≤ length text.old }
    ensures { (result ≡ at + length (below ++ (decimal connection ++ word.now))) × (text.new ≡ put at (below ++ (decimal connection ++ word.now)) text.old) }
{
    let digits = octets::put(text, at, b"\n    ");
    let end = prints::put_number(text, digits, connection as u32);
    octets::put(text, end, word)
}

// Lays a request.
fn put_request(text: &mut [u8], at: usize, connection: u8, packet: &[u8]) -> usize
    requires { at + length (below ++ request_line connection packet.now) ≤ length text.old }
    ensures { (result ≡ at + length (below ++ request_line connection packet.now)) × (text.new ≡ put at (below ++ request_line connection packet.now) text.old) }
{
    let place = octets::put(text, at, b"\n    ");
    show_packet::put_request(text, place, connection, packet)
}

// Lays what a frame says.
fn put_event(text: &mut [u8], at: usize, frame: Option<Frame>, bytes: &[u8; FRAME_SIZE]) -> usize
    requires { Bounded frame × (at + length (event_text (event_of frame bytes.now)) ≤ length text.old) }
    ensures { (result ≡ at + length (event_text (event_of frame bytes.now))) × (text.new ≡ put at (event_text (event_of frame bytes.now)) text.old) }
{
    let Some(called) = frame else {
        return at;
    };
    match called {
        Frame::Open { connection } => put_deed(text, at, connection, b" opens"),
        Frame::Close { connection } => put_deed(text, at, connection, b" closes"),
        Frame::Packet { connection, end } => {
            let all = &bytes[..];
            put_request(text, at, connection, &all[2..end])
        }
    }
}

// Lays the number of a line, its digits, and what its frame says.
pub fn put_heading(
    text: &mut [u8],
    number: u32,
    frame: Option<Frame>,
    bytes: &[u8; FRAME_SIZE],
) -> usize
    requires { Bounded frame × (0 + length (heading_text number (event_of frame bytes.now)) ≤ length text.old) }
    ensures { (result ≡ 0 + length (heading_text number (event_of frame bytes.now))) × (text.new ≡ put 0 (heading_text number (event_of frame bytes.now)) text.old) }
{
    let digits = octets::put(text, 0, b"line ");
    let seen = prints::put_number(text, digits, number);
    let event = put_seen(text, seen, frame, bytes);
    put_event(text, event, frame, bytes)
}

// Lays an addressed packet that was sent.
fn put_sent(text: &mut [u8], at: usize, packet: &[u8]) -> usize
    requires { (1 ≤ length packet.now) × (at + length (sent_text packet.now) ≤ length text.old) }
    ensures { (result ≡ at + length (sent_text packet.now)) × (text.new ≡ put at (sent_text packet.now) text.old) }
{
    let place = octets::put(text, at, b"\n    ");
    show_packet::put_response(text, place, packet[0], &packet[1..])
}

// Lays each of the addressed packets that were sent. What is said of one is at most fourteen times as long.
fn put_packets(text: &mut [u8], at: usize, sent: &[u8]) -> usize
    requires { Packed sent.now × (at + length sent.now * 14 ≤ length text.old) }
    ensures { (result ≡ at + length (packet_lines sent_text (packets_in sent.now))) × (text.new ≡ put at (packet_lines sent_text (packets_in sent.now)) text.old) }
{
    let mut place = at;
    let mut i = 0;
    while i < sent.len() {
        let rest = &sent[i..];
        let length = capture::packet_length(rest);
        place = put_sent(text, place, &rest[..length]);
        i += length;
    }
    place
}

// Lays the server's number: that the event is done, or the refusal.
fn put_outcome(text: &mut [u8], at: usize, number: u8) -> usize
    requires { at + length (number_text number) ≤ length text.old }
    ensures { (result ≡ at + length (number_text number)) × (text.new ≡ put at (number_text number) text.old) }
{
    let place = octets::put(text, at, b"\n    ");
    if number == 0 {
        return octets::put(text, place, b"done");
    }
    show_packet::put_refusal(text, place, number)
}

// Lays what the server answered: the packets that it sent, and its number.
pub fn put_answer(text: &mut [u8], at: usize, sent: &[u8], number: u8) -> usize
    requires { Packed sent.now × (at + length sent.now * 14 ≤ length text.old) × (at + length (answer_text (packets_in sent.now) number) ≤ length text.old) }
    ensures { (result ≡ at + length (answer_text (packets_in sent.now) number)) × (text.new ≡ put at (answer_text (packets_in sent.now) number) text.old) }
{
    let outcome = put_packets(text, at, sent);
    put_outcome(text, outcome, number)
}

// Lays the job of a serial at the hub of this name, if there is one.
fn put_job(
    text: &mut [u8],
    at: usize,
    hub: &[u8],
    serial: Option<u32>,
    before: [JobRow; JOBS],
    after: [JobRow; JOBS],
) -> usize
    requires { (is_hub_name hub.now ≡ true) × (at + length (named_text hub.now serial before after) ≤ length text.old) }
    ensures { (result ≡ at + length (named_text hub.now serial before after))
        × (text.new ≡ put at (named_text hub.now serial before after) text.old) }
{
    match serial {
        None => at,
        Some(n) => show_table::put_job_of(text, at, hub, before, after, n),
    }
}

// Lays the job that a packet ended, and the one that it concerns.
fn put_ended(
    text: &mut [u8],
    at: usize,
    hub: &[u8],
    serial: Option<u32>,
    before: [JobRow; JOBS],
    after: [JobRow; JOBS],
) -> usize
    requires { (is_hub_name hub.now ≡ true) × (at + length (packet_jobs hub.now serial before after) ≤ length text.old) }
    ensures { (result ≡ at + length (packet_jobs hub.now serial before after))
        × (text.new ≡ put at (packet_jobs hub.now serial before after) text.old) }
{
    let place = show_table::put_gone(text, at, hub, b"ended ", before, after);
    put_job(text, place, hub, serial, before, after)
}

// Lays the jobs that a close dropped and those that are left, if it is done.
fn put_dropped(
    text: &mut [u8],
    at: usize,
    hub: &[u8],
    number: u8,
    before: [JobRow; JOBS],
    after: [JobRow; JOBS],
) -> usize
    requires { (is_hub_name hub.now ≡ true) × (at + length (close_jobs hub.now number before after) ≤ length text.old) }
    ensures { (result ≡ at + length (close_jobs hub.now number before after))
        × (text.new ≡ put at (close_jobs hub.now number before after) text.old) }
{
    if number == 0 {
        let place = show_table::put_gone(text, at, hub, b"dropped ", before, after);
        return show_table::put_jobs(text, place, hub, after);
    }
    at
}

// Lays the jobs of the hub of this name that a frame concerns, from the rows before its event and after it.
fn put_jobs(
    text: &mut [u8],
    at: usize,
    hub: &[u8],
    frame: Option<Frame>,
    bytes: &[u8; FRAME_SIZE],
    sent: &[u8],
    number: u8,
    before: [JobRow; JOBS],
    after: [JobRow; JOBS],
) -> usize
    requires { Bounded frame × Packed sent.now × (is_hub_name hub.now ≡ true)
        × (at + length (jobs_after hub.now (event_of frame bytes.now) (packets_in sent.now) number before after) ≤ length text.old) }
    ensures { (result ≡ at + length (jobs_after hub.now (event_of frame bytes.now) (packets_in sent.now) number before after))
        × (text.new ≡ put at (jobs_after hub.now (event_of frame bytes.now) (packets_in sent.now) number before after) text.old) }
{
    let Some(called) = frame else {
        return at;
    };
    match called {
        Frame::Open { connection } => at,
        Frame::Close { connection } => put_dropped(text, at, hub, number, before, after),
        Frame::Packet { connection, end } => {
            let all = &bytes[..];
            let serial = show_job::concerned(hub, &all[2..end], sent);
            put_ended(text, at, hub, serial, before, after)
        }
    }
}

// Lays how the table stands: the sleepers, and the jobs concerned, with the rows before the event, named by the table's own hub. After
// refusal 1 there is no table, and 16 is of no event.
pub fn put_table(
    text: &mut [u8],
    at: usize,
    before: [JobRow; JOBS],
    table: &[u8],
    frame: Option<Frame>,
    bytes: &[u8; FRAME_SIZE],
    sent: &[u8],
    number: u8,
) -> usize
    requires { Bounded frame × Packed sent.now
        × ((number ≡ 1 → ⊥) → (number ≡ 16 → ⊥) → (table_size connection_count ≤ length table.now) × (hub_named (table_of connection_count table.now) ≡ true))
        × (at + length (table_text (event_of frame bytes.now) (packets_in sent.now) number before (table_of connection_count table.now)) ≤ length text.old) }
    ensures { (result ≡ at + length (table_text (event_of frame bytes.now) (packets_in sent.now) number before (table_of connection_count table.now)))
        × (text.new ≡ put at (table_text (event_of frame bytes.now) (packets_in sent.now) number before (table_of connection_count table.now)) text.old) }
{
    if number == 1 {
        return at;
    }
    if number == 16 {
        return at;
    }
    let hub = table_texts::hub_of(table);
    let values = table_rows::read_values(table);
    let connections = values.connections;
    let rows = values.rows;
    let place = show_table::put_sleepers(text, at, connections);
    put_jobs(text, place, hub, frame, bytes, sent, number, before, rows)
}
