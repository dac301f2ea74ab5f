// Lines of a capture as frames, and their events called on a lent table and lent workloads. Format: document 01, "Replay program". A
// line that is no frame is answered by 16, and the server does not see it. An inner crate, under the replay and under `show`.
#![tactic(auto)]

ghost use Rattle.std.specs.Prelude.{◌≡◌, ◌≤◌, length, take, Some};
ghost use Rattle.server.specs.Replay.{frame, framed};
ghost use Rattle.server.specs.Call.{left};
ghost use Rattle.capture.specs.Frames.{Bounded, event_of, frame_size};
ghost use Rattle.capture.specs.Packets.{packet_length};
ghost use Rattle.capture.specs.Spoken.{answered_to};

use carry_event::Answer;

// The most bytes of a frame, and its digits: "At most 2,080 digits."
pub const FRAME_SIZE: usize = 1040;

pub const LONGEST_LINE: usize = 2 * FRAME_SIZE;

// Room for one digit more than a frame has, which is enough to tell that a line is none.
pub const LINE_ROOM: usize = LONGEST_LINE + 1;

// A frame is of one of three kinds. A packet's bytes stand in the lent bytes from 2 to its end.
#[derive(Clone, Copy)]
pub enum Frame {
    Open { connection: u8 },
    Close { connection: u8 },
    Packet { connection: u8, end: usize },
}

// The frame that the first `count` of the bytes make, if they make one.
fn framed(bytes: &[u8], count: usize) -> Option<Frame>
    requires { (count ≤ length bytes.now) × (count ≤ frame_size) }
    ensures { (event_of result bytes.now ≡ framed (Some (take count bytes.now))) × Bounded result }
{
    match &bytes[..count] {
        &[1, connection] => Some(Frame::Open { connection }),
        &[2, connection] => Some(Frame::Close { connection }),
        &[3, connection, ..] => Some(Frame::Packet {
            connection,
            end: count,
        }),
        _ => None,
    }
}

// Reads a line, without its line end, and leaves the frame's bytes in `bytes`; nothing where it is no frame.
pub fn read_frame(line: &[u8], bytes: &mut [u8; FRAME_SIZE]) -> Option<Frame>
    ensures { (event_of result bytes.new ≡ frame line.now) × Bounded result }
{
    if LONGEST_LINE < line.len() {
        return None;
    }
    match hexadecimal::read_hex(line, bytes) {
        Some(count) => framed(bytes, count),
        None => None,
    }
}

// Calls a frame's event; 16 where there is no frame.
pub fn answer_frame(
    table: &mut [u8],
    workloads: &mut [u8],
    output: &mut [u8],
    frame: Option<Frame>,
    bytes: &[u8; FRAME_SIZE],
) -> Answer
    requires { Bounded frame }
    ensures { left result.number result.length output.new table.new workloads.new
        ≡ answered_to (event_of frame bytes.now) table.old workloads.old output.old }
{
    let Some(called) = frame else {
        return Answer {
            number: 16,
            length: 0,
        };
    };
    match called {
        Frame::Open { connection } => {
            call_serve::open(table, workloads, output, octets::wide(connection))
        }
        Frame::Close { connection } => {
            call_serve::close(table, workloads, output, octets::wide(connection))
        }
        Frame::Packet { connection, end } => {
            let all = &bytes[..];
            call_serve::packet(
                table,
                workloads,
                output,
                octets::wide(connection),
                &all[2..end],
            )
        }
    }
}

// How many bytes the first addressed packet is: a connection byte, 12 bytes of header, and the size that it says.
pub fn packet_length(packets: &[u8]) -> usize
    requires { 13 ≤ length packets.now }
    ensures { result ≡ packet_length packets.now }
{
    13 + octets::number_at(packets, 9) as usize
}
