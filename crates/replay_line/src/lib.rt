// One line of the replay: the line read as a frame, the frame's event called on the lent table and workloads, and the answer laid as
// lines of lowercase hexadecimal over a lent text. Format: document 01, "Replay program". A line that is no frame is answered by 16,
// and a text with too little room by nothing at all. No caller has to check anything first.
#![tactic(auto)]

ghost use Rattle.std.specs.Prelude.{◌≡◌, ◌+◌, ◌*◌, ◌≤◌, length, take};
ghost use Rattle.octets.specs.Put.{put};
ghost use Rattle.server.specs.Replay.{answer_lines};
ghost use Rattle.capture.specs.Packets.{Packed, packet_lines, packets_in};
ghost use Rattle.capture.specs.Spoken.{telling};
ghost use Rattle.replay_line.specs.Replayed.{line_of, replayed};

use capture::FRAME_SIZE;
use carry_event::Answer;
use server::OUTPUT_SIZE;

// Room for what any line says.
pub const TEXT_SIZE: usize = 3 * OUTPUT_SIZE + 3;

// Lays a line of digits over the text from `at` on, with its line end, and returns the place after it.
fn put_line(text: &mut [u8], at: usize, bytes: &[u8]) -> usize
    requires { at + length (line_of bytes.now) ≤ length text.old }
    ensures { (result ≡ at + length (line_of bytes.now)) × (text.new ≡ put at (line_of bytes.now) text.old) }
{
    let end = hexadecimal::put_hex(text, at, bytes);
    octets::put(text, end, b"\n")
}

// Lays a line for each of the addressed packets that the output is made of, and returns the place after them. A line is shorter than
// three times its packet.
fn put_packets(text: &mut [u8], output: &[u8]) -> usize
    requires { Packed output.now × (length output.now * 3 ≤ length text.old) }
    ensures { (result ≤ length output.now * 3) × (result ≡ 0 + length (packet_lines line_of (packets_in output.now)))
        × (text.new ≡ put 0 (packet_lines line_of (packets_in output.now)) text.old) }
{
    let mut at = 0;
    let mut i = 0;
    while i < output.len() {
        let rest = &output[i..];
        let length = capture::packet_length(rest);
        at = put_line(text, at, &rest[..length]);
        i += length;
    }
    at
}

// Lays the lines of an answer: its packets, which are the first of the output, and then its number.
fn put_answer(text: &mut [u8], output: &[u8], answer: Answer) -> usize
    requires { (answer.length ≤ length output.now) × Packed (take answer.length output.now) × (answer.length * 3 + 3 ≤ length text.old) }
    ensures { (result ≡ 0 + length (answer_lines (packets_in (take answer.length output.now)) answer.number))
        × (text.new ≡ put 0 (answer_lines (packets_in (take answer.length output.now)) answer.number) text.old) }
{
    let length = answer.length;
    let end = put_packets(text, &output[..length]);
    put_line(text, end, &[answer.number])
}

// One line of the replay, without its line end: lays what it says over the start of the text, and returns how long that is. Nothing is
// said, and nothing changed, where the text has less room than `TEXT_SIZE` bytes.
pub fn step(
    table: &mut [u8],
    workloads: &mut [u8],
    output: &mut [u8],
    text: &mut [u8],
    line: &[u8],
) -> usize
    ensures { telling result text.new output.new table.new workloads.new
        ≡ replayed line.now table.old workloads.old output.old text.old }
{
    if text.len() < TEXT_SIZE {
        return 0;
    }
    let mut bytes = [0u8; FRAME_SIZE];
    let frame = capture::read_frame(line, &mut bytes);
    let answer = capture::answer_frame(table, workloads, output, frame, &bytes);
    put_answer(text, output, answer)
}
