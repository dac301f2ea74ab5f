// The report: what a text command would be answered after a capture. Each line of the capture is read as a frame and its event called on the
// lent table and workloads; nothing is said of it. Then the answer is laid over a lent text, for no connection. Formats: document 01,
// "Replay program", and document 02, ask 1. A line that is no frame changes nothing; a text with too little room, and a table that is none,
// are answered by nothing at all. No caller has to check anything first.
#![tactic(auto)]

ghost use Rattle.std.specs.Prelude.{◌≡◌, ◌+◌, ◌<◌, length};
ghost use Rattle.octets.specs.Put.{put};
ghost use Rattle.report_line.specs.Reported.{command_line, command_size, is_unfit, keeping, kept, report, reported};

use capture::FRAME_SIZE;
use carry_event::Answer;
use server::{OUTPUT_SIZE, TABLE_SIZE};

// Room for any answer.
pub const TEXT_SIZE: usize = OUTPUT_SIZE;

// As much of a command as is looked at: document 02, "lines of up to 128 bytes". A longer one is none.
const COMMAND_SIZE: usize = 128;

// With the line feed behind it.
const LINE_SIZE: usize = COMMAND_SIZE + 1;

// One line of the capture, without its line end: calls its event. The output is lent to the call, and what it sends is dropped.
pub fn step(table: &mut [u8], workloads: &mut [u8], output: &mut [u8], line: &[u8])
    ensures { keeping table.new workloads.new output.new
        ≡ kept line.now table.old workloads.old output.old }
{
    let mut bytes = [0u8; FRAME_SIZE];
    let frame = capture::read_frame(line, &mut bytes);
    let _dropped: Answer = capture::answer_frame(table, workloads, output, frame, &bytes);
}

// Whether the text has too little room for some answer, or the table is none.
fn is_unfit(table: &[u8], text: &[u8]) -> bool
    ensures { result ≡ is_unfit table.now text.now }
{
    if text.len() < TEXT_SIZE {
        return true;
    }
    if table.len() < TABLE_SIZE {
        return true;
    }
    !check_table::is_sound(table)
}

// Lays the start of a command with a line feed behind it over a line, and returns how long that is.
fn put_line(line: &mut [u8], command: &[u8]) -> usize
    requires { command_size < length line.old }
    ensures { (result ≡ 0 + length (command_line command.now)) × (line.new ≡ put 0 (command_line command.now) line.old) }
{
    let end = octets::put(line, 0, lines::front(command, COMMAND_SIZE));
    octets::put(line, end, b"\n")
}

// The command, without its line end, answered from the table: lays the answer over the start of the text, and returns how long it is.
// Nothing is said, and nothing changed, where the text has less room than `TEXT_SIZE` bytes, or the table is too short or breaks a rule.
pub fn put_report(text: &mut [u8], table: &[u8], command: &[u8]) -> usize
    ensures { report result text.new ≡ reported command.now table.now text.old }
{
    if is_unfit(table, text) {
        return 0;
    }
    let mut line = [0u8; LINE_SIZE];
    let end = put_line(&mut line, command);
    let all = &line[..];
    command_text::put_text(text, 0, table, &all[..end])
}
