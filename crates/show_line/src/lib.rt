// One line of a capture in words, laid over a lent text: its number, what it says, what the server answered, and how the table stands
// after it. docs/SHOW.md has the layout. A line that is no frame is answered by 16, and a text with too little room by nothing at all.
// No caller has to check anything first.
#![tactic(auto)]

ghost use Rattle.std.specs.Prelude.{◌≡◌, true, ◌+◌, ◌≤◌, length};
ghost use Rattle.octets.specs.Put.{put};
ghost use Rattle.server.specs.Sizes.{connection_count, output_size};
ghost use Rattle.server.specs.Rules.{hub_named};
ghost use Rattle.server.specs.Layout.{table_of, table_size};
ghost use Rattle.server.specs.Table.{rows_of};
ghost use Rattle.capture.specs.Frames.{Bounded, event_of};
ghost use Rattle.capture.specs.Packets.{Packed, packets_in};
ghost use Rattle.capture.specs.Spoken.{telling};
ghost use Rattle.show_line.specs.Shown.{line_with, shown, text_size};

use capture::{FRAME_SIZE, Frame};
use carry_event::Answer;
use server::{JOBS, JobRow, OUTPUT_SIZE, TABLE_SIZE};
use show_table::{GONE_ROOM, JOBS_ROOM, SLEEPERS_ROOM};

// Room for what any line says.
pub const TEXT_SIZE: usize = 14 * OUTPUT_SIZE
    + 1314
    + 47
    + (SLEEPERS_ROOM + GONE_ROOM + JOBS_ROOM)
    + 1;

// The jobs' rows in a table. One that is too short for a table has free ones: no call takes it, and nothing is said of its jobs.
fn rows_in(table: &[u8]) -> [JobRow; JOBS]
    ensures { table_size connection_count ≤ length table.now → result ≡ rows_of (table_of connection_count table.now) }
{
    if table.len() < TABLE_SIZE {
        return [server::no_row(); JOBS];
    }
    table_rows::read_rows(table)
}

// Lays all that is said of a line, with the rows before it and the table after it.
fn put_line(
    text: &mut [u8],
    number: u32,
    frame: Option<Frame>,
    bytes: &[u8; FRAME_SIZE],
    before: [JobRow; JOBS],
    table: &[u8],
    sent: &[u8],
    outcome: u8,
) -> usize
    requires { Bounded frame × Packed sent.now
        × ((outcome ≡ 1 → ⊥) → (outcome ≡ 16 → ⊥) → (table_size connection_count ≤ length table.now) × (hub_named (table_of connection_count table.now) ≡ true))
        × (length sent.now ≤ output_size connection_count) × (text_size ≤ length text.old) }
    ensures { (result ≡ 0 + length (line_with number (event_of frame bytes.now) (packets_in sent.now) outcome before (table_of connection_count table.now)))
        × (text.new ≡ put 0 (line_with number (event_of frame bytes.now) (packets_in sent.now) outcome before (table_of connection_count table.now)) text.old) }
{
    let answer = show_parts::put_heading(text, number, frame, bytes);
    let standing = show_parts::put_answer(text, answer, sent, outcome);
    let end = show_parts::put_table(text, standing, before, table, frame, bytes, sent, outcome);
    octets::put(text, end, b"\n")
}

// One line of a capture, without its line end: lays what is shown of it over the start of the text, and returns how long that is.
// Nothing is said, and nothing changed, where the text has less room than `TEXT_SIZE` bytes.
pub fn step(
    table: &mut [u8],
    workloads: &mut [u8],
    output: &mut [u8],
    text: &mut [u8],
    number: u32,
    line: &[u8],
) -> usize
    ensures { telling result text.new output.new table.new workloads.new
        ≡ shown number line.now table.old workloads.old output.old text.old }
{
    if text.len() < TEXT_SIZE {
        return 0;
    }
    let mut bytes = [0u8; FRAME_SIZE];
    let frame = capture::read_frame(line, &mut bytes);
    let before = rows_in(table);
    let answer: Answer = capture::answer_frame(table, workloads, output, frame, &bytes);
    let length = answer.length;
    put_line(
        text,
        number,
        frame,
        &bytes,
        before,
        table,
        &output[..length],
        answer.number,
    )
}
