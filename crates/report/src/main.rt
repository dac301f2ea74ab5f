// The report: reads standard input line by line, the first line a text command and each other line one frame in lowercase hexadecimal, calls
// the job server for each frame, and writes at the end of the input what the command would be answered then. The answer is made by the
// crate `report_line`. Input without any line writes nothing. Where reading or writing fails the program says so on standard error and
// ends; where reading fails there is no answer. One argument is the hub's name, which is `lap` without it. Started with more, or with one
// that is no hub's name, the program says how it is used, and reads nothing.
#![tactic(auto)]

use capture_program::{Failure, LINE_SIZE, Words};
use input::CHUNK_SIZE;
use report_line::TEXT_SIZE;
use server::OUTPUT_SIZE;
use std::io::Write;

// The first line stands in a buffer of its own until the others are read. Of a line too long for a frame the buffer holds enough to show
// that.
fn report_all(rt: HostRuntime, table: &mut [u8], workloads: &mut [u8]) -> Result<(), Failure> {
    let mut reader = rt.stdin();
    let mut output = [0u8; OUTPUT_SIZE];
    let mut chunk = [0u8; CHUNK_SIZE];
    let mut command = [0u8; LINE_SIZE];
    let mut buffer = [0u8; LINE_SIZE];
    let first = input::next(&mut reader, input::start(), &mut chunk, &mut command);
    capture_program::follow(&mut reader, first, &mut chunk, &mut buffer, |line: &[u8]| {
        report_line::step(table, workloads, &mut output, line);
        Ok(())
    })?;
    if !input::has_line(first) {
        return Ok(());
    }
    let mut text = [0u8; TEXT_SIZE];
    let end = report_line::put_report(&mut text, table, lines::text(first.line, &command));
    capture_program::put_out(&mut rt.stdout(), lines::front(&text, end))
}

fn main(rt: HostRuntime) {
    let words = Words {
        usage: b"usage: report [HUB] < COMMAND_AND_CAPTURE\n",
        explanation: b"report reads a text command and then lines of a capture from standard input, and prints what the server would answer to the command after them. HUB is the name of the hub, 1 to 15 lowercase letters and digits; without it the name is lap.\n",
        unread: b"report: standard input could not be read\n",
        unwritten: b"report: standard output could not be written\n",
    };
    capture_program::start(rt, words, |table: &mut [u8], workloads: &mut [u8]| {
        report_all(rt, table, workloads)
    });
}
