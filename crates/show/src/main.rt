// Shows a capture in words: reads standard input line by line, each line one frame in lowercase hexadecimal, calls the job server, and
// writes under the number of each line what it says, what the server answered, and how the table stands. docs/SHOW.md has the layout.
// What is shown of a line is made by the crate `show_line`, and written before the next line is read. Where reading or writing fails the
// program says so on standard error and ends. One argument is the hub's name, which is `lap` without it. Started with more, or with one that
// is no hub's name, the program says how it is used, and reads nothing.
#![tactic(auto)]

use capture_program::{Failure, LINE_SIZE, Words};
use input::CHUNK_SIZE;
use server::OUTPUT_SIZE;
use show_line::TEXT_SIZE;
use std::io::Write;

// Numbers each line and writes what is shown of it. The number stops at the last that one can hold. Of a line too long for a frame the
// buffer holds enough to show that.
fn show_all(rt: HostRuntime, table: &mut [u8], workloads: &mut [u8]) -> Result<(), Failure> {
    let mut reader = rt.stdin();
    let mut writer = rt.stdout();
    let mut output = [0u8; OUTPUT_SIZE];
    let mut text = [0u8; TEXT_SIZE];
    let mut chunk = [0u8; CHUNK_SIZE];
    let mut buffer = [0u8; LINE_SIZE];
    let mut number = 0u32;
    capture_program::follow(
        &mut reader,
        input::start(),
        &mut chunk,
        &mut buffer,
        |line: &[u8]| {
            number = number.saturating_add(1);
            let end = show_line::step(table, workloads, &mut output, &mut text, number, line);
            capture_program::put_out(&mut writer, lines::front(&text, end))
        },
    )
}

fn main(rt: HostRuntime) {
    let words = Words {
        usage: b"usage: show [HUB] < CAPTURE\n",
        explanation: b"show reads lines of a capture from standard input and prints what each says and what the server answers, in words. HUB is the name of the hub, 1 to 15 lowercase letters and digits; without it the name is lap.\n",
        unread: b"show: standard input could not be read\n",
        unwritten: b"show: standard output could not be written\n",
    };
    capture_program::start(rt, words, |table: &mut [u8], workloads: &mut [u8]| {
        show_all(rt, table, workloads)
    });
}
