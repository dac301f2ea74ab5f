// The replay: reads standard input line by line, each line one frame in lowercase hexadecimal, calls the job server, and writes the
// addressed packets of each answer one a line and then its number. What a line says is made by the crate `replay_line`, and written before
// the next line is read. Where reading or writing fails the program says so on standard error and ends. One argument is the hub's name,
// which is `lap` without it. Started with more, or with one that is no hub's name, the program says how it is used, and reads nothing.
#![tactic(auto)]

use capture_program::{Failure, LINE_SIZE, Words};
use input::CHUNK_SIZE;
use replay_line::TEXT_SIZE;
use server::OUTPUT_SIZE;
use std::io::Write;

// Replays each line and writes what it says. Of a line too long for a frame the buffer holds enough to show that.
fn replay_all(rt: HostRuntime, table: &mut [u8], workloads: &mut [u8]) -> Result<(), Failure> {
    let mut reader = rt.stdin();
    let mut writer = rt.stdout();
    let mut output = [0u8; OUTPUT_SIZE];
    let mut text = [0u8; TEXT_SIZE];
    let mut chunk = [0u8; CHUNK_SIZE];
    let mut buffer = [0u8; LINE_SIZE];
    capture_program::follow(
        &mut reader,
        input::start(),
        &mut chunk,
        &mut buffer,
        |line: &[u8]| {
            let end = replay_line::step(table, workloads, &mut output, &mut text, line);
            capture_program::put_out(&mut writer, lines::front(&text, end))
        },
    )
}

fn main(rt: HostRuntime) {
    let words = Words {
        usage: b"usage: replay [HUB] < CAPTURE\n",
        explanation: b"replay reads lines of a capture from standard input and prints what the server answers, in digits. HUB is the name of the hub, 1 to 15 lowercase letters and digits; without it the name is lap.\n",
        unread: b"replay: standard input could not be read\n",
        unwritten: b"replay: standard output could not be written\n",
    };
    capture_program::start(rt, words, |table: &mut [u8], workloads: &mut [u8]| {
        replay_all(rt, table, workloads)
    });
}
