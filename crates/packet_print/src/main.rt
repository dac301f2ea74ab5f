// Reads standard input line by line, each line one packet in lowercase hexadecimal, and writes a line for each: what the packet
// reader finds, and whether the packet writer gives the same bytes back. What is said of a line is made in text.rt.
#![tactic(auto)]

mod text;

use input::CHUNK_SIZE;
use lines::Line;
use std::io::Write;

// Writes what is said of a line. What cannot be written is left out.
fn print_line<W: Write>(writer: &mut W, line: Line, buffer: &[u8]) {
    let mut out = [0u8; 8192];
    let end = text::said(&mut out, lines::text(line, buffer), line.overlong);
    let _ = writer.write_all(lines::front(&out, end)).is_ok();
}

// The lines are counted to a number that no run reaches: a proved loop has to end, and nothing says that the input does.
fn print_all(rt: HostRuntime, chunk: &mut [u8], buffer: &mut [u8]) {
    let mut reader = rt.stdin();
    let mut writer = rt.stdout();
    let mut now = input::start();
    for _ in 0..u64::MAX {
        if now.over {
            break;
        }
        now = input::next(&mut reader, now, chunk, buffer);
        if input::has_line(now) {
            print_line(&mut writer, now.line, buffer);
        }
    }
}

fn main(rt: HostRuntime) {
    let mut chunk = [0u8; CHUNK_SIZE];
    let mut buffer = [0u8; 2200];
    print_all(rt, &mut chunk, &mut buffer);
}
