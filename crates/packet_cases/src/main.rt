// Reads standard input line by line, each line one call of the packet writer, and writes a line for each: the number and the length
// that the writer answers, whether it touched a byte that it must not, and whether what it wrote is read back.
//
// A line is `q KIND COUNT L1 L2 L3 L4 L5 FILL ROOM` for a request and `s ...` for a response: the type, how many arguments there
// are, the length of each of five, the byte that they are filled with, and the length of the output; each length at most 4,096.
#![tactic(auto)]

mod case;
mod parse;

use case::{Back, Outcome};
use input::CHUNK_SIZE;

// Writes how reading back went. What cannot be written is left out.
fn print_back(rt: HostRuntime, back: Back) {
    match back {
        Back::Nothing => {}
        Back::Same => {
            let _ = print!(rt; " reads back").is_ok();
        }
        Back::Differs => {
            let _ = print!(rt; " reads differently").is_ok();
        }
        Back::Refused(refusal) => {
            let number = refusal.number();
            let _ = print!(rt; " refused {number}").is_ok();
        }
    }
}

// Writes what a call answered.
fn print_outcome(rt: HostRuntime, outcome: Outcome) {
    let kind = outcome.kind;
    let number = outcome.number;
    let length = outcome.length;
    let _ = print!(rt; "{kind} -> number {number} length {length}").is_ok();
    if outcome.touched {
        let _ = print!(rt; " touched").is_ok();
    }
    let back = outcome.back;
    print_back(rt, back);
    let _ = println!(rt; "").is_ok();
}

// The lines are counted to a number that no run reaches: a proved loop has to end, and nothing says that the input does.
fn print_all(rt: HostRuntime, chunk: &mut [u8], buffer: &mut [u8]) {
    let mut reader = rt.stdin();
    let mut now = input::start();
    for _ in 0..u64::MAX {
        if now.over {
            break;
        }
        now = input::next(&mut reader, now, chunk, buffer);
        if input::has_line(now) {
            print_outcome(
                rt,
                case::outcome_of(parse::case_of(lines::text(now.line, buffer))),
            );
        }
    }
}

fn main(rt: HostRuntime) {
    let mut chunk = [0u8; CHUNK_SIZE];
    let mut buffer = [0u8; 200];
    print_all(rt, &mut chunk, &mut buffer);
}
