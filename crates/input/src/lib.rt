// A lent reader, standard input in the programs, line by line, in two buffers that the caller lends: one for the chunk that was read
// last, one for the line. No contract can say what is read; the lines themselves are made by the crate `lines`.
#![tactic(auto)]

ghost use Rattle.std.specs.Prelude.{◌≡◌};
ghost use Rattle.input.specs.Reading.{has_line, start};

use lines::Line;
use std::io::Read;

// How long a chunk the programs lend.
pub const CHUNK_SIZE: usize = 4096;

// Where reading stands: the line under way, the next place in the chunk and the chunk's end, whether the input is over, and whether
// that is because reading failed. Two flags and no enum of three: `has_line` has an answer for each pair of them.
#[derive(Clone, Copy)]
pub struct Input {
    pub line: Line,
    pub at: usize,
    pub end: usize,
    pub over: bool,
    pub failed: bool,
}

// Nothing is read yet.
pub fn start() -> Input
    ensures { result ≡ start }
{
    Input {
        line: lines::fresh(),
        at: 0,
        end: 0,
        over: false,
        failed: false,
    }
}

// After a line that has ended, the next one.
fn begun(input: Input) -> Input {
    Input {
        line: lines::begun(input.line),
        ..input
    }
}

// Feeds the chunk's bytes to a line, until the line or the chunk ends. The next call goes on where this one stopped, so the place is
// counted by hand: a `for` would lose it.
fn fed(input: Input, chunk: &[u8], buffer: &mut [u8]) -> Input {
    let bytes = lines::front(chunk, input.end);
    let mut line = input.line;
    let mut at = input.at;
    while at < bytes.len() && !line.ended {
        line = lines::fed(line, buffer, bytes[at]);
        at += 1;
    }
    Input { line, at, ..input }
}

// Where reading stands after a chunk: the input is over where nothing comes.
fn filled(input: Input, count: usize) -> Input {
    Input {
        at: 0,
        end: count,
        over: count == 0,
        failed: false,
        ..input
    }
}

// Where reading stands once it has failed: the input is over.
fn broken(input: Input) -> Input {
    Input {
        at: 0,
        end: 0,
        over: true,
        failed: true,
        ..input
    }
}

// Reads a chunk. The input is over where nothing comes, or reading fails.
fn refilled<R: Read>(reader: &mut R, input: Input, chunk: &mut [u8]) -> Input {
    match reader.read(chunk) {
        Ok(count) => filled(input, count),
        Err(_) => broken(input),
    }
}

// Goes on to the end of the next line, or of the input. Nothing says that the input ends, so the chunks are counted to a number that no
// run reaches.
pub fn next<R: Read>(reader: &mut R, input: Input, chunk: &mut [u8], buffer: &mut [u8]) -> Input {
    let mut now = begun(input);
    for _ in 0..u64::MAX {
        now = fed(now, chunk, buffer);
        if has_line(now) {
            return now;
        }
        now = refilled(reader, now, chunk);
        if now.over {
            return now;
        }
    }
    now
}

// Whether a line has come: its line feed, or some of it where the input is over. What came of a line before reading failed is none.
#[tactic(auto, unfolding(crate::specs::Reading::has_line))]
pub fn has_line(input: Input) -> bool
    ensures { result ≡ has_line input }
{
    let line = input.line;
    if input.failed {
        return false;
    }
    if input.over {
        return lines::is_open(line);
    }
    line.ended
}
