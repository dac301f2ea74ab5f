// Lines of a text that is read byte by byte, in a buffer that the caller lends. A line longer than the buffer is remembered as too
// long, and what does not fit is dropped; the line feed is no part of a line. No function refuses anything.
#![tactic(auto)]

ghost use Rattle.std.specs.Prelude.{◌≡◌, take};
ghost use Rattle.lines.specs.Lines.{begun, fed, fresh, is_open};

// A line so far: how many of its bytes stand in the buffer, whether it has more of them, and whether its line feed has come. The two flags
// are independent: each of their four pairs occurs, so that no enum says less.
#[derive(Clone, Copy)]
pub struct Line {
    pub length: usize,
    pub overlong: bool,
    pub ended: bool,
}

// A line of which nothing has come.
pub fn fresh() -> Line
    ensures { result ≡ fresh }
{
    Line {
        length: 0,
        overlong: false,
        ended: false,
    }
}

// The line that the next byte belongs to: after a line feed, a fresh one.
#[tactic(auto, unfolding(crate::specs::Lines::begun))]
pub fn begun(line: Line) -> Line
    ensures { result ≡ begun line }
{
    if line.ended {
        return fresh();
    }
    line
}

// The line after one byte more, which goes into the buffer where it fits.
#[tactic(auto, unfolding(crate::specs::Lines::fed, crate::specs::Lines::added))]
pub fn fed(line: Line, buffer: &mut [u8], byte: u8) -> Line
    ensures { record { line = result; buffer = buffer.new } ≡ fed line buffer.old byte }
{
    let held = begun(line);
    if byte == 10 {
        return Line {
            ended: true,
            ..held
        };
    }
    let at = held.length;
    if at < buffer.len() {
        buffer[at] = byte;
        return Line {
            length: at + 1,
            ended: false,
            ..held
        };
    }
    Line {
        overlong: true,
        ended: false,
        ..held
    }
}

// The first `n` bytes; all of them, where there are fewer.
pub fn front(s: &[u8], n: usize) -> &[u8]
    ensures { result.now ≡ take n s.now }
{
    &s[..n.min(s.len())]
}

// The bytes of a line that stand in the buffer.
pub fn text(line: Line, buffer: &[u8]) -> &[u8]
    ensures { result.now ≡ take line.length buffer.now }
{
    front(buffer, line.length)
}

// Whether there is a line without a line feed, once the text has ended: one byte of it at least has come.
#[tactic(auto, unfolding(crate::specs::Lines::is_open))]
pub fn is_open(line: Line) -> bool
    ensures { result ≡ is_open line }
{
    let held = begun(line);
    0 < held.length || held.overlong
}
