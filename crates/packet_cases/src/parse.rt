// A line's numbers. What is no digit and no space counts as nothing, and a number that is too large as the largest.
ghost use Rattle.std.specs.Prelude.{◌≤◌, ◌<◌};

use packet::Side;

// A call of the writer: its side, the type, how many arguments, the length of each, their byte, and the output's length.
#[derive(Clone, Copy)]
pub struct Case {
    pub side: Side,
    pub kind: u32,
    pub count: usize,
    pub lengths: [usize; 5],
    pub fill: u8,
    pub room: usize,
}

// The number with one digit more.
fn with_digit(n: u64, x: u8) -> u64 {
    if !x.is_ascii_digit() || n > 1000000000 {
        return n;
    }
    n * 10 + u64::from(x - b'0')
}

// The field to which a byte belongs: a space goes on to the next.
fn field_after(k: usize, x: u8) -> usize
    requires { k < 10 }
    ensures { result < 10 }
{
    if x == b' ' && k < 9 { k + 1 } else { k }
}

// The numbers of a line's fields.
fn fields(line: &[u8]) -> [u64; 10] {
    let mut all = [0u64; 10];
    let mut k = 0;
    for x in line {
        k = field_after(k, *x);
        all[k] = with_digit(all[k], *x);
    }
    all
}

// A length: at most 4,096.
fn length_of(n: u64) -> usize
    ensures { result ≤ 4096 }
{
    n.min(4096) as usize
}

// A type.
fn kind_of(n: u64) -> u32 {
    u32::try_from(n).unwrap_or(u32::MAX)
}

// A byte.
fn byte_of(n: u64) -> u8 {
    u8::try_from(n).unwrap_or(u8::MAX)
}

// The case of a line.
pub fn case_of(line: &[u8]) -> Case {
    let f = fields(line);
    Case {
        side: if line.starts_with(b"s") {
            Side::Response
        } else {
            Side::Request
        },
        kind: kind_of(f[1]),
        count: length_of(f[2]),
        lengths: [
            length_of(f[3]),
            length_of(f[4]),
            length_of(f[5]),
            length_of(f[6]),
            length_of(f[7]),
        ],
        fill: byte_of(f[8]),
        room: length_of(f[9]),
    }
}
