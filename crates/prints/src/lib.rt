// What every text for people is made of: a number in decimal, and a text that a client chose with `?` for what is no visible character,
// laid over a lent text; and the laws of runs that are laid piece by piece. Each function that lays returns the place after what it laid.
// An inner crate: its callers see to the room, and nothing is refused.
#![tactic(auto)]

ghost use Rattle.std.specs.Prelude.{◌≡◌, ◌+◌, ◌≤◌, length};
ghost use Rattle.octets.specs.Put.{put};
ghost use Rattle.handle.specs.Handle.{decimal};
ghost use Rattle.prints.specs.Printed.{printed, printed_byte, printed_or};

// Lays a number in decimal, with no leading zero.
pub fn put_number(out: &mut [u8], at: usize, number: u32) -> usize
    requires { at + length (decimal number) ≤ length out.old }
    ensures { (result ≡ at + length (decimal number)) × (out.new ≡ put at (decimal number) out.old) }
{
    let mut digits: [u8; 10] = [0; 10];
    let count = handle::put_digits(&mut digits, 0, number, 10);
    octets::put(out, at, &digits[..count])
}

// What is printed of a byte: `?`, if it lies outside 33 to 126.
fn printed_byte(x: u8) -> u8
    ensures { result ≡ printed_byte x }
{
    match x {
        33..=126 => x,
        _ => b'?',
    }
}

// Lays a text as it is printed.
pub fn put_printed(out: &mut [u8], at: usize, text: &[u8]) -> usize
    requires { at + length (printed text.now) ≤ length out.old }
    ensures { (result ≡ at + length (printed text.now)) × (out.new ≡ put at (printed text.now) out.old) }
{
    for (i, x) in text.iter().enumerate() {
        out[at + i] = printed_byte(*x);
    }
    at + text.len()
}

// Lays a text as it is printed, or what stands for the empty one.
pub fn put_printed_or(out: &mut [u8], at: usize, none: &[u8], text: &[u8]) -> usize
    requires { at + length (printed_or none.now text.now) ≤ length out.old }
    ensures { (result ≡ at + length (printed_or none.now text.now))
        × (out.new ≡ put at (printed_or none.now text.now) out.old) }
{
    if text.is_empty() {
        return octets::put(out, at, none);
    }
    put_printed(out, at, text)
}
