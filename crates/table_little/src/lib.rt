// Numbers in lent bytes, little-endian: of four bytes and of two, read and laid. An inner crate: each function asks its callers that
// the place lies inside the bytes, and refuses nothing.
#![tactic(auto)]

ghost use Rattle.std.specs.Prelude.{◌≡◌, ◌+◌, ◌≤◌, length};
ghost use Rattle.octets.specs.Put.{put};
ghost use Rattle.server.specs.Layout.{little, little_at};

// A number in four bytes, the lowest first.
pub fn number4(b: &[u8], at: usize) -> u32
    requires { at + 4 ≤ length b.now }
    ensures { result ≡ little_at 4 b.now at }
{
    u32::from_le_bytes([b[at], b[at + 1], b[at + 2], b[at + 3]])
}

// A number in two bytes, the lowest first.
pub fn number2(b: &[u8], at: usize) -> u16
    requires { at + 2 ≤ length b.now }
    ensures { result ≡ little_at 2 b.now at }
{
    u16::from_le_bytes([b[at], b[at + 1]])
}

// Lays a number in four bytes over `b` from `at` on.
pub fn put4(b: &mut [u8], at: usize, x: u32)
    requires { at + 4 ≤ length b.old }
    ensures { b.new ≡ put at (little 4 x) b.old }
{
    let four = x.to_le_bytes();
    octets::put(b, at, &four);
}

// Lays a number in two bytes over `b` from `at` on.
pub fn put2(b: &mut [u8], at: usize, x: u16)
    requires { at + 2 ≤ length b.old }
    ensures { b.new ≡ put at (little 2 x) b.old }
{
    let two = x.to_le_bytes();
    octets::put(b, at, &two);
}
