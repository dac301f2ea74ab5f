// Byte strings: compared, searched for their first zero byte, laid over a lent buffer; big-endian numbers of four bytes.
// An inner crate: `put` and `number_at` ask their callers that the place lies inside the buffer, and the rest refuse nothing.
#![tactic(auto)]

ghost use Rattle.std.specs.Prelude.{◌≡◌, ◌+◌, ◌≤◌, ◌<◌, length};
ghost use Rattle.octets.specs.Bytes.{big_endian, every, first_zero, number_at, same, starts_with, within};
ghost use Rattle.octets.specs.Put.{put};

// A byte as a wider number.
pub fn wide(x: u8) -> u32
    ensures { (result ≡ x) × (result < 256) }
{
    u32::from(x)
}

// Four bytes from `at` on as a number, the highest byte first.
pub fn number_at(s: &[u8], at: usize) -> u32
    requires { at + 4 ≤ length s.now }
    ensures { result ≡ number_at s.now at }
{
    u32::from_be_bytes([s[at], s[at + 1], s[at + 2], s[at + 3]])
}

// A number in four bytes, the highest first.
pub fn big_endian(x: u32) -> [u8; 4]
    ensures { result ≡ big_endian x }
{
    x.to_be_bytes()
}

// Whether `s` begins with `prefix`.
pub fn starts_with(s: &[u8], prefix: &[u8]) -> bool
    ensures { result ≡ starts_with s.now prefix.now }
{
    s.starts_with(prefix)
}

// Whether the two strings are equal.
pub fn equal(s: &[u8], t: &[u8]) -> bool
    ensures { result ≡ same s.now t.now }
{
    s == t
}

// Where the first zero byte stands, or the length.
pub fn first_zero(s: &[u8]) -> usize
    ensures { (result ≡ first_zero s.now) × (result ≤ length s.now) }
{
    for i in 0..s.len() {
        if s[i] == 0 {
            return i;
        }
    }
    s.len()
}

// Whether each byte lies between `low` and `high`, both included.
pub fn all_within(s: &[u8], low: u8, high: u8) -> bool
    ensures { result ≡ every (within low high) s.now }
{
    for byte in s {
        let x = *byte;
        if x < low {
            return false;
        }
        if high < x {
            return false;
        }
    }
    true
}

// Lays `source` over `out` from `at` on, and returns the place after it.
pub fn put(out: &mut [u8], at: usize, source: &[u8]) -> usize
    requires { at + length source.now ≤ length out.old }
    ensures { (result ≡ at + length source.now) × (out.new ≡ put at source.now out.old) }
{
    for i in 0..source.len() {
        out[at + i] = source[i];
    }
    at + source.len()
}
