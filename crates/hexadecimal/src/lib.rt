// Lowercase hexadecimal, two digits a byte: the bytes that digits spell, laid over the start of a lent buffer, and the digits of
// bytes. `read_hex` refuses nothing it is lent; `put_hex` asks its caller that there is room.
#![tactic(auto)]

ghost use Rattle.std.specs.Prelude.{◌≡◌, true, ◌+◌, ◌*◌, ◌<◌, ◌≤◌, get_or, length};
ghost use Rattle.octets.specs.Bytes.{every};
ghost use Rattle.octets.specs.Put.{put};
ghost use Rattle.hexadecimal.specs.Hex.{hex, hex_byte, hex_digit};
ghost use Rattle.hexadecimal.specs.Spelling.{digit_of, is_digit, pairs, spelling};

// What a digit stands for, where the byte is one.
fn digit_value(x: u8) -> Option<u8>
    ensures { result ≡ digit_of x }
{
    match x {
        b'0'..=b'9' => Some(x - 48),
        b'a'..=b'f' => Some(x - 87),
        _ => None,
    }
}

// Whether each byte is a digit.
fn all_digits(digits: &[u8]) -> bool
    ensures { result ≡ every is_digit digits.now }
{
    digits.iter().all(|x| digit_value(*x).is_some())
}

// The byte of two digits.
fn pair_value(high: u8, low: u8) -> u8
    requires { (high ≤ 15) × (low ≤ 15) }
    ensures { result ≡ high * 16 + low }
{
    high * 16 + low
}

// Byte `i` of those that the digits spell.
fn byte_at(digits: &[u8], i: usize) -> u8
    requires { (2 * i + 1 < length digits.now) × (every is_digit digits.now ≡ true) }
    ensures { result ≡ get_or (pairs digits.now) i 0 }
{
    let high = digit_value(digits[2 * i]).unwrap_or(0);
    let low = digit_value(digits[2 * i + 1]).unwrap_or(0);
    pair_value(high, low)
}

// Lays the `count` bytes that the digits spell over the start of `out`.
fn put_pairs(out: &mut [u8], digits: &[u8], count: usize)
    requires { (length digits.now ≡ 2 * count) × (count ≤ length out.old) × (every is_digit digits.now ≡ true) }
    ensures { out.new ≡ put 0 (pairs digits.now) out.old }
{
    for i in 0..count {
        out[i] = byte_at(digits, i);
    }
}

// Lays the bytes that the digits spell over the start of `out`, and answers how many they are. None, and nothing is written, where the
// digits are odd in number, one of them is no lowercase hexadecimal digit, or they spell more bytes than `out` holds.
pub fn read_hex(digits: &[u8], out: &mut [u8]) -> Option<usize>
    ensures { record { answer = result; output = out.new } ≡ spelling digits.now out.old }
{
    if digits.len() % 2 != 0 {
        return None;
    }
    if !all_digits(digits) {
        return None;
    }
    let count = digits.len() / 2;
    if out.len() < count {
        return None;
    }
    put_pairs(out, digits, count);
    Some(count)
}

// The digit of a number below 16.
fn hex_digit(n: u8) -> u8
    requires { n ≤ 15 }
    ensures { result ≡ hex_digit n }
{
    match n {
        0..=9 => n + 48,
        _ => n + 87,
    }
}

// A byte in two digits, the high one first.
pub fn hex_byte(x: u8) -> [u8; 2]
    ensures { result ≡ hex_byte x }
{
    [hex_digit(x / 16), hex_digit(x % 16)]
}

// Lays the digits of `bytes` over `out` from `at` on, and returns the place after them.
pub fn put_hex(out: &mut [u8], at: usize, bytes: &[u8]) -> usize
    requires { at + length (hex bytes.now) ≤ length out.old }
    ensures { (result ≡ at + length (hex bytes.now)) × (out.new ≡ put at (hex bytes.now) out.old) }
{
    let mut place = at;
    for x in bytes {
        place = octets::put(out, place, &hex_byte(*x));
    }
    place
}
