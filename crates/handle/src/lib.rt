// The names of hubs, and the handles of jobs: `H:`, the name of the hub, `:` and a serial in decimal, with no leading zero. A text that is
// no serial's handle at this hub is `None`. An inner crate: `handle_of` asks its callers for a hub's name.
#![tactic(auto)]

ghost use Rattle.std.specs.Prelude.{◌≡◌, true, ◌+◌, ◌≤◌, ◌<◌, length};
ghost use Rattle.octets.specs.Bytes.{starts_with};
ghost use Rattle.octets.specs.Put.{put};
ghost use Rattle.handle.specs.Handle.{decimal_in, handle, is_hub_byte, is_hub_name, number_of, prefix, printed, serial_of};

// The most bytes of a hub's name, and of a handle: three beside the name, and ten digits.
pub const HUB_MOST: usize = 15;

pub const HANDLE_MOST: usize = 13 + HUB_MOST;

// A handle's text, followed by zeros, and its length.
#[derive(Clone, Copy)]
pub struct Handle {
    pub text: [u8; HANDLE_MOST],
    pub length: usize,
}

// How many digits a number has in decimal, or `most` if it has more.
fn count_digits(number: u32, most: usize) -> usize
    ensures { (result ≡ length (decimal_in most number)) × (result ≤ most) }
{
    let mut left = number;
    for count in 0..most {
        if left < 10 {
            return count + 1;
        }
        left /= 10;
    }
    most
}

// Lays a number in decimal, in at most `most` digits, over `out` from `at` on, the last digit first, and returns the place after it.
pub fn put_digits(out: &mut [u8], at: usize, number: u32, most: usize) -> usize
    requires { at + most ≤ length out.old }
    ensures { (result ≡ at + length (decimal_in most number)) × (result ≤ at + most) × (out.new ≡ put at (decimal_in most number) out.old) }
{
    let count = count_digits(number, most);
    let mut left = number;
    for i in (0..count).rev() {
        out[at + i] = (left % 10 + 48) as u8;
        left /= 10;
    }
    at + count
}

// Whether the byte may stand in a hub's name.
fn is_hub_byte(x: u8) -> bool
    ensures { result ≡ is_hub_byte x }
{
    matches!(x, b'0'..=b'9' | b'a'..=b'z')
}

// Whether the text is a hub's name.
pub fn is_hub_name(name: &[u8]) -> bool
    ensures { result ≡ is_hub_name name.now }
{
    if name.is_empty() || HUB_MOST < name.len() {
        return false;
    }
    name.iter().all(|x| is_hub_byte(*x))
}

// The handle of a serial at the hub of this name.
pub fn handle_of(hub: &[u8], serial: u32) -> Handle
    requires { is_hub_name hub.now ≡ true }
    ensures { result ≡ printed (handle hub.now serial) }
{
    let mut text: [u8; HANDLE_MOST] = [0; HANDLE_MOST];
    let name = octets::put(&mut text, 0, b"H:");
    let colon = octets::put(&mut text, name, hub);
    let digits = octets::put(&mut text, colon, b":");
    let length = put_digits(&mut text, digits, serial, 10);
    Handle { text, length }
}

// The number that at most ten digits make; none, if a byte is no digit.
fn number_of(digits: &[u8]) -> Option<u64>
    requires { length digits.now ≤ 10 }
    ensures { result ≡ number_of digits.now }
{
    let mut number: u64 = 0;
    for x in digits {
        let digit = match *x {
            b'0'..=b'9' => *x - 48,
            _ => return None,
        };
        number = number * 10 + u64::from(digit);
    }
    Some(number)
}

// Whether the text begins with `H:`, the hub's name and `:`, compared where it lies. `digits` is where the serial would begin.
fn names_hub(hub: &[u8], text: &[u8], digits: usize) -> bool
    requires { (digits ≡ 3 + length hub.now) × (digits < length text.now) }
    ensures { result ≡ starts_with text.now (prefix hub.now) }
{
    if !octets::starts_with(text, b"H:") {
        return false;
    }
    if text[digits - 1] != b':' {
        return false;
    }
    octets::starts_with(&text[2..], hub)
}

// The serial of which the text is the handle at the hub of this name: behind the prefix one to ten digits, the first not `0`.
pub fn serial_of(hub: &[u8], text: &[u8]) -> Option<u32>
    ensures { result ≡ serial_of hub.now text.now }
{
    let digits = 3 + hub.len();
    if text.len() < digits + 1 {
        return None;
    }
    if digits + 10 < text.len() {
        return None;
    }
    if !names_hub(hub, text, digits) {
        return None;
    }
    if text[digits] == b'0' {
        return None;
    }
    let number = number_of(&text[digits..])?;
    u32::try_from(number).ok()
}
