// What is said of one line. Each function lays its part over the output from `at` on and returns the place after it; what has no
// room is left out, and the caller lends room enough.
ghost use Rattle.std.specs.Prelude.{◌≤◌};

use packet::{Packet, Side};

// Lays a text.
fn put_text(out: &mut [u8], at: usize, source: &[u8]) -> usize {
    if out.len() < at {
        return at;
    }
    if out.len() - at < source.len() {
        return at;
    }
    octets::put(out, at, source)
}

// Lays a number in decimal. By hand: `prints` stands on the server's handles, which the packet layer does without, and `write!` over a lent
// text would need a writer of its own.
fn put_number(out: &mut [u8], at: usize, n: u32) -> usize {
    let mut digits = [0u8; 10];
    let mut first = 10;
    let mut rest = n;
    for place in (0..10).rev() {
        digits[place] = b'0' + (rest % 10) as u8;
        first = place;
        rest /= 10;
        if rest == 0 {
            break;
        }
    }
    put_text(out, at, &digits[first..])
}

// Whether a byte stands for itself between quotes.
fn is_plain(x: u8) -> bool {
    x > 32 && x < 127 && x != b'"' && x != b'\\'
}

// Lays a byte of an argument: itself, or `\x` and two digits.
fn put_byte(out: &mut [u8], at: usize, x: u8) -> usize {
    if is_plain(x) {
        return put_text(out, at, &[x]);
    }
    let digits = hexadecimal::hex_byte(x);
    let next = put_text(out, at, b"\\x");
    put_text(out, next, &digits)
}

// Lays the bytes of an argument.
fn put_bytes(out: &mut [u8], at: usize, argument: &[u8]) -> usize {
    let mut next = at;
    for x in argument {
        next = put_byte(out, next, *x);
    }
    next
}

// Lays an argument in quotes, after a space.
fn put_argument(out: &mut [u8], at: usize, argument: &[u8]) -> usize {
    let start = put_text(out, at, b" \"");
    let end = put_bytes(out, start, argument);
    put_text(out, end, b"\"")
}

// How many arguments a packet has: those that end somewhere.
fn count(packet: Packet) -> usize
    ensures { result ≤ 5 }
{
    let ends = packet.ends;
    [ends.first, ends.second, ends.third, ends.fourth, ends.fifth]
        .iter()
        .position(|end| *end == 0)
        .unwrap_or(5)
}

// Lays the arguments of a packet.
fn put_arguments(out: &mut [u8], at: usize, bytes: &[u8], packet: Packet) -> usize {
    let mut next = at;
    for i in 0..count(packet) {
        next = put_argument(out, next, packet_read::argument(bytes, packet.ends, i));
    }
    next
}

// Whether the packet, written anew from its type and arguments, has the same bytes.
fn is_same(side: Side, bytes: &[u8], packet: Packet) -> bool {
    let ends = packet.ends;
    let arguments = [
        packet_read::argument(bytes, ends, 0),
        packet_read::argument(bytes, ends, 1),
        packet_read::argument(bytes, ends, 2),
        packet_read::argument(bytes, ends, 3),
        packet_read::argument(bytes, ends, 4),
    ];
    let used = &arguments[..count(packet)];
    let mut again = [0u8; 1100];
    match packet_write::write_side(&mut again, side, packet.kind, used) {
        Err(_) => false,
        Ok(length) => lines::front(&again, length) == bytes,
    }
}

// Lays the side of a packet.
fn put_side(out: &mut [u8], at: usize, side: Side) -> usize {
    match side {
        Side::Request => put_text(out, at, b"request "),
        Side::Response => put_text(out, at, b"response "),
    }
}

// Lays what a packet that was read says.
fn put_packet(out: &mut [u8], at: usize, side: Side, bytes: &[u8], packet: Packet) -> usize {
    let kind = put_side(out, at, side);
    let arguments = put_number(out, kind, packet.kind);
    let end = put_arguments(out, arguments, bytes, packet);
    if is_same(side, bytes, packet) {
        put_text(out, end, b" same")
    } else {
        put_text(out, end, b" differs")
    }
}

// Lays what the packet reader finds. A packet with the response's magic is read as a response, any other as a request.
fn put_found(out: &mut [u8], at: usize, bytes: &[u8]) -> usize {
    let side = if bytes.starts_with(Side::Response.magic()) {
        Side::Response
    } else {
        Side::Request
    };
    match packet_read::read_side(bytes, side) {
        Ok(packet) => put_packet(out, at, side, bytes, packet),
        Err(refusal) => {
            let next = put_text(out, at, b"refused ");
            put_number(out, next, u32::from(refusal.number()))
        }
    }
}

// Lays what is said of a line's digits.
fn put_line(out: &mut [u8], digits: &[u8], overlong: bool) -> usize {
    if overlong {
        return put_text(out, 0, b"not hexadecimal");
    }
    let mut packet = [0u8; 1100];
    match hexadecimal::read_hex(digits, &mut packet) {
        Some(count) => put_found(out, 0, lines::front(&packet, count)),
        None => put_text(out, 0, b"not hexadecimal"),
    }
}

// Lays what is said of a line, with a line feed, and returns the place after it.
pub fn said(out: &mut [u8], digits: &[u8], overlong: bool) -> usize {
    let end = put_line(out, digits, overlong);
    put_text(out, end, b"\n")
}
