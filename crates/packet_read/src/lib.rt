// Reads a packet: four bytes of magic, four of type, four of size, and then size bytes of arguments with a zero byte between
// each two. Refuses by 5 to 10, in number order, what is no request, or no response. Writes nothing.
#![tactic(auto)]

ghost use Rattle.std.specs.Prelude.{◌≡◌, ◌<◌, ◌^◌, length};
ghost use Rattle.packet.specs.Packet.{body, direction_of, read, requests, responses};
ghost use Rattle.packet.specs.Answers.{answer_of, argument_at, between, header_of};

use packet::{Ends, Packet, Refusal, Shape, Side};

// The type in the header of a packet of one side.
fn read_header(s: &[u8], side: Side) -> Result<u32, Refusal>
    ensures { result ≡ header_of (direction_of side).magic (direction_of side).most s.now }
{
    if s.len() < 12 {
        return Err(Refusal::Short);
    }
    if !octets::starts_with(s, side.magic()) {
        return Err(Refusal::Magic);
    }
    let size = octets::number_at(s, 8) as usize;
    if side.most() < size {
        return Err(Refusal::Size);
    }
    if s.len() != 12 + size {
        return Err(Refusal::Length);
    }
    Ok(octets::number_at(s, 4))
}

// The packet of this type and shape with this data.
fn read_body(shape: Shape, kind: u32, d: &[u8]) -> Result<Packet, Refusal>
    requires { length d.now < 2 ^ 31 }
    ensures { result ≡ answer_of (body shape kind d.now) }
{
    if !packet_kinds::is_own(shape) {
        return Err(Refusal::ForeignType);
    }
    let ends = packet_split::split(shape, d).ok_or(Refusal::Arguments)?;
    Ok(Packet { kind, ends })
}

// Reads a packet of one side.
pub fn read_side(s: &[u8], side: Side) -> Result<Packet, Refusal>
    ensures { result ≡ answer_of (read (direction_of side) s.now) }
{
    let kind = read_header(s, side)?;
    read_body(packet_kinds::shape_of(kind, side), kind, &s[12..])
}

// Reads a request.
pub fn read_request(s: &[u8]) -> Result<Packet, Refusal>
    ensures { result ≡ answer_of (read requests s.now) }
{
    read_side(s, Side::Request)
}

// Reads a response.
pub fn read_response(s: &[u8]) -> Result<Packet, Refusal>
    ensures { result ≡ answer_of (read responses s.now) }
{
    read_side(s, Side::Response)
}

// The bytes after place `before` and up to place `end`; none, if they do not lie in the packet.
fn part(s: &[u8], before: usize, end: usize) -> &[u8]
    ensures { result.now ≡ between s.now before end }
{
    if end <= before {
        return &s[..0];
    }
    if s.len() < end {
        return &s[..0];
    }
    let start = before + 1;
    &s[start..end]
}

// Argument `i` of a packet that was read, counted from 0, where it lies; empty, where there is none.
pub fn argument(s: &[u8], ends: Ends, i: usize) -> &[u8]
    ensures { result.now ≡ argument_at s.now ends i }
{
    let places = [
        11,
        ends.first,
        ends.second,
        ends.third,
        ends.fourth,
        ends.fifth,
    ];
    if 4 < i {
        return &s[..0];
    }
    let before = places[i];
    let end = places[i + 1];
    part(s, before, end)
}
