// Packets in words, laid over a lent text: a request or a response as one line in the protocol's names. An opaque argument is
// shown by its length alone. Each function returns the place after what it laid. An inner crate: its callers see to the room.
#![tactic(auto)]

ghost use Rattle.std.specs.Prelude.{◌≡◌, ◌+◌, ◌≤◌, ◌<◌, ◌^◌, length};
ghost use Rattle.octets.specs.Bytes.{number_at};
ghost use Rattle.octets.specs.Put.{put};
ghost use Rattle.packet.specs.Layout.{rules_of};
ghost use Rattle.packet.specs.Answers.{argument_at};
ghost use Rattle.show_packet.specs.Lines.{argument_text, argument_texts, arrow, label_before, packet_text, refusal_text, refused_text, request_line, response_line, side_line, sized, unreadable_text, value_of};

use packet::{Ends, Packet, Rule, Shape, Side};

// Lays how many bytes an opaque argument has.
fn put_size(out: &mut [u8], at: usize, count: usize) -> usize
    requires { (count < 2 ^ 32) × (at + length (sized count) ≤ length out.old) }
    ensures { (result ≡ at + length (sized count)) × (out.new ≡ put at (sized count) out.old) }
{
    let place = prints::put_number(out, at, count as u32);
    if count == 1 {
        return octets::put(out, place, b" byte");
    }
    octets::put(out, place, b" bytes")
}

// Lays an argument by its rule.
fn put_value(out: &mut [u8], at: usize, rule: Rule, a: &[u8]) -> usize
    requires { (length a.now < 2 ^ 32) × (at + length (value_of rule a.now) ≤ length out.old) }
    ensures { (result ≡ at + length (value_of rule a.now)) × (out.new ≡ put at (value_of rule a.now) out.old) }
{
    match rule {
        Rule::Opaque => put_size(out, at, a.len()),
        _ => prints::put_printed_or(out, at, b"\"\"", a),
    }
}

// Lays the label of an argument and a space, if the shape has more arguments than one.
fn put_label_before(out: &mut [u8], at: usize, shape: Shape, i: usize) -> usize
    requires { at + length (label_before shape i) ≤ length out.old }
    ensures { (result ≡ at + length (label_before shape i)) × (out.new ≡ put at (label_before shape i) out.old) }
{
    if packet_kinds::count_of(shape) == 1 {
        return at;
    }
    let place = show_names::put_label(out, at, shape, i);
    octets::put(out, place, b" ")
}

// Lays argument `i` of a shape, after a space.
fn put_argument(out: &mut [u8], at: usize, shape: Shape, i: usize, a: &[u8]) -> usize
    requires { (length a.now < 2 ^ 32) × (at + length (argument_text shape i a.now) ≤ length out.old) }
    ensures { (result ≡ at + length (argument_text shape i a.now)) × (out.new ≡ put at (argument_text shape i a.now) out.old) }
{
    let label = octets::put(out, at, b" ");
    let value = put_label_before(out, label, shape, i);
    put_value(out, value, packet_kinds::rule_of(shape, i), a)
}

// Lays the arguments of a packet that was read.
fn put_arguments(out: &mut [u8], at: usize, shape: Shape, packet: &[u8], ends: Ends) -> usize
    requires { (length packet.now < 2 ^ 32) × (at + length (argument_texts shape (argument_at packet.now ends) (length (rules_of shape))) ≤ length out.old) }
    ensures { (result ≡ at + length (argument_texts shape (argument_at packet.now ends) (length (rules_of shape)))) × (out.new ≡ put at (argument_texts shape (argument_at packet.now ends) (length (rules_of shape))) out.old) }
{
    let count = packet_kinds::count_of(shape);
    let mut place = at;
    for i in 0..count {
        let a = packet_read::argument(packet, ends, i);
        place = put_argument(out, place, shape, i, a);
    }
    place
}

// Lays a packet that was read: the name of its type, and its arguments.
fn put_packet(
    out: &mut [u8],
    at: usize,
    kind: u32,
    shape: Shape,
    packet: &[u8],
    ends: Ends,
) -> usize
    requires { (length packet.now < 2 ^ 32) × (at + length (packet_text kind shape (argument_at packet.now ends)) ≤ length out.old) }
    ensures { (result ≡ at + length (packet_text kind shape (argument_at packet.now ends))) × (out.new ≡ put at (packet_text kind shape (argument_at packet.now ends)) out.old) }
{
    let place = show_names::put_name(out, at, kind);
    put_arguments(out, place, shape, packet, ends)
}

// Lays what the server answers where it refuses: the number, and the reason.
pub fn put_refusal(out: &mut [u8], at: usize, number: u8) -> usize
    requires { at + length (refusal_text number) ≤ length out.old }
    ensures { (result ≡ at + length (refusal_text number)) × (out.new ≡ put at (refusal_text number) out.old) }
{
    let digits = octets::put(out, at, b"refused ");
    let space = prints::put_number(out, digits, number as u32);
    let reason = octets::put(out, space, b" ");
    show_names::put_reason(out, reason, number)
}

// Lays why a packet cannot be read.
fn put_unreadable(out: &mut [u8], at: usize, number: u8) -> usize
    requires { at + length (unreadable_text number) ≤ length out.old }
    ensures { (result ≡ at + length (unreadable_text number)) × (out.new ≡ put at (unreadable_text number) out.old) }
{
    let place = octets::put(out, at, b"(unreadable: ");
    let end = show_names::put_reason(out, place, number);
    octets::put(out, end, b")")
}

// Lays a packet that cannot be read: the name of its type, if its header was good, and why.
fn put_refused(out: &mut [u8], at: usize, packet: &[u8], number: u8) -> usize
    requires { (9 ≤ number → 8 ≤ length packet.now) × (at + length (refused_text (number_at packet.now 4) number) ≤ length out.old) }
    ensures { (result ≡ at + length (refused_text (number_at packet.now 4) number)) × (out.new ≡ put at (refused_text (number_at packet.now 4) number) out.old) }
{
    if number < 9 {
        return put_unreadable(out, at, number);
    }
    let space = show_names::put_name(out, at, octets::number_at(packet, 4));
    let place = octets::put(out, space, b" ");
    put_unreadable(out, place, number)
}

// Lays the arrow between the connection and the packet: to the server, or from it.
fn put_arrow(out: &mut [u8], at: usize, side: Side) -> usize
    requires { at + length (arrow side) ≤ length out.old }
    ensures { (result ≡ at + length (arrow side)) × (out.new ≡ put at (arrow side) out.old) }
{
    match side {
        Side::Request => octets::put(out, at, b" -> "),
        Side::Response => octets::put(out, at, b" <- "),
    }
}

// Lays a packet of one side as a line: who sends it or to whom it goes, and what it says.
fn put_line(out: &mut [u8], at: usize, connection: u8, packet: &[u8], side: Side) -> usize
    requires { at + length (side_line side connection packet.now) ≤ length out.old }
    ensures { (result ≡ at + length (side_line side connection packet.now)) × (out.new ≡ put at (side_line side connection packet.now) out.old) }
{
    let arrow = prints::put_number(out, at, connection as u32);
    let place = put_arrow(out, arrow, side);
    match packet_read::read_side(packet, side) {
        Err(refusal) => put_refused(out, place, packet, refusal.number()),
        Ok(Packet { kind, ends }) => {
            put_packet(
                out,
                place,
                kind,
                packet_kinds::shape_of(kind, side),
                packet,
                ends,
            )
        }
    }
}

// Lays a request as a line: who sends it, and what it says.
pub fn put_request(out: &mut [u8], at: usize, connection: u8, packet: &[u8]) -> usize
    requires { at + length (request_line connection packet.now) ≤ length out.old }
    ensures { (result ≡ at + length (request_line connection packet.now)) × (out.new ≡ put at (request_line connection packet.now) out.old) }
{
    put_line(out, at, connection, packet, Side::Request)
}

// Lays a response as a line: to whom it goes, and what it says.
pub fn put_response(out: &mut [u8], at: usize, connection: u8, packet: &[u8]) -> usize
    requires { at + length (response_line connection packet.now) ≤ length out.old }
    ensures { (result ≡ at + length (response_line connection packet.now)) × (out.new ≡ put at (response_line connection packet.now) out.old) }
{
    put_line(out, at, connection, packet, Side::Response)
}
