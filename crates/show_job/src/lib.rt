// Which job of a hub a packet concerns, by its handle: the handle that stands in the packet itself, or else the one in the first packet
// that the server sent. A packet that is refused, and a text that is no handle at the hub of this name, name no job. An inner crate.
#![tactic(auto)]

ghost use Rattle.std.specs.Prelude.{◌≡◌};
ghost use Rattle.packet.specs.Packet.{direction_of, responses};
ghost use Rattle.packet.specs.Answers.{argument_at};
ghost use Rattle.capture.specs.Packets.{Packed, packets_in};
ghost use Rattle.show_job.specs.Concerned.{concerned, first_sent, handle_in, job_named, names_job};

use packet::{Ends, Packet, Shape, Side};

// Whether the first argument of a shape is a handle.
fn names_job(shape: Shape) -> bool
    ensures { result ≡ names_job shape }
{
    match shape {
        Shape::WorkStatus
        | Shape::WorkData
        | Shape::Handle
        | Shape::Assignment
        | Shape::UniqueAssignment
        | Shape::StatusAnswer => true,
        _ => false,
    }
}

// The serial whose handle is the first argument of a packet that was read, if its shape begins with a handle.
fn handle_in(hub: &[u8], shape: Shape, packet: &[u8], ends: Ends) -> Option<u32>
    ensures { result ≡ handle_in hub.now shape (argument_at packet.now ends 0) }
{
    if !names_job(shape) {
        return None;
    }
    handle::serial_of(hub, packet_read::argument(packet, ends, 0))
}

// The serial that a packet of one side names: a request, or a response.
fn job_named(hub: &[u8], packet: &[u8], side: Side) -> Option<u32>
    ensures { result ≡ job_named hub.now (direction_of side) packet.now }
{
    match packet_read::read_side(packet, side) {
        Err(_) => None,
        Ok(Packet { kind, ends }) => {
            handle_in(hub, packet_kinds::shape_of(kind, side), packet, ends)
        }
    }
}

// The serial that the first of the addressed packets names; none, where nothing was sent.
fn sent_first(hub: &[u8], sent: &[u8]) -> Option<u32>
    requires { Packed sent.now }
    ensures { result ≡ job_named hub.now responses (first_sent (packets_in sent.now)) }
{
    if sent.len() == 0 {
        return None;
    }
    let length = capture::packet_length(sent);
    job_named(hub, &sent[1..length], Side::Response)
}

// The serial that the packet which came concerns at the hub of this name, with the addressed packets that were sent.
pub fn concerned(hub: &[u8], packet: &[u8], sent: &[u8]) -> Option<u32>
    requires { Packed sent.now }
    ensures { result ≡ concerned hub.now packet.now (packets_in sent.now) }
{
    let own = job_named(hub, packet, Side::Request);
    match own {
        Some(serial) => Some(serial),
        None => sent_first(hub, sent),
    }
}
