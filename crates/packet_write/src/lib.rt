// Writes a packet into a lent buffer: four bytes of magic, four of type, four of size, and then the arguments with a zero byte
// between each two. Refuses, in this order, a foreign type by 9, bad arguments by 10, too much data by 7 and too short an output
// by 1; a refusal writes nothing, and nothing is written beyond the packet.
#![tactic(auto)]

ghost use Rattle.std.specs.Prelude.{◌≡◌, length, map};
ghost use Rattle.packet.specs.Arguments.{join};
ghost use Rattle.packet.specs.Packet.{direction_of, requests, responses, write_refusal};
ghost use Rattle.packet.specs.Answers.{granted, writing};

use packet::{Refusal, Shape, Side};

// How long the data of these arguments is, where a packet of this side and shape with them may be written into so much room.
fn checked_size(
    side: Side,
    room: usize,
    shape: Shape,
    arguments: &[&[u8]],
) -> Result<usize, Refusal>
    ensures { result ≡ granted (write_refusal (direction_of side).most room shape (map (λ a. a.now) arguments.now)) (length (join (map (λ a. a.now) arguments.now))) }
{
    if !packet_kinds::is_own(shape) {
        return Err(Refusal::ForeignType);
    }
    if !packet_join::fit_all(shape, arguments) {
        return Err(Refusal::Arguments);
    }
    let size = packet_join::joined_length(arguments);
    if side.most() < size {
        return Err(Refusal::Size);
    }
    if room < 12 + size {
        return Err(Refusal::LittleRoom);
    }
    Ok(size)
}

// Writes a packet of one side and of this type with these arguments, and answers its length.
pub fn write_side(
    out: &mut [u8],
    side: Side,
    kind: u32,
    arguments: &[&[u8]],
) -> Result<usize, Refusal>
    ensures { record { answer = result; output = out.new } ≡ writing (direction_of side).magic (direction_of side).most ((direction_of side).shape kind) out.old kind (map (λ a. a.now) arguments.now) }
{
    let shape = packet_kinds::shape_of(kind, side);
    let size = checked_size(side, out.len(), shape, arguments)?;
    let data = packet_join::put_header(out, 0, side.magic(), kind, size as u32);
    Ok(packet_join::put_joined(out, data, arguments))
}

// Writes a request of this type with these arguments.
pub fn write_request(out: &mut [u8], kind: u32, arguments: &[&[u8]]) -> Result<usize, Refusal>
    ensures { record { answer = result; output = out.new } ≡ writing requests.magic requests.most (requests.shape kind) out.old kind (map (λ a. a.now) arguments.now) }
{
    write_side(out, Side::Request, kind, arguments)
}

// Writes a response of this type with these arguments.
pub fn write_response(out: &mut [u8], kind: u32, arguments: &[&[u8]]) -> Result<usize, Refusal>
    ensures { record { answer = result; output = out.new } ≡ writing responses.magic responses.most (responses.shape kind) out.old kind (map (λ a. a.now) arguments.now) }
{
    write_side(out, Side::Response, kind, arguments)
}
