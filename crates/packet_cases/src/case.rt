// One call of the packet writer: what it answers, what it touches, and what the packet reader makes of what it wrote.
use crate::parse::Case;
use packet::{Ends, Refusal};

// How reading back went: nothing was written, the same type and arguments, others, or a refusal.
#[derive(Clone, Copy)]
pub enum Back {
    Nothing,
    Same,
    Differs,
    Refused(Refusal),
}

// What a call answered.
#[derive(Clone, Copy)]
pub struct Outcome {
    pub kind: u32,
    pub number: u8,
    pub length: usize,
    pub touched: bool,
    pub back: Back,
}

// Calls the writer with arguments that are fronts of `bytes`, and with the first `room` bytes of an output.
fn written(out: &mut [u8], case: Case, bytes: &[u8]) -> Result<usize, Refusal> {
    let lengths = case.lengths;
    // No type has more than five arguments: where the case asks for more, one that is empty stands for them all.
    let arguments = [
        lines::front(bytes, lengths[0]),
        lines::front(bytes, lengths[1]),
        lines::front(bytes, lengths[2]),
        lines::front(bytes, lengths[3]),
        lines::front(bytes, lengths[4]),
        b"",
    ];
    let used = &arguments[..case.count.min(6)];
    let room = case.room.min(out.len());
    packet_write::write_side(&mut out[..room], case.side, case.kind, used)
}

// Whether the arguments that were read are those that were written: beyond the last one, empty.
fn same_arguments(packet: &[u8], ends: Ends, case: Case, bytes: &[u8]) -> bool {
    let lengths = case.lengths;
    for i in 0..5 {
        let wanted = if i < case.count { lengths[i] } else { 0 };
        if packet_read::argument(packet, ends, i) != lines::front(bytes, wanted) {
            return false;
        }
    }
    true
}

// Reads the packet that was written.
fn read_back(packet: &[u8], case: Case, bytes: &[u8]) -> Back {
    match packet_read::read_side(packet, case.side) {
        Err(refusal) => Back::Refused(refusal),
        Ok(back) => {
            if back.kind == case.kind && same_arguments(packet, back.ends, case, bytes) {
                Back::Same
            } else {
                Back::Differs
            }
        }
    }
}

// Whether a byte of what was lent is no longer 170.
fn is_touched(out: &[u8]) -> bool {
    !octets::all_within(out, 170, 170)
}

// What the writer answers to a case, in an output whose bytes are all 170.
pub fn outcome_of(case: Case) -> Outcome {
    let bytes = [case.fill; 4096];
    let mut out = [170u8; 4096];
    match written(&mut out, case, &bytes) {
        Err(refusal) => Outcome {
            kind: case.kind,
            number: refusal.number(),
            length: 0,
            touched: is_touched(&out),
            back: Back::Nothing,
        },
        Ok(length) => Outcome {
            kind: case.kind,
            number: 0,
            length: length,
            touched: is_touched(out.get(length..).unwrap_or(&[])),
            back: read_back(lines::front(&out, length), case, &bytes),
        },
    }
}
