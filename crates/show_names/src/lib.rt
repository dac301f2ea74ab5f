// The words of a line that shows a packet, laid over a lent text: the protocol's name of a type, the label of an argument, the reason of a
// refusal. Each function returns the place after what it laid. An inner crate: its callers see to the room, and nothing is refused.
#![tactic(auto)]

ghost use Rattle.std.specs.Prelude.{◌≡◌, ◌+◌, ◌≤◌, [], ◌++◌, length, get_or};
ghost use Rattle.octets.specs.Put.{put};
ghost use Rattle.handle.specs.Handle.{decimal, padded};
ghost use Rattle.show_names.specs.Names.{label_of, label_rows, name_of, names, reason_of, type_word, word};

use packet::Shape;

// The protocol's names of the types 1 to 36, each followed by zeros.
const NAMES: [[u8; 18]; 37] = [
    [0; 18],
    *b"CAN_DO\0\0\0\0\0\0\0\0\0\0\0\0",
    *b"CANT_DO\0\0\0\0\0\0\0\0\0\0\0",
    *b"RESET_ABILITIES\0\0\0",
    *b"PRE_SLEEP\0\0\0\0\0\0\0\0\0",
    *b"(unused)\0\0\0\0\0\0\0\0\0\0",
    *b"NOOP\0\0\0\0\0\0\0\0\0\0\0\0\0\0",
    *b"SUBMIT_JOB\0\0\0\0\0\0\0\0",
    *b"JOB_CREATED\0\0\0\0\0\0\0",
    *b"GRAB_JOB\0\0\0\0\0\0\0\0\0\0",
    *b"NO_JOB\0\0\0\0\0\0\0\0\0\0\0\0",
    *b"JOB_ASSIGN\0\0\0\0\0\0\0\0",
    *b"WORK_STATUS\0\0\0\0\0\0\0",
    *b"WORK_COMPLETE\0\0\0\0\0",
    *b"WORK_FAIL\0\0\0\0\0\0\0\0\0",
    *b"GET_STATUS\0\0\0\0\0\0\0\0",
    *b"ECHO_REQ\0\0\0\0\0\0\0\0\0\0",
    *b"ECHO_RES\0\0\0\0\0\0\0\0\0\0",
    *b"SUBMIT_JOB_BG\0\0\0\0\0",
    *b"ERROR\0\0\0\0\0\0\0\0\0\0\0\0\0",
    *b"STATUS_RES\0\0\0\0\0\0\0\0",
    *b"SUBMIT_JOB_HIGH\0\0\0",
    *b"SET_CLIENT_ID\0\0\0\0\0",
    *b"CAN_DO_TIMEOUT\0\0\0\0",
    *b"ALL_YOURS\0\0\0\0\0\0\0\0\0",
    *b"WORK_EXCEPTION\0\0\0\0",
    *b"OPTION_REQ\0\0\0\0\0\0\0\0",
    *b"OPTION_RES\0\0\0\0\0\0\0\0",
    *b"WORK_DATA\0\0\0\0\0\0\0\0\0",
    *b"WORK_WARNING\0\0\0\0\0\0",
    *b"GRAB_JOB_UNIQ\0\0\0\0\0",
    *b"JOB_ASSIGN_UNIQ\0\0\0",
    *b"SUBMIT_JOB_HIGH_BG",
    *b"SUBMIT_JOB_LOW\0\0\0\0",
    *b"SUBMIT_JOB_LOW_BG\0",
    *b"SUBMIT_JOB_SCHED\0\0",
    *b"SUBMIT_JOB_EPOCH\0\0",
];

// The reasons of the refusals by number, each followed by zeros.
const REASONS: [[u8; 23]; 17] = [
    *b"?\0\0\0\0\0\0\0\0\0\0\0\0\0\0\0\0\0\0\0\0\0\0",
    *b"buffer or table\0\0\0\0\0\0\0\0",
    *b"connection above 15\0\0\0\0",
    *b"connection not open\0\0\0\0",
    *b"already open\0\0\0\0\0\0\0\0\0\0\0",
    *b"under 12 bytes\0\0\0\0\0\0\0\0\0",
    *b"magic\0\0\0\0\0\0\0\0\0\0\0\0\0\0\0\0\0\0",
    *b"size\0\0\0\0\0\0\0\0\0\0\0\0\0\0\0\0\0\0\0",
    *b"length is not 12 + size",
    *b"type\0\0\0\0\0\0\0\0\0\0\0\0\0\0\0\0\0\0\0",
    *b"arguments\0\0\0\0\0\0\0\0\0\0\0\0\0\0",
    *b"functions\0\0\0\0\0\0\0\0\0\0\0\0\0\0",
    *b"jobs\0\0\0\0\0\0\0\0\0\0\0\0\0\0\0\0\0\0\0",
    *b"serials\0\0\0\0\0\0\0\0\0\0\0\0\0\0\0\0",
    *b"handle\0\0\0\0\0\0\0\0\0\0\0\0\0\0\0\0\0",
    *b"option\0\0\0\0\0\0\0\0\0\0\0\0\0\0\0\0\0",
    *b"line is not a frame\0\0\0\0",
];

// The labels of arguments, each followed by zeros.
const FUNCTION: [u8; 11] = *b"function\0\0\0";

const UNIQUE: [u8; 11] = *b"unique\0\0\0\0\0";

const WORKLOAD: [u8; 11] = *b"workload\0\0\0";

const HANDLE: [u8; 11] = *b"handle\0\0\0\0\0";

const NUMERATOR: [u8; 11] = *b"numerator\0\0";

const DENOMINATOR: [u8; 11] = *b"denominator";

const DATA: [u8; 11] = *b"data\0\0\0\0\0\0\0";

const OPTION: [u8; 11] = *b"option\0\0\0\0\0";

const ID: [u8; 11] = *b"id\0\0\0\0\0\0\0\0\0";

const KNOWN: [u8; 11] = *b"known\0\0\0\0\0\0";

const RUNNING: [u8; 11] = *b"running\0\0\0\0";

const NUMBER: [u8; 11] = *b"number\0\0\0\0\0";

const TEXT: [u8; 11] = *b"text\0\0\0\0\0\0\0";

const NONE: [u8; 11] = [0; 11];

// Lays the word of a row: its bytes before the first zero.
fn put_word(out: &mut [u8], at: usize, row: &[u8]) -> usize
    requires { at + length (word row.now) ≤ length out.old }
    ensures { (result ≡ at + length (word row.now)) × (out.new ≡ put at (word row.now) out.old) }
{
    let size = octets::first_zero(row);
    octets::put(out, at, &row[..size])
}

// The name of a type, followed by zeros.
fn name_row(kind: u32) -> [u8; 18]
    requires { kind ≤ 36 }
    ensures { result ≡ padded 18 (get_or names kind []) }
{
    let row = kind as usize;
    NAMES[row]
}

// Lays a type by its number.
fn put_type(out: &mut [u8], at: usize, kind: u32) -> usize
    requires { at + length (type_word ++ decimal kind) ≤ length out.old }
    ensures { (result ≡ at + length (type_word ++ decimal kind)) × (out.new ≡ put at (type_word ++ decimal kind) out.old) }
{
    let place = octets::put(out, at, b"type ");
    prints::put_number(out, place, kind)
}

// Lays the protocol's name of a type; the number of one that has none.
pub fn put_name(out: &mut [u8], at: usize, kind: u32) -> usize
    requires { at + length (name_of kind) ≤ length out.old }
    ensures { (result ≡ at + length (name_of kind)) × (out.new ≡ put at (name_of kind) out.old) }
{
    if kind < 1 {
        return put_type(out, at, kind);
    }
    if 36 < kind {
        return put_type(out, at, kind);
    }
    let row = name_row(kind);
    put_word(out, at, &row)
}

// The reason of a refusal, followed by zeros.
fn reason_row(number: u8) -> [u8; 23]
    ensures { result ≡ padded 23 (reason_of number) }
{
    if 16 < number {
        return REASONS[0];
    }
    let row = number as usize;
    REASONS[row]
}

// Lays the reason of a refusal; `?` for a number that is none.
pub fn put_reason(out: &mut [u8], at: usize, number: u8) -> usize
    requires { at + length (reason_of number) ≤ length out.old }
    ensures { (result ≡ at + length (reason_of number)) × (out.new ≡ put at (reason_of number) out.old) }
{
    let row = reason_row(number);
    put_word(out, at, &row)
}

// The labels of a shape's arguments, in order.
fn labels(shape: Shape) -> [[u8; 11]; 5]
    ensures { result ≡ label_rows shape }
{
    match shape {
        Shape::Foreign => [NONE, NONE, NONE, NONE, NONE],
        Shape::Empty => [NONE, NONE, NONE, NONE, NONE],
        Shape::Function => [FUNCTION, NONE, NONE, NONE, NONE],
        Shape::Submission => [FUNCTION, UNIQUE, WORKLOAD, NONE, NONE],
        Shape::WorkStatus => [HANDLE, NUMERATOR, DENOMINATOR, NONE, NONE],
        Shape::WorkData => [HANDLE, DATA, NONE, NONE, NONE],
        Shape::Handle => [HANDLE, NONE, NONE, NONE, NONE],
        Shape::Echo => [DATA, NONE, NONE, NONE, NONE],
        Shape::OptionName => [OPTION, NONE, NONE, NONE, NONE],
        Shape::ClientId => [ID, NONE, NONE, NONE, NONE],
        Shape::Assignment => [HANDLE, FUNCTION, WORKLOAD, NONE, NONE],
        Shape::UniqueAssignment => [HANDLE, FUNCTION, UNIQUE, WORKLOAD, NONE],
        Shape::Error => [NUMBER, TEXT, NONE, NONE, NONE],
        Shape::StatusAnswer => [HANDLE, KNOWN, RUNNING, NUMERATOR, DENOMINATOR],
    }
}

// Lays the label of argument `i` of a shape; nothing, where it has none.
pub fn put_label(out: &mut [u8], at: usize, shape: Shape, i: usize) -> usize
    requires { at + length (label_of shape i) ≤ length out.old }
    ensures { (result ≡ at + length (label_of shape i)) × (out.new ≡ put at (label_of shape i) out.old) }
{
    if 5 <= i {
        return at;
    }
    let rows = labels(shape);
    let row = rows[i];
    put_word(out, at, &row)
}
