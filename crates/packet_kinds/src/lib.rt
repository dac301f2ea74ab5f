// The protocol's numbers: the shape of each type's data, the rule of each argument, and the constant table of the 36 types.
// An inner crate of the packet layer: its functions refuse nothing, and a number that is no type has the row of number 0.
#![tactic(auto)]

ghost use Rattle.std.specs.Prelude.{◌≡◌, ◌≤◌, get_or, length};
ghost use Rattle.packet.specs.declared.Rule.TheVariants.{Absent};
ghost use Rattle.packet.specs.Layout.{is_own, kind_of, padded, request_shape, response_shape, rules_of};
ghost use Rattle.packet.specs.Packet.{direction_of};

use packet::{Kind, Rule, Shape, Side};

const FUNCTION: Rule = Rule::Text { least: 1, most: 32 };

const UNIQUE: Rule = Rule::Text { least: 0, most: 64 };

const HANDLE: Rule = Rule::Text { least: 1, most: 63 };

const NUMBER: Rule = Rule::Digits { least: 1, most: 10 };

const CLIENT_ID: Rule = Rule::Text { least: 1, most: 64 };

const TWO_DIGITS: Rule = Rule::Digits { least: 2, most: 2 };

// The 36 types and number 0, each on one line: its way, how many separators its arguments demand, and what a submission asks.
#[rattlefmt::skip]
const KINDS: [Kind; 37] = [
    Kind { served: false, sent: false, separators: 0, priority: 0, background: false }, // 0
    Kind { served: true, sent: false, separators: 0, priority: 0, background: false }, // 1 CAN_DO: request; function
    Kind { served: true, sent: false, separators: 0, priority: 0, background: false }, // 2 CANT_DO: request; function
    Kind { served: true, sent: false, separators: 0, priority: 0, background: false }, // 3 RESET_ABILITIES: request; empty
    Kind { served: true, sent: false, separators: 0, priority: 0, background: false }, // 4 PRE_SLEEP: request; empty
    Kind { served: false, sent: false, separators: 0, priority: 0, background: false }, // 5 (unused): neither served nor sent
    Kind { served: false, sent: true, separators: 0, priority: 0, background: false }, // 6 NOOP: response; empty
    Kind { served: true, sent: false, separators: 2, priority: 1, background: false }, // 7 SUBMIT_JOB: request; function, unique, opaque workload
    Kind { served: false, sent: true, separators: 0, priority: 0, background: false }, // 8 JOB_CREATED: response; handle
    Kind { served: true, sent: false, separators: 0, priority: 0, background: false }, // 9 GRAB_JOB: request; empty
    Kind { served: false, sent: true, separators: 0, priority: 0, background: false }, // 10 NO_JOB: response; empty
    Kind { served: false, sent: true, separators: 2, priority: 0, background: false }, // 11 JOB_ASSIGN: response; handle, function, opaque workload
    Kind { served: true, sent: true, separators: 2, priority: 0, background: false }, // 12 WORK_STATUS: both; handle, numerator, denominator
    Kind { served: true, sent: true, separators: 1, priority: 0, background: false }, // 13 WORK_COMPLETE: both; handle, opaque data
    Kind { served: true, sent: true, separators: 0, priority: 0, background: false }, // 14 WORK_FAIL: both; handle
    Kind { served: true, sent: false, separators: 0, priority: 0, background: false }, // 15 GET_STATUS: request; handle
    Kind { served: true, sent: false, separators: 0, priority: 0, background: false }, // 16 ECHO_REQ: request; opaque, all of it
    Kind { served: false, sent: true, separators: 0, priority: 0, background: false }, // 17 ECHO_RES: response; opaque, all of it
    Kind { served: true, sent: false, separators: 2, priority: 1, background: true }, // 18 SUBMIT_JOB_BG: request; function, unique, opaque workload
    Kind { served: false, sent: true, separators: 1, priority: 0, background: false }, // 19 ERROR: response; two digits, text
    Kind { served: false, sent: true, separators: 4, priority: 0, background: false }, // 20 STATUS_RES: response; handle, known, running, numerator, denominator
    Kind { served: true, sent: false, separators: 2, priority: 2, background: false }, // 21 SUBMIT_JOB_HIGH: request; function, unique, opaque workload
    Kind { served: true, sent: false, separators: 0, priority: 0, background: false }, // 22 SET_CLIENT_ID: request; client id
    Kind { served: false, sent: false, separators: 0, priority: 0, background: false }, // 23 CAN_DO_TIMEOUT: neither served nor sent
    Kind { served: false, sent: false, separators: 0, priority: 0, background: false }, // 24 ALL_YOURS: neither served nor sent
    Kind { served: true, sent: true, separators: 1, priority: 0, background: false }, // 25 WORK_EXCEPTION: both; handle, opaque data
    Kind { served: true, sent: false, separators: 0, priority: 0, background: false }, // 26 OPTION_REQ: request; option name
    Kind { served: false, sent: true, separators: 0, priority: 0, background: false }, // 27 OPTION_RES: response; option name
    Kind { served: true, sent: true, separators: 1, priority: 0, background: false }, // 28 WORK_DATA: both; handle, opaque data
    Kind { served: true, sent: true, separators: 1, priority: 0, background: false }, // 29 WORK_WARNING: both; handle, opaque data
    Kind { served: true, sent: false, separators: 0, priority: 0, background: false }, // 30 GRAB_JOB_UNIQ: request; empty
    Kind { served: false, sent: true, separators: 3, priority: 0, background: false }, // 31 JOB_ASSIGN_UNIQ: response; handle, function, unique, opaque workload
    Kind { served: true, sent: false, separators: 2, priority: 2, background: true }, // 32 SUBMIT_JOB_HIGH_BG: request; function, unique, opaque workload
    Kind { served: true, sent: false, separators: 2, priority: 0, background: false }, // 33 SUBMIT_JOB_LOW: request; function, unique, opaque workload
    Kind { served: true, sent: false, separators: 2, priority: 0, background: true }, // 34 SUBMIT_JOB_LOW_BG: request; function, unique, opaque workload
    Kind { served: false, sent: false, separators: 0, priority: 0, background: false }, // 35 SUBMIT_JOB_SCHED: neither served nor sent
    Kind { served: false, sent: false, separators: 0, priority: 0, background: false }, // 36 SUBMIT_JOB_EPOCH: neither served nor sent
];

// What a number's row says.
pub fn kind_of(kind: u32) -> Kind
    ensures { result ≡ kind_of kind }
{
    if 36 < kind {
        return KINDS[0];
    }
    let row = kind as usize;
    KINDS[row]
}

// The shape of a request of this type.
pub fn request_shape(kind: u32) -> Shape
    ensures { result ≡ request_shape kind }
{
    match kind {
        1..=2 => Shape::Function,
        3..=4 | 9 | 30 => Shape::Empty,
        7 | 18 | 21 | 32..=34 => Shape::Submission,
        12 => Shape::WorkStatus,
        13 | 25 | 28..=29 => Shape::WorkData,
        14..=15 => Shape::Handle,
        16 => Shape::Echo,
        22 => Shape::ClientId,
        26 => Shape::OptionName,
        _ => Shape::Foreign,
    }
}

// The shape of a response of this type.
pub fn response_shape(kind: u32) -> Shape
    ensures { result ≡ response_shape kind }
{
    match kind {
        6 | 10 => Shape::Empty,
        8 | 14 => Shape::Handle,
        11 => Shape::Assignment,
        12 => Shape::WorkStatus,
        13 | 25 | 28..=29 => Shape::WorkData,
        17 => Shape::Echo,
        19 => Shape::Error,
        20 => Shape::StatusAnswer,
        27 => Shape::OptionName,
        31 => Shape::UniqueAssignment,
        _ => Shape::Foreign,
    }
}

// The shape of a packet of this type and side.
pub fn shape_of(kind: u32, side: Side) -> Shape
    ensures { result ≡ (direction_of side).shape kind }
{
    match side {
        Side::Request => request_shape(kind),
        Side::Response => response_shape(kind),
    }
}

// The rules of a shape's arguments, in order.
fn rules(shape: Shape) -> [Rule; 5]
    ensures { result ≡ padded (rules_of shape) }
{
    let none = Rule::Absent;
    let opaque = Rule::Opaque;
    match shape {
        Shape::Foreign => [none, none, none, none, none],
        Shape::Empty => [none, none, none, none, none],
        Shape::Function => [FUNCTION, none, none, none, none],
        Shape::Submission => [FUNCTION, UNIQUE, opaque, none, none],
        Shape::WorkStatus => [HANDLE, NUMBER, NUMBER, none, none],
        Shape::WorkData => [HANDLE, opaque, none, none, none],
        Shape::Handle => [HANDLE, none, none, none, none],
        Shape::Echo => [opaque, none, none, none, none],
        Shape::OptionName => [Rule::AnyText, none, none, none, none],
        Shape::ClientId => [CLIENT_ID, none, none, none, none],
        Shape::Assignment => [HANDLE, FUNCTION, opaque, none, none],
        Shape::UniqueAssignment => [HANDLE, FUNCTION, UNIQUE, opaque, none],
        Shape::Error => [TWO_DIGITS, Rule::AnyText, none, none, none],
        Shape::StatusAnswer => [HANDLE, Rule::Flag, Rule::Flag, NUMBER, NUMBER],
    }
}

// The rule of argument `i` of a shape; absent, where it has none.
pub fn rule_of(shape: Shape, i: usize) -> Rule
    ensures { result ≡ get_or (rules_of shape) i Absent }
{
    if 5 <= i {
        return Rule::Absent;
    }
    let all = rules(shape);
    all[i]
}

// How many arguments a shape has.
pub fn count_of(shape: Shape) -> usize
    ensures { (result ≡ length (rules_of shape)) × (result ≤ 5) }
{
    match shape {
        Shape::Foreign | Shape::Empty => 0,
        Shape::Function | Shape::Handle | Shape::Echo | Shape::OptionName | Shape::ClientId => 1,
        Shape::WorkData | Shape::Error => 2,
        Shape::Submission | Shape::WorkStatus | Shape::Assignment => 3,
        Shape::UniqueAssignment => 4,
        Shape::StatusAnswer => 5,
    }
}

// Whether a type of this shape belongs to its direction.
pub fn is_own(shape: Shape) -> bool
    ensures { result ≡ is_own shape }
{
    match shape {
        Shape::Foreign => false,
        _ => true,
    }
}
