// What a packet is: the types that the packet layer's code and its definitions share, with the number of a refusal, and the magic and the
// limit of a side. The definitions stand in specs/.
#![tactic(auto)]

ghost use Rattle.std.specs.Prelude.{◌≡◌};
ghost use Rattle.packet.specs.Refusals.{number_of};
ghost use Rattle.packet.specs.Packet.{direction_of};

// The shape of a type's data: its arguments, in order.
#[derive(Clone, Copy)]
pub enum Shape {
    Foreign, // not a type of this side: a variant and no Option, as rules_of, request_shape and all over them keep their meaning
    Empty, // no data
    Function, // function
    Submission, // function, unique, opaque workload
    WorkStatus, // handle, numerator, denominator
    WorkData, // handle, opaque data
    Handle, // handle
    Echo, // opaque, all of it
    OptionName, // option name
    ClientId, // client id
    Assignment, // handle, function, opaque workload
    UniqueAssignment, // handle, function, unique, opaque workload
    Error, // two digits, text
    StatusAnswer, // handle, known, running, numerator, denominator
}

// What one argument may be. None but an opaque one holds a zero byte.
#[derive(Clone, Copy)]
pub enum Rule {
    Text { least: usize, most: usize }, // this many bytes
    Digits { least: usize, most: usize }, // this many digits 0-9
    Flag, // `0` or `1`
    AnyText, // any number of bytes
    Opaque, // any bytes at all
    Absent, // the type has no such argument: a variant and no Option, as padded and fits of specs/ keep their meaning
}

// What is said of a type.
#[derive(Clone, Copy)]
pub struct Kind {
    pub served: bool, // a request of this type is served
    pub sent: bool, // a response of this type is sent
    pub separators: u8, // how many zero bytes its arguments demand
    pub priority: u8, // of a submission: 2 high, 1 normal, 0 low; else 0; a number, as kind_of and a row of the table have it
    pub background: bool, // a submission in the background
}

// Where each argument of a packet ends, counted from the packet's first byte; 0 where there is no such argument.
#[derive(Clone, Copy)]
pub struct Ends {
    pub first: usize,
    pub second: usize,
    pub third: usize,
    pub fourth: usize,
    pub fifth: usize,
}

// A packet that was read: its type, and where its arguments end.
#[derive(Clone, Copy)]
pub struct Packet {
    pub kind: u32,
    pub ends: Ends,
}

// Why a packet is not read, or not written.
#[derive(Clone, Copy, Debug, PartialEq, Eq)]
pub enum Refusal {
    LittleRoom, // the output is shorter than the packet
    Short, // under 12 bytes
    Magic, // another magic
    Size, // more data than the side may send
    Length, // the length is not 12 + size
    ForeignType, // not a type of this side
    Arguments, // the data does not split as the type asks, or breaks a size
}

impl Refusal {
    // The number of a refusal.
    pub fn number(self) -> u8
        ensures { result ≡ number_of self }
    {
        match self {
            Refusal::LittleRoom => 1,
            Refusal::Short => 5,
            Refusal::Magic => 6,
            Refusal::Size => 7,
            Refusal::Length => 8,
            Refusal::ForeignType => 9,
            Refusal::Arguments => 10,
        }
    }
}

// The two ways of the line: what clients and workers send, and what the server does.
#[derive(Clone, Copy, Debug, PartialEq, Eq)]
pub enum Side {
    Request,
    Response,
}

impl Side {
    // The four bytes with which a packet of this side begins.
    pub fn magic(self) -> &'static [u8; 4]
        ensures { result.now ≡ (direction_of self).magic }
    {
        match self {
            Side::Request => b"\0REQ",
            Side::Response => b"\0RES",
        }
    }

    // The most data that a packet of this side has.
    pub fn most(self) -> usize
        ensures { result ≡ (direction_of self).most }
    {
        match self {
            Side::Request => 1024,
            Side::Response => 1088,
        }
    }
}
