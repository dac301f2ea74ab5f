// What an event comes to, decided before anything is written: the numbers of a table by value, the step that an event takes on them,
// the texts that it changes and the packets that it sends, and what the end of the event does beyond the step. The types stand here
// and their meaning in specs/; there is no code.
#![tactic(auto)]

use server::{CONNECTIONS, Connection, FUNCTIONS, JOBS, JobRow};

// The numbers of a table, by value: the last serial given out, the connections, the connections able to do each function, and the
// rows of the jobs. Names, uniques, stored texts and workloads stay in the lent bytes.
#[derive(Clone, Copy)]
pub struct Values {
    pub last: u32,
    pub connections: [Connection; CONNECTIONS],
    pub able: [u32; FUNCTIONS],
    pub rows: [JobRow; JOBS],
}

// The texts that an event changes. Here and below Nothing is one of the cases: `changed`, `ordered` and `stepped` of specs/ say what each
// comes to.
#[derive(Clone, Copy)]
pub enum Change {
    Nothing,
    Name { function: usize }, // the function's name is put at its place
    Job { place: usize, function: usize }, // a new job: the function's name, its unique, `0` and `0`
    Texts { place: usize }, // WORK_STATUS: the two texts as they came
    Id { connection: usize }, // SET_CLIENT_ID: the client id as it came
    Left { connection: usize }, // a close: `0` and `0` for the jobs that the connection held, and no client id
}

// The packets that an event sends before any NOOP: all to the sender, but what a worker says of its job. That goes to a set: as copies, or
// as copies to those of it who hear it and WORK_FAIL to the others.
#[derive(Clone, Copy)]
pub enum Order {
    Nothing,
    Created { serial: u32 },
    NoJob,
    Assign { uniq: bool, place: usize },
    Copies { to: u32 },
    Told { to: u32, heard: u32, serial: u32 },
    Echo,
    Status { place: usize },
    Unknown,
    Optioned,
}

// What changes among the numbers before the table is settled.
#[derive(Clone, Copy)]
pub enum Step {
    Nothing,
    Row {
        place: usize,
        row: JobRow,
    }, // a job goes on with this row
    End {
        place: usize,
    }, // a job is over
    Grab {
        place: usize,
        row: JobRow,
        connection: usize,
        flags: Connection,
    }, // a job is held, and its holder awake
    New {
        place: usize,
        row: JobRow,
    }, // a new job; its serial is the last one now
    Flags {
        connection: usize,
        flags: Connection,
    }, // open, sleep, option
    Able {
        function: usize,
        set: u32,
    }, // CAN_DO and CANT_DO
    Reset {
        connection: usize,
    }, // RESET_ABILITIES
    Leave {
        connection: usize,
    }, // close
}

// What an event comes to: a refusal's number, or 0 and the step that it takes, the texts that it changes and the packets that it sends,
// before the table is settled.
#[derive(Clone, Copy)]
pub struct Plan {
    pub number: u8,
    pub step: Step,
    pub change: Change,
    pub order: Order,
}

// What the end of an event does beyond its step: the sleepers that wake, as a set, and the function that is forgotten.
#[derive(Clone, Copy)]
pub struct Ending {
    pub woken: u32,
    pub forgotten: Option<usize>,
}
