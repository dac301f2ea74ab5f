// What the job server is: the rows that its code and its definitions share, how they are put anew, and the product's counts, sizes and
// places in the table. The definitions stand in specs/; `numbers` ties the constants to them.
#![tactic(auto)]

ghost use Rattle.server.specs.Table as T;
ghost use Rattle.server.specs.Table.{fresh_row, in_background, just_opened, no_row, with_asleep, with_exceptions, with_holder, with_listeners};
ghost use Rattle.server.specs.Layout.{able_at, asleep_at, backgrounds_at, denominators_at, exceptions_at, functions_at, holders_at, hub_at, ids_at, last_at, listeners_at, names_at, numerators_at, opened_at, priorities_at, serials_at, sizes_at, table_size, uniques_at};
ghost use Rattle.server.specs.Sizes.{connection_count, function_count, hub_size, id_size, job_count, name_size, number_size, output_size, unique_size, workload_size, workloads_size};
ghost use Rattle.std.specs.Prelude.{[], ◌∷◌, ◌≡◌};

// Counts: document 01, "Connections 0 to 15; known functions 16; unfinished jobs 32".
pub const CONNECTIONS: usize = 16;

pub const FUNCTIONS: usize = 16;

pub const JOBS: usize = 32;

// Places of texts and of a workload.
pub const NAME_SIZE: usize = 32;

pub const UNIQUE_SIZE: usize = 64;

pub const NUMBER_SIZE: usize = 10;

pub const ID_SIZE: usize = 64;

pub const HUB_SIZE: usize = 16;

pub const WORKLOAD_SIZE: usize = 1024;

// Where the table's fields lie, each behind the one before; what grows with the number of connections stands last.
pub const LAST_AT: usize = 0;

pub const SERIALS_AT: usize = LAST_AT + 4;

pub const SIZES_AT: usize = SERIALS_AT + 4 * JOBS;

pub const HOLDERS_AT: usize = SIZES_AT + 2 * JOBS;

pub const PRIORITIES_AT: usize = HOLDERS_AT + 2 * JOBS;

pub const BACKGROUNDS_AT: usize = PRIORITIES_AT + JOBS;

pub const FUNCTIONS_AT: usize = BACKGROUNDS_AT + JOBS;

pub const NAMES_AT: usize = FUNCTIONS_AT + JOBS;

pub const UNIQUES_AT: usize = NAMES_AT + NAME_SIZE * FUNCTIONS;

pub const NUMERATORS_AT: usize = UNIQUES_AT + UNIQUE_SIZE * JOBS;

pub const DENOMINATORS_AT: usize = NUMERATORS_AT + NUMBER_SIZE * JOBS;

pub const HUB_AT: usize = DENOMINATORS_AT + NUMBER_SIZE * JOBS;

pub const ABLE_AT: usize = HUB_AT + HUB_SIZE;

pub const LISTENERS_AT: usize = ABLE_AT + 4 * FUNCTIONS;

pub const OPENED_AT: usize = LISTENERS_AT + 4 * JOBS;

pub const ASLEEP_AT: usize = OPENED_AT + CONNECTIONS;

pub const EXCEPTIONS_AT: usize = ASLEEP_AT + CONNECTIONS;

pub const IDS_AT: usize = EXCEPTIONS_AT + CONNECTIONS;

// What a host lends.
pub const TABLE_SIZE: usize = IDS_AT + ID_SIZE * CONNECTIONS;

pub const WORKLOADS_SIZE: usize = WORKLOAD_SIZE * JOBS;

pub const OUTPUT_SIZE: usize = 16592 + 1037 * (CONNECTIONS - 16);

// A connection's row.
#[derive(Clone, Copy)]
pub struct Connection {
    pub opened: bool,
    pub asleep: bool,
    pub exceptions: bool,
}

// The numbers of a job's row, as the table's bytes hold them and every definition of a row reads them: 0 is no job and no holder, and a
// priority is a rank. A free row has serial 0 and is zero throughout.
#[derive(Clone, Copy)]
pub struct JobRow {
    pub serial: u32,
    pub function: u8, // the place of its function
    pub priority: u8, // 2 high, 1 normal, 0 low
    pub background: bool,
    pub listeners: u32, // a set of connections
    pub holder: u16, // 0 while it is queued, else one more than the holder's number
    pub size: u16, // of its workload
}

// ---- rows put anew: nowhere else is one built from its fields, but where the bytes of one are read

// A closed connection.
pub fn closed() -> Connection
    ensures { result ≡ T.closed }
{
    Connection {
        opened: false,
        asleep: false,
        exceptions: false,
    }
}

// A connection that has just been opened.
pub fn just_opened() -> Connection
    ensures { result ≡ just_opened }
{
    Connection {
        opened: true,
        ..closed()
    }
}

// The connection asleep or awake.
pub fn with_asleep(x: Connection, asleep: bool) -> Connection
    ensures { result ≡ with_asleep asleep x }
{
    Connection { asleep, ..x }
}

// The connection with the option `exceptions` or without it.
pub fn with_exceptions(x: Connection, exceptions: bool) -> Connection
    ensures { result ≡ with_exceptions exceptions x }
{
    Connection { exceptions, ..x }
}

// A free row.
pub fn no_row() -> JobRow
    ensures { result ≡ no_row }
{
    JobRow {
        serial: 0,
        function: 0,
        priority: 0,
        background: false,
        listeners: 0,
        holder: 0,
        size: 0,
    }
}

// The row of a job that has just come: queued, and nobody listens yet.
pub fn fresh_row(serial: u32, function: u8, priority: u8, size: u16) -> JobRow
    ensures { result ≡ fresh_row serial function priority size }
{
    JobRow {
        serial,
        function,
        priority,
        size,
        ..no_row()
    }
}

// The row in the background.
pub fn in_background(row: JobRow) -> JobRow
    ensures { result ≡ in_background row }
{
    JobRow {
        background: true,
        ..row
    }
}

// The row with other listeners.
pub fn with_listeners(row: JobRow, listeners: u32) -> JobRow
    ensures { result ≡ with_listeners listeners row }
{
    JobRow { listeners, ..row }
}

// The row with another holder: 0 for nobody, else one more than the connection's number.
pub fn with_holder(row: JobRow, holder: u16) -> JobRow
    ensures { result ≡ with_holder holder row }
{
    JobRow { holder, ..row }
}

// ---- the product's numbers

// Every constant is the definitions' number.
pub fn numbers() -> [usize; 30]
    ensures { result ≡ connection_count ∷ function_count ∷ job_count ∷ name_size ∷ unique_size ∷ number_size ∷ id_size ∷ hub_size ∷ workload_size
        ∷ last_at ∷ hub_at ∷ able_at ∷ serials_at ∷ listeners_at connection_count ∷ sizes_at ∷ holders_at ∷ priorities_at ∷ backgrounds_at ∷ functions_at
        ∷ names_at ∷ uniques_at ∷ numerators_at ∷ denominators_at ∷ opened_at connection_count ∷ asleep_at connection_count ∷ exceptions_at connection_count
        ∷ ids_at connection_count ∷ table_size connection_count ∷ workloads_size ∷ output_size connection_count ∷ [] }
{
    [
        CONNECTIONS,
        FUNCTIONS,
        JOBS,
        NAME_SIZE,
        UNIQUE_SIZE,
        NUMBER_SIZE,
        ID_SIZE,
        HUB_SIZE,
        WORKLOAD_SIZE,
        LAST_AT,
        HUB_AT,
        ABLE_AT,
        SERIALS_AT,
        LISTENERS_AT,
        SIZES_AT,
        HOLDERS_AT,
        PRIORITIES_AT,
        BACKGROUNDS_AT,
        FUNCTIONS_AT,
        NAMES_AT,
        UNIQUES_AT,
        NUMERATORS_AT,
        DENOMINATORS_AT,
        OPENED_AT,
        ASLEEP_AT,
        EXCEPTIONS_AT,
        IDS_AT,
        TABLE_SIZE,
        WORKLOADS_SIZE,
        OUTPUT_SIZE,
    ]
}
