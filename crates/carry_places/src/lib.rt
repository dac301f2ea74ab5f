// Places of the table's lent bytes written where they lie: a job, a function, a connection, one or all of them; and the end of an event
// that settles all numbers. An inner crate: its callers lend a table's bytes and places inside it, and it refuses nothing.
#![tactic(auto)]

ghost use Rattle.std.specs.Prelude.{◌≡◌, [], ◌∷◌, ◌+◌, ◌*◌, ◌≤◌, ◌<◌, length};
ghost use Rattle.octets.specs.Put.{put};
ghost use Rattle.lists.specs.Lists.{fit};
ghost use Rattle.server.specs.Sizes.{connection_count, function_count, id_size, job_count, name_size, number_size, unique_size};
ghost use Rattle.server.specs.Table.{held_by, rows_of};
ghost use Rattle.server.specs.Layout.{flag_byte, ids_at, little, names_at, table_of, table_size, uniques_at};
ghost use Rattle.plan.specs.Settling.{settled_values};
ghost use Rattle.carry_places.specs.Laying.{laid_flags, laid_forgotten, laid_fours, laid_free, laid_function, laid_job, laid_numbers, laid_row, laid_twos, laid_zeros};
ghost use Rattle.carry_places.specs.Written.{laid_connections, laid_functions, laid_jobs, laid_returned, written};

use plan::Values;
use server::{
    ABLE_AT, ASLEEP_AT, BACKGROUNDS_AT, CONNECTIONS, Connection, DENOMINATORS_AT, EXCEPTIONS_AT,
    FUNCTIONS, FUNCTIONS_AT, HOLDERS_AT, ID_SIZE, IDS_AT, JOBS, JobRow, LAST_AT, LISTENERS_AT,
    NAME_SIZE, NAMES_AT, NUMBER_SIZE, NUMERATORS_AT, OPENED_AT, PRIORITIES_AT, SERIALS_AT,
    SIZES_AT, UNIQUE_SIZE, UNIQUES_AT,
};

// ---- a job

// One byte.
fn put_byte(table: &mut [u8], at: usize, x: u8)
    requires { at < length table.old }
    ensures { table.new ≡ put at (little 1 x) table.old }
{
    table[at] = x;
}

// One flag.
pub fn put_flag(table: &mut [u8], at: usize, x: bool)
    requires { at < length table.old }
    ensures { table.new ≡ put at (flag_byte x) table.old }
{
    table[at] = x as u8;
}

// The two numbers of a row in four bytes.
fn put_fours(table: &mut [u8], p: usize, serial: u32, listeners: u32)
    requires { (table_size connection_count ≤ length table.old) × (p < job_count) }
    ensures { table.new ≡ laid_fours p serial listeners table.old }
{
    table_little::put4(table, LISTENERS_AT + 4 * p, listeners);
    table_little::put4(table, SERIALS_AT + 4 * p, serial);
}

// The two numbers of a row in two bytes.
fn put_twos(table: &mut [u8], p: usize, size: u16, holder: u16)
    requires { (table_size connection_count ≤ length table.old) × (p < job_count) }
    ensures { table.new ≡ laid_twos p size holder table.old }
{
    table_little::put2(table, SIZES_AT + 2 * p, size);
    table_little::put2(table, HOLDERS_AT + 2 * p, holder);
}

// The row of one job.
pub fn put_row(table: &mut [u8], p: usize, row: JobRow)
    requires { (table_size connection_count ≤ length table.old) × (p < job_count) }
    ensures { table.new ≡ laid_row p row table.old }
{
    put_fours(table, p, row.serial, row.listeners);
    put_twos(table, p, row.size, row.holder);
    put_byte(table, PRIORITIES_AT + p, row.priority);
    put_flag(table, BACKGROUNDS_AT + p, row.background);
    put_byte(table, FUNCTIONS_AT + p, row.function);
}

// The two stored texts of a job.
pub fn put_numbers(table: &mut [u8], p: usize, numerator: &[u8], denominator: &[u8])
    requires { (table_size connection_count ≤ length table.old) × (p < job_count) × (length numerator.now ≤ number_size) × (length denominator.now ≤ number_size) }
    ensures { table.new ≡ laid_numbers p numerator.now denominator.now table.old }
{
    table_texts::put_text(
        table,
        NUMERATORS_AT + NUMBER_SIZE * p,
        NUMBER_SIZE,
        numerator,
    );
    table_texts::put_text(
        table,
        DENOMINATORS_AT + NUMBER_SIZE * p,
        NUMBER_SIZE,
        denominator,
    );
}

// A free place.
pub fn put_free(table: &mut [u8], p: usize)
    requires { (table_size connection_count ≤ length table.old) × (p < job_count) }
    ensures { table.new ≡ laid_free p table.old }
{
    put_row(table, p, server::no_row());
    table_texts::put_text(table, UNIQUES_AT + UNIQUE_SIZE * p, UNIQUE_SIZE, b"");
    put_numbers(table, p, b"", b"");
}

// A row, or a free place.
fn put_job(table: &mut [u8], p: usize, row: JobRow)
    requires { (table_size connection_count ≤ length table.old) × (p < job_count) }
    ensures { table.new ≡ laid_job row p table.old }
{
    if row.serial == 0 {
        put_free(table, p);
    } else {
        put_row(table, p, row);
    }
}

// All jobs.
fn put_jobs(table: &mut [u8], rows: [JobRow; JOBS])
    requires { table_size connection_count ≤ length table.old }
    ensures { table.new ≡ laid_jobs rows table.old }
{
    for p in 0..JOBS {
        put_job(table, p, rows[p]);
    }
}

// ---- a function

// Its name.
pub fn put_name(table: &mut [u8], q: usize, name: &[u8])
    requires { (table_size connection_count ≤ length table.old) × (q < function_count) × (length name.now ≤ name_size) }
    ensures { table.new ≡ put (names_at + name_size * q) (fit name_size name.now) table.old }
{
    table_texts::put_text(table, NAMES_AT + NAME_SIZE * q, NAME_SIZE, name);
}

// Its place, when it is forgotten.
pub fn put_forgotten(table: &mut [u8], q: usize)
    requires { (table_size connection_count ≤ length table.old) × (q < function_count) }
    ensures { table.new ≡ laid_forgotten q table.old }
{
    table_little::put4(table, ABLE_AT + 4 * q, 0);
    table_texts::put_text(table, NAMES_AT + NAME_SIZE * q, NAME_SIZE, b"");
}

// Its set, if it is wanted, or its place at zero.
fn put_function(table: &mut [u8], q: usize, wanted: bool, set: u32)
    requires { (table_size connection_count ≤ length table.old) × (q < function_count) }
    ensures { table.new ≡ laid_function wanted set q table.old }
{
    if wanted {
        table_little::put4(table, ABLE_AT + 4 * q, set);
    } else {
        put_forgotten(table, q);
    }
}

// All functions.
fn put_functions(table: &mut [u8], wanted: [bool; FUNCTIONS], able: [u32; FUNCTIONS])
    requires { table_size connection_count ≤ length table.old }
    ensures { table.new ≡ laid_functions wanted able table.old }
{
    for q in 0..FUNCTIONS {
        put_function(table, q, wanted[q], able[q]);
    }
}

// ---- a connection

// Its flags.
pub fn put_flags(table: &mut [u8], c: usize, x: Connection)
    requires { (table_size connection_count ≤ length table.old) × (c < connection_count) }
    ensures { table.new ≡ laid_flags c x table.old }
{
    put_flag(table, OPENED_AT + c, x.opened);
    put_flag(table, ASLEEP_AT + c, x.asleep);
    put_flag(table, EXCEPTIONS_AT + c, x.exceptions);
}

// Its client id.
pub fn put_id(table: &mut [u8], c: usize, id: &[u8])
    requires { (table_size connection_count ≤ length table.old) × (c < connection_count) × (length id.now ≤ id_size) }
    ensures { table.new ≡ put (ids_at connection_count + id_size * c) (fit id_size id.now) table.old }
{
    table_texts::put_text(table, IDS_AT + ID_SIZE * c, ID_SIZE, id);
}

// All connections.
fn put_connections(table: &mut [u8], connections: [Connection; CONNECTIONS])
    requires { table_size connection_count ≤ length table.old }
    ensures { table.new ≡ laid_connections connections table.old }
{
    for c in 0..CONNECTIONS {
        put_flags(table, c, connections[c]);
    }
}

// ---- changes of texts

// The texts of a new job: its function's name, its unique, `0` and `0`.
pub fn put_new(table: &mut [u8], p: usize, q: usize, name: &[u8], unique: &[u8])
    requires { (table_size connection_count ≤ length table.old) × (p < job_count) × (q < function_count) × (length name.now ≤ name_size) × (length unique.now ≤ unique_size) }
    ensures { table.new ≡ laid_numbers p (48 ∷ []) (48 ∷ []) (put (uniques_at + unique_size * p) (fit unique_size unique.now)
        (put (names_at + name_size * q) (fit name_size name.now) table.old)) }
{
    put_name(table, q, name);
    table_texts::put_text(table, UNIQUES_AT + UNIQUE_SIZE * p, UNIQUE_SIZE, unique);
    put_numbers(table, p, b"0", b"0");
}

// `0` and `0` for a job that the connection holds.
fn put_zeros(table: &mut [u8], p: usize, row: JobRow, c: usize)
    requires { (table_size connection_count ≤ length table.old) × (p < job_count) × (c < connection_count) }
    ensures { table.new ≡ laid_zeros (held_by c row) p table.old }
{
    let holder = (c + 1) as u16;
    if (row.serial != 0) & (row.holder == holder) {
        put_numbers(table, p, b"0", b"0");
    }
}

// The same for all jobs, when the connection leaves.
fn reset_held(table: &mut [u8], c: usize)
    requires { (table_size connection_count ≤ length table.old) × (c < connection_count) }
    ensures { table.new ≡ laid_returned c (rows_of (table_of connection_count table.old)) table.old }
{
    let rows = table_rows::read_rows(table);
    for p in 0..JOBS {
        put_zeros(table, p, rows[p], c);
    }
}

// The texts when a connection leaves: `0` and `0` for the jobs that it held, and no client id.
pub fn put_left(table: &mut [u8], c: usize)
    requires { (table_size connection_count ≤ length table.old) × (c < connection_count) }
    ensures { table.new ≡ put (ids_at connection_count + id_size * c) (fit id_size []) (laid_returned c (rows_of (table_of connection_count table.old)) table.old) }
{
    reset_held(table, c);
    put_id(table, c, b"");
}

// ---- the end of an event that settles all numbers

// Settles the numbers and writes every place.
pub fn finish(table: &mut [u8], v: Values)
    requires { table_size connection_count ≤ length table.old }
    ensures { table.new ≡ written (settled_values v) table.old }
{
    let u = plan_settle::settled(v);
    let rows = u.rows;
    let able = u.able;
    let connections = u.connections;
    table_little::put4(table, LAST_AT, u.last);
    put_jobs(table, rows);
    let wanted = plan_settle::wanted(able, rows);
    put_functions(table, wanted, able);
    put_connections(table, connections);
}
