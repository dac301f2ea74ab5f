// How the table stands after an event, in words laid over a lent text: who is asleep, the jobs that are gone, and a job with its marks,
// its holder and its listeners. A job is named by its handle at the hub, whose name the callers give. Each function returns the place after
// what it laid. An inner crate: its callers see to the room, and no table is refused.
#![tactic(auto)]

ghost use Rattle.std.specs.Prelude.{◌≡◌, ◌+◌, ◌≤◌, ◌<◌, cond, true, [], ◌++◌, length, get_or};
ghost use Rattle.octets.specs.Put.{put};
ghost use Rattle.sets.specs.Sets.{has};
ghost use Rattle.handle.specs.Handle.{decimal, handle, is_hub_name};
ghost use Rattle.server.specs.Sizes.{connection_count};
ghost use Rattle.server.specs.Table.{closed, live};
ghost use Rattle.show_names.specs.Names.{space};
ghost use Rattle.show_table.specs.Standing.{absent_text, connections_text, each, gone_one, gone_text, handle_line, holder_text, holder_word, job_text, jobs_text, listeners_word, marks_text, serial_text, sleepers_text};

use handle::HANDLE_MOST;
use server::{CONNECTIONS, Connection, JOBS, JobRow};

// Room for who sleeps, for all jobs, and for those that are gone: a space and two digits for each connection, the handles, and the words.
pub const SLEEPERS_ROOM: usize = 3 * CONNECTIONS + 11;

pub const JOBS_ROOM: usize = (3 * CONNECTIONS + 57 + HANDLE_MOST) * JOBS;

pub const GONE_ROOM: usize = (13 + HANDLE_MOST) * JOBS;

// Lays a word, if it is shown.
fn put_if(out: &mut [u8], at: usize, shown: bool, word: &[u8]) -> usize
    requires { at + length (cond shown word.now []) ≤ length out.old }
    ensures { (result ≡ at + length (cond shown word.now [])) × (out.new ≡ put at (cond shown word.now []) out.old) }
{
    if shown {
        return octets::put(out, at, word);
    }
    at
}

// ---- connections

// Lays a connection's number after a space, if it is one of those that are shown.
fn put_one(out: &mut [u8], at: usize, shown: bool, c: usize) -> usize
    requires { (c < connection_count) × (at + length (cond shown (space ++ decimal c) []) ≤ length out.old) }
    ensures { (result ≡ at + length (cond shown (space ++ decimal c) [])) × (out.new ≡ put at (cond shown (space ++ decimal c) []) out.old) }
{
    if shown {
        let place = octets::put(out, at, b" ");
        return prints::put_number(out, place, c as u32);
    }
    at
}

// Lays the connections that are asleep, in rising order.
fn put_asleep(out: &mut [u8], at: usize, connections: [Connection; CONNECTIONS]) -> usize
    requires { at + length (each (λ c. (get_or connections c closed).asleep) connection_count) ≤ length out.old }
    ensures { (result ≡ at + length (each (λ c. (get_or connections c closed).asleep) connection_count)) × (out.new ≡ put at (each (λ c. (get_or connections c closed).asleep) connection_count) out.old) }
{
    let mut place = at;
    for c in 0..CONNECTIONS {
        let connection = connections[c];
        place = put_one(out, place, connection.asleep, c);
    }
    place
}

// Lays the connections of a set, in rising order.
fn put_members(out: &mut [u8], at: usize, set: u32) -> usize
    requires { at + length (each (has set) connection_count) ≤ length out.old }
    ensures { (result ≡ at + length (each (has set) connection_count)) × (out.new ≡ put at (each (has set) connection_count) out.old) }
{
    let mut place = at;
    for c in 0..CONNECTIONS {
        place = put_one(out, place, sets::has(set, c), c);
    }
    place
}

// Lays who is asleep.
pub fn put_sleepers(out: &mut [u8], at: usize, connections: [Connection; CONNECTIONS]) -> usize
    requires { at + length (sleepers_text connection_count connections) ≤ length out.old }
    ensures { (result ≡ at + length (sleepers_text connection_count connections)) × (out.new ≡ put at (sleepers_text connection_count connections) out.old) }
{
    let list = octets::put(out, at, b"\n    asleep");
    let place = put_asleep(out, list, connections);
    put_if(out, place, place == list, b" none")
}

// ---- one job

// Lays the handle of a serial.
fn put_handle(out: &mut [u8], at: usize, hub: &[u8], serial: u32) -> usize
    requires { (is_hub_name hub.now ≡ true) × (at + length (handle hub.now serial) ≤ length out.old) }
    ensures { (result ≡ at + length (handle hub.now serial)) × (out.new ≡ put at (handle hub.now serial) out.old) }
{
    let printed = handle::handle_of(hub, serial);
    let text = printed.text;
    octets::put(out, at, &text[..printed.length])
}

// Lays a line with a word and the handle of a serial.
fn put_handle_line(out: &mut [u8], at: usize, hub: &[u8], word: &[u8], serial: u32) -> usize
    requires { (is_hub_name hub.now ≡ true) × (at + length (handle_line hub.now word.now serial) ≤ length out.old) }
    ensures { (result ≡ at + length (handle_line hub.now word.now serial)) × (out.new ≡ put at (handle_line hub.now word.now serial) out.old) }
{
    let start = octets::put(out, at, b"\n    ");
    let place = octets::put(out, start, word);
    put_handle(out, place, hub, serial)
}

// Lays a row's marks: a priority that is not normal, and the background.
fn put_marks(out: &mut [u8], at: usize, row: JobRow) -> usize
    requires { at + length (marks_text row) ≤ length out.old }
    ensures { (result ≡ at + length (marks_text row)) × (out.new ≡ put at (marks_text row) out.old) }
{
    let high = put_if(out, at, row.priority == 0, b" low");
    let background = put_if(out, high, row.priority == 2, b" high");
    put_if(out, background, row.background, b" background")
}

// Lays a row's holder.
fn put_holder(out: &mut [u8], at: usize, holder: u16) -> usize
    requires { at + length (holder_word ++ holder_text holder) ≤ length out.old }
    ensures { (result ≡ at + length (holder_word ++ holder_text holder)) × (out.new ≡ put at (holder_word ++ holder_text holder) out.old) }
{
    if holder == 0 {
        return octets::put(out, at, b" holder none");
    }
    let place = octets::put(out, at, b" holder ");
    prints::put_number(out, place, (holder - 1) as u32)
}

// Lays a row's listeners.
fn put_listeners(out: &mut [u8], at: usize, listeners: u32) -> usize
    requires { at + length (listeners_word ++ connections_text (has listeners) connection_count) ≤ length out.old }
    ensures { (result ≡ at + length (listeners_word ++ connections_text (has listeners) connection_count)) × (out.new ≡ put at (listeners_word ++ connections_text (has listeners) connection_count) out.old) }
{
    let list = octets::put(out, at, b" listeners");
    let place = put_members(out, list, listeners);
    put_if(out, place, place == list, b" none")
}

// Lays the job of a row: its handle, its marks, its holder, its listeners.
fn put_job(out: &mut [u8], at: usize, hub: &[u8], row: JobRow) -> usize
    requires { (is_hub_name hub.now ≡ true) × (at + length (job_text hub.now connection_count row) ≤ length out.old) }
    ensures { (result ≡ at + length (job_text hub.now connection_count row)) × (out.new ≡ put at (job_text hub.now connection_count row) out.old) }
{
    let marks = put_handle_line(out, at, hub, b"job ", row.serial);
    let holder = put_marks(out, marks, row);
    let listeners = put_holder(out, holder, row.holder);
    put_listeners(out, listeners, row.listeners)
}

// Lays a line with a word and the handle of a serial, if no unfinished job of the rows has it.
fn put_absent(
    out: &mut [u8],
    at: usize,
    hub: &[u8],
    word: &[u8],
    rows: [JobRow; JOBS],
    serial: u32,
) -> usize
    requires { (is_hub_name hub.now ≡ true) × (at + length (absent_text hub.now word.now serial rows) ≤ length out.old) }
    ensures { (result ≡ at + length (absent_text hub.now word.now serial rows)) × (out.new ≡ put at (absent_text hub.now word.now serial rows) out.old) }
{
    let place = plan_search::serial_row(rows, serial);
    match place {
        Some(p) => at,
        None => put_handle_line(out, at, hub, word, serial),
    }
}

// Lays the unfinished job of a serial; that there is none, if there was none before the event either.
pub fn put_job_of(
    out: &mut [u8],
    at: usize,
    hub: &[u8],
    before: [JobRow; JOBS],
    after: [JobRow; JOBS],
    serial: u32,
) -> usize
    requires { (is_hub_name hub.now ≡ true) × (at + length (serial_text hub.now connection_count serial before after) ≤ length out.old) }
    ensures { (result ≡ at + length (serial_text hub.now connection_count serial before after))
        × (out.new ≡ put at (serial_text hub.now connection_count serial before after) out.old) }
{
    let place = plan_search::serial_row(after, serial);
    match place {
        Some(p) => put_job(out, at, hub, plan_rows::row_at(after, p)),
        None => put_absent(out, at, hub, b"no job ", before, serial),
    }
}

// ---- all jobs

// Lays the job of a row, if the row is not free.
fn put_row(out: &mut [u8], at: usize, hub: &[u8], row: JobRow) -> usize
    requires { (is_hub_name hub.now ≡ true) × (at + length (cond (live row) (job_text hub.now connection_count row) []) ≤ length out.old) }
    ensures { (result ≡ at + length (cond (live row) (job_text hub.now connection_count row) []))
        × (out.new ≡ put at (cond (live row) (job_text hub.now connection_count row) []) out.old) }
{
    if plan_search::is_live(row) {
        return put_job(out, at, hub, row);
    }
    at
}

// Lays every unfinished job, in the order of the places.
pub fn put_jobs(out: &mut [u8], at: usize, hub: &[u8], rows: [JobRow; JOBS]) -> usize
    requires { (is_hub_name hub.now ≡ true) × (at + length (jobs_text hub.now connection_count rows) ≤ length out.old) }
    ensures { (result ≡ at + length (jobs_text hub.now connection_count rows)) × (out.new ≡ put at (jobs_text hub.now connection_count rows) out.old) }
{
    let mut place = at;
    for p in 0..JOBS {
        place = put_row(out, place, hub, rows[p]);
    }
    place
}

// Lays a word and the handle of a row's job, if none of the rows after the event has its serial.
fn put_gone_row(
    out: &mut [u8],
    at: usize,
    hub: &[u8],
    word: &[u8],
    after: [JobRow; JOBS],
    row: JobRow,
) -> usize
    requires { (is_hub_name hub.now ≡ true) × (at + length (gone_one hub.now word.now after row) ≤ length out.old) }
    ensures { (result ≡ at + length (gone_one hub.now word.now after row)) × (out.new ≡ put at (gone_one hub.now word.now after row) out.old) }
{
    if plan_search::is_live(row) {
        return put_absent(out, at, hub, word, after, row.serial);
    }
    at
}

// Lays every job that stood in the table before the event and is gone after it, in the order of the places.
pub fn put_gone(
    out: &mut [u8],
    at: usize,
    hub: &[u8],
    word: &[u8],
    before: [JobRow; JOBS],
    after: [JobRow; JOBS],
) -> usize
    requires { (is_hub_name hub.now ≡ true) × (at + length (gone_text hub.now word.now before after) ≤ length out.old) }
    ensures { (result ≡ at + length (gone_text hub.now word.now before after))
        × (out.new ≡ put at (gone_text hub.now word.now before after) out.old) }
{
    let mut place = at;
    for q in 0..JOBS {
        place = put_gone_row(out, place, hub, word, after, before[q]);
    }
    place
}
