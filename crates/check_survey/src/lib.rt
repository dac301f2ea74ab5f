// One pass over the rows: what they say of serials, functions and holders, gathered into sets, and whether a free row has a unique. A rule
// of all jobs is then one of a set. Eight free rows are passed at once. An inner crate: it asks that all of the table's bytes are there,
// and refuses nothing.
#![tactic(auto)]

ghost use Rattle.std.specs.Prelude.{◌≡◌, ◌+◌, ◌<◌, ◌≤◌, length};
ghost use Rattle.server.specs.Sizes.{connection_count, job_count};
ghost use Rattle.server.specs.Layout.{table_size};
ghost use Rattle.check_survey.specs.Surveyed.{Surveyed, with_free, with_job};

use server::{FUNCTIONS_AT, JOBS, SERIALS_AT, UNIQUE_SIZE, UNIQUES_AT};

// What the rows passed say: the serials' residues modulo 32, as a set and as the sum of their bits; the functions of queued jobs and of held
// ones; the connections that hold one; and whether no free row has a unique.
#[derive(Clone, Copy)]
pub struct Survey {
    pub residues: u32,
    pub sum: u64,
    pub queued: u32,
    pub grabbed: u32,
    pub holding: u32,
    pub clear: bool,
}

// The survey with a job.
fn with_job(v: Survey, serial: u32, function: u8, holder: u16) -> Survey
    requires { v.sum < 137438953472 }
    ensures { result ≡ with_job v serial function holder }
{
    let residue = sets::insert(0, (serial % 32) as usize);
    let named = sets::insert(0, (function % 32) as usize);
    let residues = sets::union(v.residues, residue);
    let sum = v.sum + u64::from(residue);
    if holder == 0 {
        let queued = sets::union(v.queued, named);
        return Survey {
            residues,
            sum,
            queued,
            ..v
        };
    }
    let grabbed = sets::union(v.grabbed, named);
    let holding = sets::union(v.holding, sets::insert(0, ((holder - 1) % 32) as usize));
    Survey {
        residues,
        sum,
        grabbed,
        holding,
        ..v
    }
}

// The survey with free rows, which have no unique or have one.
fn with_free(v: Survey, clear: bool) -> Survey
    ensures { result ≡ with_free v clear }
{
    Survey {
        clear: v.clear & clear,
        ..v
    }
}

// The survey with the row at place `i`.
fn next_row(v: Survey, table: &[u8], i: usize) -> Survey
    requires { (table_size connection_count ≤ length table.now) × (i < job_count) × Surveyed table.now i v }
    ensures { Surveyed table.now (i + 1) result }
{
    let serial = table_fields::serial(table, i);
    if serial == 0 {
        return with_free(v, table[UNIQUES_AT + UNIQUE_SIZE * i] == 0);
    }
    with_job(
        v,
        serial,
        table[FUNCTIONS_AT + i],
        table_fields::holder(table, i),
    )
}

// The survey with the eight rows from place `p` on.
fn next_rows(start: Survey, table: &[u8], p: usize) -> Survey
    requires { (table_size connection_count ≤ length table.now) × (p + 8 ≤ job_count) × Surveyed table.now p start }
    ensures { Surveyed table.now (p + 8) result }
{
    let mut v = start;
    for i in p..p + 8 {
        v = next_row(v, table, i);
    }
    v
}

// The same; eight free rows are passed at once.
fn next_group(v: Survey, table: &[u8], p: usize) -> Survey
    requires { (table_size connection_count ≤ length table.now) × (p + 8 ≤ job_count) × Surveyed table.now p v }
    ensures { Surveyed table.now (p + 8) result }
{
    if check_image::zeros(table, SERIALS_AT + 4 * p, 32) {
        return with_free(
            v,
            check_image::all_empty(table, UNIQUES_AT + UNIQUE_SIZE * p, UNIQUE_SIZE, 8),
        );
    }
    next_rows(v, table, p)
}

// The survey of all rows. A `for` over the groups was tried and misses the bar of speed: 48 ns with 31 jobs, and 41 so.
pub fn all_surveyed(table: &[u8]) -> Survey
    requires { table_size connection_count ≤ length table.now }
    ensures { Surveyed table.now job_count result }
{
    let mut v = Survey {
        residues: 0,
        sum: 0,
        queued: 0,
        grabbed: 0,
        holding: 0,
        clear: true,
    };
    let mut p = 0;
    while p < JOBS {
        v = next_group(v, table, p);
        p += 8;
    }
    v
}
