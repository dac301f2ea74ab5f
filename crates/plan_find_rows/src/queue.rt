// The walk over the rows for the job that a connection is given: of the highest priority, then of the lowest serial. Rows lie by place, so
// that no job is the answer before those that follow it were compared. A job's function is asked for only where the job is better than the
// best so far, and eight rows are passed at once where none of them is.
ghost use Rattle.std.specs.Prelude.{◌≡◌, ◌+◌, ◌<◌, ◌≤◌, length, get_or};
ghost use Rattle.sets.specs.Sets.{has};
ghost use Rattle.lists.specs.Lists.{all, numbers};
ghost use Rattle.server.specs.Sizes.{connection_count, job_count};
ghost use Rattle.server.specs.Table.{queued, ables_of};
ghost use Rattle.server.specs.Layout.{row_in, table_of, table_size};
ghost use Rattle.plan_find_rows.specs.Queue.{BestOf, rank_of, stays_behind};

use server::{FUNCTIONS_AT, PRIORITIES_AT, SERIALS_AT};

// The best job of the rows passed: its place, and its rank, which is 0 where there is none. The rank stands beside the Option and not in it:
// 0 lies below every queued job's, so that one comparison serves each row and nothing is tested twice.
#[derive(Clone, Copy)]
pub struct Best {
    pub place: Option<usize>,
    pub rank: u64,
}

// ---- one row

// Whether a queued job stands at place p.
fn is_queued(table: &[u8], p: usize) -> bool
    requires { (table_size connection_count ≤ length table.now) × (p < job_count) }
    ensures { result ≡ queued (row_in connection_count table.now p) }
{
    (table_fields::serial(table, p) != 0) & (table_fields::holder(table, p) == 0)
}

// How soon the job at place p is given: the greatest first.
fn rank(table: &[u8], p: usize) -> u64
    requires { (table_size connection_count ≤ length table.now) × (p < job_count) }
    ensures { result ≡ rank_of (row_in connection_count table.now p) }
{
    let priority = octets::wide(table[PRIORITIES_AT + p]);
    priority as u64 * 4294967296 + (4294967296 - table_fields::serial(table, p) as u64)
}

// Whether connection c can do the function of the job at place p.
fn is_able(table: &[u8], p: usize, c: usize) -> bool
    requires { (table_size connection_count ≤ length table.now) × (p < job_count) × (c < connection_count) }
    ensures { result ≡ has (get_or (ables_of (table_of connection_count table.now)) (row_in connection_count table.now p).function 0) c }
{
    let function = octets::wide(table[FUNCTIONS_AT + p]);
    sets::has(table_rows::able_at(table, function as usize), c)
}

// The best with the row at place p.
fn next_row(v: Best, table: &[u8], p: usize, c: usize) -> Best
    requires { (table_size connection_count ≤ length table.now) × (p < job_count) × (c < connection_count) × BestOf table.now c p v }
    ensures { BestOf table.now c (p + 1) result }
{
    if !is_queued(table, p) {
        return v;
    }
    let k = rank(table, p);
    if k <= v.rank {
        return v;
    }
    if is_able(table, p, c) {
        return Best {
            place: Some(p),
            rank: k,
        };
    }
    v
}

// ---- eight rows

// The best with the eight rows from place p on.
fn next_rows(start: Best, table: &[u8], p: usize, c: usize) -> Best
    requires { (table_size connection_count ≤ length table.now) × (p + 8 ≤ job_count) × (c < connection_count) × BestOf table.now c p start }
    ensures { BestOf table.now c (p + 8) result }
{
    let mut v = start;
    for i in p..p + 8 {
        v = next_row(v, table, i, c);
    }
    v
}

// Whether none of the eight rows from place p on goes before a job of this priority and serial: the priority is lower, or the same and
// the serial is no lower.
fn none_before(table: &[u8], p: usize, priority: u8, serial: u32) -> bool
    requires { (table_size connection_count ≤ length table.now) × (p + 8 ≤ job_count) }
    ensures { result ≡ all (λ k. stays_behind priority serial (row_in connection_count table.now (p + k))) (numbers 0 8) }
{
    let mut ok = true;
    for k in 0..8 {
        let x = table[PRIORITIES_AT + (p + k)];
        ok = ok
            & ((x < priority) | ((x == priority) & (serial <= table_fields::serial(table, p + k))));
    }
    ok
}

// The same as `next_rows`; eight free rows, and eight of which none goes before the best so far, are passed at once.
pub fn next_group(v: Best, table: &[u8], p: usize, c: usize) -> Best
    requires { (table_size connection_count ≤ length table.now) × (p + 8 ≤ job_count) × (c < connection_count) × BestOf table.now c p v }
    ensures { BestOf table.now c (p + 8) result }
{
    if check_image::zeros(table, SERIALS_AT + 4 * p, 32) {
        return v;
    }
    let place = v.place;
    if let Some(i) = place {
        if none_before(
            table,
            p,
            table[PRIORITIES_AT + i],
            table_fields::serial(table, i),
        ) {
            return v;
        }
    }
    next_rows(v, table, p, c)
}
