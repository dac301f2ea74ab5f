// A step and its ending written where they lie in the table's lent bytes: one row, one connection, one set, the last serial, one free
// place; the flags of those that wake, and the place of a forgotten function. And the workloads after a step. An inner crate: its
// callers lend a table's bytes and a step inside it, and it refuses nothing.
#![tactic(auto)]

ghost use Rattle.std.specs.Prelude.{◌≡◌, true, false, map, ◌+◌, ◌≤◌, ◌<◌, length, set};
ghost use Rattle.octets.specs.Put.{put};
ghost use Rattle.lists.specs.Lists.{concat, numbers};
ghost use Rattle.server.specs.Sizes.{connection_count, function_count, job_count, workload_size, workloads_size};
ghost use Rattle.server.specs.Layout.{bytes_of, flag_byte, little, table_of, table_size};
ghost use Rattle.server.specs.Call.{is_sound, place_of};
ghost use Rattle.plan.specs.Values.{values_of};
ghost use Rattle.plan.specs.Parts.{changed, final_table};
ghost use Rattle.carry_whole.specs.Fitting.{Fitting};
ghost use Rattle.carry_workloads.specs.Reworked.{reworked_rows};
ghost use Rattle.plan.specs.Steps.{Inside, Lean, Within, is_lean};
ghost use Rattle.plan.specs.Steps as S;
ghost use Rattle.carry_places.specs.Laying.{laid_each, laid_flags, laid_row};
ghost use Rattle.carry_step.specs.Laying.{laid_ending, laid_if_woken, laid_step};

use plan::{Change, Ending, Step};
use server::{ABLE_AT, ASLEEP_AT, CONNECTIONS, Connection, JobRow, LAST_AT};

// ---- a step

// A job held by a connection, which is awake.
fn put_grab(table: &mut [u8], p: usize, row: JobRow, c: usize, x: Connection)
    requires { (table_size connection_count ≤ length table.old) × (p < job_count) × (c < connection_count) }
    ensures { table.new ≡ laid_row p row (laid_flags c x table.old) }
{
    carry_places::put_flags(table, c, x);
    carry_places::put_row(table, p, row);
}

// A new job, whose serial is the last one.
fn put_new(table: &mut [u8], p: usize, row: JobRow)
    requires { (table_size connection_count ≤ length table.old) × (p < job_count) }
    ensures { table.new ≡ laid_row p row (put 0 (little 4 row.serial) table.old) }
{
    table_little::put4(table, LAST_AT, row.serial);
    carry_places::put_row(table, p, row);
}

// A lean step.
#[tactic(auto, using(crate::proofs::Ends::ended_inside), unfolding(crate::specs::Laying::laid_step))]
fn put_step(table: &mut [u8], step: Step)
    requires { (table_size connection_count ≤ length table.old) × Inside step }
    ensures { table.new ≡ laid_step step table.old }
{
    match step {
        Step::Nothing | Step::Reset { .. } | Step::Leave { .. } => {}
        Step::Row { place, row } => carry_places::put_row(table, place, row),
        Step::End { place } => carry_places::put_free(table, place),
        Step::Grab {
            place,
            row,
            connection,
            flags,
        } => put_grab(table, place, row, connection, flags),
        Step::New { place, row } => put_new(table, place, row),
        Step::Flags { connection, flags } => carry_places::put_flags(table, connection, flags),
        Step::Able { function, set } => table_little::put4(table, ABLE_AT + 4 * function, set),
    }
}

// ---- an ending

// One connection awake, if it belongs to the set.
fn put_if_woken(table: &mut [u8], woken: u32, c: usize)
    requires { (table_size connection_count ≤ length table.old) × (c < connection_count) }
    ensures { table.new ≡ laid_if_woken woken c table.old }
{
    if sets::has(woken, c) {
        carry_places::put_flag(table, ASLEEP_AT + c, false);
    }
}

// All connections of the set awake; nothing is written for the empty one.
fn put_awake(table: &mut [u8], woken: u32)
    requires { table_size connection_count ≤ length table.old }
    ensures { table.new ≡ laid_each (laid_if_woken woken) 0 connection_count table.old }
{
    if woken != 0 {
        for c in 0..CONNECTIONS {
            put_if_woken(table, woken, c);
        }
    }
}

// An ending.
fn put_ending(table: &mut [u8], ending: Ending)
    requires { (table_size connection_count ≤ length table.old) × Within function_count ending.forgotten }
    ensures { table.new ≡ laid_ending ending table.old }
{
    put_awake(table, ending.woken);
    if let Some(q) = ending.forgotten {
        carry_places::put_forgotten(table, q);
    }
}

// Leaves the table that a lean step, its change and its ending make.
pub fn carry(
    table: &mut [u8],
    step: Step,
    ending: Ending,
    change: Change,
    first: &[u8],
    second: &[u8],
    third: &[u8],
)
    requires { (is_sound connection_count table.old ≡ true) × (table_size connection_count ≤ length table.old) × Fitting change first.now second.now third.now × Inside step
        × (ending ≡ S.ending step (values_of (table_of connection_count table.old)))
        × Lean step (table_of connection_count table.old) (changed change first.now second.now third.now (table_of connection_count table.old)) }
    ensures { table.new ≡ put 0 (bytes_of (final_table (S.stepped step (values_of (table_of connection_count table.old)))
        (changed change first.now second.now third.now (table_of connection_count table.old)))) table.old }
{
    carry_whole::change_texts(table, change, first, second, third);
    put_step(table, step);
    put_ending(table, ending);
}

// ---- the workloads

// One place of the workloads, whose job has the row `after` now.
fn rework_row(workloads: &mut [u8], table: &[u8], p: usize, after: JobRow, opaque: &[u8])
    requires { (workloads_size ≤ length workloads.old) × (table_size connection_count ≤ length table.now) × (length opaque.now ≤ workload_size) × (p < job_count) }
    ensures { workloads.new ≡ put 0 (concat (reworked_rows (values_of (table_of connection_count table.now)).rows (set (values_of (table_of connection_count table.now)).rows p after)
        opaque.now (map (place_of workloads.old) (numbers 0 job_count)))) workloads.old }
{
    let before = table_rows::row_at(table, p);
    carry_workloads::rework_place(workloads, p, before.serial, after.serial, opaque);
}

// The workloads after a lean step, from the table before it.
pub fn rework(workloads: &mut [u8], table: &[u8], step: Step, opaque: &[u8])
    requires { (workloads_size ≤ length workloads.old) × (table_size connection_count ≤ length table.now) × (length opaque.now ≤ workload_size) × Inside step × (is_lean step ≡ true) }
    ensures { workloads.new ≡ put 0 (concat (reworked_rows (values_of (table_of connection_count table.now)).rows (S.stepped step (values_of (table_of connection_count table.now))).rows
        opaque.now (map (place_of workloads.old) (numbers 0 job_count)))) workloads.old }
{
    match step {
        Step::Row { place, row } | Step::Grab { place, row, .. } | Step::New { place, row } => {
            rework_row(workloads, table, place, row, opaque)
        }
        Step::End { place } => rework_row(workloads, table, place, server::no_row(), opaque),
        Step::Nothing
        | Step::Flags { .. }
        | Step::Able { .. }
        | Step::Reset { .. }
        | Step::Leave { .. } => {}
    }
}
