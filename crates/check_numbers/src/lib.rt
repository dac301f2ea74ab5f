// What refusal 1 asks of numbers that belong together: serials below the last one and distinct, functions known exactly if they are wanted,
// abilities, listeners, holders, options and sleep only on open connections, and no sleeper with a grabbable job. The sets that they speak
// of come from `check_survey`. An inner crate: its callers lend all of the table, and have tried flags and each row by itself.
#![tactic(auto)]

ghost use Rattle.std.specs.Prelude.{◌≡◌, cond, true, ◌&&◌, ◌+◌, ◌≤◌, ◌*◌, ◌^◌, length, ltb};
ghost use Rattle.lists.specs.Lists.{all, numbers};
ghost use Rattle.server.specs.Sizes.{connection_count, function_count, job_count};
ghost use Rattle.server.specs.Rules.{functions_as_defined, serials_below, serials_distinct};
ghost use Rattle.server.specs.Layout.{opened_at, table_of, table_size};
ghost use Rattle.table_laws.specs.Tests.{are_flags};
ghost use Rattle.table_passes.specs.Unions.{Joined};
ghost use Rattle.check_rows.specs.Rows.{rows_mean};
ghost use Rattle.check_survey.specs.Surveyed.{Surveyed};
ghost use Rattle.check_numbers.specs.Numbers.{able_if, connection_holds, connection_rules, is_defined, number_rules, serial_below, serial_in};

use check_survey::Survey;
use server::{
    ABLE_AT, ASLEEP_AT, CONNECTIONS, EXCEPTIONS_AT, FUNCTIONS, JOBS, LISTENERS_AT, NAME_SIZE,
    NAMES_AT, OPENED_AT,
};

// ---- serials

// Whether no serial is above the last one given out.
fn serials_below(table: &[u8], last: u32) -> bool
    requires { table_size connection_count ≤ length table.now }
    ensures { result ≡ all (serial_below table.now last) (numbers 0 job_count) }
{
    let mut ok = true;
    for i in 0..JOBS {
        ok = ok & (table_fields::serial(table, i) <= last);
    }
    ok
}

// Whether no two jobs have one serial. Where the residues are distinct, so are the serials: the bits of distinct residues add up to their set.
fn serials_distinct(table: &[u8], v: Survey) -> bool
    requires { (table_size connection_count ≤ length table.now) × Surveyed table.now job_count v }
    ensures { result ≡ serials_distinct (table_of connection_count table.now) }
{
    if u64::from(v.residues) == v.sum {
        return true;
    }
    let w: [u32; 2 * JOBS] = check_rings::twice(|p| table_fields::serial(table, p));
    check_rings::apart(&w, 16, |serial| serial == 0)
}

// Whether the serials are at most the last one, and distinct.
fn serials_hold(table: &[u8], v: Survey) -> bool
    requires { (table_size connection_count ≤ length table.now) × Surveyed table.now job_count v }
    ensures { result ≡ serials_below (table_of connection_count table.now) && serials_distinct (table_of connection_count table.now) }
{
    serials_below(table, table_little::number4(table, 0)) && serials_distinct(table, v)
}

// ---- connections and functions

// The set, if the function is one of a queued job.
fn able_if(queued: bool, able: u32) -> u32
    ensures { result ≡ cond queued able 0 }
{
    if queued { able } else { 0 }
}

// The connections able to do the function of a queued job.
fn busy(table: &[u8], queued: u32) -> u32
    requires { table_size connection_count ≤ length table.now }
    ensures { Joined (able_if table.now queued) function_count result }
{
    let mut s = 0;
    for q in 0..FUNCTIONS {
        s = sets::union(
            s,
            able_if(sets::has(queued, q), table_fields::able(table, q)),
        );
    }
    s
}

// One more than the greatest set of connections.
const SETS: u64 = 1 << CONNECTIONS;

// Whether each connection that is used, sleeps or has the option is open, and no sleeper is one of the busy ones.
fn connections_hold(table: &[u8], used: u32, busy: u32) -> bool
    requires { table_size connection_count ≤ length table.now }
    ensures { result ≡ ltb used (2 ^ connection_count) && all (connection_holds table.now used busy) (numbers 0 connection_count) }
{
    let mut ok = true;
    for c in 0..CONNECTIONS {
        let awake = table[ASLEEP_AT + c] == 0;
        let unused = (awake & (table[EXCEPTIONS_AT + c] == 0)) & !sets::has(used, c);
        ok = ok & (((table[OPENED_AT + c] != 0) | unused) & (awake | !sets::has(busy, c)));
    }
    (u64::from(used) < SETS) & ok
}

// Whether a place has a name exactly if some connection can do its function or a job names it.
fn functions_defined(table: &[u8], named: u32) -> bool
    requires { table_size connection_count ≤ length table.now }
    ensures { result ≡ all (is_defined table.now named) (numbers 0 function_count) }
{
    let mut ok = true;
    for q in 0..FUNCTIONS {
        let wanted = (table_fields::able(table, q) != 0) | sets::has(named, q);
        ok = ok & ((table[NAMES_AT + NAME_SIZE * q] != 0) == wanted);
    }
    ok
}

// Whether the rules of connections and functions hold, where those of each row do.
fn sets_hold(table: &[u8], v: Survey) -> bool
    requires { (table_size connection_count ≤ length table.now) × (are_flags (3 * connection_count) table.now (opened_at connection_count) ≡ true) × (rows_mean table.now ≡ true) × Surveyed table.now job_count v }
    ensures { result ≡ connection_rules table.now && functions_as_defined (table_of connection_count table.now) }
{
    let listening = table_columns::joined(table, LISTENERS_AT, JOBS);
    let able = table_columns::joined(table, ABLE_AT, FUNCTIONS);
    let used = sets::union(sets::union(listening, able), v.holding);
    let busy_ones = busy(table, v.queued);
    connections_hold(table, used, busy_ones)
        && functions_defined(table, sets::union(v.queued, v.grabbed))
}

// Whether free rows have no unique, and the rules of serials, connections and functions hold, where those of each row do.
pub fn numbers_hold(table: &[u8]) -> bool
    requires { (table_size connection_count ≤ length table.now) × (are_flags (3 * connection_count) table.now (opened_at connection_count) ≡ true) × (rows_mean table.now ≡ true) }
    ensures { result ≡ number_rules table.now }
{
    let v = check_survey::all_surveyed(table);
    v.clear && serials_hold(table, v) && sets_hold(table, v)
}
