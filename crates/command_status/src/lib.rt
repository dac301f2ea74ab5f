// The answer to `status`, laid over a lent text: a line for each known function, and a line with a period. Each function that lays
// returns the place after what it laid. An inner crate: its callers lend a table that obeys the rules and see to the room, and nothing is
// refused.
#![tactic(auto)]

ghost use Rattle.std.specs.Prelude.{◌≡◌, cond, true, ◌++◌, map, ◌+◌, ◌≤◌, length};
ghost use Rattle.octets.specs.Put.{put};
ghost use Rattle.handle.specs.Handle.{decimal};
ghost use Rattle.lists.specs.Lists.{concat, filter};
ghost use Rattle.server.specs.Sizes.{connection_count, function_count};
ghost use Rattle.server.specs.Layout.{table_of, table_size};
ghost use Rattle.server.specs.Call.{is_sound};
ghost use Rattle.command.specs.Texts.{status_line, status_text, tab};
ghost use Rattle.command_order.specs.Listing.{listed};
ghost use Rattle.command_status.specs.Counts.{counted, counts_text};

use command_order::Listing;
use server::{JOBS, JobRow};

// ---- counts

// Whether the row is a job of the function at place `q`; a held one, if only held ones are asked for.
fn is_counted(row: JobRow, q: usize, held: bool) -> bool
    ensures { result ≡ counted held q row }
{
    ((row.serial != 0) & (row.function as usize == q)) & (!held | (row.holder != 0))
}

// How many of the jobs are of the function at place `q`; of the held ones, if only they are asked for.
fn count_jobs(rows: [JobRow; JOBS], q: usize, held: bool) -> u32
    ensures { result ≡ length (filter (counted held q) rows) }
{
    rows.iter().filter(|row| is_counted(**row, q, held)).count() as u32
}

// ---- lines

// Lays a count after a tab.
fn put_count(out: &mut [u8], at: usize, count: u32) -> usize
    requires { at + length (tab ++ decimal count) ≤ length out.old }
    ensures { (result ≡ at + length (tab ++ decimal count)) × (out.new ≡ put at (tab ++ decimal count) out.old) }
{
    let place = octets::put(out, at, b"\t");
    prints::put_number(out, place, count)
}

// Lays three counts, each after a tab, and a line feed.
fn put_counts(out: &mut [u8], at: usize, jobs: u32, held: u32, able: u32) -> usize
    requires { at + length (counts_text jobs held able) ≤ length out.old }
    ensures { (result ≡ at + length (counts_text jobs held able)) × (out.new ≡ put at (counts_text jobs held able) out.old) }
{
    let second = put_count(out, at, jobs);
    let third = put_count(out, second, held);
    let end = put_count(out, third, able);
    octets::put(out, end, b"\n")
}

// Lays the line of the function at place `q`: its name, its unfinished jobs, its held ones, and the connections able to do it.
fn put_line(out: &mut [u8], at: usize, table: &[u8], q: usize) -> usize
    requires { (table_size connection_count ≤ length table.now) × (is_sound connection_count table.now ≡ true)
        × (at + length (status_line (table_of connection_count table.now) q) ≤ length out.old) }
    ensures { (result ≡ at + length (status_line (table_of connection_count table.now) q))
        × (out.new ≡ put at (status_line (table_of connection_count table.now) q) out.old) }
{
    let rows = table_rows::read_rows(table);
    let jobs = count_jobs(rows, q, false);
    let held = count_jobs(rows, q, true);
    let able = u32::count_ones(table_rows::able_at(table, q));
    let place = prints::put_printed(out, at, command_order::name_at(table, q));
    put_counts(out, place, jobs, held, able)
}

// Lays the lines of the functions that are listed.
fn put_lines(out: &mut [u8], at: usize, table: &[u8], listing: Listing) -> usize
    requires { (table_size connection_count ≤ length table.now) × (is_sound connection_count table.now ≡ true) × (listing.count ≤ function_count)
        × (at + length (concat (map (status_line (table_of connection_count table.now)) (listed listing))) ≤ length out.old) }
    ensures { (result ≡ at + length (concat (map (status_line (table_of connection_count table.now)) (listed listing))))
        × (out.new ≡ put at (concat (map (status_line (table_of connection_count table.now)) (listed listing))) out.old) }
{
    let mut place = at;
    for q in listing.known() {
        place = put_line(out, place, table, *q);
    }
    place
}

// Lays the answer to `status`.
pub fn put_status(out: &mut [u8], at: usize, table: &[u8]) -> usize
    requires { (table_size connection_count ≤ length table.now) × (is_sound connection_count table.now ≡ true)
        × (at + length (status_text (table_of connection_count table.now)) ≤ length out.old) }
    ensures { (result ≡ at + length (status_text (table_of connection_count table.now)))
        × (out.new ≡ put at (status_text (table_of connection_count table.now)) out.old) }
{
    let listing = command_order::in_order(table);
    let end = put_lines(out, at, table, listing);
    octets::put(out, end, b".\n")
}
