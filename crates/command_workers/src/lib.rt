// The answer to `workers`, laid over a lent text: a line for each open connection, and a line with a period. Each function that lays returns
// the place after what it laid. An inner crate: its callers lend the table's bytes and see to the room, and nothing is refused.
#![tactic(auto)]

ghost use Rattle.std.specs.Prelude.{◌≡◌, ◌+◌, ◌<◌, ◌≤◌, length};
ghost use Rattle.octets.specs.Put.{put};
ghost use Rattle.server.specs.Sizes.{connection_count, function_count};
ghost use Rattle.server.specs.Layout.{table_of, table_size};
ghost use Rattle.command.specs.Texts.{workers_text};
ghost use Rattle.command_order.specs.Listing.{listed};
ghost use Rattle.command_workers.specs.Parts.{head_text, line_text, lines_text, name_text, names_text, open_text};

use command_order::Listing;
use server::CONNECTIONS;

// ---- one line

// Lays a function's name after a space, if connection `c` is able to do it.
fn put_name(out: &mut [u8], at: usize, table: &[u8], c: usize, q: usize) -> usize
    requires { (table_size connection_count ≤ length table.now) × (c < connection_count)
        × (at + length (name_text (table_of connection_count table.now) c q) ≤ length out.old) }
    ensures { (result ≡ at + length (name_text (table_of connection_count table.now) c q))
        × (out.new ≡ put at (name_text (table_of connection_count table.now) c q) out.old) }
{
    if sets::has(table_rows::able_at(table, q), c) {
        let place = octets::put(out, at, b" ");
        prints::put_printed(out, place, command_order::name_at(table, q))
    } else {
        at
    }
}

// Lays the names of those functions that are listed and that connection `c` is able to do.
fn put_names(out: &mut [u8], at: usize, table: &[u8], listing: Listing, c: usize) -> usize
    requires { (table_size connection_count ≤ length table.now) × (listing.count ≤ function_count) × (c < connection_count)
        × (at + length (names_text (table_of connection_count table.now) (listed listing) c) ≤ length out.old) }
    ensures { (result ≡ at + length (names_text (table_of connection_count table.now) (listed listing) c))
        × (out.new ≡ put at (names_text (table_of connection_count table.now) (listed listing) c) out.old) }
{
    let mut place = at;
    for q in listing.known() {
        place = put_name(out, place, table, c, *q);
    }
    place
}

// Lays a connection's number, `-` for the address, its client id and a colon.
fn put_head(out: &mut [u8], at: usize, table: &[u8], c: usize) -> usize
    requires { (table_size connection_count ≤ length table.now) × (c < connection_count)
        × (at + length (head_text (table_of connection_count table.now) c) ≤ length out.old) }
    ensures { (result ≡ at + length (head_text (table_of connection_count table.now) c))
        × (out.new ≡ put at (head_text (table_of connection_count table.now) c) out.old) }
{
    let address = prints::put_number(out, at, c as u32);
    let id = octets::put(out, address, b" - ");
    let colon = prints::put_printed_or(out, id, b"-", table_texts::id_at(table, c));
    octets::put(out, colon, b" :")
}

// Lays the line of connection `c`.
fn put_line(out: &mut [u8], at: usize, table: &[u8], listing: Listing, c: usize) -> usize
    requires { (table_size connection_count ≤ length table.now) × (listing.count ≤ function_count) × (c < connection_count)
        × (at + length (line_text (table_of connection_count table.now) (listed listing) c) ≤ length out.old) }
    ensures { (result ≡ at + length (line_text (table_of connection_count table.now) (listed listing) c))
        × (out.new ≡ put at (line_text (table_of connection_count table.now) (listed listing) c) out.old) }
{
    let names = put_head(out, at, table, c);
    let end = put_names(out, names, table, listing, c);
    octets::put(out, end, b"\n")
}

// ---- all lines

// Lays the line of connection `c`, if it is open.
fn put_if_open(out: &mut [u8], at: usize, table: &[u8], listing: Listing, c: usize) -> usize
    requires { (table_size connection_count ≤ length table.now) × (listing.count ≤ function_count) × (c < connection_count)
        × (at + length (open_text (table_of connection_count table.now) (listed listing) c) ≤ length out.old) }
    ensures { (result ≡ at + length (open_text (table_of connection_count table.now) (listed listing) c))
        × (out.new ≡ put at (open_text (table_of connection_count table.now) (listed listing) c) out.old) }
{
    if table_rows::connection_at(table, c).opened {
        put_line(out, at, table, listing, c)
    } else {
        at
    }
}

// Lays the lines of the open connections, in rising order.
fn put_lines(out: &mut [u8], at: usize, table: &[u8], listing: Listing) -> usize
    requires { (table_size connection_count ≤ length table.now) × (listing.count ≤ function_count)
        × (at + length (lines_text (table_of connection_count table.now) (listed listing)) ≤ length out.old) }
    ensures { (result ≡ at + length (lines_text (table_of connection_count table.now) (listed listing)))
        × (out.new ≡ put at (lines_text (table_of connection_count table.now) (listed listing)) out.old) }
{
    let mut place = at;
    for c in 0..CONNECTIONS {
        place = put_if_open(out, place, table, listing, c);
    }
    place
}

// Lays the answer to `workers`.
pub fn put_workers(out: &mut [u8], at: usize, table: &[u8]) -> usize
    requires { (table_size connection_count ≤ length table.now) × (at + length (workers_text (table_of connection_count table.now)) ≤ length out.old) }
    ensures { (result ≡ at + length (workers_text (table_of connection_count table.now)))
        × (out.new ≡ put at (workers_text (table_of connection_count table.now)) out.old) }
{
    let listing = command_order::in_order(table);
    let end = put_lines(out, at, table, listing);
    octets::put(out, end, b".\n")
}
