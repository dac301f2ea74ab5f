// The known functions of the lent table in rising byte order of name: their places, in an array by value, and how many they are. Names are
// compared where they lie. An inner crate: each function asks its callers that the table lies inside the bytes, and refuses nothing; a
// place beyond the last has no name.
#![tactic(auto)]

ghost use Rattle.std.specs.Prelude.{◌≡◌, cond, ◌+◌, ◌≤◌, ◌<◌, length, take};
ghost use Rattle.server.specs.Sizes.{connection_count, function_count};
ghost use Rattle.server.specs.Table.{function_at};
ghost use Rattle.server.specs.Layout.{table_of, table_size};
ghost use Rattle.command.specs.Order.{before, in_order, is_named, placed};
ghost use Rattle.command_order.specs.Listing.{listed};

use server::{FUNCTIONS, NAME_SIZE, NAMES_AT};

// Places of functions: the first `count` of these. What stands behind them has no meaning.
#[derive(Clone, Copy)]
pub struct Listing {
    pub places: [usize; FUNCTIONS],
    pub count: usize,
}

impl Listing {
    // The places that are listed.
    pub fn known(&self) -> &[usize]
        requires { self.now.count ≤ function_count }
        ensures { result.now ≡ listed self.now }
    {
        &self.places[..self.count]
    }
}

// The name of the function at a place.
pub fn name_at(table: &[u8], q: usize) -> &[u8]
    requires { table_size connection_count ≤ length table.now }
    ensures { result.now ≡ (function_at (table_of connection_count table.now) q).name }
{
    if FUNCTIONS <= q {
        return &table[..0];
    }
    table_texts::text(table, NAMES_AT + NAME_SIZE * q, NAME_SIZE)
}

// The first `count` places with `q` put among them, before the first whose name comes after its own: a hand carries what is to be laid down
// next, `q` first, and from there on each place that gave way.
fn with_place(
    table: &[u8],
    places: [usize; FUNCTIONS],
    count: usize,
    q: usize,
) -> [usize; FUNCTIONS]
    requires { (table_size connection_count ≤ length table.now) × (count < function_count) }
    ensures { take (count + 1) result ≡ placed (table_of connection_count table.now).functions q (take count places) }
{
    let mut next = [0; FUNCTIONS];
    let mut hand = q;
    let mut moved = false;
    for i in 0..count {
        let place = places[i];
        let name = name_at(table, hand);
        let other = name_at(table, place);
        moved |= name.cmp(&other).is_lt();
        if moved {
            next[i] = hand;
            hand = place;
        } else {
            next[i] = place;
        }
    }
    next[count] = hand;
    next
}

// The listing with a place put into it, if its function is known.
fn with_known(table: &[u8], listing: Listing, q: usize) -> Listing
    requires { (table_size connection_count ≤ length table.now) × (listing.count < function_count) }
    ensures { (result.count ≤ listing.count + 1) × (listed result ≡ cond (is_named (table_of connection_count table.now).functions q)
        (placed (table_of connection_count table.now).functions q (listed listing)) (listed listing)) }
{
    if name_at(table, q).is_empty() {
        return listing;
    }
    Listing {
        places: with_place(table, listing.places, listing.count, q),
        count: listing.count + 1,
    }
}

// The known functions in rising order of name. The places are put in from the last to the first.
pub fn in_order(table: &[u8]) -> Listing
    requires { table_size connection_count ≤ length table.now }
    ensures { (result.count ≤ function_count) × (listed result ≡ in_order (table_of connection_count table.now).functions) }
{
    let mut listing = Listing {
        places: [0; FUNCTIONS],
        count: 0,
    };
    for q in (0..FUNCTIONS).rev() {
        listing = with_known(table, listing, q);
    }
    listing
}
