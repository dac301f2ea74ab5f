// Searches in a table that obeys the table rules: the place of a function's name, a place for a new one, and the job that a
// submission joins. Names are a local array of byte arrays; a place is compared with a padded text, all bytes of it. An inner crate:
// it asks for such a table and for texts that a packet may have, and refuses nothing.
#![tactic(auto)]

ghost use Rattle.std.specs.Prelude.{◌≡◌, true, [], ◌≤◌, ◌<◌, length};
ghost use Rattle.octets.specs.Bytes.{zero_free};
ghost use Rattle.lists.specs.Lists.{find, fit};
ghost use Rattle.server.specs.Sizes.{connection_count, job_count, name_size, unique_size};
ghost use Rattle.server.specs.Table.{joined, known, or_else, room_for};
ghost use Rattle.server.specs.Layout.{row_in, table_of, table_size};
ghost use Rattle.server.specs.Call.{is_sound};
ghost use Rattle.table_texts.specs.Places.{place_of};
ghost use Rattle.plan_find_texts.specs.Uniques.{is_for, joined_at, lies_for};

use server::{FUNCTIONS, FUNCTIONS_AT, JOBS, NAME_SIZE, SERIALS_AT, UNIQUE_SIZE, UNIQUES_AT};

// Where a submission goes: the job that it joins, and the place that its function has or would take.
#[derive(Clone, Copy)]
pub struct Places {
    pub joined: Option<usize>,
    pub room: Option<usize>,
}

// The place of the function's name.
pub fn known(table: &[u8], name: &[u8]) -> Option<usize>
    requires { (is_sound connection_count table.now ≡ true) × (table_size connection_count ≤ length table.now) × (length name.now ≤ name_size) × (zero_free name.now ≡ true) }
    ensures { result ≡ known (table_of connection_count table.now).functions name.now }
{
    let names = table_texts::read_names(table);
    let place = table_texts::padded(name);
    table_texts::place_of(&names, &place)
}

// The place, or else the lowest free one: a free place is all zeros.
fn or_free(names: &[[u8; NAME_SIZE]; FUNCTIONS], known: Option<usize>) -> Option<usize>
    ensures { result ≡ or_else known (place_of names.now (fit name_size [])) }
{
    known.or_else(|| {
        let free: [u8; NAME_SIZE] = [0; NAME_SIZE];
        table_texts::place_of(names, &free)
    })
}

// The place of the function's name, or else the lowest free one.
pub fn room_for(table: &[u8], f: &[u8]) -> Option<usize>
    requires { (is_sound connection_count table.now ≡ true) × (table_size connection_count ≤ length table.now) × (length f.now ≤ name_size) × (zero_free f.now ≡ true) }
    ensures { result ≡ room_for (table_of connection_count table.now).functions f.now }
{
    let names = table_texts::read_names(table);
    let name = table_texts::padded(f);
    or_free(&names, table_texts::place_of(&names, &name))
}

// Whether the row at `place`, whose serial this is, is that of an unfinished job for the function, with this padded unique. A unique is
// looked at only where the rest agrees.
fn has_unique(
    table: &[u8],
    place: usize,
    serial: u32,
    function: usize,
    unique: &[u8; UNIQUE_SIZE],
) -> bool
    requires { (table_size connection_count ≤ length table.now) × (place < job_count) × (serial ≡ (row_in connection_count table.now place).serial) }
    ensures { result ≡ lies_for table.now function unique.now place }
{
    let of = octets::wide(table[FUNCTIONS_AT + place]);
    if (serial == 0) | (of as usize != function) {
        return false;
    }
    table_texts::unique_at(table, UNIQUES_AT + UNIQUE_SIZE * place, unique)
}

// The lowest unfinished job for the function at place `function`, with this unique.
fn with_unique(table: &[u8], function: usize, unique: &[u8]) -> Option<usize>
    requires { (is_sound connection_count table.now ≡ true) × (table_size connection_count ≤ length table.now) × (length unique.now ≤ unique_size) × (zero_free unique.now ≡ true) }
    ensures { result ≡ find (is_for function unique.now) (table_of connection_count table.now).jobs }
{
    let serials = table_columns::fours(table, SERIALS_AT);
    let place = table_texts::padded(unique);
    for i in 0..JOBS {
        if has_unique(table, i, serials[i], function, &place) {
            return Some(i);
        }
    }
    None
}

// The unfinished job that a submission with this unique joins, from the place of its function: none, if the unique is empty.
fn joined_at(table: &[u8], known: Option<usize>, u: &[u8]) -> Option<usize>
    requires { (is_sound connection_count table.now ≡ true) × (table_size connection_count ≤ length table.now) × (length u.now ≤ unique_size) × (zero_free u.now ≡ true) }
    ensures { result ≡ joined_at known u.now (table_of connection_count table.now) }
{
    if u.len() == 0 {
        return None;
    }
    let function = known?;
    with_unique(table, function, u)
}

// Where a submission of the function with this unique goes: the names are read once.
pub fn places_for(table: &[u8], f: &[u8], u: &[u8]) -> Places
    requires { (is_sound connection_count table.now ≡ true) × (table_size connection_count ≤ length table.now) × (1 ≤ length f.now) × (length f.now ≤ name_size)
        × (zero_free f.now ≡ true) × (length u.now ≤ unique_size) × (zero_free u.now ≡ true) }
    ensures { (result.joined ≡ joined (table_of connection_count table.now) f.now u.now)
        × (result.room ≡ room_for (table_of connection_count table.now).functions f.now) }
{
    let names = table_texts::read_names(table);
    let name = table_texts::padded(f);
    let known = table_texts::place_of(&names, &name);
    let joined = joined_at(table, known, u);
    let room = or_free(&names, known);
    Places { joined, room }
}
