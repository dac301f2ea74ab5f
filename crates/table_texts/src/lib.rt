// The texts of the table in the lent bytes: names, uniques, stored texts, client ids and the hub's name, each at the start of a place of
// fixed width and followed by zeros. An inner crate: every function asks its callers that the place lies inside the bytes, and refuses
// nothing.
#![tactic(auto)]

ghost use Rattle.std.specs.Prelude.{◌≡◌, ◌+◌, ◌*◌, ◌≤◌, ◌<◌, [], length, get_or, take, drop};
ghost use Rattle.octets.specs.Put.{put};
ghost use Rattle.lists.specs.Lists.{fit};
ghost use Rattle.server.specs.Sizes.{connection_count, function_count, name_size, unique_size};
ghost use Rattle.server.specs.Table.{id_at};
ghost use Rattle.server.specs.Layout.{table_of, table_size, text_at, uniques_at};
ghost use Rattle.table_texts.specs.Places.{agree, names_in, place_of};

use server::{FUNCTIONS, HUB_AT, HUB_SIZE, ID_SIZE, IDS_AT, NAME_SIZE, NAMES_AT, UNIQUE_SIZE};

// The text of the place of `width` bytes at `at`.
pub fn text(table: &[u8], at: usize, width: usize) -> &[u8]
    requires { at + width ≤ length table.now }
    ensures { result.now ≡ text_at width table.now at }
{
    let place = &table[at..at + width];
    let end = octets::first_zero(place);
    &place[..end]
}

// The client id of connection `c`; empty where it has none.
pub fn id_at(table: &[u8], c: usize) -> &[u8]
    requires { (table_size connection_count ≤ length table.now) × (c < connection_count) }
    ensures { result.now ≡ id_at (table_of connection_count table.now) c }
{
    text(table, IDS_AT + ID_SIZE * c, ID_SIZE)
}

// The name of the hub.
pub fn hub_of(table: &[u8]) -> &[u8]
    requires { table_size connection_count ≤ length table.now }
    ensures { result.now ≡ (table_of connection_count table.now).hub }
{
    text(table, HUB_AT, HUB_SIZE)
}

// Lays the text `s`, and zeros after it, over the place of `width` bytes at `at`.
pub fn put_text(table: &mut [u8], at: usize, width: usize, s: &[u8])
    requires { (at + width ≤ length table.old) × (length s.now ≤ width) }
    ensures { table.new ≡ put at (fit width s.now) table.old }
{
    let end = octets::put(table, at, s);
    table[end..at + width].fill(0);
}

// ---- places compared: the bytes of a place say what its text is, where the table obeys the rules

// A text and zeros after it.
pub fn padded<const N: usize>(text: &[u8]) -> [u8; N]
    requires { length text.now ≤ N }
    ensures { result ≡ fit N text.now }
{
    let mut place = [0; N];
    octets::put(&mut place, 0, text);
    place
}

// The places of the functions' names, each as it lies in the table.
pub fn read_names(table: &[u8]) -> [[u8; NAME_SIZE]; FUNCTIONS]
    requires { uniques_at ≤ length table.now }
    ensures { result ≡ names_in table.now }
{
    let mut names = [[0; NAME_SIZE]; FUNCTIONS];
    for q in 0..FUNCTIONS {
        let at = NAMES_AT + NAME_SIZE * q;
        names[q] = table[at..at + NAME_SIZE].try_into().unwrap();
    }
    names
}

// Whether the first N bytes of `s` are those of the place `t`. Each step reads and combines, so that the loop becomes vector code: `==` has
// an exit, and is slower here.
fn agree<const N: usize>(s: &[u8], t: &[u8; N]) -> bool
    requires { N ≤ length s.now }
    ensures { result ≡ agree N s.now t.now }
{
    let mut ok = true;
    for i in 0..N {
        ok = ok & (s[i] == t[i]);
    }
    ok
}

// Whether the name stands at place q.
fn stands_at(names: &[[u8; NAME_SIZE]; FUNCTIONS], q: usize, name: &[u8; NAME_SIZE]) -> bool
    requires { q < function_count }
    ensures { result ≡ agree name_size (get_or names.now q []) name.now }
{
    agree(&names[q], name)
}

// The lowest place where the name stands.
pub fn place_of(names: &[[u8; NAME_SIZE]; FUNCTIONS], name: &[u8; NAME_SIZE]) -> Option<usize>
    ensures { result ≡ place_of names.now name.now }
{
    for i in 0..FUNCTIONS {
        if stands_at(names, i, name) {
            return Some(i);
        }
    }
    None
}

// Whether the 64 bytes from `at` on are those of the padded unique.
pub fn unique_at(table: &[u8], at: usize, unique: &[u8; UNIQUE_SIZE]) -> bool
    requires { at + unique_size ≤ length table.now }
    ensures { result ≡ agree unique_size (take unique_size (drop at table.now)) unique.now }
{
    agree(&table[at..at + UNIQUE_SIZE], unique)
}
