// What refusal 1 asks of client ids: zeros follow each of them, and only an open connection has one. Eight places that are zero are passed at
// once, and no loop has an exit, so that each becomes vector code. Whatever the bytes are, the answer is `true` or `false`; the check asks only
// that all of the table's bytes are there.
#![tactic(auto)]

ghost use Rattle.std.specs.Prelude.{◌≡◌, ◌+◌, ◌<◌, ◌≤◌, length};
ghost use Rattle.lists.specs.Lists.{all, numbers};
ghost use Rattle.server.specs.Sizes.{connection_count};
ghost use Rattle.server.specs.Layout.{table_size};
ghost use Rattle.check_ids.specs.Ids.{id_holds, id_rules, open_or_none};

use server::{CONNECTIONS, ID_SIZE, IDS_AT, OPENED_AT};

// Eight places of ids: what one step looks at.
const EIGHT_IDS: usize = 8 * ID_SIZE;

// The last byte of the place before, from there on: the last id has no byte after it that could be looked at.
const LAST_BEFORE: [u8; ID_SIZE] =
    *b"\x01\0\0\0\0\0\0\0\0\0\0\0\0\0\0\0\0\0\0\0\0\0\0\0\0\0\0\0\0\0\0\0\0\0\0\0\0\0\0\0\0\0\0\0\0\0\0\0\0\0\0\0\0\0\0\0\0\0\0\0\0\0\0\0";

// Whether connection `c` is open or has no id.
fn open_or_none(table: &[u8], c: usize) -> bool
    requires { (table_size connection_count ≤ length table.now) × (c < connection_count) }
    ensures { result ≡ open_or_none table.now c }
{
    (table[OPENED_AT + c] == 1) | (table[IDS_AT + ID_SIZE * c] == 0)
}

// Whether each of the eight connections from `c` on is so.
fn only_open(table: &[u8], c: usize) -> bool
    requires { (table_size connection_count ≤ length table.now) × (c + 8 ≤ connection_count) }
    ensures { result ≡ all (λ i. open_or_none table.now (c + i)) (numbers 0 8) }
{
    let mut ok = true;
    for i in 0..8 {
        ok = ok & open_or_none(table, c + i);
    }
    ok
}

// Whether zeros follow the ids of the eight connections from `c` on, and only open ones have one.
fn eight_hold(table: &[u8], c: usize) -> bool
    requires { (table_size connection_count ≤ length table.now) × (c + 8 ≤ connection_count) }
    ensures { result ≡ all (λ i. id_holds table.now (c + i)) (numbers 0 8) }
{
    let at = IDS_AT + ID_SIZE * c;
    if check_image::zeros(table, at, EIGHT_IDS) {
        return true;
    }
    check_image::all_followed(table, at - 1, 8, &LAST_BEFORE) & only_open(table, c)
}

// The same of all ids.
pub fn ids_hold(table: &[u8]) -> bool
    requires { table_size connection_count ≤ length table.now }
    ensures { result ≡ id_rules table.now }
{
    let mut ok = true;
    for group in 0..CONNECTIONS / 8 {
        ok = ok & eight_hold(table, 8 * group);
    }
    ok
}
