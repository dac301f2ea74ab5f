// The table check of refusal 1: the bytes are an image of the layout, and the table that they hold obeys every table rule. Whatever the
// bytes are, the answer is `true` or `false`; the check asks only that the table's bytes are there. Each part is equal to rules of
// its own, and a part that fails ends the check.
#![tactic(auto)]

ghost use Rattle.std.specs.Prelude.{◌≡◌, true, ◌&&◌, ◌≤◌, ◌*◌, length};
ghost use Rattle.server.specs.Sizes.{connection_count, function_count, job_count, name_size, unique_size};
ghost use Rattle.server.specs.Layout.{backgrounds_at, names_at, opened_at, serials_at, table_size, uniques_at};
ghost use Rattle.server.specs.Call.{is_sound};
ghost use Rattle.table_laws.specs.Tests.{are_flags, are_padded};
ghost use Rattle.check_rows.specs.Rows.{Marked, rows_mean};
ghost use Rattle.check_numbers.specs.Numbers.{number_rules};
ghost use Rattle.check_table.specs.Parts.{byte_rules, text_rules};

use server::{BACKGROUNDS_AT, CONNECTIONS, JOBS, OPENED_AT, SERIALS_AT};

// The flags of all connections.
const FLAGS: usize = 3 * CONNECTIONS;

// Whether each flag is 0 or 1, each name, unique and client id is followed by zeros, only open connections have an id, and the hub has a name.
fn bytes_hold(table: &[u8]) -> bool
    requires { table_size connection_count ≤ length table.now }
    ensures { result ≡ byte_rules table.now }
{
    (check_image::flags(table, BACKGROUNDS_AT, JOBS) & check_image::flags(table, OPENED_AT, FLAGS))
        && check_image::names_padded(table)
        && check_image::uniques_padded(table)
        && (check_ids::ids_hold(table) & check_hub::hub_holds(table))
}

// Whether the rules of numbers hold. `live` has the marks of the serials.
fn numbers_hold(table: &[u8], live: &[u8; JOBS]) -> bool
    requires { (table_size connection_count ≤ length table.now) × (are_flags job_count table.now backgrounds_at ≡ true) × (are_flags (3 * connection_count) table.now (opened_at connection_count) ≡ true) × Marked 4 table.now serials_at live.now }
    ensures { result ≡ rows_mean table.now && number_rules table.now }
{
    check_rows::rows_mean(table, live) && check_numbers::numbers_hold(table)
}

// Whether the rules that read texts hold.
fn texts_hold(table: &[u8], live: &[u8; JOBS]) -> bool
    requires { (table_size connection_count ≤ length table.now) × (are_padded name_size function_count table.now names_at ≡ true) × (are_padded unique_size job_count table.now uniques_at ≡ true) × Marked 4 table.now serials_at live.now }
    ensures { result ≡ text_rules table.now }
{
    check_texts::stored_hold(table, live)
        && check_texts::sizes_hold(table)
        && check_keys::names_hold(table)
        && check_keys::uniques_hold(table)
}

// Whether the bytes are an image of the layout whose table obeys every table rule.
pub fn is_sound(table: &[u8]) -> bool
    requires { table_size connection_count ≤ length table.now }
    ensures { result ≡ is_sound connection_count table.now }
{
    if !bytes_hold(table) {
        return false;
    }
    let live = check_rows::marks4(table, SERIALS_AT);
    numbers_hold(table, &live) && texts_hold(table, &live)
}
