// A plan carried out on the table's lent bytes: the texts that it changes, one of carrying's functions for each kind of change, and
// then the settled numbers. An inner crate: its callers lend a table that obeys the rules, and texts that fit their places.
#![tactic(auto)]

ghost use Rattle.std.specs.Prelude.{◌≡◌, true, ◌≤◌, length};
ghost use Rattle.octets.specs.Put.{put};
ghost use Rattle.server.specs.Sizes.{connection_count};
ghost use Rattle.server.specs.Layout.{bytes_of, table_of, table_size};
ghost use Rattle.server.specs.Call.{is_sound};
ghost use Rattle.plan.specs.Parts.{changed, final_table};
ghost use Rattle.carry_whole.specs.Fitting.{Fitting, Sized};

use plan::{Change, Values};

// Lays the texts of a change over the table.
pub fn change_texts(table: &mut [u8], change: Change, first: &[u8], second: &[u8], third: &[u8])
    requires { (is_sound connection_count table.old ≡ true) × (table_size connection_count ≤ length table.old) × Fitting change first.now second.now third.now }
    ensures { table.new ≡ put 0 (bytes_of (changed change first.now second.now third.now (table_of connection_count table.old))) table.old }
{
    match change {
        Change::Nothing => {}
        Change::Name { function } => carry_places::put_name(table, function, first),
        Change::Job { place, function } => carry_places::put_new(
            table, place, function, first, second,
        ),
        Change::Texts { place } => carry_places::put_numbers(table, place, second, third),
        Change::Id { connection } => carry_places::put_id(table, connection, first),
        Change::Left { connection } => carry_places::put_left(table, connection),
    }
}

// Leaves the table that the plan's change and numbers make once it is settled. `plan_laws` says that it is the one decided.
pub fn carry(table: &mut [u8], change: Change, v: Values, first: &[u8], second: &[u8], third: &[u8])
    requires { (is_sound connection_count table.old ≡ true) × (table_size connection_count ≤ length table.old) × Fitting change first.now second.now third.now × Sized v }
    ensures { table.new ≡ put 0 (bytes_of (final_table v (changed change first.now second.now third.now (table_of connection_count table.old)))) table.old }
{
    change_texts(table, change, first, second, third);
    carry_places::finish(table, v);
}
