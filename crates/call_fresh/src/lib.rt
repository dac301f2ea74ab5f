// Making a fresh table over lent bytes: the table's bytes and the workloads are set to zero, the hub's name is laid into the table, and no
// byte beyond them is written. Format: docs/TABLE.md. Buffers that are too short, and what is no hub's name, are refused by document 01's
// number 1, and nothing is changed then. No caller has to check anything first.
#![tactic(auto)]

ghost use Rattle.std.specs.Prelude.{◌≡◌, ◌≤◌, length};
ghost use Rattle.octets.specs.Put.{put};
ghost use Rattle.server.specs.Sizes.{connection_count};
ghost use Rattle.server.specs.Call.{made, make};
ghost use Rattle.table_texts.specs.Places.{zeros};

use server::{HUB_AT, HUB_SIZE, TABLE_SIZE, WORKLOADS_SIZE};

const LENT: u8 = 1; // a lent buffer is too short, or there is no name

// Sets the first n bytes to zero.
fn clear(b: &mut [u8], n: usize)
    requires { n ≤ length b.old }
    ensures { b.new ≡ put 0 (zeros n) b.old }
{
    b[..n].fill(0);
}

// Makes a fresh table for the hub of this name. Answers the number that C is answered: 0, or the one refusal.
pub fn fresh(table: &mut [u8], workloads: &mut [u8], name: &[u8]) -> u8
    ensures { made result table.new workloads.new ≡ make connection_count name.now table.old workloads.old }
{
    if table.len() < TABLE_SIZE || workloads.len() < WORKLOADS_SIZE || !handle::is_hub_name(name) {
        return LENT;
    }
    clear(table, TABLE_SIZE);
    table_texts::put_text(table, HUB_AT, HUB_SIZE, name);
    clear(workloads, WORKLOADS_SIZE);
    0
}
