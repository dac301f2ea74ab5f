// What refusal 1 asks of the hub's name: 1 to 15 lowercase letters and digits, and zeros after them. Whatever the bytes are, the answer is
// `true` or `false`; the check asks only that all of the table's bytes are there.
#![tactic(auto)]

ghost use Rattle.std.specs.Prelude.{◌≡◌, ◌≤◌, length};
ghost use Rattle.server.specs.Sizes.{connection_count};
ghost use Rattle.server.specs.Layout.{table_size};
ghost use Rattle.check_hub.specs.Hub.{hub_rules};

use server::{HUB_AT, HUB_SIZE};

// Whether the hub has a name, and zeros follow it.
pub fn hub_holds(table: &[u8]) -> bool
    requires { table_size connection_count ≤ length table.now }
    ensures { result ≡ hub_rules table.now }
{
    let name = table_texts::hub_of(table);
    check_image::zeros(table, HUB_AT + name.len(), HUB_SIZE - name.len())
        && handle::is_hub_name(name)
}
