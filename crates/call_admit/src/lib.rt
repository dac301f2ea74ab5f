// Whether an event is admitted: refusals 1 to 4 in number order, of any lent bytes and any connection. An inner crate of the server's
// calls; it asks nothing of its callers and writes nothing.
#![tactic(auto)]

ghost use Rattle.std.specs.Prelude.{◌≡◌, not, ◌||◌, ◌≤◌, ◌<◌, get_or, length};
ghost use Rattle.server.specs.Sizes.{connection_count};
ghost use Rattle.server.specs.Table.{closed};
ghost use Rattle.server.specs.Layout.{table_of, table_size};
ghost use Rattle.server.specs.Call.{is_sound, too_short};
ghost use Rattle.call_admit.specs.Admission.{admission, answer_number, refusal_number, state_refusal};

use server::{CONNECTIONS, OPENED_AT, OUTPUT_SIZE, TABLE_SIZE, WORKLOADS_SIZE};

// Why an event is refused before it is looked at.
#[derive(Clone, Copy)]
pub enum Refusal {
    Lent, // a lent buffer is too short, or the table breaks a table rule
    Connection, // no connection of this number
    NotOpen, // a connection that is not open
    Open, // an open of an open connection
}

impl Refusal {
    // Document 01's number of it.
    pub fn number(self) -> u8
        ensures { result ≡ refusal_number self }
    {
        match self {
            Refusal::Lent => 1,
            Refusal::Connection => 2,
            Refusal::NotOpen => 3,
            Refusal::Open => 4,
        }
    }
}

// Whether the lent bytes are long enough, and hold a table that obeys the rules.
#[tactic(auto, unfolding(server::specs::Call::too_short))]
fn is_usable(table: &[u8], workloads: &[u8], output: &[u8]) -> bool
    ensures { result ≡ not (too_short connection_count table.now workloads.now output.now || not (is_sound connection_count table.now)) }
{
    TABLE_SIZE <= table.len()
        && WORKLOADS_SIZE <= workloads.len()
        && OUTPUT_SIZE <= output.len()
        && check_table::is_sound(table)
}

// Whether the connection is open.
fn is_open(table: &[u8], c: usize) -> bool
    requires { (table_size connection_count ≤ length table.now) × (c < connection_count) }
    ensures { result ≡ (get_or (table_of connection_count table.now).connections c closed).opened }
{
    table[OPENED_AT + c] == 1
}

// Refusal 3 or 4.
#[tactic(auto, unfolding(crate::specs::Admission::state_refusal))]
fn state_refusal(is_open: bool, to_open: bool) -> Result<(), Refusal>
    ensures { answer_number result ≡ state_refusal is_open to_open }
{
    match (is_open, to_open) {
        (true, true) => Err(Refusal::Open),
        (false, false) => Err(Refusal::NotOpen),
        _ => Ok(()),
    }
}

// The first number that is no connection's.
const BEYOND: u32 = CONNECTIONS as u32;

// The refusal that an event of this connection meets at once, if any; `to_open` tells an open from a close or a packet, as in the
// definition `admission`, of which the theorems speak: a bool there, so one here.
pub fn admission(
    table: &[u8],
    workloads: &[u8],
    output: &[u8],
    connection: u32,
    to_open: bool,
) -> Result<(), Refusal>
    ensures { answer_number result ≡ admission to_open connection table.now workloads.now output.now }
{
    if !is_usable(table, workloads, output) {
        return Err(Refusal::Lent);
    }
    if BEYOND <= connection {
        return Err(Refusal::Connection);
    }
    state_refusal(is_open(table, connection as usize), to_open)
}
