// The text entry: one line of a technician, answered from the lent table alone. Format: the table of docs/TABLE.md, a line of any bytes, and in
// the output the connection's byte and one text. Bad input is refused by document 01's numbers 1 to 3, and nothing is written then; a line
// that is no command is answered by a text too. No caller has to check anything first.
#![tactic(auto)]

ghost use Rattle.std.specs.Prelude.{◌≡◌};
ghost use Rattle.server.specs.Sizes.{connection_count};
ghost use Rattle.server.specs.Call.{left};
ghost use Rattle.command.specs.Say.{say};

use carry_event::Answer;

// Answers a line from a connection.
pub fn text(
    table: &[u8],
    workloads: &[u8],
    output: &mut [u8],
    connection: u32,
    line: &[u8],
) -> Answer
    ensures { left result.number result.length output.new table.now workloads.now
        ≡ say connection_count connection line.now table.now workloads.now output.old }
{
    if let Err(refusal) = call_admit::admission(table, workloads, output, connection, false) {
        return Answer {
            number: refusal.number(),
            length: 0,
        };
    }
    output[0] = connection as u8;
    let length = command_text::put_text(output, 1, table, line);
    Answer { number: 0, length }
}
