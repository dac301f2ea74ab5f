// A line of the technicians answered: which command it is, and its answer laid over a lent text. Any line that is no command is answered by
// `ERR unknown`. An inner crate: its callers lend a table that obeys the rules and see to the room.
#![tactic(auto)]

ghost use Rattle.std.specs.Prelude.{◌≡◌, true, ◌||◌, ◌+◌, ◌≤◌, length};
ghost use Rattle.octets.specs.Bytes.{same};
ghost use Rattle.octets.specs.Put.{put};
ghost use Rattle.server.specs.Sizes.{connection_count};
ghost use Rattle.server.specs.Layout.{table_of, table_size};
ghost use Rattle.server.specs.Call.{is_sound};
ghost use Rattle.command.specs.Texts.{text_for};

// Whether the line is a command, which is given with a line feed behind it, and with a carriage return and a line feed.
fn is_command(line: &[u8], plain: &[u8], returned: &[u8]) -> bool
    ensures { result ≡ same line.now plain.now || same line.now returned.now }
{
    octets::equal(line, plain) | octets::equal(line, returned)
}

// Lays the answer to a line, and returns the place after it.
pub fn put_text(out: &mut [u8], at: usize, table: &[u8], line: &[u8]) -> usize
    requires { (table_size connection_count ≤ length table.now) × (is_sound connection_count table.now ≡ true)
        × (at + length (text_for line.now (table_of connection_count table.now)) ≤ length out.old) }
    ensures { (result ≡ at + length (text_for line.now (table_of connection_count table.now)))
        × (out.new ≡ put at (text_for line.now (table_of connection_count table.now)) out.old) }
{
    if is_command(line, b"status\n", b"status\r\n") {
        return command_status::put_status(out, at, table);
    }
    if is_command(line, b"workers\n", b"workers\r\n") {
        return command_workers::put_workers(out, at, table);
    }
    if is_command(line, b"version\n", b"version\r\n") {
        return octets::put(out, at, b"lap 1\n");
    }
    octets::put(out, at, b"ERR unknown\n")
}
