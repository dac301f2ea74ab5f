// One packet for each connection of a set, laid over a lent output in rising order: a copy of a packet's data, a NOOP, or a copy for some
// and WORK_FAIL for the others. `forward_all`, `tell_all` and `wake_all` return the place after what they laid. An inner crate: its
// callers see to the arguments and to the room, and nothing is refused.
#![tactic(auto)]

ghost use Rattle.std.specs.Prelude.{◌≡◌, [], true, ◌+◌, ◌^◌, ◌≤◌, ◌<◌, length};
ghost use Rattle.octets.specs.Put.{put};
ghost use Rattle.packet.specs.Arguments.{join};
ghost use Rattle.sets.specs.Sets.{members};
ghost use Rattle.handle.specs.Handle.{is_hub_name};
ghost use Rattle.server.specs.Sizes.{connection_count};
ghost use Rattle.carry_packet.specs.Messages.{handle_arguments};
ghost use Rattle.carry_several.specs.Several.{message_if, messages, told_messages};

use server::CONNECTIONS;

// Lays a response with this data for a connection that hears it, and WORK_FAIL for one that does not; nothing, if it is not in the set.
fn send_if(
    out: &mut [u8],
    at: usize,
    set: u32,
    heard: u32,
    c: usize,
    kind: u32,
    d: &[u8],
    failed: &[u8],
) -> usize
    requires { (c < connection_count) × (length d.now < 2 ^ 32) × (length failed.now < 2 ^ 32) × (at + length (message_if set heard kind d.now failed.now c) ≤ length out.old) }
    ensures { (result ≡ at + length (message_if set heard kind d.now failed.now c)) × (out.new ≡ put at (message_if set heard kind d.now failed.now c) out.old) }
{
    if !sets::has(set, c) {
        at
    } else if sets::has(heard, c) {
        carry_packet::send(out, at, c as u8, kind, d)
    } else {
        carry_packet::send(out, at, c as u8, 14, failed)
    }
}

// Lays one packet for each connection of the set, in rising order; none is looked for behind the last. Where all of the set hear, heard
// is the set itself, and failed is laid for nobody.
fn send_all(
    out: &mut [u8],
    at: usize,
    to: u32,
    heard: u32,
    kind: u32,
    d: &[u8],
    failed: &[u8],
) -> usize
    requires { (length d.now < 2 ^ 32) × (length failed.now < 2 ^ 32) × (at + length (told_messages (members connection_count to) heard kind d.now failed.now) ≤ length out.old) }
    ensures { (result ≡ at + length (told_messages (members connection_count to) heard kind d.now failed.now))
        × (out.new ≡ put at (told_messages (members connection_count to) heard kind d.now failed.now) out.old) }
{
    let mut place = at;
    for listener in 0..CONNECTIONS {
        if to >> listener == 0 {
            break;
        }
        place = send_if(out, place, to, heard, listener, kind, d, failed);
    }
    place
}

// Lays a copy of a packet's data for each connection of the set, in rising order.
pub fn forward_all(out: &mut [u8], at: usize, to: u32, kind: u32, d: &[u8]) -> usize
    requires { (length d.now < 2 ^ 32) × (at + length (messages (members connection_count to) kind d.now) ≤ length out.old) }
    ensures { (result ≡ at + length (messages (members connection_count to) kind d.now)) × (out.new ≡ put at (messages (members connection_count to) kind d.now) out.old) }
{
    send_all(out, at, to, to, kind, d, b"")
}

// Lays a copy of a packet's data for each connection of the set that hears it, and WORK_FAIL with the handle of a serial at the hub of this
// name for the others, in one rising order.
pub fn tell_all(
    out: &mut [u8],
    at: usize,
    to: u32,
    heard: u32,
    kind: u32,
    d: &[u8],
    hub: &[u8],
    serial: u32,
) -> usize
    requires { (is_hub_name hub.now ≡ true) × (length d.now < 2 ^ 32)
        × (at + length (told_messages (members connection_count to) heard kind d.now (join (handle_arguments hub.now serial))) ≤ length out.old) }
    ensures { (result ≡ at + length (told_messages (members connection_count to) heard kind d.now (join (handle_arguments hub.now serial))))
        × (out.new ≡ put at (told_messages (members connection_count to) heard kind d.now (join (handle_arguments hub.now serial))) out.old) }
{
    let failed = handle::handle_of(hub, serial);
    let text = failed.text;
    send_all(out, at, to, heard, kind, d, &text[..failed.length])
}

// Lays a NOOP for each connection of the set, in rising order.
pub fn wake_all(out: &mut [u8], at: usize, to: u32) -> usize
    requires { at + length (messages (members connection_count to) 6 []) ≤ length out.old }
    ensures { (result ≡ at + length (messages (members connection_count to) 6 [])) × (out.new ≡ put at (messages (members connection_count to) 6 []) out.old) }
{
    send_all(out, at, to, to, 6, b"", b"")
}
