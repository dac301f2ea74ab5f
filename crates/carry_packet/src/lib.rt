// Addressed packets, laid over a lent output: one connection byte and then a response. Each function returns the place after
// what it laid. An inner crate: its callers see to the arguments and to the room, and nothing is refused.
#![tactic(auto)]

ghost use Rattle.std.specs.Prelude.{◌≡◌, [], ◌∷◌, cond, true, ◌+◌, ◌^◌, ◌≤◌, ◌<◌, drop, length};
ghost use Rattle.octets.specs.Put.{put};
ghost use Rattle.packet.specs.Layout as L;
ghost use Rattle.packet.specs.Answers.{argument_at};
ghost use Rattle.packet.specs.Arguments.{fits, join};
ghost use Rattle.handle.specs.Handle.{is_hub_name, padded};
ghost use Rattle.server.specs.Refusals.{error_text, is_told, last_number};
ghost use Rattle.carry_packet.specs.Messages.{Forwards, Sendable, assign_arguments, handle_arguments, ended, error_arguments, heading, message, option_arguments, status_arguments};

use packet::Ends;

// A packet that was read: its type, its bytes, and where its arguments end.
#[derive(Clone, Copy)]
pub struct Request<'a> {
    pub kind: u32,
    pub bytes: &'a [u8],
    pub ends: Ends,
}

impl<'a> Request<'a> {
    // Argument `i`, counted from 0; empty, where there is none.
    pub fn argument(self, i: usize) -> &'a [u8]
        ensures { result.now ≡ argument_at self.entry.bytes.now self.entry.ends i }
    {
        packet_read::argument(self.bytes, self.ends, i)
    }

    // Its data: what lies behind the header.
    pub fn data(self) -> &'a [u8]
        requires { 12 ≤ length self.bytes.now }
        ensures { result.now ≡ drop 12 self.entry.bytes.now }
    {
        &self.bytes[12..]
    }
}

// The texts of the refusals by number, one table as the definition `refusal_texts` is: each followed by zeros, and nothing but zeros where
// nothing is written.
const TEXTS: [[u8; 9]; 16] = [
    [0; 9],
    [0; 9],
    [0; 9],
    [0; 9],
    [0; 9],
    [0; 9],
    [0; 9],
    [0; 9],
    [0; 9],
    *b"type\0\0\0\0\0",
    *b"arguments",
    *b"functions",
    *b"jobs\0\0\0\0\0",
    *b"serials\0\0",
    *b"handle\0\0\0",
    *b"option\0\0\0",
];

// Lays the connection byte and the header of a response with this much data.
fn put_heading(out: &mut [u8], at: usize, to: u8, kind: u32, size: usize) -> usize
    requires { (size < 2 ^ 32) × (at + 13 ≤ length out.old) }
    ensures { (result ≡ at + 13) × (out.new ≡ put at (heading to kind size) out.old) }
{
    out[at] = to;
    packet_join::put_header(out, at + 1, b"\0RES", kind, size as u32)
}

// Lays a response with this data.
pub fn send(out: &mut [u8], at: usize, to: u8, kind: u32, d: &[u8]) -> usize
    requires { (length d.now < 2 ^ 32) × (at + length (message to kind d.now) ≤ length out.old) }
    ensures { (result ≡ at + length (message to kind d.now)) × (out.new ≡ put at (message to kind d.now) out.old) }
{
    let start = put_heading(out, at, to, kind, d.len());
    octets::put(out, start, d)
}

// Lays an argument and the zero byte after it.
fn put_argument(out: &mut [u8], at: usize, a: &[u8]) -> usize
    requires { at + length a.now < length out.old }
    ensures { (result ≡ at + length a.now + 1) × (out.new ≡ put at (ended a.now) out.old) }
{
    let end = octets::put(out, at, a);
    out[end] = 0;
    end + 1
}

// Lays a packet without data.
pub fn send_empty(out: &mut [u8], at: usize, to: u8, kind: u32) -> usize
    requires { Sendable kind [] × (at + length (message to kind []) ≤ length out.old) }
    ensures { (result ≡ at + length (message to kind [])) × (out.new ≡ put at (message to kind []) out.old) }
{
    put_heading(out, at, to, kind, 0)
}

// The text of a refusal, followed by zeros.
fn error_text(number: u8) -> [u8; 9]
    requires { number ≤ last_number }
    ensures { result ≡ padded 9 (error_text number) }
{
    TEXTS[number as usize]
}

// Whether a refusal writes an ERROR packet.
pub fn is_told(number: u8) -> bool
    requires { number ≤ last_number }
    ensures { result ≡ is_told number }
{
    error_text(number)[0] != 0
}

// Lays ERROR: the number of a refusal in two digits, and its text.
pub fn send_error(out: &mut [u8], at: usize, to: u8, number: u8) -> usize
    requires { (number ≤ last_number) × (at + length (message to 19 (join (error_arguments number))) ≤ length out.old) }
    ensures { (result ≡ at + length (message to 19 (join (error_arguments number)))) × (out.new ≡ put at (message to 19 (join (error_arguments number))) out.old) }
{
    let digits = [number / 10 + b'0', number % 10 + b'0'];
    let text = error_text(number);
    let size = octets::first_zero(&text);
    let start = put_heading(out, at, to, 19, 3 + size);
    let place = put_argument(out, start, &digits);
    octets::put(out, place, &text[..size])
}

// Lays JOB_CREATED: the handle of a serial at the hub of this name.
pub fn send_created(out: &mut [u8], at: usize, to: u8, hub: &[u8], serial: u32) -> usize
    requires { (is_hub_name hub.now ≡ true) × (at + length (message to 8 (join (handle_arguments hub.now serial))) ≤ length out.old) }
    ensures { (result ≡ at + length (message to 8 (join (handle_arguments hub.now serial))))
        × (out.new ≡ put at (message to 8 (join (handle_arguments hub.now serial))) out.old) }
{
    let created = handle::handle_of(hub, serial);
    let text = created.text;
    send(out, at, to, 8, &text[..created.length])
}

// Lays OPTION_RES: the name of the option that was set.
pub fn send_option(out: &mut [u8], at: usize, to: u8) -> usize
    requires { at + length (message to 27 (join option_arguments)) ≤ length out.old }
    ensures { (result ≡ at + length (message to 27 (join option_arguments))) × (out.new ≡ put at (message to 27 (join option_arguments)) out.old) }
{
    send(out, at, to, 27, b"exceptions")
}

// `1` for yes and `0` for no.
fn flag(yes: bool) -> u8
    ensures { result ≡ cond yes 49 48 }
{
    if yes { b'1' } else { b'0' }
}

// Lays STATUS_RES: the handle as asked, whether the job is known and running, and two numbers.
pub fn send_status(
    out: &mut [u8],
    at: usize,
    to: u8,
    handle: &[u8],
    known: bool,
    running: bool,
    numerator: &[u8],
    denominator: &[u8],
) -> usize
    requires { (fits L.handle handle.now ≡ true) × (fits L.number numerator.now ≡ true) × (fits L.number denominator.now ≡ true)
        × (at + length (message to 20 (join (status_arguments handle.now known running numerator.now denominator.now))) ≤ length out.old) }
    ensures { (result ≡ at + length (message to 20 (join (status_arguments handle.now known running numerator.now denominator.now))))
        × (out.new ≡ put at (message to 20 (join (status_arguments handle.now known running numerator.now denominator.now))) out.old) }
{
    let is_known = [flag(known)];
    let is_running = [flag(running)];
    let size = handle.len() + numerator.len() + denominator.len() + 6;
    let start = put_heading(out, at, to, 20, size);
    let second = put_argument(out, start, handle);
    let third = put_argument(out, second, &is_known);
    let fourth = put_argument(out, third, &is_running);
    let fifth = put_argument(out, fourth, numerator);
    octets::put(out, fifth, denominator)
}

// Lays JOB_ASSIGN: the handle, the function and the workload.
fn assign(out: &mut [u8], at: usize, to: u8, job: &[u8], function: &[u8], workload: &[u8]) -> usize
    requires { (length job.now + length function.now + length workload.now + 2 < 2 ^ 32)
        × (at + length (message to 11 (join (job.now ∷ function.now ∷ workload.now ∷ []))) ≤ length out.old) }
    ensures { (result ≡ at + length (message to 11 (join (job.now ∷ function.now ∷ workload.now ∷ []))))
        × (out.new ≡ put at (message to 11 (join (job.now ∷ function.now ∷ workload.now ∷ []))) out.old) }
{
    let size = job.len() + function.len() + workload.len() + 2;
    let start = put_heading(out, at, to, 11, size);
    let name = put_argument(out, start, job);
    let load = put_argument(out, name, function);
    octets::put(out, load, workload)
}

// Lays JOB_ASSIGN_UNIQ: the handle, the function, the unique and the workload.
fn assign_uniq(
    out: &mut [u8],
    at: usize,
    to: u8,
    job: &[u8],
    function: &[u8],
    unique: &[u8],
    workload: &[u8],
) -> usize
    requires { (length job.now + length function.now + length unique.now + length workload.now + 3 < 2 ^ 32)
        × (at + length (message to 31 (join (job.now ∷ function.now ∷ unique.now ∷ workload.now ∷ []))) ≤ length out.old) }
    ensures { (result ≡ at + length (message to 31 (join (job.now ∷ function.now ∷ unique.now ∷ workload.now ∷ []))))
        × (out.new ≡ put at (message to 31 (join (job.now ∷ function.now ∷ unique.now ∷ workload.now ∷ []))) out.old) }
{
    let size = job.len() + function.len() + unique.len() + workload.len() + 3;
    let start = put_heading(out, at, to, 31, size);
    let name = put_argument(out, start, job);
    let own = put_argument(out, name, function);
    let load = put_argument(out, own, unique);
    octets::put(out, load, workload)
}

// Lays JOB_ASSIGN, or JOB_ASSIGN_UNIQ with the job's unique, from the hub of this name.
pub fn send_assign(
    out: &mut [u8],
    at: usize,
    to: u8,
    hub: &[u8],
    uniq: bool,
    serial: u32,
    function: &[u8],
    unique: &[u8],
    workload: &[u8],
) -> usize
    requires { (is_hub_name hub.now ≡ true) × (fits L.function function.now ≡ true) × (fits L.unique unique.now ≡ true)
        × (length function.now + length unique.now + length workload.now ≤ 1022)
        × (at + length (message to (cond uniq 31 11) (join (assign_arguments hub.now uniq serial function.now unique.now workload.now))) ≤ length out.old) }
    ensures { (result ≡ at + length (message to (cond uniq 31 11) (join (assign_arguments hub.now uniq serial function.now unique.now workload.now))))
        × (out.new ≡ put at (message to (cond uniq 31 11) (join (assign_arguments hub.now uniq serial function.now unique.now workload.now))) out.old) }
{
    let handle = handle::handle_of(hub, serial);
    let text = handle.text;
    let job = &text[..handle.length];
    if uniq {
        assign_uniq(out, at, to, job, function, unique, workload)
    } else {
        assign(out, at, to, job, function, workload)
    }
}

// Lays the data of a request that was read, as it came, in a response of this type.
pub fn forward(out: &mut [u8], at: usize, to: u8, kind: u32, request: Request) -> usize
    requires { Forwards request.bytes.now request.ends kind × (at + length (message to kind (drop 12 request.bytes.now)) ≤ length out.old) }
    ensures { (result ≡ at + length (message to kind (drop 12 request.entry.bytes.now))) × (out.new ≡ put at (message to kind (drop 12 request.entry.bytes.now)) out.old) }
{
    send(out, at, to, kind, request.data())
}
