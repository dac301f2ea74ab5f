// A plan carried out on the lent bytes: its packets in the output, its workloads and its table; or the ERROR packet of its
// refusal. An inner crate: its callers lend a table that obeys the rules, and a plan that is ready for it; what is refused is the plan's.
#![tactic(auto)]

ghost use Rattle.std.specs.Prelude.{◌≡◌, true, false, [], ◌+◌, ◌≤◌, ◌<◌, length, MatchOption};
ghost use Rattle.octets.specs.Put.{put};
ghost use Rattle.packet.specs.Answers.{argument_at};
ghost use Rattle.sets.specs.Sets.{members};
ghost use Rattle.server.specs.Sizes.{connection_count, output_size, workloads_size};
ghost use Rattle.server.specs.Layout.{table_of, table_size};
ghost use Rattle.server.specs.Refusals.{last_number};
ghost use Rattle.server.specs.Call.{is_sound, left};
ghost use Rattle.plan.specs.Parts.{changed};
ghost use Rattle.carry_several.specs.Several.{messages};
ghost use Rattle.plan.specs.Steps.{Inside, Lean, is_lean};
ghost use Rattle.carry_event.specs.Concluded.{Ready, concluded, opaque_in, opaque_place, refusal_bytes};

use carry_packet::Request;
use packet::Shape;
use plan::Plan;

// What a call answers: document 01's number, 0 if it is done, and how many bytes of the output it wrote. A refusal may have bytes too
// (ERROR), and C is given both, so it is no Result.
#[derive(Clone, Copy)]
pub struct Answer {
    pub number: u8,
    pub length: usize,
}

// Which argument of a shape is opaque, counted from 0, if one is.
fn opaque_place(shape: Shape) -> Option<usize>
    ensures { MatchOption result (opaque_place shape ≡ 5) (λ place. (place < 5) × (place ≡ opaque_place shape)) }
{
    match shape {
        Shape::Echo => Some(0),
        Shape::WorkData => Some(1),
        Shape::Submission | Shape::Assignment => Some(2),
        Shape::UniqueAssignment => Some(3),
        _ => None,
    }
}

// The opaque argument of a packet that was read; empty, where its type has none.
fn opaque_in<'a>(request: Request<'a>) -> &'a [u8]
    ensures { result.now ≡ opaque_in request.entry.bytes.now request.entry.kind request.entry.ends }
{
    match opaque_place(packet_kinds::request_shape(request.kind)) {
        Some(place) => request.argument(place),
        None => b"",
    }
}

// Lays a NOOP for each connection of the set, from `at` on: nothing for the empty set. Returns where they end.
fn wake(output: &mut [u8], at: usize, woken: u32) -> usize
    requires { at + length (messages (members connection_count woken) 6 []) ≤ length output.old }
    ensures { (result ≡ at + length (messages (members connection_count woken) 6 [])) × (output.new ≡ put at (messages (members connection_count woken) 6 []) output.old) }
{
    if woken == 0 {
        at
    } else {
        carry_several::wake_all(output, at, woken)
    }
}

// Carries out a plan whose step is lean: sends its packets, and writes what the step and its ending change. Returns how many
// bytes it sent.
fn perform_lean(
    table: &mut [u8],
    workloads: &mut [u8],
    output: &mut [u8],
    plan: Plan,
    c: u8,
    request: Request,
) -> usize
    requires { (is_sound connection_count table.old ≡ true) × (table_size connection_count ≤ length table.old) × (workloads_size ≤ length workloads.old) × (plan.number ≡ 0)
        × Ready plan c request.kind request.bytes.now request.ends table.old workloads.old output.old
        × Inside plan.step × (is_lean plan.step ≡ true)
        × Lean plan.step (table_of connection_count table.old) (changed plan.change (argument_at request.bytes.now request.ends 0) (argument_at request.bytes.now request.ends 1) (argument_at request.bytes.now request.ends 2) (table_of connection_count table.old)) }
    ensures { left 0 result output.new table.new workloads.new
        ≡ concluded plan c request.entry.kind request.entry.bytes.now request.entry.ends table.old workloads.old output.old }
{
    let first = request.argument(0);
    let second = request.argument(1);
    let third = request.argument(2);
    let opaque = opaque_in(request);
    let ending = plan_ending::of_step(table, plan.step);
    let at = carry_output::send_order(output, plan.order, c, table, workloads, request, first);
    let length = wake(output, at, ending.woken);
    carry_step::rework(workloads, table, plan.step, opaque);
    carry_step::carry(table, plan.step, ending, plan.change, first, second, third);
    length
}

// Carries out a plan whose step is not lean: sends its packets, and then settles and writes all numbers. Returns how many bytes
// it sent.
fn perform_whole(
    table: &mut [u8],
    workloads: &mut [u8],
    output: &mut [u8],
    plan: Plan,
    c: u8,
    request: Request,
) -> usize
    requires { (is_sound connection_count table.old ≡ true) × (table_size connection_count ≤ length table.old) × (workloads_size ≤ length workloads.old) × (plan.number ≡ 0)
        × Ready plan c request.kind request.bytes.now request.ends table.old workloads.old output.old × Inside plan.step × (is_lean plan.step ≡ false) }
    ensures { left 0 result output.new table.new workloads.new
        ≡ concluded plan c request.entry.kind request.entry.bytes.now request.entry.ends table.old workloads.old output.old }
{
    let first = request.argument(0);
    let second = request.argument(1);
    let third = request.argument(2);
    let opaque = opaque_in(request);
    let before = table_rows::read_values(table);
    let v = plan_leave::stepped(plan.step, before);
    let length = carry_output::answer(output, plan.order, v, c, table, workloads, request, first);
    carry_workloads::rework(workloads, before.rows, plan_settle::dropped(v.rows), opaque);
    carry_whole::carry(table, plan.change, v, first, second, third);
    length
}

// Lays the ERROR packet of a refusal that is told, and nothing for another. Returns how many bytes it is.
pub fn refuse(output: &mut [u8], c: u8, number: u8) -> usize
    requires { (number ≤ last_number) × (output_size connection_count ≤ length output.old) }
    ensures { (result ≡ length (refusal_bytes c number)) × (output.new ≡ put 0 (refusal_bytes c number) output.old) }
{
    if carry_packet::is_told(number) {
        carry_packet::send_error(output, 0, c, number)
    } else {
        0
    }
}

// Carries out a plan, or refuses by its number.
pub fn conclude(
    table: &mut [u8],
    workloads: &mut [u8],
    output: &mut [u8],
    plan: Plan,
    c: u8,
    request: Request,
) -> Answer
    requires { (is_sound connection_count table.old ≡ true) × (table_size connection_count ≤ length table.old) × (workloads_size ≤ length workloads.old) × (output_size connection_count ≤ length output.old) × (plan.number ≤ last_number)
        × (plan.number ≡ 0 → Ready plan c request.kind request.bytes.now request.ends table.old workloads.old output.old)
        × Inside plan.step
        × (is_lean plan.step ≡ true
        → Lean plan.step (table_of connection_count table.old) (changed plan.change (argument_at request.bytes.now request.ends 0) (argument_at request.bytes.now request.ends 1) (argument_at request.bytes.now request.ends 2) (table_of connection_count table.old))) }
    ensures { left result.number result.length output.new table.new workloads.new
        ≡ concluded plan c request.entry.kind request.entry.bytes.now request.entry.ends table.old workloads.old output.old }
{
    let number = plan.number;
    let length = if number != 0 {
        refuse(output, c, number)
    } else if plan_ending::is_lean(plan.step) {
        perform_lean(table, workloads, output, plan, c, request)
    } else {
        perform_whole(table, workloads, output, plan, c, request)
    };
    Answer { number, length }
}
