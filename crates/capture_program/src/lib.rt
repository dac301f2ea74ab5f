// What the programs over a capture share: the hub's name from the arguments, a fresh table of that hub, standard input followed line by
// line, and what is said on standard error. A program gives its words and what it does at a line. No contract can say what is read or
// written; what a line comes to is said by the crates of the single lines.
#![tactic(auto)]

ghost use Rattle.std.specs.Prelude.{◌≡◌, true, false, IfErr, Ok, Err};
ghost use Rattle.capture_program.specs.declared.Failure.TheVariants.{Unread, Unwritten};

use capture::LINE_ROOM;
use handle::HUB_MOST;
use input::Input;
use server::{TABLE_SIZE, WORKLOADS_SIZE};
use std::env::{Env, FillError};
use std::io::{Read, Write};

// Room for a line: one byte more than the longest frame has digits, which is enough to show that a line is none.
pub const LINE_SIZE: usize = LINE_ROOM;

// What a program says on standard error: how it is used, in two lines, and why it ends early.
#[derive(Clone, Copy)]
pub struct Words<'a> {
    pub usage: &'a [u8],
    pub explanation: &'a [u8],
    pub unread: &'a [u8],
    pub unwritten: &'a [u8],
}

// Why a program ends early: standard input could not be read, or standard output not be written.
#[derive(Clone, Copy)]
pub enum Failure {
    Unread,
    Unwritten,
}

// Says a text on standard error, where it can be written.
fn say(rt: HostRuntime, text: &[u8]) {
    let mut writer = rt.stderr();
    let _ = writer.write_all(text).is_ok();
}

// Says on standard error how the program is used.
fn explain(rt: HostRuntime, words: Words) {
    say(rt, words.usage);
    say(rt, words.explanation);
}

// Says on standard error why the program ends early.
fn complain(rt: HostRuntime, words: Words, failure: Failure) {
    match failure {
        Failure::Unread => say(rt, words.unread),
        Failure::Unwritten => say(rt, words.unwritten),
    }
}

// Writes a text; Unwritten where it could not be written.
pub fn put_out<W: Write>(writer: &mut W, text: &[u8]) -> Result<(), Failure>
    ensures { IfErr result (λ failure. failure ≡ Unwritten) }
{
    match writer.write_all(text) {
        Ok(()) => Ok(()),
        Err(_) => Err(Failure::Unwritten),
    }
}

// Follows the lines that come after `first`, each by `step`, until one fails or the input is over. The lines are counted to a number
// that no run reaches: a proved loop has to end, and nothing says that the input does.
pub fn follow<R: Read, F: FnMut(&[u8]) -> Result<(), Failure>>(
    reader: &mut R,
    first: Input,
    chunk: &mut [u8],
    buffer: &mut [u8],
    mut step: F,
) -> Result<(), Failure>
    requires { F.IsAlwaysCallable step }
    ensures over { first.over ≡ true → first.failed ≡ true → result ≡ Err Unread }
    ensures done { first.over ≡ true → first.failed ≡ false → result ≡ Ok tt }
{
    let mut now = first;
    for _ in 0..u64::MAX {
        if now.over {
            break;
        }
        now = input::next(reader, now, chunk, buffer);
        if input::has_line(now) {
            step(lines::text(now.line, buffer))?;
        }
    }
    if now.failed {
        return Err(Failure::Unread);
    }
    Ok(())
}

// Runs a program from a fresh table of the hub of this name, and says why it ends early. A function of its own in the machine code, so that
// what a program needs of the stack is taken only where it runs.
#[inline(never)]
fn go<F: FnOnce(&mut [u8], &mut [u8]) -> Result<(), Failure>>(
    rt: HostRuntime,
    words: Words,
    name: &[u8],
    program: F,
)
    requires { F.IsAlwaysCallable program }
{
    let mut table = [0u8; TABLE_SIZE];
    let mut workloads = [0u8; WORKLOADS_SIZE];
    if call_fresh::fresh(&mut table, &mut workloads, name) != 0 {
        explain(rt, words);
    } else if let Err(failure) = program(&mut table, &mut workloads) {
        complain(rt, words, failure);
    }
}

// Runs a program for the hub of this name, where it is one.
fn run<F: FnOnce(&mut [u8], &mut [u8]) -> Result<(), Failure>>(
    rt: HostRuntime,
    words: Words,
    name: &[u8],
    program: F,
)
    requires { F.IsAlwaysCallable program }
{
    if handle::is_hub_name(name) {
        go(rt, words, name, program);
    } else {
        explain(rt, words);
    }
}

// Whether there is an argument of this number, of whatever length.
fn is_given(rt: HostRuntime, number: usize) -> bool {
    let mut buffer = [0u8; 1];
    match rt.arg(number, &mut buffer) {
        Ok(_) => true,
        Err(FillError::TooLong) => true,
        Err(FillError::NotPresent) => false,
    }
}

// Starts a program over the table and the workloads of a fresh hub. One argument is the hub's name, which is `lap` without it. With more, or
// with one that is no hub's name, the program says how it is used, and reads nothing. The first argument is the program's own name. One
// that does not fit into the buffer is read as empty, and no hub has that name.
pub fn start<F: FnOnce(&mut [u8], &mut [u8]) -> Result<(), Failure>>(
    rt: HostRuntime,
    words: Words,
    program: F,
)
    requires { F.IsAlwaysCallable program }
{
    if is_given(rt, 2) {
        explain(rt, words);
        return;
    }
    let mut buffer = [0u8; HUB_MOST];
    match rt.arg(1, &mut buffer) {
        Ok(length) => run(rt, words, lines::front(&buffer, length), program),
        Err(FillError::TooLong) => run(rt, words, b"", program),
        Err(FillError::NotPresent) => run(rt, words, b"lap", program),
    }
}
