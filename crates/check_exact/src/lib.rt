// The table rules of refusal 1 that compare texts or add up their lengths, asked exactly. They are asked only where a key or a bound cannot
// decide. Whatever the bytes are, each rule answers `true` or `false`; it asks only that all of the table's bytes are there.
#![tactic(auto)]

ghost use Rattle.std.specs.Prelude.{◌≡◌, ℕ, Bool, ◌<◌, ◌≤◌, length, leb};
ghost use Rattle.lists.specs.Lists.{numbers, pairwise};
ghost use Rattle.server.specs.Sizes.{connection_count, function_count, job_count, name_size, unique_size};
ghost use Rattle.server.specs.Table.{function_at};
ghost use Rattle.server.specs.Rules.{functions_distinct, names_apart, sizes_within, together, uniques_apart, uniques_distinct};
ghost use Rattle.server.specs.Layout.{function_in, job_in, table_of, table_size};

use server::{FUNCTIONS, FUNCTIONS_AT, JOBS, NAME_SIZE, NAMES_AT, UNIQUE_SIZE, UNIQUES_AT};

// ---- texts by place

// The name of the function at place `q`. A function of its own in the machine code, as `unique` is: whoever compares each two names then
// has each read once for the places after it, and not thrice for each of them.
#[inline(never)]
fn name(table: &[u8], q: usize) -> &[u8]
    requires { (table_size connection_count ≤ length table.now) × (q < function_count) }
    ensures { result.now ≡ (function_in connection_count table.now q).name }
{
    table_texts::text(table, NAMES_AT + NAME_SIZE * q, NAME_SIZE)
}

// The unique of the job at place `p`.
#[inline(never)]
fn unique(table: &[u8], p: usize) -> &[u8]
    requires { (table_size connection_count ≤ length table.now) × (p < job_count) }
    ensures { result.now ≡ (job_in connection_count table.now p).unique }
{
    table_texts::text(table, UNIQUES_AT + UNIQUE_SIZE * p, UNIQUE_SIZE)
}

// ---- sizes

// How long the function's name is; a function number above 15 has none.
fn name_length(table: &[u8], function: u8) -> usize
    requires { table_size connection_count ≤ length table.now }
    ensures { (result ≡ length (function_at (table_of connection_count table.now) function).name) × (result ≤ name_size) }
{
    let q = usize::from(function);
    if q < FUNCTIONS {
        name(table, q).len()
    } else {
        0
    }
}

// How long the unique of the job at place `p` is.
fn unique_length(table: &[u8], p: usize) -> usize
    requires { (table_size connection_count ≤ length table.now) × (p < job_count) }
    ensures { (result ≡ length (job_in connection_count table.now p).unique) × (result ≤ unique_size) }
{
    unique(table, p).len()
}

// Whether function, unique and workload of the job at place `p` are at most 1,022 bytes together.
fn size_within(table: &[u8], p: usize) -> bool
    requires { (table_size connection_count ≤ length table.now) × (p < job_count) }
    ensures { result ≡ leb (together (table_of connection_count table.now) (job_in connection_count table.now p)) 1022 }
{
    name_length(table, table[FUNCTIONS_AT + p])
        + unique_length(table, p)
        + usize::from(table_fields::size(table, p))
        <= 1022
}

// The same of each job.
pub fn sizes_within(table: &[u8]) -> bool
    requires { table_size connection_count ≤ length table.now }
    ensures { result ≡ sizes_within (table_of connection_count table.now) }
{
    let mut ok = true;
    for p in 0..JOBS {
        ok = ok & size_within(table, p);
    }
    ok
}

// ---- each two

// Whether the test holds of each two of the first `n` places. The clause speaks of each test `t` that the calls agree with.
fn each_two<F: Fn(usize, usize) -> bool>(n: usize, holds: F) -> bool
    requires { (i k : ℕ) → i < n → k < n → F.pre holds i k }
    ensures { (t : ℕ → ℕ → Bool) → ((i k : ℕ) (r : Bool) → i < n → k < n → F.post holds i k r → r ≡ t i k) → result ≡ pairwise t (numbers 0 n) }
{
    let mut ok = true;
    for i in 0..n {
        for k in i + 1..n {
            ok = ok & holds(i, k);
        }
    }
    ok
}

// ---- names

// Whether the function at place `q` has no name or that at place `k` has another.
fn names_apart(table: &[u8], q: usize, k: usize) -> bool
    requires { (table_size connection_count ≤ length table.now) × ((q < function_count) × (k < function_count)) }
    ensures { result ≡ names_apart (function_in connection_count table.now q) (function_in connection_count table.now k) }
{
    name(table, q).is_empty() | !octets::equal(name(table, q), name(table, k))
}

// Whether no two functions have one name.
pub fn functions_distinct(table: &[u8]) -> bool
    requires { table_size connection_count ≤ length table.now }
    ensures { result ≡ functions_distinct (table_of connection_count table.now) }
{
    each_two(FUNCTIONS, |q, k| names_apart(table, q, k))
}

// ---- uniques

// Whether the jobs at the two places, if both are live, differ in function or unique, or the first has no unique.
fn uniques_apart(table: &[u8], p: usize, k: usize) -> bool
    requires { (table_size connection_count ≤ length table.now) × ((p < job_count) × (k < job_count)) }
    ensures { result ≡ uniques_apart (job_in connection_count table.now p) (job_in connection_count table.now k) }
{
    let s = table_fields::serial(table, p);
    let t = table_fields::serial(table, k);
    if (s == 0) | ((t == 0) | (table[FUNCTIONS_AT + p] != table[FUNCTIONS_AT + k])) {
        return true;
    }
    unique(table, p).is_empty() | !octets::equal(unique(table, p), unique(table, k))
}

// Whether no two jobs share function and non-empty unique.
pub fn uniques_distinct(table: &[u8]) -> bool
    requires { table_size connection_count ≤ length table.now }
    ensures { result ≡ uniques_distinct (table_of connection_count table.now) }
{
    each_two(JOBS, |p, k| uniques_apart(table, p, k))
}
