// What refusal 1 asks of flags and texts as bytes: a flag is 0 or 1, and after a text's first zero byte only zeros follow. No loop has an
// exit, so that each becomes vector code, and a run of texts that are all empty is compared with zeros alone. Whatever the bytes are, the
// answer is `true` or `false`; each function asks only that its bytes are there.
#![tactic(auto)]

ghost use Rattle.std.specs.Prelude.{◌≡◌, ◌+◌, ◌*◌, ◌/◌, ◌<◌, ◌≤◌, length};
ghost use Rattle.lists.specs.Lists.{all, numbers};
ghost use Rattle.server.specs.Sizes.{connection_count, function_count, job_count, name_size, unique_size};
ghost use Rattle.server.specs.Layout.{names_at, table_size, uniques_at};
ghost use Rattle.table_laws.specs.Tests.{are_flags, are_padded};
ghost use Rattle.check_image.specs.Padded.{after_end, empty_at, last_of, last_or_followed, zero_at};

use server::{NAME_SIZE, NAMES_AT, UNIQUE_SIZE, UNIQUES_AT};

// The bytes that one step of a pass looks at: one unique or two names.
const BLOCK: usize = UNIQUE_SIZE;

// A pass over names or uniques looks at this many runs of places.
const RUNS: usize = 4;

// The last byte of each place of 64 and of 32 bytes.
const LAST_OF_64: [u8; BLOCK] =
    *b"\0\0\0\0\0\0\0\0\0\0\0\0\0\0\0\0\0\0\0\0\0\0\0\0\0\0\0\0\0\0\0\0\0\0\0\0\0\0\0\0\0\0\0\0\0\0\0\0\0\0\0\0\0\0\0\0\0\0\0\0\0\0\0\x01";

const LAST_OF_32: [u8; BLOCK] =
    *b"\0\0\0\0\0\0\0\0\0\0\0\0\0\0\0\0\0\0\0\0\0\0\0\0\0\0\0\0\0\0\0\x01\0\0\0\0\0\0\0\0\0\0\0\0\0\0\0\0\0\0\0\0\0\0\0\0\0\0\0\0\0\0\0\x01";

// ---- zeros and flags

// Whether the `n` bytes from `at` on are zero.
pub fn zeros(table: &[u8], at: usize, n: usize) -> bool
    requires { at + n ≤ length table.now }
    ensures { result ≡ all (zero_at table.now at) (numbers 0 n) }
{
    let mut found = 0;
    for k in 0..n {
        found = found | table[at + k];
    }
    found == 0
}

// Whether each of the `n` bytes from `at` on is 0 or 1.
pub fn flags(table: &[u8], at: usize, n: usize) -> bool
    requires { at + n ≤ length table.now }
    ensures { result ≡ are_flags n table.now at }
{
    let mut ok = true;
    for k in 0..n {
        ok = ok & (table[at + k] <= 1);
    }
    ok
}

// Whether the texts of the `m` places of `w` bytes from `at` on are empty: each place begins with a zero.
pub fn all_empty(table: &[u8], at: usize, w: usize, m: usize) -> bool
    requires { (at + w * m ≤ length table.now) × (0 < w) }
    ensures { result ≡ all (empty_at table.now at w) (numbers 0 m) }
{
    let mut found = 0;
    for k in 0..m {
        found = found | table[at + w * k];
    }
    found == 0
}

// ---- padded texts

// The byte `y` where `x` is zero; else zero.
pub fn after_end(x: u8, y: u8) -> u8
    ensures { result ≡ after_end x y }
{
    if x == 0 { y } else { 0 }
}

// Whether each of 64 bytes is the last of its place, or not zero, or followed by a zero.
fn followed(table: &[u8], at: usize, last: &[u8; BLOCK]) -> bool
    requires { at + 65 ≤ length table.now }
    ensures { result ≡ all (last_or_followed last.now table.now at) (numbers 0 unique_size) }
{
    let mut slack = 0;
    for k in 0..BLOCK {
        slack = slack | after_end(table[at + k] | last[k], table[at + k + 1]);
    }
    slack == 0
}

// The same of `m` times 64 bytes.
pub fn all_followed(table: &[u8], at: usize, m: usize, last: &[u8; BLOCK]) -> bool
    requires { at + unique_size * m + 1 ≤ length table.now }
    ensures { result ≡ all (λ i. all (last_or_followed last.now table.now (at + unique_size * i)) (numbers 0 unique_size)) (numbers 0 m) }
{
    let mut ok = true;
    for i in 0..m {
        ok = ok & followed(table, at + BLOCK * i, last);
    }
    ok
}

// Whether the texts of B blocks of places of W bytes from `at` on are followed by zeros.
fn run_padded<const W: usize, const B: usize>(table: &[u8], at: usize, last: &[u8; BLOCK]) -> bool
    requires { (at + unique_size * B + 1 ≤ length table.now) × (W * (unique_size / W) ≡ unique_size) × (last.now ≡ last_of W) }
    ensures { result ≡ are_padded W (unique_size / W * B) table.now at }
{
    if all_empty(table, at, W, BLOCK / W * B) {
        return zeros(table, at, BLOCK * B);
    }
    all_followed(table, at, B, last)
}

// The same of four runs.
fn runs_padded<const W: usize, const B: usize>(table: &[u8], at: usize, last: &[u8; BLOCK]) -> bool
    requires { (at + unique_size * B * 4 + 1 ≤ length table.now) × (W * (unique_size / W) ≡ unique_size) × (last.now ≡ last_of W) }
    ensures { result ≡ are_padded W (unique_size / W * B * 4) table.now at }
{
    let mut ok = true;
    for i in 0..RUNS {
        ok = ok & run_padded::<W, B>(table, at + BLOCK * B * i, last);
    }
    ok
}

// Whether each unique is followed by zeros.
pub fn uniques_padded(table: &[u8]) -> bool
    requires { table_size connection_count ≤ length table.now }
    ensures { result ≡ are_padded unique_size job_count table.now uniques_at }
{
    runs_padded::<UNIQUE_SIZE, 8>(table, UNIQUES_AT, &LAST_OF_64)
}

// Whether each name is followed by zeros.
pub fn names_padded(table: &[u8]) -> bool
    requires { table_size connection_count ≤ length table.now }
    ensures { result ≡ are_padded name_size function_count table.now names_at }
{
    runs_padded::<NAME_SIZE, 2>(table, NAMES_AT, &LAST_OF_32)
}
