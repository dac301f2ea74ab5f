// What refusal 1 asks of the stored numbers and of the sizes of workloads. A numerator and a denominator are texts of 1 to 10 digits in
// places of 10 bytes, empty in a free row, and zeros follow them. No loop has an exit, so that each becomes vector code; numbers of one
// digit are found first, by the zeros after them. Whatever the bytes are, the answer is `true` or `false`.
#![tactic(auto)]

ghost use Rattle.std.specs.Prelude.{◌≡◌, ◌&&◌, ◌+◌, ◌≤◌, length, get_or};
ghost use Rattle.lists.specs.Lists.{all, numbers};
ghost use Rattle.server.specs.Sizes.{connection_count, job_count};
ghost use Rattle.server.specs.Rules.{sizes_within};
ghost use Rattle.server.specs.Layout.{denominators_at, numerators_at, serials_at, table_of, table_size};
ghost use Rattle.check_rows.specs.Rows.{Marked};
ghost use Rattle.check_texts.specs.Stored.{Begun, FirstBytes, begins_at, begins_with, digit_padded, first_alone, lasts_of10, size_small, stored_rules};

use server::{DENOMINATORS_AT, JOBS, NUMBER_SIZE, NUMERATORS_AT};

// The bytes of all numerators, and of all denominators.
const NUMBERS: usize = NUMBER_SIZE * JOBS;

// The first byte of each of 32 places of 10 bytes, and the last one.
const FIRSTS_OF_10: [u8; NUMBERS] =
    *b"\x01\0\0\0\0\0\0\0\0\0\x01\0\0\0\0\0\0\0\0\0\x01\0\0\0\0\0\0\0\0\0\x01\0\0\0\0\0\0\0\0\0\x01\0\0\0\0\0\0\0\0\0\x01\0\0\0\0\0\0\0\0\0\x01\0\0\0\0\0\0\0\0\0\x01\0\0\0\0\0\0\0\0\0\x01\0\0\0\0\0\0\0\0\0\x01\0\0\0\0\0\0\0\0\0\x01\0\0\0\0\0\0\0\0\0\x01\0\0\0\0\0\0\0\0\0\x01\0\0\0\0\0\0\0\0\0\x01\0\0\0\0\0\0\0\0\0\x01\0\0\0\0\0\0\0\0\0\x01\0\0\0\0\0\0\0\0\0\x01\0\0\0\0\0\0\0\0\0\x01\0\0\0\0\0\0\0\0\0\x01\0\0\0\0\0\0\0\0\0\x01\0\0\0\0\0\0\0\0\0\x01\0\0\0\0\0\0\0\0\0\x01\0\0\0\0\0\0\0\0\0\x01\0\0\0\0\0\0\0\0\0\x01\0\0\0\0\0\0\0\0\0\x01\0\0\0\0\0\0\0\0\0\x01\0\0\0\0\0\0\0\0\0\x01\0\0\0\0\0\0\0\0\0\x01\0\0\0\0\0\0\0\0\0\x01\0\0\0\0\0\0\0\0\0\x01\0\0\0\0\0\0\0\0\0\x01\0\0\0\0\0\0\0\0\0\x01\0\0\0\0\0\0\0\0\0";

const LASTS_OF_10: [u8; NUMBERS] =
    *b"\0\0\0\0\0\0\0\0\0\x01\0\0\0\0\0\0\0\0\0\x01\0\0\0\0\0\0\0\0\0\x01\0\0\0\0\0\0\0\0\0\x01\0\0\0\0\0\0\0\0\0\x01\0\0\0\0\0\0\0\0\0\x01\0\0\0\0\0\0\0\0\0\x01\0\0\0\0\0\0\0\0\0\x01\0\0\0\0\0\0\0\0\0\x01\0\0\0\0\0\0\0\0\0\x01\0\0\0\0\0\0\0\0\0\x01\0\0\0\0\0\0\0\0\0\x01\0\0\0\0\0\0\0\0\0\x01\0\0\0\0\0\0\0\0\0\x01\0\0\0\0\0\0\0\0\0\x01\0\0\0\0\0\0\0\0\0\x01\0\0\0\0\0\0\0\0\0\x01\0\0\0\0\0\0\0\0\0\x01\0\0\0\0\0\0\0\0\0\x01\0\0\0\0\0\0\0\0\0\x01\0\0\0\0\0\0\0\0\0\x01\0\0\0\0\0\0\0\0\0\x01\0\0\0\0\0\0\0\0\0\x01\0\0\0\0\0\0\0\0\0\x01\0\0\0\0\0\0\0\0\0\x01\0\0\0\0\0\0\0\0\0\x01\0\0\0\0\0\0\0\0\0\x01\0\0\0\0\0\0\0\0\0\x01\0\0\0\0\0\0\0\0\0\x01\0\0\0\0\0\0\0\0\0\x01\0\0\0\0\0\0\0\0\0\x01\0\0\0\0\0\0\0\0\0\x01";

// ---- first bytes

// The first byte of each of the 32 places of 10 bytes from `at` on.
fn first_bytes(table: &[u8], at: usize) -> [u8; JOBS]
    requires { at + 320 ≤ length table.now }
    ensures { FirstBytes table.now at result }
{
    let mut m = [0u8; JOBS];
    for i in 0..JOBS {
        m[i] = table[at + NUMBER_SIZE * i];
    }
    m
}

// Whether each first byte is a digit in a live row, and zero in a free one.
fn begun(live: &[u8; JOBS], first: &[u8; JOBS]) -> bool
    ensures { result ≡ all (λ k. begins_with (get_or live.now k 0) (get_or first.now k 0)) (numbers 0 job_count) }
{
    let mut ok = true;
    for i in 0..JOBS {
        ok = ok
            & (((live[i] != 0) & first[i].is_ascii_digit()) | ((live[i] == 0) & (first[i] == 0)));
    }
    ok
}

// The same of the 32 places from `at` on.
fn numbers_begin(table: &[u8], at: usize, live: &[u8; JOBS]) -> bool
    requires { at + 320 ≤ length table.now }
    ensures { result ≡ all (begins_at live.now table.now at) (numbers 0 job_count) }
{
    let first = first_bytes(table, at);
    begun(live, &first)
}

// ---- all bytes

// Whether each byte of the stored numbers is the first of its place or zero.
fn one_digit_each(table: &[u8], first: &[u8; NUMBERS]) -> bool
    requires { table_size connection_count ≤ length table.now }
    ensures { result ≡ all (first_alone first.now table.now) (numbers 0 320) }
{
    let mut found = 0;
    for i in 0..NUMBERS {
        found = found
            | check_image::after_end(
                first[i],
                table[NUMERATORS_AT + i] | table[DENOMINATORS_AT + i],
            );
    }
    found == 0
}

// Whether each of 320 bytes is zero or a digit, and is the last of its place, or not zero, or followed by a zero.
fn digits_padded(table: &[u8], at: usize, last: &[u8; NUMBERS]) -> bool
    requires { at + 321 ≤ length table.now }
    ensures { result ≡ all (digit_padded last.now table.now at) (numbers 0 320) }
{
    let mut ok = true;
    for k in 0..NUMBERS {
        let x = table[at + k];
        ok = ok
            & (((last[k] != 0) | ((x != 0) | (table[at + k + 1] == 0)))
                & ((x == 0) | x.is_ascii_digit()));
    }
    ok
}

// The same of both columns of numbers, where each place begins with a digit or a zero.
fn all_digits(table: &[u8]) -> bool
    requires { (table_size connection_count ≤ length table.now) × (Begun table.now numerators_at × Begun table.now denominators_at) }
    ensures { result ≡ all (digit_padded lasts_of10 table.now numerators_at) (numbers 0 320) && all (digit_padded lasts_of10 table.now denominators_at) (numbers 0 320) }
{
    if one_digit_each(table, &FIRSTS_OF_10) {
        return true;
    }
    digits_padded(table, NUMERATORS_AT, &LASTS_OF_10)
        && digits_padded(table, DENOMINATORS_AT, &LASTS_OF_10)
}

// Whether the stored numbers of each live row are 1 to 10 digits and those of each free row are empty, all followed by zeros. `live` has
// the marks of the serials.
pub fn stored_hold(table: &[u8], live: &[u8; JOBS]) -> bool
    requires { (table_size connection_count ≤ length table.now) × Marked 4 table.now serials_at live.now }
    ensures { result ≡ stored_rules table.now }
{
    numbers_begin(table, NUMERATORS_AT, live)
        && numbers_begin(table, DENOMINATORS_AT, live)
        && all_digits(table)
}

// ---- sizes

// Whether no workload is above 926 bytes: with the longest name and the longest unique 1,022 together.
fn sizes_small(table: &[u8]) -> bool
    requires { table_size connection_count ≤ length table.now }
    ensures { result ≡ all (size_small table.now) (numbers 0 job_count) }
{
    let mut ok = true;
    for i in 0..JOBS {
        ok = ok & (table_fields::size(table, i) <= 926);
    }
    ok
}

// Whether function, unique and workload of each job are at most 1,022 bytes together. Texts are read only where a workload is above 926.
pub fn sizes_hold(table: &[u8]) -> bool
    requires { table_size connection_count ≤ length table.now }
    ensures { result ≡ sizes_within (table_of connection_count table.now) }
{
    sizes_small(table) || check_exact::sizes_within(table)
}
