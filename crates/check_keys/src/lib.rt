// No two functions with one name, no two jobs with one function and unique, decided by keys: equal texts in padded places have equal keys, so
// where the keys are distinct the rule holds; where two are equal the exact rule is asked. Each function asks that its bytes are there, and
// names_hold and uniques_hold that names and uniques are padded.
#![tactic(auto)]

ghost use Rattle.std.specs.Prelude.{◌≡◌, true, ◌+◌, ◌<◌, ◌≤◌, length};
ghost use Rattle.server.specs.Sizes.{connection_count, function_count, job_count, name_size, unique_size};
ghost use Rattle.server.specs.Rules.{functions_distinct, uniques_distinct};
ghost use Rattle.server.specs.Layout.{names_at, table_of, table_size, uniques_at};
ghost use Rattle.table_laws.specs.Tests.{are_padded};
ghost use Rattle.check_keys.specs.Keys.{folded, name_key, unique_key, word_at, words_at};

use server::{FUNCTIONS, FUNCTIONS_AT, JOBS, NAME_SIZE, NAMES_AT, UNIQUE_SIZE, UNIQUES_AT};

// The second place of names and of uniques, and how many there are from it on.
const SECOND_NAME: usize = NAMES_AT + NAME_SIZE;

const OTHER_FUNCTIONS: usize = FUNCTIONS - 1;

const SECOND_UNIQUE: usize = UNIQUES_AT + UNIQUE_SIZE;

const OTHER_JOBS: usize = JOBS - 1;

// The second half of the first unique's place.
const SECOND_HALVES: usize = UNIQUES_AT + 32;

// ---- words

// Eight bytes as a number.
fn word(table: &[u8], at: usize) -> u64
    requires { at + 8 ≤ length table.now }
    ensures { result ≡ word_at table.now at }
{
    u64::from(table_little::number4(table, at))
        + 4294967296 * u64::from(table_little::number4(table, at + 4))
}

// The four words of 32 bytes, in one number.
fn words(table: &[u8], at: usize) -> u64
    requires { at + 32 ≤ length table.now }
    ensures { result ≡ words_at table.now at }
{
    (word(table, at) ^ word(table, at + 8)) ^ (word(table, at + 16) ^ word(table, at + 24))
}

// The halves of a word, in one number of four bytes.
fn folded(x: u64) -> u32
    ensures { result ≡ folded x }
{
    ((x % 4294967296 + 5 * (x / 4294967296)) % 4294967296) as u32
}

// ---- names

// The key of the name at place `q`.
fn name_key(table: &[u8], q: usize) -> u32
    requires { (table_size connection_count ≤ length table.now) × (q < function_count) }
    ensures { result ≡ name_key table.now q }
{
    if table[NAMES_AT + NAME_SIZE * q] == 0 {
        return q as u32;
    }
    folded(words(table, NAMES_AT + NAME_SIZE * q))
}

// Whether no two functions have one name. Where no place after the first has a name, there are no two. Of two places around, one is at most
// 8 after the other.
pub fn names_hold(table: &[u8]) -> bool
    requires { (table_size connection_count ≤ length table.now) × (are_padded name_size function_count table.now names_at ≡ true) }
    ensures { result ≡ functions_distinct (table_of connection_count table.now) }
{
    if check_image::all_empty(table, SECOND_NAME, NAME_SIZE, OTHER_FUNCTIONS) {
        return true;
    }
    let keys: [u32; 2 * FUNCTIONS] = check_rings::twice(|q| name_key(table, q));
    check_rings::apart(&keys, 8, |_| false) || check_exact::functions_distinct(table)
}

// ---- uniques

// The key of the unique and function of the job at place `p`: one unique under two functions has two keys.
fn unique_key(table: &[u8], p: usize) -> u32
    requires { (table_size connection_count ≤ length table.now) × (p < job_count) }
    ensures { result ≡ unique_key table.now p }
{
    if table[UNIQUES_AT + UNIQUE_SIZE * p] == 0 {
        return p as u32;
    }
    let text = folded(
        words(table, UNIQUES_AT + UNIQUE_SIZE * p) ^ words(table, SECOND_HALVES + UNIQUE_SIZE * p),
    );
    text ^ (u32::from(table[FUNCTIONS_AT + p]) % 16 * 268435456)
}

// Whether no two jobs share function and non-empty unique. Where no place after the first has a unique, there are no two. Of two places
// around, one is at most 16 after the other.
pub fn uniques_hold(table: &[u8]) -> bool
    requires { (table_size connection_count ≤ length table.now) × (are_padded unique_size job_count table.now uniques_at ≡ true) }
    ensures { result ≡ uniques_distinct (table_of connection_count table.now) }
{
    if check_image::all_empty(table, SECOND_UNIQUE, UNIQUE_SIZE, OTHER_JOBS) {
        return true;
    }
    let keys: [u32; 2 * JOBS] = check_rings::twice(|p| unique_key(table, p));
    check_rings::apart(&keys, 16, |_| false) || check_exact::uniques_distinct(table)
}
