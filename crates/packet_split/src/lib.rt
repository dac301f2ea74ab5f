// The arguments of a packet's data, read by the rules of its shape: after each zero byte the rest of the data goes to the next
// argument's reader as a part. An inner crate of the packet layer; data that does not split as the shape asks is `None`.
#![tactic(auto)]

ghost use Rattle.std.specs.Prelude.{◌≡◌, [], ◌∷◌, ◌+◌, ◌<◌, ◌^◌, drop, length};
ghost use Rattle.octets.specs.Bytes.{within};
ghost use Rattle.packet.specs.Layout.{rules_of};
ghost use Rattle.packet.specs.Arguments.{answered, before_ends, fits, split};

use packet::{Ends, Rule, Shape};

// The ends where there is no argument.
const NO_ENDS: Ends = Ends {
    first: 0,
    second: 0,
    third: 0,
    fourth: 0,
    fifth: 0,
};

// Whether `n` lies between `least` and `most`, both included.
fn between(least: usize, most: usize, n: usize) -> bool
    ensures { result ≡ within least most n }
{
    (least <= n) & (n <= most)
}

// Whether an argument is as its rule says.
pub fn fits(rule: Rule, a: &[u8]) -> bool
    ensures { result ≡ fits rule a.now }
{
    match rule {
        Rule::Text { least, most } => {
            let end = octets::first_zero(a);
            between(least, most, a.len()) & (end == a.len())
        }
        Rule::Digits { least, most } => {
            let all = octets::all_within(a, b'0', b'9');
            between(least, most, a.len()) & all
        }
        Rule::Flag => {
            let zero = octets::equal(a, b"0");
            let one = octets::equal(a, b"1");
            zero | one
        }
        Rule::AnyText => {
            let end = octets::first_zero(a);
            end == a.len()
        }
        Rule::Opaque => true,
        Rule::Absent => false,
    }
}

// Splits `d`, which starts at place `at` of its packet, by the rules of `shape` from number `i` on.
pub fn split_from(shape: Shape, i: usize, at: usize, d: &[u8]) -> Option<Ends>
    requires { (i < length (rules_of shape)) × (at + length d.now < 2 ^ 32) }
    ensures { result ≡ answered at (split (drop i (rules_of shape)) d.now) }
{
    let rule = packet_kinds::rule_of(shape, i);
    let count = packet_kinds::count_of(shape);
    if i + 1 == count {
        return split_last(rule, at, d);
    }
    let end = octets::first_zero(d);
    if end == d.len() {
        return None;
    }
    if !fits(rule, &d[..end]) {
        return None;
    }
    let rest = split_from(shape, i + 1, at + end + 1, &d[end + 1..])?;
    Some(pushed(at + end, rest))
}

// Splits a packet's data, from byte 12 of the packet on, by the rules of its shape.
pub fn split(shape: Shape, d: &[u8]) -> Option<Ends>
    requires { length d.now < 2 ^ 31 }
    ensures { result ≡ answered 12 (split (rules_of shape) d.now) }
{
    if packet_kinds::count_of(shape) == 0 {
        return split_none(d);
    }
    split_from(shape, 0, 12, d)
}

// No argument: the data is empty.
fn split_none(d: &[u8]) -> Option<Ends>
    ensures { result ≡ answered 12 (split [] d.now) }
{
    if d.len() != 0 {
        return None;
    }
    Some(NO_ENDS)
}

// The last argument is all that is left.
fn split_last(rule: Rule, at: usize, d: &[u8]) -> Option<Ends>
    requires { at + length d.now < 2 ^ 32 }
    ensures { result ≡ answered at (split (rule ∷ []) d.now) }
{
    if !fits(rule, d) {
        return None;
    }
    Some(Ends {
        first: at + d.len(),
        ..NO_ENDS
    })
}

// The ends of the rest, with the end of one more argument before them.
fn pushed(end: usize, rest: Ends) -> Ends
    ensures { result ≡ before_ends end rest }
{
    Ends {
        first: end,
        second: rest.first,
        third: rest.second,
        fourth: rest.third,
        fifth: rest.fourth,
    }
}
