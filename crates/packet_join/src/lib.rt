// A packet that is to be written: its header, laid over a buffer; its arguments, tried against the rules of its shape, measured, and
// laid with a zero byte between each two. An inner crate of the packet layer.
#![tactic(auto)]

ghost use Rattle.std.specs.Prelude.{◌≡◌, ◌++◌, ◌+◌, ◌≤◌, min, length, map};
ghost use Rattle.octets.specs.Bytes.{big_endian};
ghost use Rattle.octets.specs.Put.{put};
ghost use Rattle.packet.specs.Layout.{rules_of};
ghost use Rattle.packet.specs.Arguments.{fit_all, join};

use packet::Shape;

// Lays a header over `out` from `at` on, and returns the place after it.
pub fn put_header(out: &mut [u8], at: usize, magic: &[u8], kind: u32, size: u32) -> usize
    requires { (length magic.now ≡ 4) × (at + 12 ≤ length out.old) }
    ensures { (result ≡ at + 12) × (out.new ≡ put at (magic.now ++ (big_endian kind ++ big_endian size)) out.old) }
{
    let kind_bytes = octets::big_endian(kind);
    let size_bytes = octets::big_endian(size);
    let type_at = octets::put(out, at, magic);
    let size_at = octets::put(out, type_at, &kind_bytes);
    octets::put(out, size_at, &size_bytes)
}

// Whether the arguments are those that the shape asks for.
pub fn fit_all(shape: Shape, arguments: &[&[u8]]) -> bool
    ensures { result ≡ fit_all (rules_of shape) (map (λ a. a.now) arguments.now) }
{
    if arguments.len() != packet_kinds::count_of(shape) {
        return false;
    }
    for (i, argument) in arguments.iter().enumerate() {
        if !packet_split::fits(packet_kinds::rule_of(shape, i), argument) {
            return false;
        }
    }
    true
}

// How long the data of these arguments is; 65,536 stands for that and more, so that no sum overflows. Each argument is counted with one
// byte behind it, which the last has not.
pub fn joined_length(arguments: &[&[u8]]) -> usize
    ensures { result ≡ min 65536 (length (join (map (λ a. a.now) arguments.now))) }
{
    let mut ended = 0;
    for argument in arguments {
        ended = (ended + argument.len().min(65536) + 1).min(65537);
    }
    ended.saturating_sub(1)
}

// Lays the data of these arguments over `out` from `at` on, and returns the place after it.
pub fn put_joined(out: &mut [u8], at: usize, arguments: &[&[u8]]) -> usize
    requires { at + length (join (map (λ a. a.now) arguments.now)) ≤ length out.old }
    ensures { (result ≡ at + length (join (map (λ a. a.now) arguments.now)))
        × (out.new ≡ put at (join (map (λ a. a.now) arguments.now)) out.old) }
{
    match arguments {
        [] => at,
        [last] => octets::put(out, at, last),
        [first, rest @ ..] => {
            let end = octets::put(out, at, first);
            out[end] = 0;
            put_joined(out, end + 1, rest)
        }
    }
}
