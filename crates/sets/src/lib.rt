// Sets of connections, each in one unsigned number: connection c is bit c.
// An inner crate: its callers name connections below 32, and no set is refused.
#![tactic(auto)]

ghost use Rattle.std.specs.Prelude.{◌≡◌, ◌<◌, ◌^◌};
ghost use Rattle.sets.specs.Sets as S;

// The set of one connection.
fn only(c: usize) -> u32
    requires { c < 32 }
    ensures { result ≡ 2 ^ c }
{
    1 << c
}

// Whether the connection belongs to the set.
pub fn has(s: u32, c: usize) -> bool
    requires { c < 32 }
    ensures { result ≡ S.has s c }
{
    (s >> c) % 2 == 1
}

// The set with the connection put in.
pub fn insert(s: u32, c: usize) -> u32
    requires { c < 32 }
    ensures { result ≡ S.insert s c }
{
    if has(s, c) {
        return s;
    }
    s + only(c)
}

// The set with the connection taken out.
pub fn remove(s: u32, c: usize) -> u32
    requires { c < 32 }
    ensures { result ≡ S.remove s c }
{
    if has(s, c) {
        return s - only(c);
    }
    s
}

// The connections of both sets.
pub fn union(s: u32, t: u32) -> u32
    ensures { result ≡ S.union s t }
{
    s | t
}
