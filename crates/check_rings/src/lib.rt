// Values in a ring: each stands twice, the second run after the first, so that the one `d` places further on, around, is read at `d` more.
// Of two places around, one is at most half of the ring after the other. No loop has an exit, so that each becomes vector code. An inner
// crate: its callers give closures that may always be called. The clauses speak of each function `f` or test `p` that the calls agree with.
#![tactic(auto)]

ghost use Rattle.std.specs.Prelude.{◌≡◌, ℕ, Bool, ◌+◌, ◌/◌, ◌<◌, ◌≤◌};
ghost use Rattle.lists.specs.Lists.{all, numbers};
ghost use Rattle.table_passes.specs.Arrays.{Twice};
ghost use Rattle.check_rings.specs.Rings.{apart_at};

// The values of the first `N / 2` numbers, twice.
pub fn twice<const N: usize, F: Fn(usize) -> u32>(value: F) -> [u32; N]
    requires even { N / 2 + N / 2 ≡ N }
    requires callable { (k : ℕ) → k < N / 2 → F.pre value k }
    ensures { (f : ℕ → ℕ) → ((k x : ℕ) → k < N / 2 → F.post value k x → x ≡ f k) → Twice (N / 2) f result }
{
    let mut w = [0u32; N];
    for k in 0..N / 2 {
        let x = value(k);
        w[k] = x;
        w[N / 2 + k] = x;
    }
    w
}

// Whether each value that is not left out differs from the one `d` places further on.
fn apart_by<const N: usize, F: Fn(u32) -> bool>(w: &[u32; N], d: usize, out: &F) -> bool
    requires even { N / 2 + N / 2 ≡ N }
    requires near { d ≤ N / 2 }
    requires callable { F.IsAlwaysCallable out.now }
    ensures { (p : ℕ → Bool) → ((x : ℕ) (r : Bool) → F.post out.now x r → r ≡ p x) → result ≡ all (apart_at p w.now d) (numbers 0 (N / 2)) }
{
    let mut ok = true;
    for i in 0..N / 2 {
        ok = ok & (out(w[i]) | (w[i] != w[i + d]));
    }
    ok
}

// Whether each value that is not left out differs from each of the next `reach` ones.
pub fn apart<const N: usize, F: Fn(u32) -> bool>(w: &[u32; N], reach: usize, out: F) -> bool
    requires even { N / 2 + N / 2 ≡ N }
    requires near { reach ≤ N / 2 }
    requires callable { F.IsAlwaysCallable out }
    ensures { (p : ℕ → Bool) → ((x : ℕ) (r : Bool) → F.post out x r → r ≡ p x) → result ≡ all (λ d. all (apart_at p w.now (d + 1)) (numbers 0 (N / 2))) (numbers 0 reach) }
{
    let mut ok = true;
    for d in 0..reach {
        ok = ok & apart_by(w, d + 1, &out);
    }
    ok
}
