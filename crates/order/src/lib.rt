// The order: each next place has the smallest number not yet placed whose forced predecessors all are; the rest is ordered by the same rule.
#![tactic(auto)]

ghost use Rattle.std.specs.Prelude.{◌≡◌, [], not, ◌+◌, ◌*◌, ◌≤◌, ◌<◌, length, take};
ghost use Rattle.base.specs.Base.{some, first};
ghost use Rattle.base.proofs.Fill.{Appended};
ghost use Rattle.theory.specs.Order.{rest};
ghost use Rattle.bits.specs.Bits.{Least, lacks, Under};
ghost use Rattle.order.specs.Sets.{words, in_words, is_left, Plus, Given};
ghost use Rattle.order.specs.Ordering.{stands_before, waits, is_next, is_free, Orderable};

// A set of numbers below 128.
#[derive(Clone, Copy)]
pub struct Words {
    pub lo: u64,
    pub hi: u64,
}

// The set without numbers.
pub fn none() -> Words
    ensures { result ≡ words 0 0 }
{
    Words { lo: 0, hi: 0 }
}

// The word u, of the 64 numbers from 64 * half on, with a in it, if a is one of them.
fn word_with(u: u64, a: usize, half: usize) -> u64
    ensures { Given (64 * half) u a result }
{
    u | bits::own_bit(a, half)
}

// The set w with a in it.
pub fn with(w: Words, a: usize) -> Words
    requires { a < 128 }
    ensures { Plus w a result }
{
    Words {
        lo: word_with(w.lo, a, 0),
        hi: word_with(w.hi, a, 1),
    }
}

// Whether a is in the set w.
pub fn has(w: Words, a: usize) -> bool
    requires { a < 128 }
    ensures { result ≡ in_words w a }
{
    if a < 64 {
        return (w.lo >> a) % 2 == 1;
    }
    (w.hi >> (a - 64)) % 2 == 1
}

// Whether v has every bit of u.
fn covers(u: u64, v: u64) -> bool
    ensures { result ≡ not (some 0 64 (lacks u v)) }
{
    u | v == v
}

// Whether p has every number of m.
pub fn within(m: Words, p: Words) -> bool
    ensures { result ≡ not (some 0 128 (is_left m p)) }
{
    covers(m.lo, p.lo) && covers(m.hi, p.hi)
}

// Kept (5): from here on a set is two plain words, `mlo` and `mhi` for the members, `plo` and `phi` for those placed. A struct would be handed over by the
// address of a local, which the recursion could then not leave behind: with plain words it is a jump, in one frame.

// Whether no number of row a is missing among those placed.
fn follows(f: &[u64; 256], plo: u64, phi: u64, a: usize) -> bool
    requires { a < 128 }
    ensures { result ≡ not (some 0 128 (waits f.now (words plo phi) a)) }
{
    covers(f[2 * a], plo) && covers(f[2 * a + 1], phi)
}

// The smallest of the numbers from `base` on, of which `left` has the bits, that is not kept back; 128 where each is.
fn next_of(f: &[u64; 256], plo: u64, phi: u64, left: u64, base: usize) -> usize
    requires { base ≤ 64 }
    ensures { Least (is_free f.now (words plo phi) left base) base (base + 64) result × (base + 64 ≤ result → result ≡ 128) }
{
    let mut set = left;
    let mut a = bits::least(set, 0);
    while a < 64 {
        if follows(f, plo, phi, base + a) {
            return base + a;
        }
        set = bits::without(set, 1u64 << a);
        a = bits::least(set, 0);
    }
    128
}

// The smallest that may come next, or n: only members that are not placed are looked at.
fn next(f: &[u64; 256], n: usize, mlo: u64, mhi: u64, plo: u64, phi: u64) -> usize
    requires { n ≤ 128 }
    ensures { result ≡ first n 0 n (is_next f.now (words mlo mhi) (words plo phi)) }
{
    let a = next_of(f, plo, phi, bits::without(mlo, plo), 0);
    if a < n {
        return a;
    }
    let b = next_of(f, plo, phi, bits::without(mhi, phi), 64);
    if b < n {
        return b;
    }
    n
}

// The rest of the order, from `at` on, after those placed. Answers where it ends.
// Kept (6): the bytes before `at` are those placed, and the contract speaks of them.
fn order(
    f: &[u64; 256],
    n: usize,
    mlo: u64,
    mhi: u64,
    plo: u64,
    phi: u64,
    out: &mut [u8; 128],
    at: usize,
) -> usize
    requires { Orderable f.now n (words mlo mhi) (words plo phi) out.old at }
    ensures { Appended out.old at out.new result (rest n (in_words (words mlo mhi)) (stands_before f.now) (take at out.old)) }
{
    let a = next(f, n, mlo, mhi, plo, phi);
    if a < n {
        out[at] = a as u8;
        let lo = word_with(plo, a, 0);
        let hi = word_with(phi, a, 1);
        order(f, n, mlo, mhi, lo, hi, out, at + 1)
    } else {
        at
    }
}

// The whole order.
pub fn order_all(f: &[u64; 256], n: usize, members: Words, out: &mut [u8; 128]) -> usize
    requires { Under n f.now × (length out.old ≡ 128) }
    ensures { Appended out.old 0 out.new result (rest n (in_words members) (stands_before f.now) []) }
{
    order(f, n, members.lo, members.hi, 0, 0, out, 0)
}
