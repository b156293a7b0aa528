// Tables of bits: 128 rows of two words each, lent by the caller as 256 words.
#![tactic(auto)]

ghost use Rattle.std.specs.Prelude.{◌≡◌, ◌≤◌, ◌<◌, length};
ghost use Rattle.base.specs.Base.{last};
ghost use Rattle.theory.specs.Leads.{via};
ghost use Rattle.bits.specs.Bits.{test_bit, Minus, bit_of, Holds, Under, nothing, either, plus_bit, minus_bit, plus_selves, minus_selves, plus_row, row_of, once_more, Least, GreatestBit, Alone};

// The word m without the bits of p.
pub fn without(m: u64, p: u64) -> u64
    ensures { Minus m p result }
{
    m & !p
}

// Whether row a has bit b.
pub fn bit(t: &[u64], a: usize, b: usize) -> bool
    requires { (length t.now ≡ 256) × (a < 128) × (b < 128) }
    ensures { result ≡ bit_of t.now a b }
{
    (t[2 * a + b / 64] >> (b % 64)) % 2 == 1
}

// Row a gets bit b.
pub fn set_bit(t: &mut [u64], a: usize, b: usize)
    requires { (length t.old ≡ 256) × (a < 128) × (b < 128) }
    ensures { Holds t.new (plus_bit (bit_of t.old) a b) }
{
    t[2 * a + b / 64] |= 1u64 << (b % 64);
}

// Row a loses bit b.
fn drop_bit(t: &mut [u64], a: usize, b: usize)
    requires { (length t.old ≡ 256) × (a < 128) × (b < 128) }
    ensures { Holds t.new (minus_bit (bit_of t.old) a b) }
{
    t[2 * a + b / 64] &= !(1u64 << (b % 64));
}

// Each row from 1 to before n gets the bit of its own number.
// Kept (2): the two loops differ in what they call alone. With the call as a parameter a contract would speak of each step of a closure: that is no plainer.
pub fn add_selves(t: &mut [u64], n: usize)
    requires { (length t.old ≡ 256) × (n ≤ 128) }
    ensures { Holds t.new (plus_selves n (bit_of t.old)) }
{
    for a in 1..n {
        set_bit(t, a, a);
    }
}

// .. loses it.
pub fn drop_selves(t: &mut [u64], n: usize)
    requires { (length t.old ≡ 256) × (n ≤ 128) }
    ensures { Holds t.new (minus_selves n (bit_of t.old)) }
{
    for a in 1..n {
        drop_bit(t, a, a);
    }
}

// No bit is left.
pub fn clear(t: &mut [u64])
    requires { length t.old ≡ 256 }
    ensures { Holds t.new nothing }
{
    t.fill(0);
}

// `to` becomes what `from` is.
// Kept (3): `copy_from_slice` has the archive for C ask its host for `memmove`; a loop, which needs no more than `memcpy`, does not.
pub fn copy(from: &[u64], to: &mut [u64])
    requires { (length from.now ≡ 256) × (length to.old ≡ 256) }
    ensures { to.new ≡ from.now }
{
    for i in 0..256 {
        to[i] = from[i];
    }
}

// `to` gets the bits of `from` too.
pub fn join(from: &[u64], to: &mut [u64])
    requires { (length from.now ≡ 256) × (length to.old ≡ 256) }
    ensures { Holds to.new (either (bit_of to.old) (bit_of from.now)) }
{
    for (i, w) in from.iter().enumerate() {
        to[i] |= *w;
    }
}

// Row a gets the bits of the words p and q too.
pub fn or_row(t: &mut [u64], a: usize, p: u64, q: u64)
    requires { (length t.old ≡ 256) × (a < 128) }
    ensures { Holds t.new (plus_row (bit_of t.old) a (row_of p q)) }
{
    t[2 * a] |= p;
    t[2 * a + 1] |= q;
}

// Each of the first n rows that leads to k gets row k too. Row k is read before the first row is written, and a row is asked for its bit k before it is
// written itself: so nothing has to be kept beside.
fn pass(t: &mut [u64], n: usize, k: usize)
    requires { Under n t.old × (k < n) }
    ensures { Holds t.new (once_more (bit_of t.old) k) }
{
    let p = t[2 * k];
    let q = t[2 * k + 1];
    for a in 0..n {
        if bit(t, a, k) {
            or_row(t, a, p, q);
        }
    }
}

// What leads to what, within the lent table: before pass k it has what leads by way of numbers below k.
pub fn close(t: &mut [u64], n: usize)
    requires { Under n t.old }
    ensures { Holds t.new (via (bit_of t.old) n) }
{
    for k in 0..n {
        pass(t, n, k);
    }
}

// ── numbers of a row ──

// The smallest bit of w from `from` on; 64 or more where there is none.
pub fn least(w: u64, from: usize) -> usize
    requires { from < 64 }
    ensures { Least (test_bit w) from 64 result × (result ≤ 128) }
{
    from + (w >> from).trailing_zeros() as usize
}

// The smallest bit from `from` on of a row whose words are lo and hi; 128 or more where there is none.
pub fn least_of(lo: u64, hi: u64, from: usize) -> usize
    requires { from ≤ 128 }
    ensures { Least (row_of lo hi) from 128 result }
{
    if from == 128 {
        return 128;
    }
    if 64 <= from {
        return 64 + least(hi, from - 64);
    }
    let a = least(lo, from);
    if a < 64 {
        return a;
    }
    64 + least(hi, 0)
}

// The greatest bit of w, which has one.
fn greatest(w: u64) -> usize
    requires { 0 < w }
    ensures { GreatestBit (test_bit w) 64 result }
{
    w.ilog2() as usize
}

// The greatest bit of a row whose words are lo and hi; 0 where there is none besides.
pub fn greatest_of(lo: u64, hi: u64) -> usize
    ensures { (result ≡ last (row_of lo hi) 128) × (result < 128) }
{
    if hi != 0 {
        return 64 + greatest(hi);
    }
    if lo != 0 {
        return greatest(lo);
    }
    0
}

// The word of the 64 numbers from 64 * half on that has a, if it is one of them, and nothing else.
pub fn own_bit(a: usize, half: usize) -> u64
    ensures { Alone a half result }
{
    if a / 64 == half { 1u64 << (a % 64) } else { 0 }
}
