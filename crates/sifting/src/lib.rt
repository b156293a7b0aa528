// The two lists of a rejection: what was found in reads, and the pairs that no order can keep.
#![tactic(auto)]

ghost use Rattle.std.specs.Prelude.{◌≡◌, List, ◌∷◌, [], ℕ, Bool, ◌+◌, ◌*◌, ◌/◌, ◌%◌, ◌≤◌, ◌<◌, length};
ghost use Rattle.base.specs.Base.{pick, first};
ghost use Rattle.base.proofs.Fill.{Appended};
ghost use Rattle.rules.specs.History.{op_count, size};
ghost use Rattle.rules.specs.Reads.{is_finding};
ghost use Rattle.rules.specs.Outcome.{findings, finding_list};
ghost use Rattle.table.specs.Table.{history_of, HasOp, Settled};
ghost use Rattle.bits.specs.Bits.{Holds, Under};
ghost use Rattle.pairs.specs.Pairs.{Ready};
ghost use Rattle.sifting.specs.Lists.{is_kind, finding_at, listed_in, sifted_to, LedTo, Dropped, firsts_of, pair_count, is_in, reasons_in, entry_for, row_for, all_for, pairs_in, AskableBelow, HasPair, Listing};

// Two bytes at `at`; where they end.
pub fn put2(out: &mut [u8], at: usize, a: u8, b: u8) -> usize
    requires { at + 2 ≤ length out.old }
    ensures { Appended out.old at out.new result (a ∷ b ∷ []) }
{
    out[at] = a;
    out[at + 1] = b;
    at + 2
}

// A number in two bytes, little-endian.
pub fn put_number(out: &mut [u8], at: usize, n: usize) -> usize
    requires { (n < 65536) × (at + 2 ≤ length out.old) }
    ensures { Appended out.old at out.new result (n % 256 ∷ n / 256 ∷ []) }
{
    let [low, high] = (n as u16).to_le_bytes();
    put2(out, at, low, high)
}

// n where the test holds, else 0.
// Kept (4): `u8::from(holds) * n` is no plainer.
pub fn weight(holds: bool, n: u8) -> u8
    ensures { result ≡ pick holds n 0 }
{
    if holds { n } else { 0 }
}

// ── findings ──

// Whether an operation's byte is a kind. From 8 on it is the source of a clean external read.
fn is_kind(v: u8) -> bool
    ensures { result ≡ is_kind v }
{
    0 < v && v < 8
}

// How many findings there are.
// Kept (3): tried as `filter(..).count()`, which takes 0.35 % more instructions of a full trace.
pub fn count_findings(h: &[u64], k: &[u8]) -> usize
    requires { Ready h.now k.now }
    ensures { (result ≡ length (findings (history_of h.now))) × (result ≤ 1024) }
{
    let n = table::ops(h);
    let mut found = 0;
    for v in &k[1..=n] {
        found += usize::from(is_kind(*v));
    }
    found
}

// The number of the first one; 0 where there is none.
pub fn first_finding(h: &[u64], k: &[u8]) -> usize
    requires { Ready h.now k.now }
    ensures { result ≡ first 0 1 (op_count (history_of h.now) + 1) (is_finding (history_of h.now)) }
{
    let n = table::ops(h);
    for i in 1..=n {
        if is_kind(k[i]) {
            return i;
        }
    }
    0
}

// Operation i's finding, where it is one: "transaction, kind, operation number (2 bytes little-endian)". Document 02: the search for a write answers "its
// operation number besides its transaction"; "A finding becomes 6 bytes, with that number last (2 bytes), 0 where no write exists".
fn put_finding(h: &[u64], k: &[u8], i: usize, out: &mut [u8], at: usize) -> usize
    requires { Ready h.now k.now × HasOp h.now i × (at + length (finding_at (history_of h.now) i) ≤ length out.old) }
    ensures { Appended out.old at out.new result (finding_at (history_of h.now) i) }
{
    let v = k[i];
    if !is_kind(v) {
        return at;
    }
    let t = table::tx_of(h, i) as u8;
    let w = table::origin_of(h, i);
    let to = put2(out, at, t, v);
    let to = put_number(out, to, i);
    put_number(out, to, w)
}

// The list of findings, "by operation number"; where it ends.
pub fn put_findings(h: &[u64], k: &[u8], out: &mut [u8]) -> usize
    requires { Ready h.now k.now × (6 * length (findings (history_of h.now)) ≤ length out.old) }
    ensures { Appended out.old 0 out.new result (finding_list (history_of h.now)) }
{
    let n = table::ops(h);
    let mut at = 0;
    for i in 1..=n {
        at = put_finding(h, k, i, out, at);
    }
    at
}

// ── the pairs that are listed ──
// Row b of a table has the bits of what stands before b: f has the forced pairs, c what leads to what through them.

// w, without the number a where `led` does not hold.
fn drop_unless(w: u64, a: usize, led: bool) -> u64
    requires { a < 64 }
    ensures { Dropped w a led result }
{
    if led { w } else { bits::without(w, 1u64 << a) }
}

// Those of the 64 numbers from `base` on, of which w has the bits, to which b leads.
fn led_to(c: &[u64], b: usize, base: usize, w: u64) -> u64
    requires { (length c.now ≡ 256) × (b < 128) × (base ≤ 64) }
    ensures { LedTo c.now b base w result }
{
    let mut kept = w;
    let mut left = w;
    let mut a = bits::least(left, 0);
    while a < 64 {
        kept = drop_unless(kept, a, bits::bit(c, base + a, b));
        left = bits::without(left, 1u64 << a);
        a = bits::least(left, 0);
    }
    kept
}

// Row b of f keeps the firsts of the listed pairs: "if its second leads to its first through forced pairs of that level".
fn sift_row(f: &mut [u64], c: &[u64], b: usize)
    requires { (length f.old ≡ 256) × (length c.now ≡ 256) × (b < 128) }
    ensures { (o : List ℕ) → Holds f.old (sifted_to o c.now b) → Holds f.new (sifted_to o c.now (b + 1)) }
{
    let lo = led_to(c, b, 0, f[2 * b]);
    let hi = led_to(c, b, 64, f[2 * b + 1]);
    f[2 * b] = lo;
    f[2 * b + 1] = hi;
}

// The table of forced pairs, of numbers below n, becomes that of the listed ones.
pub fn sift(f: &mut [u64], c: &[u64], n: usize)
    requires { Under n f.old × (length c.now ≡ 256) }
    ensures { Holds f.new (listed_in f.old c.now) }
{
    for b in 0..n {
        sift_row(f, c, b);
    }
}

// How many listed pairs have the second b.
fn count_row(l: &[u64], n: usize, b: usize) -> usize
    requires { Under n l.now × (b < n) }
    ensures { result ≡ length (firsts_of l.now n b) }
{
    u64::count_ones(l[2 * b]) as usize + u64::count_ones(l[2 * b + 1]) as usize
}

// How many pairs of numbers below n are listed.
pub fn count_pairs(l: &[u64], n: usize) -> usize
    requires { Under n l.now }
    ensures { (result ≡ pair_count l.now n) × (result ≤ 16384) }
{
    let mut found: usize = 0;
    for b in 0..n {
        found += count_row(l, n, b);
    }
    found
}

// ── the list of these ──

// Which pairs are listed, and with which reasons.
pub trait Listed {
    // the pair (a, b) may be asked for; it is listed; its reasons
    ghost can_ask: { Self → ℕ → ℕ → Type 0 };

    ghost has: { Self → ℕ → ℕ → Bool };

    ghost reasons: { Self → ℕ → ℕ → ℕ };

    fn has(&self, a: usize, b: usize) -> bool
        requires { can_ask self.now a b }
        ensures { result ≡ has self.now a b };

    fn reasons(&self, a: usize, b: usize) -> u8
        requires { can_ask self.now a b }
        ensures { result ≡ reasons self.now a b };
}

// The pair, where it is listed: "first, second, reasons, 0".
fn put_pair<L: Listed>(pairs: &L, a: usize, b: usize, out: &mut [u8], at: usize) -> usize
    requires { L.can_ask pairs.now a b × (a < 256) × (b < 256) × (at + length (entry_for (L.has pairs.now) (L.reasons pairs.now) a b) ≤ length out.old) }
    ensures { Appended out.old at out.new result (entry_for (L.has pairs.now) (L.reasons pairs.now) a b) }
{
    if !pairs.has(a, b) {
        return at;
    }
    let to = put2(out, at, a as u8, b as u8);
    put2(out, to, pairs.reasons(a, b), 0)
}

// The listed pairs with the first a, by second.
fn put_row<L: Listed>(pairs: &L, n: usize, a: usize, out: &mut [u8], at: usize) -> usize
    requires { AskableBelow L.can_ask pairs.now n × (a < n) × (at + length (row_for (L.has pairs.now) (L.reasons pairs.now) n a) ≤ length out.old) }
    ensures { Appended out.old at out.new result (row_for (L.has pairs.now) (L.reasons pairs.now) n a) }
{
    let mut to = at;
    for b in 0..n {
        to = put_pair(pairs, a, b, out, to);
    }
    to
}

// The list of the pairs of numbers below n, by first and then second, from `at` on; where it ends.
pub fn put_listed<L: Listed>(pairs: &L, n: usize, out: &mut [u8], at: usize) -> usize
    requires { AskableBelow L.can_ask pairs.now n × (at + length (all_for (L.has pairs.now) (L.reasons pairs.now) n) ≤ length out.old) }
    ensures { Appended out.old at out.new result (all_for (L.has pairs.now) (L.reasons pairs.now) n) }
{
    let mut to = at;
    for a in 0..n {
        to = put_row(pairs, n, a, out, to);
    }
    to
}

// ── .. with the judge's reasons ──

// l has the listed pairs, r those of reads, v those of rivals.
#[derive(Clone, Copy)]
struct Judged<'a> {
    h: &'a [u64],
    l: &'a [u64],
    r: &'a [u64],
    v: &'a [u64],
}

impl Listed for Judged<'_> {
    ghost can_ask = { λ s a b. Listing s.h.now s.l.now s.r.now s.v.now × HasPair s.h.now a b };

    ghost has = { λ s. is_in s.l.now };

    ghost reasons = { λ s. reasons_in (history_of s.h.now) s.r.now s.v.now };

    fn has(&self, a: usize, b: usize) -> bool {
        bits::bit(self.l, b, a)
    }

    // "Reasons are a sum of 1 start, 2 session, 4 read, 8 rival; every reason that holds is in it."
    fn reasons(&self, a: usize, b: usize) -> u8 {
        weight(pairs::is_start(self.h, a, b), 1)
            + weight(pairs::is_session(self.h, a, b), 2)
            + weight(bits::bit(self.r, b, a), 4)
            + weight(bits::bit(self.v, b, a), 8)
    }
}

// The list of pairs, by first and then second; where it ends.
pub fn put_pairs(h: &[u64], l: &[u64], r: &[u64], v: &[u64], out: &mut [u8]) -> usize
    requires { Listing h.now l.now r.now v.now × (4 * pair_count l.now (size (history_of h.now)) ≤ length out.old) }
    ensures { Appended out.old 0 out.new result (pairs_in (history_of h.now) l.now r.now v.now) }
{
    put_listed(&Judged { h, l, r, v }, table::txs(h) + 1, out, 0)
}
