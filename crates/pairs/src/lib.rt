// "Basic pairs, always forced": start, session and read. A table of pairs is kept by predecessor: row b has the bits of what stands before b.
#![tactic(auto)]

ghost use Rattle.std.specs.Prelude.{◌≡◌, ◌+◌, ◌<◌, length};
ghost use Rattle.rules.specs.History.{size};
ghost use Rattle.rules.specs.Levels.{is_start, is_session, is_read, basic};
ghost use Rattle.table.specs.Table.{history_of, HasTx, HasOp, Settled, Below};
ghost use Rattle.bits.specs.Bits.{bit_of, Holds, nothing, either, plus_row};
ghost use Rattle.pairs.specs.Pairs.{Ready, before, prior_of, Blank, Priors, behind, orders_below, read_bit, read_bits};

// ── the reasons, one by one ──

// "start (0 before every other)"
pub fn is_start(h: &[u64], a: usize, b: usize) -> bool
    requires { Settled h.now }
    ensures { result ≡ is_start (history_of h.now) a b }
{
    a == 0 && 0 < b && reads::is_committed(h, b)
}

// "session (an earlier transaction before each later one of its session)"
pub fn is_session(h: &[u64], a: usize, b: usize) -> bool
    requires { Settled h.now }
    ensures { result ≡ is_session (history_of h.now) a b }
{
    0 < a
        && a < b
        && reads::is_committed(h, a)
        && reads::is_committed(h, b)
        && table::session_of(h, a) == table::session_of(h, b)
}

// ── tables of pairs ──

// Kept (5): the table, the bytes k and the bytes p are passed on as the public functions get them: a struct of them would be made there for that alone.

// The last transaction before b that stands before it by session; 0, which stands before every other, where there is none.
fn prior(h: &[u64], b: usize) -> usize
    requires { Settled h.now × (0 < b) }
    ensures { Below result (prior_of (history_of h.now) b) b }
{
    // a runs down from b - 1. With `(1..b).rev()` the compiler would compare it with b at each step, which took half as long again.
    for k in 1..b {
        let a = b - k;
        if is_session(h, a, b) {
            return a;
        }
    }
    0
}

// .. where b counts as committed; 0, without a search, where it does not.
fn prior_of(h: &[u64], b: usize) -> usize
    requires { Settled h.now × (0 < b) }
    ensures { Below result (prior_of (history_of h.now) b) b }
{
    if !reads::is_committed(h, b) {
        return 0;
    }
    prior(h, b)
}

// For each transaction the last one that stands before it by session; 0 where there is none, or where it does not count as committed.
pub fn fill_priors(h: &[u64], p: &mut [u8; 128])
    requires { Settled h.now × Blank p.old }
    ensures { Priors (history_of h.now) p.new }
{
    for b in 1..=table::txs(h) {
        p[b] = prior_of(h, b) as u8;
    }
}

// Row b gets a, and what row a has.
fn mark_behind(t: &mut [u64], a: usize, b: usize)
    requires { (length t.old ≡ 256) × (a < 128) × (b < 128) }
    ensures { Holds t.new (plus_row (bit_of t.old) b (behind (bit_of t.old) a)) }
{
    let p = t[2 * a];
    let q = t[2 * a + 1];
    bits::or_row(t, b, p, q);
    bits::set_bit(t, b, a);
}

// Row b gets what stands before b by start or by session: the prior one, and all that stand before that. The rows before b have theirs.
fn mark_order(h: &[u64], p: &[u8; 128], t: &mut [u64], b: usize)
    requires { Settled h.now × Priors (history_of h.now) p.now × HasTx h.now b × Holds t.old (orders_below (history_of h.now) b) }
    ensures { Holds t.new (orders_below (history_of h.now) (b + 1)) }
{
    if reads::is_committed(h, b) {
        mark_behind(t, p[b] as usize, b);
    }
}

fn mark_orders(h: &[u64], p: &[u8; 128], t: &mut [u64])
    requires { Settled h.now × Priors (history_of h.now) p.now × Holds t.old nothing }
    ensures { Holds t.new (orders_below (history_of h.now) (size (history_of h.now))) }
{
    for b in 1..=table::txs(h) {
        mark_order(h, p, t, b);
    }
}

// The row of operation i's transaction gets the bit of its source, where it is a clean external read.
fn mark_read(h: &[u64], k: &[u8], t: &mut [u64], i: usize)
    requires { Ready h.now k.now × HasOp h.now i × (length t.old ≡ 256) }
    ensures { Holds t.new (either (bit_of t.old) (read_bit (history_of h.now) i)) }
{
    let v = k[i] as usize;
    if 8 <= v {
        bits::set_bit(t, table::tx_of(h, i), v - 8);
    }
}

fn mark_reads(h: &[u64], k: &[u8], t: &mut [u64])
    requires { Ready h.now k.now × (length t.old ≡ 256) }
    ensures { Holds t.new (either (bit_of t.old) (read_bits (history_of h.now))) }
{
    for i in 1..=table::ops(h) {
        mark_read(h, k, t, i);
    }
}

// Row b has the bits of the transactions that are before b in a basic pair. The bytes p are what `fill_priors` makes.
pub fn fill_basic(h: &[u64], k: &[u8], p: &[u8; 128], t: &mut [u64])
    requires { Ready h.now k.now × Priors (history_of h.now) p.now × (length t.old ≡ 256) }
    ensures { Holds t.new (before (basic (history_of h.now))) }
{
    bits::clear(t);
    mark_orders(h, p, t);
    mark_reads(h, k, t);
}

// Row b has the bits of the transactions that are before b in a read pair: "the source before the reader of a clean external read".
pub fn fill_reads(h: &[u64], k: &[u8], t: &mut [u64])
    requires { Ready h.now k.now × (length t.old ≡ 256) }
    ensures { Holds t.new (before (is_read (history_of h.now))) }
{
    bits::clear(t);
    mark_reads(h, k, t);
}
