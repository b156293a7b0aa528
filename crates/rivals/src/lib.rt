// "Take a clean external read of x in t3 from t1, and a rival t2 that writes x and is neither t1 nor t3. The level adds the pair t2 before t1 when" t3 sees
// t2 in the level's own way. A table of pairs is kept by predecessor: row t1 has the bits of the rivals before t1.
#![tactic(auto)]

ghost use Rattle.std.specs.Prelude.{◌≡◌, true, List, ℕ, ◌+◌, ◌≤◌, ◌<◌, length, get_or, eqb};
ghost use Rattle.base.specs.Base.{pick, last};
ghost use Rattle.rules.specs.History.{op, tx_count};
ghost use Rattle.rules.specs.Levels.{is_rival};
ghost use Rattle.table.specs.Table.{history_of, HasTx, HasOp};
ghost use Rattle.table.proofs.Chain.{OnChain};
ghost use Rattle.bits.specs.Bits.{bit_of, Holds, either, row_of};
ghost use Rattle.pairs.specs.Pairs.{Ready, before};
ghost use Rattle.keys.specs.Keys.{writers};
ghost use Rattle.rivals.specs.Rivals.{Told, Asked, pairs_for, first_from, seen_from, stands_for, writes_for, tries_from, is_hit_of, hit_bits, rival_bits, rivals_among, rivals_of, rivals, Foregoing, Chosen, Candidates, is_told, Behind};

use order::Words;

// What a search looks into: the history's table h, what is to be known of its operations, k, and the table w of who writes in which bucket; for a level.
#[derive(Clone, Copy)]
struct Sight<'a> {
    h: &'a [u64],
    k: &'a [u8],
    w: &'a [u64],
    level: u8,
    ghost ready: { Ready h.now k.now },
    ghost writers: { Holds w.now (writers (history_of h.now)) },
    ghost levels: { (1 ≤ level) × (level ≤ 3) },
}

// What a level has to be told: the table s alone, where `width` is 0, or else the vectors x, in columns below `width`, and the rows of s that they name.
#[derive(Clone, Copy)]
struct Known<'a> {
    s: &'a [u64],
    x: &'a [u8],
    width: usize,
}

impl Sight<'_> {
    // ── which reads of t3 see t2 ──

    // i, where operation i is a clean external read from t2; else r.
    fn earlier(&self, t2: usize, i: usize, r: usize) -> usize
        requires { (i < length self.now.k.now) × (t2 < 128) }
        ensures { result ≡ pick (eqb (get_or self.now.k.now i 0) (8 + t2)) i r }
    {
        if self.k[i] as usize == 8 + t2 { i } else { r }
    }

    // The number of t3's first clean external read from t2; the number of operations where it has none.
    fn first_from(&self, t2: usize, t3: usize) -> usize
        requires { HasTx self.now.h.now t3 × (t2 ≤ tx_count (history_of self.now.h.now)) }
        ensures { result ≡ first_from (history_of self.now.h.now) t2 t3 }
    {
        let mut r = table::ops(self.h);
        let mut i = table::last_op(self.h, t3);
        while 0 < i {
            r = self.earlier(t2, i, r);
            i = table::prev_op(self.h, i);
        }
        r
    }

    // The reads of t3 above this number see t2, which the level's pairs have before t3.
    fn seen_from(&self, t2: usize, t3: usize) -> usize
        requires { HasTx self.now.h.now t3 × (t2 ≤ tx_count (history_of self.now.h.now)) × (pairs_for (history_of self.now.h.now) self.now.level t2 t3 ≡ true) }
        ensures { result ≡ seen_from (history_of self.now.h.now) self.now.level t2 t3 }
    {
        if self.level != 1 {
            return 0;
        }
        self.first_from(t2, t3)
    }

    // ── the search ──

    // Where the look through t2's operations starts that is to show whether read i is a hit: at its last one, and nowhere, 0, where the read is not one that t2
    // can be a rival for, where t2 stands before its source already, or where the read's bucket does not have t2. Transaction 0 has no operation, and writes
    // every key: the read itself stands for its write.
    fn writes_to_try(&self, v: &[u64], t2: usize, i: usize) -> usize
        requires { (length v.now ≡ 256) × HasOp self.now.h.now i × (t2 ≤ tx_count (history_of self.now.h.now)) }
        ensures { result ≡ tries_from (history_of self.now.h.now) v.now t2 i }
    {
        let s = self.k[i] as usize;
        if s < 8 {
            return 0;
        }
        if s == 8 + t2 {
            return 0;
        }
        if bits::bit(v, s - 8, t2) {
            return 0;
        }
        if t2 == 0 {
            return i;
        }
        if !bits::bit(self.w, keys::bucket_of(self.h, i), t2) {
            return 0;
        }
        table::last_op(self.h, t2)
    }

    // Whether operation o is a write by t2 of the key that operation i has.
    fn writes_same_key(&self, t2: usize, o: usize, i: usize) -> bool
        requires { HasOp self.now.h.now o × HasOp self.now.h.now i × (stands_for (history_of self.now.h.now) t2 o ≡ true) }
        ensures { result ≡ writes_for (history_of self.now.h.now) t2 (op (history_of self.now.h.now) i).key o }
    {
        t2 == 0
            || table::is_write(self.h, o) && table::key_of(self.h, o) == table::key_of(self.h, i)
    }

    // The last hit of t2 among the reads of t3 from number j down to above `from`; 0 where there is none. "A search for a rival stops at the first one that
    // settles the pair."
    fn next_hit(&self, v: &[u64], t2: usize, t3: usize, from: usize, j: usize) -> usize
        requires { (length v.now ≡ 256) × OnChain (history_of self.now.h.now) t3 j × (t2 ≤ tx_count (history_of self.now.h.now)) }
        ensures { result ≡ last (is_hit_of (history_of self.now.h.now) v.now t2 t3 from) (j + 1) }
    {
        let mut found = 0;
        let mut i = j;
        'reads: while from < i {
            let mut o = self.writes_to_try(v, t2, i);
            'writes: while 0 < o {
                if self.writes_same_key(t2, o, i) {
                    found = i;
                    break 'reads;
                }
                o = table::prev_op(self.h, o);
            }
            i = table::prev_op(self.h, i);
        }
        found
    }

    // ── the table of rival pairs ──

    // t2 before the source of each hit among the reads of t3 up to j. After a hit the search goes on below it, for the reads from another source: this pair is
    // settled.
    fn mark_hits(&self, v: &mut [u64], t2: usize, t3: usize, from: usize, j: usize)
        requires { (length v.old ≡ 256) × OnChain (history_of self.now.h.now) t3 j × (t2 ≤ tx_count (history_of self.now.h.now)) }
        ensures { Holds v.new (either (bit_of v.old) (hit_bits (history_of self.now.h.now) t2 t3 from j)) }
    {
        let mut i = self.next_hit(v, t2, t3, from, j);
        while 0 < i {
            bits::set_bit(v, self.k[i] as usize - 8, t2);
            i = self.next_hit(v, t2, t3, from, table::prev_op(self.h, i));
        }
    }

    // The pairs that the reads of t3 up to j settle for t2, another, which the level's pairs have before t3: so it is committed.
    fn mark_rival(&self, v: &mut [u64], t2: usize, t3: usize, j: usize)
        requires { (length v.old ≡ 256) × (t2 ≡ t3 → ⊥) × (pairs_for (history_of self.now.h.now) self.now.level t2 t3 ≡ true) × HasTx self.now.h.now t3 × OnChain (history_of self.now.h.now) t3 j }
        ensures { Holds v.new (either (bit_of v.old) (rival_bits (history_of self.now.h.now) self.now.level t3 j t2)) }
    {
        self.mark_hits(v, t2, t3, self.seen_from(t2, t3), j);
    }

    // ── the candidates of a read ──

    // Those of the set `left`, of the 64 numbers from 64 * half on, that may be rivals for read i: its bucket has them, and transaction 0, they are not its
    // source, and do not stand before that already.
    fn candidates(&self, v: &[u64], i: usize, left: u64, half: usize) -> u64
        requires { (length v.now ≡ 256) × HasOp self.now.h.now i × (half < 2) }
        ensures { Candidates (history_of self.now.h.now) v.now i left half result }
    {
        let s = self.k[i] as usize;
        if s < 8 {
            return 0;
        }
        let t1 = s - 8;
        bits::without(
            left & (self.w[2 * keys::bucket_of(self.h, i) + half] | bits::own_bit(0, half)),
            v[2 * t1 + half] | bits::own_bit(t1, half),
        )
    }

    // The pairs that the reads of t3 up to j settle for the numbers of a set, which the level's pairs have before t3.
    fn mark_rivals_at(&self, v: &mut [u64], t3: usize, j: usize, set: Words)
        requires { (length v.old ≡ 256) × Chosen (history_of self.now.h.now) self.now.level t3 set.lo set.hi × HasTx self.now.h.now t3 × OnChain (history_of self.now.h.now) t3 j }
        ensures { Holds v.new (either (bit_of v.old) (rivals_among (history_of self.now.h.now) self.now.level t3 j (row_of set.lo set.hi))) }
    {
        let mut t2 = bits::least_of(set.lo, set.hi, 0);
        while t2 < 128 {
            self.mark_rival(v, t2, t3, j);
            t2 = bits::least_of(set.lo, set.hi, t2 + 1);
        }
    }

    // Whether all candidates of read i are rivals, so that there is nothing to search: at levels 2 and 3 each read of t3 sees what the level's pairs have before
    // t3, and who is in a bucket that is not shared writes the key that is read.
    fn is_told(&self, i: usize) -> bool
        requires { HasOp self.now.h.now i }
        ensures { result ≡ is_told (history_of self.now.h.now) self.now.level i }
    {
        if self.level == 1 {
            return false;
        }
        if self.k[i] < 8 {
            return false;
        }
        !bits::bit(self.w, keys::bucket_of(self.h, i), 0)
    }

    // The pairs that read i of t3 settles for the transactions that are left to be looked at. Where its candidates are all rivals, they are marked at once. Else
    // they are searched, and to the end, so that no read below has to look at them again. For any other this read settles no pair that v lacks. Answers who is
    // left then.
    fn mark_read(&self, v: &mut [u64], t3: usize, i: usize, left: Words) -> Words
        requires { (length v.old ≡ 256) × HasTx self.now.h.now t3 × (0 < i) × OnChain (history_of self.now.h.now) t3 i × Chosen (history_of self.now.h.now) self.now.level t3 left.lo left.hi }
        ensures { Behind (history_of self.now.h.now) self.now.level t3 i left.lo left.hi v.old result v.new }
    {
        let lo = self.candidates(v, i, left.lo, 0);
        let hi = self.candidates(v, i, left.hi, 1);
        if self.is_told(i) {
            bits::or_row(v, self.k[i] as usize - 8, lo, hi);
            return left;
        }
        self.mark_rivals_at(v, t3, i, Words { lo, hi });
        Words {
            lo: bits::without(left.lo, lo),
            hi: bits::without(left.hi, hi),
        }
    }

    // The pairs that all reads of t3 settle, from the last down, for any rival, 0 among them: only what the level's pairs have before t3 is looked at. A rival is
    // another than t3.
    fn mark_rivals_of(&self, known: &Known, v: &mut [u64], t3: usize)
        requires { Told self.now.h.now self.now.k.now known.now.s.now known.now.x.now known.now.width self.now.level × (length v.old ≡ 256) × HasTx self.now.h.now t3 }
        ensures { Holds v.new (either (bit_of v.old) (rivals_of (history_of self.now.h.now) self.now.level t3)) }
    {
        let before = known.foregoing(t3);
        let mut left = Words {
            lo: bits::without(before.lo, bits::own_bit(t3, 0)),
            hi: bits::without(before.hi, bits::own_bit(t3, 1)),
        };
        let mut i = table::last_op(self.h, t3);
        while 0 < i {
            left = self.mark_read(v, t3, i, left);
            i = table::prev_op(self.h, i);
        }
    }

    // .. that the reads of all transactions settle.
    fn mark_rivals(&self, known: &Known, v: &mut [u64])
        requires { Told self.now.h.now self.now.k.now known.now.s.now known.now.x.now known.now.width self.now.level × (length v.old ≡ 256) }
        ensures { Holds v.new (either (bit_of v.old) (rivals (history_of self.now.h.now) self.now.level)) }
    {
        for t3 in 1..=table::txs(self.h) {
            self.mark_rivals_of(known, v, t3);
        }
    }
}

impl Known<'_> {
    // What the level's pairs have before t3, of all others than t3: row t3 of s, or the rows of s that t3's vector in x names.
    fn foregoing(&self, t3: usize) -> Words
        requires { (length self.now.s.now ≡ 256) × (t3 < 128) × (0 < self.now.width → Asked self.now.x.now self.now.width t3) }
        ensures { (h k : List ℕ) (level : ℕ) → Told h k self.now.s.now self.now.x.now self.now.width level → HasTx h t3 → Foregoing (history_of h) level t3 result.lo result.hi }
    {
        if self.width == 0 {
            return Words {
                lo: self.s[2 * t3],
                hi: self.s[2 * t3 + 1],
            };
        }
        vectors::known(self.s, self.x, t3, self.width)
    }
}

// Row t1 has the bits of the rivals that the level puts before t1. The table w is what `keys::fill_writers` makes. The level is told by the table s alone, where
// `width` is 0, or else by the vectors x, in columns below `width`, and the rows of s that they name.
pub fn fill_rivals(
    h: &[u64],
    k: &[u8],
    s: &[u64],
    x: &[u8],
    width: usize,
    w: &[u64],
    v: &mut [u64],
    level: u8,
)
    requires { Told h.now k.now s.now x.now width level × Holds w.now (writers (history_of h.now)) × (length v.old ≡ 256) }
    ensures { Holds v.new (before (is_rival (history_of h.now) level)) }
{
    bits::clear(v);
    let sight = Sight { h, k, w, level };
    sight.mark_rivals(&Known { s, x, width }, v);
}
