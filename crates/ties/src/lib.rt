// The tables of write and of read dependencies. Every clean list of a key begins the longest one, so that its neighbours are neighbours there: none has to be
// told apart.
#![tactic(auto)]

ghost use Rattle.std.specs.Prelude.{◌≡◌, ◌+◌, ◌<◌, length};
ghost use Rattle.rules.specs.History.{tx_count};
ghost use Rattle.table.specs.Table.{history_of, HasOp, Below};
ghost use Rattle.bits.specs.Bits.{bit_of, Holds, either};
ghost use Rattle.pairs.specs.Pairs.{before};
ghost use Rattle.appends_rules.specs.Appends.{appender_of, values_at, lists_in};
ghost use Rattle.appends_rules.specs.ListKinds.{element};
ghost use Rattle.elements.specs.Elements.{KeyedList};
ghost use Rattle.grading.specs.Grades.{AllGraded};
ghost use Rattle.ties.specs.Ties.{deps_of, tied, next_ties, last_tie, ties_of};

use grading::Spot;

// The transaction that appended element q of the list e; 0 where none did.
// Kept (5): here and below `s` and `h` go on to public functions that take the two; a struct of them would be taken apart at each call.
fn appender_at(s: &[u8], h: &[u64], e: Spot, q: usize) -> usize
    requires { KeyedList s.now h.now e.at e.number e.key × (q < e.number) }
    ensures { Below result (appender_of (history_of h.now) e.key (element (values_at s.now e.at) q)) (tx_count (history_of h.now) + 1) }
{
    let w = elements::append_at(s, h, e.at, e.number, e.key, q);
    if w == 0 {
        return 0;
    }
    table::tx_of(h, w)
}

// Row b gets the bit a, where they differ.
fn set_tie(t: &mut [u64], a: usize, b: usize)
    requires { (length t.old ≡ 256) × (a < 128) × (b < 128) }
    ensures { Holds t.new (either (bit_of t.old) (tied a b)) }
{
    if a != b {
        bits::set_bit(t, b, a);
    }
}

// "between the different transactions of neighbouring elements"
fn mark_next(s: &[u8], h: &[u64], t: &mut [u64], e: Spot)
    requires { KeyedList s.now h.now e.at e.number e.key × (length t.old ≡ 256) }
    ensures { Holds t.new (either (bit_of t.old) (next_ties (history_of h.now) e.key (values_at s.now e.at))) }
{
    if e.number == 0 {
        return;
    }
    let mut a = appender_at(s, h, e, 0);
    for q in 1..e.number {
        let b = appender_at(s, h, e, q);
        set_tie(t, a, b);
        a = b;
    }
}

// "the last element of each clean list gives a read dependency .. from its transaction to a different reader", b.
fn mark_last(s: &[u8], h: &[u64], t: &mut [u64], e: Spot, b: usize)
    requires { KeyedList s.now h.now e.at e.number e.key × (length t.old ≡ 256) × (b < 128) }
    ensures { Holds t.new (either (bit_of t.old) (last_tie (history_of h.now) e.key (values_at s.now e.at) b)) }
{
    if e.number == 0 {
        return;
    }
    let a = appender_at(s, h, e, e.number - 1);
    set_tie(t, a, b);
}

// What operation i gives, if it is a clean list read.
// Kept (7): `reads` is the public call's; each step as a closure would need the table before and after in a contract of its own, which is no plainer.
fn mark_at(s: &[u8], h: &[u64], k: &[u16], reads: bool, t: &mut [u64], i: usize)
    requires { AllGraded s.now h.now k.now × HasOp h.now i × (length t.old ≡ 256) }
    ensures { Holds t.new (either (bit_of t.old) (ties_of reads (history_of h.now) (lists_in s.now (history_of h.now)) i)) }
{
    if grading::code_at(s, h, k, i) != 1 {
        return;
    }
    let e = grading::spot_of(s, h, i);
    if reads {
        mark_last(s, h, t, e, table::tx_of(h, i));
    } else {
        mark_next(s, h, t, e);
    }
}

// Row b gets the bits of the transactions that are before b by a read dependency, or by a write dependency.
pub fn fill_ties(s: &[u8], h: &[u64], k: &[u16], reads: bool, t: &mut [u64])
    requires { AllGraded s.now h.now k.now × (length t.old ≡ 256) }
    ensures { Holds t.new (before (deps_of reads (history_of h.now) (lists_in s.now (history_of h.now)))) }
{
    bits::clear(t);
    for i in 1..=table::ops(h) {
        mark_at(s, h, k, reads, t, i);
    }
}
