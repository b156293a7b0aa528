// One list read: its elements, read from the trace where its record stands, and what is at fault with them.
#![tactic(auto)]

ghost use Rattle.std.specs.Prelude.{◌≡◌, ◌⊎◌, MatchOption, ◌+◌, ◌*◌, ◌≤◌, ◌<◌, length};
ghost use Rattle.rules.specs.History.{op, op_count};
ghost use Rattle.rules.specs.Records.{number_at};
ghost use Rattle.table.specs.Table.{history_of, Held, HasOp, Below};
ghost use Rattle.appends_rules.specs.Appends.{value_at, values_at, append_of};
ghost use Rattle.appends_rules.specs.ListKinds.{element, in_line, is_half, is_half_by};
ghost use Rattle.elements.specs.Elements.{ListAt, KeyedList, number_of, is_aborted, Visited, Fresh, Scanned};

// One of the numbers in k, as the numbers of operations are: read so, it is asked only where it stands, not whether it fits.
pub fn wide(x: u16) -> usize
    ensures { result ≡ x }
{
    usize::from(x)
}

// How many elements the list in the record at p has: "a 2-byte number".
pub fn length_at(s: &[u8], p: usize) -> usize
    requires { p + 16 ≤ length s.now }
    ensures { result ≡ number_at s.now p }
{
    usize::from(frame::u16_at(s, p + 14))
}

// Its element q, from 0.
pub fn value_at(s: &[u8], p: usize, q: usize) -> u64
    requires { p + 24 + 8 * q ≤ length s.now }
    ensures { result ≡ value_at s.now p q }
{
    frame::u64_at(s, p + 16 + 8 * q)
}

// The number of the append of v to the key x, 0 where there is none.
fn append_of(h: &[u64], x: u64, v: u64) -> usize
    requires { Held h.now × (x < 4294967296) }
    ensures { Below result (append_of (history_of h.now) x v) (op_count (history_of h.now) + 1) }
{
    table::write_of(h, 4294967296 + x, v)
}

// .. of element q of the list at p, which has n elements and is of the key x.
pub fn append_at(s: &[u8], h: &[u64], p: usize, n: usize, x: u64, q: usize) -> usize
    requires { KeyedList s.now h.now p n x × (q < n) }
    ensures { Below result (append_of (history_of h.now) x (element (values_at s.now p) q)) (op_count (history_of h.now) + 1) }
{
    append_of(h, x, value_at(s, p, q))
}

// ── kinds ──

// The kinds of unclean list reads, with their numbers.
#[derive(Clone, Copy)]
pub enum ListKind {
    // An element was "never appended".
    Lost = 7,
    // One is "equal to an earlier one".
    Again = 8,
    // The "appender has status 0" of one.
    Undone = 9,
    // "the last element's append is in another transaction that later appended to the key again"
    Half = 10,
    // "neither it nor some earlier clean list of the key starts with the other"
    Apart = 11,
}

impl ListKind {
    // The kind of a number; none where it is no kind's.
    pub fn from_number(n: u8) -> Option<ListKind>
        ensures { MatchOption result ((n < 7) ⊎ (11 < n)) (λ k. number_of k ≡ n) }
    {
        match n {
            7 => Some(ListKind::Lost),
            8 => Some(ListKind::Again),
            9 => Some(ListKind::Undone),
            10 => Some(ListKind::Half),
            11 => Some(ListKind::Apart),
            _ => None,
        }
    }

    pub fn number(self) -> u8
        ensures { result ≡ number_of self }
    {
        self as u8
    }
}

// ── kinds 7, 8 and 9 ──

// Whether the append w is of an aborted transaction.
pub fn is_aborted(h: &[u64], w: usize) -> bool
    requires { HasOp h.now w }
    ensures { result ≡ is_aborted (history_of h.now) w }
{
    table::status_of(h, table::tx_of(h, w)) == 0
}

// The append w gets the number i of the list read that has come to it. Whether it had that number already: then its value came earlier in the list.
fn visit(k: &mut [u16], i: usize, w: usize) -> bool
    requires { (length k.old ≡ 1025) × (i ≤ 1024) × (w ≤ 1024) }
    ensures { Visited k.old k.new i w result }
{
    let again = wide(k[w]) == i;
    k[w] = i as u16;
    again
}

// The first of kinds 7, 8 and 9 that fits the list at p, which list read i has; 0 where none does. One look at each element.
// Kept (1): the answer is the number that `grading` puts into its table of fixed memory, one number for each operation.
pub fn scan(s: &[u8], h: &[u64], k: &mut [u16], i: usize, p: usize, n: usize, x: u64) -> u8
    requires { KeyedList s.now h.now p n x × Fresh (history_of h.now) x i k.old }
    ensures { Scanned (history_of h.now) x (values_at s.now p) i k.old k.new result }
{
    let mut again = false;
    let mut undone = false;
    for q in 0..n {
        let w = append_at(s, h, p, n, x, q);
        if w == 0 {
            return ListKind::Lost.number();
        }
        again |= visit(k, i, w);
        undone |= is_aborted(h, w);
    }
    match (again, undone) {
        (true, _) => ListKind::Again.number(),
        (false, true) => ListKind::Undone.number(),
        (false, false) => 0,
    }
}

// ── kind 10 ──

// "the last element's append is in another transaction that later appended to the key again": w is that append, t the reader.
fn is_half(h: &[u64], t: usize, x: u64, w: usize) -> bool
    requires { Held h.now × (x < 4294967296) × (w ≤ op_count (history_of h.now)) }
    ensures { result ≡ is_half_by (history_of h.now) t x w (op (history_of h.now) w).tx }
{
    if w == 0 {
        return false;
    }
    let u = table::tx_of(h, w);
    if u == t {
        return false;
    }
    reads::wrote_after(h, u, 4294967296 + x, w)
}

pub fn ends_half(s: &[u8], h: &[u64], t: usize, p: usize, n: usize, x: u64) -> bool
    requires { KeyedList s.now h.now p n x }
    ensures { result ≡ is_half (history_of h.now) t x (values_at s.now p) }
{
    if n == 0 {
        return false;
    }
    is_half(h, t, x, append_at(s, h, p, n, x, n - 1))
}

// ── kind 11 ──

// Whether of the lists at p and at o, of n and m elements, one starts with the other: they agree as far as both go.
pub fn in_line(s: &[u8], p: usize, n: usize, o: usize, m: usize) -> bool
    requires { ListAt s.now p n × ListAt s.now o m }
    ensures { result ≡ in_line (values_at s.now p) (values_at s.now o) }
{
    (0..n.min(m)).all(|q| value_at(s, p, q) == value_at(s, o, q))
}
