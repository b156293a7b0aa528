// What each list read is, worked out once, in order: a number for each operation.
#![tactic(auto)]

ghost use Rattle.std.specs.Prelude.{◌≡◌, not, ℕ, ◌+◌, ◌<◌, length};
ghost use Rattle.base.specs.Base.{pick};
ghost use Rattle.table.specs.Table.{history_of, HasOp, HasList, Settled};
ghost use Rattle.appends_rules.specs.Appends.{is_list, key_of, values_at, lists_in, ListsWithin};
ghost use Rattle.appends_rules.specs.ListKinds.{in_line, is_half, list_kind, list_at, longest_below};
ghost use Rattle.elements.specs.Elements.{ListAt, KeyedList, number_or_0};
ghost use Rattle.grading.specs.Grades.{IsSpot, code_of, Graded, AllGraded, Ungraded, Grading, FoundOut};

use elements::ListKind;

// ── list reads ──

// Whether operation i is a list read.
pub fn is_list(h: &[u64], i: usize) -> bool
    requires { HasOp h.now i }
    ensures { result ≡ is_list (history_of h.now) i }
{
    if !table::is_write(h, i) {
        return false;
    }
    8589934592 <= table::key_of(h, i)
}

// A list read's list: where its record stands in the trace, how many elements it has, and its key.
#[derive(Clone, Copy)]
pub struct Spot {
    pub at: usize,
    pub number: usize,
    pub key: u64,
}

pub fn spot_of(s: &[u8], h: &[u64], i: usize) -> Spot
    requires { ListsWithin s.now (history_of h.now) × HasList h.now i }
    ensures { IsSpot s.now h.now i result }
{
    let at = table::value_of(h, i) as usize;
    Spot {
        at,
        number: elements::length_at(s, at),
        key: table::key_of(h, i) % 4294967296,
    }
}

// How many elements list read m has; none where m is 0.
// Kept (5): here and below `s` and `h` go on to public functions that take the two; a struct of them would be taken apart at each call.
fn length_of(s: &[u8], h: &[u64], m: usize) -> usize
    requires { ListsWithin s.now (history_of h.now) × (0 < m → HasList h.now m) }
    ensures { result ≡ length (list_at (lists_in s.now (history_of h.now)) m) }
{
    if m == 0 {
        return 0;
    }
    spot_of(s, h, m).number
}

// ── the kind of each ──

// "11, neither it nor some earlier clean list of the key starts with the other": e is the list, and m the longest of those, 0 where there is none.
fn is_apart(s: &[u8], h: &[u64], e: Spot, m: usize) -> bool
    requires { ListsWithin s.now (history_of h.now) × ListAt s.now e.at e.number × (0 < m → HasList h.now m) }
    ensures { result ≡ not (in_line (values_at s.now e.at) (list_at (lists_in s.now (history_of h.now)) m)) }
{
    if m == 0 {
        return false;
    }
    let o = spot_of(s, h, m);
    !elements::in_line(s, e.at, e.number, o.at, o.number)
}

// Kinds 10 and 11, where no other fits: e is the list, t the reader.
fn late_kind(s: &[u8], h: &[u64], t: usize, e: Spot, m: usize) -> Option<ListKind>
    requires { ListsWithin s.now (history_of h.now) × KeyedList s.now h.now e.at e.number e.key × (0 < m → HasList h.now m) }
    ensures { ◌≡◌ {A = ℕ} (number_or_0 result) (pick (is_half (history_of h.now) t e.key (values_at s.now e.at)) 10 (pick (not (in_line (values_at s.now e.at) (list_at (lists_in s.now (history_of h.now)) m))) 11 0)) }
{
    if elements::ends_half(s, h, t, e.at, e.number, e.key) {
        return Some(ListKind::Half);
    }
    is_apart(s, h, e, m).then_some(ListKind::Apart)
}

// The kind of list read i, where m is the longest clean list of its key before it.
fn kind_of(s: &[u8], h: &[u64], k: &mut [u16], i: usize, m: usize) -> Option<ListKind>
    requires { Grading s.now h.now i k.old × (m ≡ longest_below (history_of h.now) (lists_in s.now (history_of h.now)) (key_of (history_of h.now) i) i) }
    ensures { FoundOut (history_of h.now) i k.old k.new (number_or_0 result) (list_kind (history_of h.now) (lists_in s.now (history_of h.now)) i) }
{
    let e = spot_of(s, h, i);
    let fault = elements::scan(s, h, k, i, e.at, e.number, e.key);
    ListKind::from_number(fault).or_else(|| late_kind(s, h, table::tx_of(h, i), e, m))
}

// What list read i is: 1 clean, 7 to 11 its kind, 0 where it is not judged.
// Kept (1): this number is what the table has of it, in fixed memory, and what `code_at` answers.
fn code_of(s: &[u8], h: &[u64], k: &mut [u16], i: usize, m: usize) -> u8
    requires { Grading s.now h.now i k.old × (m ≡ longest_below (history_of h.now) (lists_in s.now (history_of h.now)) (key_of (history_of h.now) i) i) }
    ensures { FoundOut (history_of h.now) i k.old k.new result (code_of (history_of h.now) (lists_in s.now (history_of h.now)) i) }
{
    if !reads::is_committed(h, table::tx_of(h, i)) {
        return 0;
    }
    kind_of(s, h, k, i, m).map_or(1, ListKind::number)
}

// ── all of them ──

// The longest clean list of its key up to list read i, where c says what that is and m is the longest before it.
fn longer_of(s: &[u8], h: &[u64], i: usize, m: usize, c: u8) -> usize
    requires { ListsWithin s.now (history_of h.now) × HasList h.now i × (c ≡ code_of (history_of h.now) (lists_in s.now (history_of h.now)) i) × (m ≡ longest_below (history_of h.now) (lists_in s.now (history_of h.now)) (key_of (history_of h.now) i) i) }
    ensures { result ≡ longest_below (history_of h.now) (lists_in s.now (history_of h.now)) (key_of (history_of h.now) i) (i + 1) }
{
    if c != 1 {
        return m;
    }
    if length_of(s, h, i) <= length_of(s, h, m) {
        return m;
    }
    i
}

// List read i. What is known of its key so far stands with the list read of that key before it.
fn grade(s: &[u8], h: &[u64], k: &mut [u16], i: usize)
    requires { Grading s.now h.now i k.old }
    ensures { Graded (history_of h.now) (lists_in s.now (history_of h.now)) (i + 1) k.new }
{
    let m = elements::wide(k[table::prev_list(h, i)]) / 16;
    let c = code_of(s, h, k, i, m);
    let b = longer_of(s, h, i, m, c);
    k[i] = (usize::from(c) + 16 * b) as u16;
}

// Operation i, if it is a list read.
fn grade_at(s: &[u8], h: &[u64], k: &mut [u16], i: usize)
    requires { Settled h.now × ListsWithin s.now (history_of h.now) × HasOp h.now i × Graded (history_of h.now) (lists_in s.now (history_of h.now)) i k.old }
    ensures { Graded (history_of h.now) (lists_in s.now (history_of h.now)) (i + 1) k.new }
{
    if is_list(h, i) {
        grade(s, h, k, i);
    }
}

// All list reads, by operation number.
pub fn grade_all(s: &[u8], h: &[u64], k: &mut [u16])
    requires { Settled h.now × ListsWithin s.now (history_of h.now) × Ungraded k.old }
    ensures { AllGraded s.now h.now k.new }
{
    for i in 1..=table::ops(h) {
        grade_at(s, h, k, i);
    }
}

// What operation i is, once all are graded: 1 a clean list read, 7 to 11 an unclean one's kind, 0 anything else.
pub fn code_at(s: &[u8], h: &[u64], k: &[u16], i: usize) -> u8
    requires { AllGraded s.now h.now k.now × HasOp h.now i }
    ensures { result ≡ code_of (history_of h.now) (lists_in s.now (history_of h.now)) i }
{
    if !is_list(h, i) {
        return 0;
    }
    (elements::wide(k[i]) % 16) as u8
}
