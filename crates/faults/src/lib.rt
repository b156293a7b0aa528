// The findings of the call on lists, each with the append that it ends with.
#![tactic(auto)]

ghost use Rattle.std.specs.Prelude.{◌≡◌, ◌+◌, ◌*◌, ◌≤◌, ◌<◌, length};
ghost use Rattle.base.proofs.Fill.{Appended};
ghost use Rattle.rules.specs.History.{op_count};
ghost use Rattle.table.specs.Table.{history_of, HasOp, Below};
ghost use Rattle.appends_rules.specs.Appends.{values_at, lists_in};
ghost use Rattle.appends_rules.specs.ListKinds.{is_again, is_undone};
ghost use Rattle.appends_rules.specs.ListOutcome.{fault_by, list_findings, list_finding_list};
ghost use Rattle.elements.specs.Elements.{ListAt, KeyedList, number_of};
ghost use Rattle.grading.specs.Grades.{AllGraded};
ghost use Rattle.faults.specs.Faults.{finding_in};

use elements::ListKind;
use grading::Spot;

// ── the element at fault, of the list e ──

// Whether element q is "equal to an earlier one".
// Kept (5): here and below `s` and `h` go on to public functions that take the two; a struct of them would be taken apart at each call.
fn is_again(s: &[u8], e: Spot, q: usize) -> bool
    requires { ListAt s.now e.at e.number × (q < e.number) }
    ensures { result ≡ is_again (values_at s.now e.at) q }
{
    let v = elements::value_at(s, e.at, q);
    (0..q).any(|j| elements::value_at(s, e.at, j) == v)
}

// Whether its "appender has status 0".
fn is_undone(s: &[u8], h: &[u64], e: Spot, q: usize) -> bool
    requires { KeyedList s.now h.now e.at e.number e.key × (q < e.number) }
    ensures { result ≡ is_undone (history_of h.now) e.key (values_at s.now e.at) q }
{
    let w = elements::append_at(s, h, e.at, e.number, e.key, q);
    if w == 0 {
        return false;
    }
    elements::is_aborted(h, w)
}

// "the append of the first element at fault for 8 and 9, of the last element for 10, else 0"
fn fault_at(s: &[u8], h: &[u64], e: Spot, kind: ListKind) -> usize
    requires { KeyedList s.now h.now e.at e.number e.key × (0 < e.number) }
    ensures { Below result (fault_by (history_of h.now) e.key (values_at s.now e.at) (number_of kind)) (op_count (history_of h.now) + 1) }
{
    let q = match kind {
        ListKind::Again => (0..e.number).find(|q| is_again(s, e, *q)).unwrap_or(0),
        ListKind::Undone => (0..e.number).find(|q| is_undone(s, h, e, *q)).unwrap_or(0),
        ListKind::Half => e.number - 1,
        ListKind::Lost | ListKind::Apart => return 0,
    };
    elements::append_at(s, h, e.at, e.number, e.key, q)
}

// ── the list ──

// How many findings there are.
// Kept (3): tried as `filter(..).count()`, which takes 0.3 % more instructions of a full trace with lists.
pub fn count_faults(s: &[u8], h: &[u64], k: &[u16]) -> usize
    requires { AllGraded s.now h.now k.now }
    ensures { (result ≡ length (list_findings (history_of h.now) (lists_in s.now (history_of h.now)))) × (result ≤ 1024) }
{
    let mut found = 0;
    for i in 1..=table::ops(h) {
        found += usize::from(7 <= grading::code_at(s, h, k, i));
    }
    found
}

// Operation i's finding, where it is one: as the judge's, "transaction, kind, operation number", and the number of the append at fault.
fn put_fault(s: &[u8], h: &[u64], k: &[u16], i: usize, out: &mut [u8], at: usize) -> usize
    requires { AllGraded s.now h.now k.now × HasOp h.now i × (at + length (finding_in (history_of h.now) (lists_in s.now (history_of h.now)) i) ≤ length out.old) }
    ensures { Appended out.old at out.new result (finding_in (history_of h.now) (lists_in s.now (history_of h.now)) i) }
{
    let Some(kind) = ListKind::from_number(grading::code_at(s, h, k, i)) else {
        return at;
    };
    let e = grading::spot_of(s, h, i);
    let w = fault_at(s, h, e, kind);
    let to = sifting::put2(out, at, table::tx_of(h, i) as u8, kind.number());
    let to = sifting::put_number(out, to, i);
    sifting::put_number(out, to, w)
}

// The list of findings, by operation number; where it ends.
pub fn put_faults(s: &[u8], h: &[u64], k: &[u16], out: &mut [u8]) -> usize
    requires { AllGraded s.now h.now k.now × (6 * length (list_findings (history_of h.now) (lists_in s.now (history_of h.now))) ≤ length out.old) }
    ensures { Appended out.old 0 out.new result (list_finding_list (history_of h.now) (lists_in s.now (history_of h.now))) }
{
    let mut at = 0;
    for i in 1..=table::ops(h) {
        at = put_fault(s, h, k, i, out, at);
    }
    at
}
