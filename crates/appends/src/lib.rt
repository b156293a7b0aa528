// The call on lists. A trace is read into the table h, with marks on those that count as committed. Row b of a table of pairs has the bits of what
// stands before b; but where listed pairs are held, row a has the seconds of those whose first is a.
#![tactic(auto)]

ghost use Rattle.std.specs.Prelude.{◌≡◌, ◌+◌, ◌*◌, ◌≤◌, length};
ghost use Rattle.table.specs.Table.{history_of, Settled};
ghost use Rattle.bits.specs.Bits.{Holds};
ghost use Rattle.pairs.specs.Pairs.{before};
ghost use Rattle.appends_rules.specs.Appends.{lists_in, ListsWithin};
ghost use Rattle.appends_rules.specs.Dependencies.{is_write_dep, dep_pairs};
ghost use Rattle.appends_rules.specs.ListOutcome.{list_findings, list_outcome, told_lists, judged_lists};
ghost use Rattle.grading.specs.Grades.{AllGraded};
ghost use Rattle.appends.specs.Answering.{list_reported, BothListed, Worked, PutLists};

use rules::{Cause, Refusal};

// How many findings there are, and how many pairs over write dependencies, and over both.
#[derive(Clone, Copy, Debug, PartialEq, Eq)]
pub struct ListCounts {
    pub findings: usize,
    pub writes: usize,
    pub both: usize,
}

// What was worked out of a trace s that was read into h: what is to be known of each operation, k; the write dependencies w, over which so many pairs are listed,
// `writes`; and the read dependencies r.
#[derive(Clone, Copy)]
struct Found<'a> {
    s: &'a [u8],
    h: &'a [u64],
    k: &'a [u16],
    w: &'a [u64],
    r: &'a [u64],
    writes: usize,
}

// c gets the listed pairs over both sorts of dependencies, and r the read dependencies. In between r has both sorts: they are then filled in again, so that no
// further table is needed.
// Kept (5): `r` is written here, so no `Found` can be made before; a second struct, of s, h and k, would be taken apart at both calls.
fn list_both(s: &[u8], h: &[u64], k: &[u16], w: &[u64; 256], r: &mut [u64; 256], c: &mut [u64; 256])
    requires { AllGraded s.now h.now k.now × Holds w.now (before (is_write_dep (history_of h.now) (lists_in s.now (history_of h.now)))) }
    ensures { BothListed (history_of h.now) (lists_in s.now (history_of h.now)) r.new c.new }
{
    ties::fill_ties(s, h, k, true, r);
    bits::join(w, r);
    listings::list_over(r, c, table::txs(h) + 1);
    ties::fill_ties(s, h, k, true, r);
}

// The three lists, which fit. The pairs over both are put first, behind the others, while c has them.
fn put_lists(x: Found, c: &mut [u64; 256], findings: &mut [u8], pairs: &mut [u8])
    requires { Worked x.s.now x.h.now x.k.now x.w.now x.r.now c.old x.writes × (6 * length (list_findings (history_of x.h.now) (lists_in x.s.now (history_of x.h.now))) ≤ length findings.old) × (4 * (x.writes + length (dep_pairs (history_of x.h.now) (lists_in x.s.now (history_of x.h.now)))) ≤ length pairs.old) }
    ensures { PutLists (history_of x.entry.h.now) (lists_in x.entry.s.now (history_of x.entry.h.now)) findings.old pairs.old findings.new pairs.new }
{
    faults::put_faults(x.s, x.h, x.k, findings);
    let n = table::txs(x.h) + 1;
    listings::put_over(c, x.w, x.r, n, 4, pairs, 4 * x.writes);
    listings::list_over(x.w, c, n);
    listings::put_over(c, x.w, x.r, n, 0, pairs, 0);
}

// All counts come before the first byte is written: 12, then 13.
fn answer(
    x: Found,
    c: &mut [u64; 256],
    findings: &mut [u8],
    pairs: &mut [u8],
) -> Result<ListCounts, Refusal>
    requires { Worked x.s.now x.h.now x.k.now x.w.now x.r.now c.old x.writes }
    ensures { list_outcome (list_reported result) findings.new pairs.new ≡ told_lists (history_of x.entry.h.now) (lists_in x.entry.s.now (history_of x.entry.h.now)) findings.old pairs.old }
{
    let counts = ListCounts {
        findings: faults::count_faults(x.s, x.h, x.k),
        writes: x.writes,
        both: sifting::count_pairs(c, table::txs(x.h) + 1),
    };
    if findings.len() < 6 * counts.findings {
        return Err(Cause::FindingsRoom.at(6 * counts.findings));
    }
    if pairs.len() < 4 * (counts.writes + counts.both) {
        return Err(Cause::PairsRoom.at(4 * (counts.writes + counts.both)));
    }
    put_lists(x, c, findings, pairs);
    Ok(counts)
}

// Judges each list read of the trace s, and lists the pairs that no order of the appends and reads of lists can keep. What each answer means, and what each
// buffer then holds, is the outcome that the definition gives.
fn judge_read(
    s: &[u8],
    h: &[u64],
    findings: &mut [u8],
    pairs: &mut [u8],
) -> Result<ListCounts, Refusal>
    requires { Settled h.now × ListsWithin s.now (history_of h.now) }
    ensures { list_outcome (list_reported result) findings.new pairs.new ≡ told_lists (history_of h.now) (lists_in s.now (history_of h.now)) findings.old pairs.old }
{
    let mut k = [0u16; 1025];
    grading::grade_all(s, h, &mut k);
    let mut w = [0u64; 256];
    ties::fill_ties(s, h, &k, false, &mut w);
    let n = table::txs(h) + 1;
    let mut c = [0u64; 256];
    listings::list_over(&w, &mut c, n);
    let writes = sifting::count_pairs(&c, n);
    let mut r = [0u64; 256];
    list_both(s, h, &k, &w, &mut r, &mut c);
    let x = Found {
        s,
        h,
        k: &k,
        w: &w,
        r: &r,
        writes,
    };
    answer(x, &mut c, findings, pairs)
}

// "A call of its own judges each list read of a transaction that counts as committed": findings go into the one buffer, "two pair lists .. in one buffer: over
// write dependencies, then over both" into the other, and "all three counts are answered". What the answer means, and what the buffers then hold, is what the
// definition gives these bytes and these buffers: "2 to 11 with 17 among them, then 12, 13".
pub fn judge_lists(
    trace: &[u8],
    findings: &mut [u8],
    pairs: &mut [u8],
) -> Result<ListCounts, Refusal>
    ensures { list_outcome (list_reported result) findings.new pairs.new ≡ judged_lists trace.now findings.old pairs.old }
{
    let mut h = [0u64; table::WORDS];
    trace::read_trace(trace, &mut h)?;
    settling::settle(&mut h);
    judge_read(trace, &h, findings, pairs)
}
