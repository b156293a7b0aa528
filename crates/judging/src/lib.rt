// The judge: a trace, a level and three lent buffers in; the answer out, and the buffers as the definition's outcome says.
#![tactic(auto)]

ghost use Rattle.std.specs.Prelude.{◌≡◌, List, [], ℕ, ◌+◌, ◌≤◌, ◌<◌, length};
ghost use Rattle.theory.specs.Leads.{via};
ghost use Rattle.rules.specs.History.{History, size, committed};
ghost use Rattle.rules.specs.Levels.{is_read, forced};
ghost use Rattle.rules.specs.Outcome.{findings, pairs, reported, outcome, judged};
ghost use Rattle.table.specs.Table.{history_of, Settled};
ghost use Rattle.bits.specs.Bits.{bit_of, Holds, Under};
ghost use Rattle.order.specs.Sets.{Gathered};
ghost use Rattle.pairs.specs.Pairs.{Ready, before};
ghost use Rattle.sifting.specs.Lists.{listed_in, Listing, Judging};
ghost use Rattle.forcing.specs.Forcing.{AtLevel};
ghost use Rattle.judging.specs.Judging.{Counted, Arranged, OnAcceptance, OnRejection, OnReading};

use order::Words;
use rules::{Cause, Refusal, Ruling};

// ── acceptance ──

// The order by the document's rule, beside the caller's buffer, so that one that is too short is not touched. m has those that count. Answers how many places
// it fills.
fn arrange(h: &[u64], f: &[u64; 256], m: Words, shown: &mut [u8; 128]) -> usize
    requires { Settled h.now × Under (size (history_of h.now)) f.now × (length shown.old ≡ 128) × Gathered (committed (history_of h.now)) (size (history_of h.now)) m }
    ensures { (level : ℕ) → Holds f.now (before (forced (history_of h.now) level)) → Arranged (history_of h.now) level shown.new result }
{
    order::order_all(f, table::txs(h) + 1, m, shown)
}

// "on acceptance only, 14"
fn accept(shown: &[u8; 128], n: usize, out: &mut [u8]) -> Result<Ruling, Refusal>
    requires { n ≤ length shown.now }
    ensures { (h : History) (level : ℕ) → Arranged h level shown.now n → OnAcceptance h level out.old out.new result }
{
    if out.len() < n {
        return Err(Cause::OrderRoom.at(n));
    }
    copying::copy(shown, n, out);
    Ok(Ruling::Accepted(n))
}

// ── rejection ──

// How many findings there are, and how many listed pairs.
#[derive(Clone, Copy)]
struct Counts {
    findings: usize,
    pairs: usize,
}

fn count(h: &[u64], k: &[u8], l: &[u64; 256]) -> Counts
    requires { Ready h.now k.now × Under (size (history_of h.now)) l.now }
    ensures { Counted h.now l.now result }
{
    Counts {
        findings: sifting::count_findings(h, k),
        pairs: sifting::count_pairs(l, table::txs(h) + 1),
    }
}

// Both counts come before the first byte is written: "on rejection only, 12 and 13". l has the listed pairs, r those of reads, v those of rivals.
fn reject(
    h: &[u64],
    k: &[u8],
    l: &[u64; 256],
    r: &[u64; 256],
    v: &[u64; 256],
    n: Counts,
    findings: &mut [u8],
    pairs: &mut [u8],
) -> Result<Ruling, Refusal>
    requires { Ready h.now k.now × Listing h.now l.now r.now v.now × Counted h.now l.now n }
    ensures { (level : ℕ) → Judging h.now l.now r.now v.now level → OnRejection (history_of h.now) level findings.old pairs.old findings.new pairs.new result }
{
    if findings.len() < 6 * n.findings {
        return Err(Cause::FindingsRoom.at(6 * n.findings));
    }
    if pairs.len() < 4 * n.pairs {
        return Err(Cause::PairsRoom.at(4 * n.pairs));
    }
    sifting::put_findings(h, k, findings);
    sifting::put_pairs(h, l, r, v, pairs);
    Ok(Ruling::Rejected(n.findings, n.pairs))
}

// .. where a pair is listed, so that both lists have to be told.
fn reject_listed(
    h: &[u64],
    k: &[u8],
    l: &[u64; 256],
    r: &[u64; 256],
    v: &[u64; 256],
    findings: &mut [u8],
    pairs: &mut [u8],
) -> Result<Ruling, Refusal>
    requires { Ready h.now k.now × Listing h.now l.now r.now v.now × Under (size (history_of h.now)) l.now }
    ensures { (level : ℕ) → Judging h.now l.now r.now v.now level → OnRejection (history_of h.now) level findings.old pairs.old findings.new pairs.new result }
{
    let n = count(h, k, l);
    reject(h, k, l, r, v, n, findings, pairs)
}

// .. for its n findings alone, where no pair is listed: the list of pairs is empty, and fits.
fn reject_reads(h: &[u64], k: &[u8], n: usize, out: &mut [u8]) -> Result<Ruling, Refusal>
    requires { Ready h.now k.now × (n ≡ length (findings (history_of h.now))) × (n ≤ 1024) }
    ensures { (level : ℕ) (p : List ℕ) → (pairs (history_of h.now) level ≡ []) → OnRejection (history_of h.now) level out.old p out.new p result }
{
    if out.len() < 6 * n {
        return Err(Cause::FindingsRoom.at(6 * n));
    }
    sifting::put_findings(h, k, out);
    Ok(Ruling::Rejected(n, 0))
}

// ── deciding ──

// Where no pair is listed, and the order fills n places: "Accepted: no finding and no listed pair".
fn decide_placed(
    h: &[u64],
    k: &[u8],
    shown: &[u8; 128],
    n: usize,
    findings: &mut [u8],
    order: &mut [u8],
) -> Result<Ruling, Refusal>
    requires { Ready h.now k.now × (n ≤ length shown.now) }
    ensures { (level : ℕ) (p : List ℕ) → (pairs (history_of h.now) level ≡ []) → Arranged (history_of h.now) level shown.now n → OnReading (history_of h.now) level findings.old p order.old findings.new p order.new result }
{
    let found = sifting::count_findings(h, k);
    if found == 0 {
        return accept(shown, n, order);
    }
    reject_reads(h, k, found, findings)
}

// ── what leads to what, and what is listed ──
// Row b of a table has the bits of what stands before b.

// s gets what leads to what through the pairs of f.
fn lead(f: &[u64; 256], s: &mut [u64; 256], n: usize)
    requires { Under n f.now }
    ensures { Holds s.new (via (bit_of f.now) n) }
{
    bits::copy(f, s);
    bits::close(s, n);
}

// f: forced pairs, of which the listed ones stay; s: what leads to what through them, in whose room the pairs of reads come.
fn list(h: &[u64], k: &[u8], f: &mut [u64; 256], s: &mut [u64; 256])
    requires { Ready h.now k.now × Under (size (history_of h.now)) f.old × (length s.old ≡ 256) }
    ensures { Holds f.new (listed_in f.old s.old) × Holds s.new (before (is_read (history_of h.now))) }
{
    sifting::sift(f, s, table::txs(h) + 1);
    pairs::fill_reads(h, k, s);
}

// ── the calls ──

// Judges at a level what was prepared. Whoever asks for several levels prepares once.
pub fn judge_history(
    h: &[u64],
    k: &[u8],
    level: u8,
    findings: &mut [u8],
    pairs: &mut [u8],
    order: &mut [u8],
) -> Result<Ruling, Refusal>
    requires { AtLevel h.now k.now level }
    ensures { OnReading (history_of h.now) level findings.old pairs.old order.old findings.new pairs.new order.new result }
{
    let mut p = [0u8; 128];
    pairs::fill_priors(h, &mut p);
    let m = forcing::members(h);
    let all = forcing::count_members(h);
    let mut f = [0u64; 256];
    let mut s = [0u64; 256];
    let mut v = [0u64; 256];
    forcing::force(h, k, &p, m, all, level, &mut f, &mut s, &mut v);
    let mut shown = [0u8; 128];
    let n = arrange(h, &f, m, &mut shown);
    // an order that has them all shows that no pair is listed: what leads to what through forced pairs is then not needed
    if n == all {
        return decide_placed(h, k, &shown, n, findings, order);
    }
    lead(&f, &mut s, table::txs(h) + 1);
    list(h, k, &mut f, &mut s);
    reject_listed(h, k, &f, &s, &v, findings, pairs)
}

// Judges the trace at a level: 1 read committed, 2 read atomicity, 3 transactional causal consistency. What each answer means, and what each buffer then
// holds, is the outcome that the definition gives these bytes, this level and these buffers. "Order: 1, 2, then record by record."
pub fn judge(
    trace: &[u8],
    level: u8,
    findings: &mut [u8],
    pairs: &mut [u8],
    order: &mut [u8],
) -> Result<Ruling, Refusal>
    ensures { outcome (reported result) findings.new pairs.new order.new ≡ judged trace.now level findings.old pairs.old order.old }
{
    forcing::check_level(level)?;
    let mut h = [0u64; table::WORDS];
    let mut k = [0u8; 1025];
    forcing::prepare(trace, &mut h, &mut k)?;
    judge_history(&h, &k, level, findings, pairs, order)
}
