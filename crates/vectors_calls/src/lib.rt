// Request Nine's vectors, asked of a trace: functions that read it, make the step of level 3, and promise the request's words of what they answer. Any two
// numbers may be asked for: one past the last transaction leads nowhere.
#![tactic(auto)]

ghost use Rattle.std.specs.Prelude.{◌≡◌, ◌<◌, ◌≤◌};
ghost use Rattle.base.specs.Base.{some};
ghost use Rattle.rules.specs.Levels.{leads};
ghost use Rattle.table.specs.Table.{history_of, Settled};
ghost use Rattle.pairs.specs.Pairs.{Ready, Blank, Priors};
ghost use Rattle.vectors.specs.Vectors.{Zeros, Small, named};
ghost use Rattle.causal.specs.Causal.{HoldsVectors, Known};
ghost use Rattle.vectors_calls.specs.Calls.{SaysLeads, TellsLatest};
ghost use Rattle.vectors_calls.specs.Answers.{said_of, entry_of, told_of};

use rules::Refusal;

// ── the step of level 3 ──

// s and x get what level 3 goes by, and p the prior transaction of each. Answers the number of the vectors' columns, 0 where the table is used: "with a cycle
// the old table is used".
// Kept (5): here and below p, s, x and the width go on one by one to public functions; a struct of them would be taken apart at each call.
fn go_by(h: &[u64], k: &[u8], p: &mut [u8; 128], s: &mut [u64; 256], x: &mut [u8; 16384]) -> usize
    requires { Ready h.now k.now × Blank p.old × Zeros x.old }
    ensures { Priors (history_of h.now) p.new × Known (history_of h.now) s.new x.new result }
{
    pairs::fill_priors(h, p);
    pairs::fill_basic(h, k, p, s);
    let m = forcing::members(h);
    let n = forcing::count_members(h);
    causal::know(h, p, m, n, s, x)
}

// ── whether one leads to another ──

// Whether the rows of s that b's vector names have a.
fn names(s: &[u64; 256], x: &[u8; 16384], width: usize, a: usize, b: usize) -> bool
    requires { (width ≤ 128) × Small x.now b × (a < 128) × (b < 128) }
    ensures { result ≡ some 1 width (named s.now x.now b a) }
{
    let known = vectors::known(s, x, b, width);
    bits::least_of(known.lo, known.hi, a) == a
}

// Whether a leads to b: by the table s, where it was closed, and else by the vectors x.
fn is_led(h: &[u64], s: &[u64; 256], x: &[u8; 16384], width: usize, a: usize, b: usize) -> bool
    requires { Settled h.now × Known (history_of h.now) s.now x.now width }
    ensures { result ≡ leads (history_of h.now) a b }
{
    let last = table::txs(h);
    if last < a || last < b {
        return false;
    }
    if width == 0 {
        return bits::bit(s, b, a);
    }
    a != b && names(s, x, width, a, b)
}

// What is said of two transactions, and by which of the two.
#[derive(Clone, Copy, Debug, PartialEq, Eq)]
pub enum LedBy {
    ByVectors(bool),
    ByTable(bool),
}

fn leads_in(h: &[u64], k: &[u8], a: usize, b: usize) -> LedBy
    requires { Ready h.now k.now }
    ensures { result ≡ said_of (history_of h.now) a b }
{
    let mut p = [0u8; 128];
    let mut s = [0u64; 256];
    let mut x = [0u8; 16384];
    let width = go_by(h, k, &mut p, &mut s, &mut x);
    let led = is_led(h, &s, &x, width, a, b);
    if width == 0 {
        return LedBy::ByTable(led);
    }
    LedBy::ByVectors(led)
}

// Whether transaction a leads to b through basic pairs: read off b's vector "when basic pairs form no cycle", and else off the closed table.
pub fn leads_to(trace: &[u8], a: usize, b: usize) -> Result<LedBy, Refusal>
    ensures { SaysLeads trace.now a b result }
{
    // a byte for each number that an operation can have
    let mut h = [0u64; table::WORDS];
    let mut k = [0u8; 1025];
    forcing::prepare(trace, &mut h, &mut k)?;
    Ok(leads_in(&h, &k, a, b))
}

// ── what a vector has ──

// What the vector of t has for the session of a. Column 0 is of those that do not count as committed, and has nothing.
fn entry_for(h: &[u64], p: &[u8; 128], x: &[u8; 16384], t: usize, a: usize) -> usize
    requires { Settled h.now × Priors (history_of h.now) p.now × HoldsVectors (history_of h.now) x.now }
    ensures { result ≡ entry_of (history_of h.now) t a }
{
    let last = table::txs(h);
    if last < t || last < a {
        return 0;
    }
    let mut c = [0u8; 128];
    columns::fill_columns(h, p, &mut c);
    usize::from(x[128 * t + usize::from(c[a])])
}

// What a transaction's vector has for a session; none where basic pairs form a cycle, so that no vectors are made.
fn latest_in(h: &[u64], k: &[u8], t: usize, a: usize) -> Option<usize>
    requires { Ready h.now k.now }
    ensures { result ≡ told_of (history_of h.now) t a }
{
    let mut p = [0u8; 128];
    let mut s = [0u64; 256];
    let mut x = [0u8; 16384];
    let width = go_by(h, k, &mut p, &mut s, &mut x);
    if width == 0 {
        return None;
    }
    Some(entry_for(h, &p, &x, t, a))
}

// "the latest known transaction" of the session of a that t's vector has, with t itself in it: 0 where there is none, and where a does not count as committed
// or is 0, which is of no session.
pub fn latest_known(trace: &[u8], t: usize, a: usize) -> Result<Option<usize>, Refusal>
    ensures { TellsLatest trace.now t a result }
{
    // as in `leads_to`
    let mut h = [0u64; table::WORDS];
    let mut k = [0u8; 1025];
    forcing::prepare(trace, &mut h, &mut k)?;
    Ok(latest_in(&h, &k, t, a))
}
