// Orders from elsewhere: a trace, a level and an order that somebody claims in; yes, or the first reason why not, out. Nothing is written.
#![tactic(auto)]

ghost use Rattle.std.specs.Prelude.{true, ◌≡◌, ℕ, ◌≤◌, ◌<◌, eqb, length, Ok};
ghost use Rattle.base.specs.Base.{first};
ghost use Rattle.theory.specs.Order.{place};
ghost use Rattle.rules.specs.History.{History, size, committed};
ghost use Rattle.rules.specs.Levels.{forced};
ghost use Rattle.table.specs.Table.{history_of};
ghost use Rattle.bits.specs.Bits.{Holds};
ghost use Rattle.order.specs.Sets.{Gathered};
ghost use Rattle.pairs.specs.Pairs.{before};
ghost use Rattle.forcing.specs.Forcing.{AtLevel};
ghost use Rattle.claims_rules.specs.Claims.{reply, has_members, least_first, pair_reply, claimed_in, claimed};
ghost use Rattle.claims.specs.Seats.{SmallEntries, UpTo, is_stray_in, TurnedFirsts, WithMissing, turned_in};

use claims_rules::ClaimRuling;
use order::Words;
use rules::Refusal;

// ── who stands in the claim ──

// An entry that is none of those that count, m, or is one of those that stand before it, p.
fn is_stray(m: Words, p: Words, a: usize) -> bool
    ensures { result ≡ is_stray_in m p a }
{
    a >= 128 || !order::has(m, a) || order::has(p, a)
}

// Whether none stands before 0; an empty claim, which lacks it, has none.
fn begins_with_0(o: &[u8]) -> bool
    ensures { result ≡ eqb (place 0 o.now) 0 }
{
    o.is_empty() || o[0] == 0
}

// "every committed transaction once, 0 first": m has those that count. No more is looked at than up to the first entry that is not one of them or comes again,
// so of a claim of any length at most 129.
fn has_members(m: Words, o: &[u8]) -> bool
    ensures { (h : History) → size h ≤ 128 → Gathered (committed h) (size h) m → result ≡ has_members h o.now }
{
    let mut p = order::none();
    for entry in o {
        let a = usize::from(*entry);
        if is_stray(m, p, a) {
            return false;
        }
        p = order::with(p, a);
    }
    order::within(m, p) && begins_with_0(o)
}

// ── forced pairs against the claim's places ──
// f has the forced pairs: row b has the bits of what stands before b.

// Those of w, and of row b those that p has not.
fn join_missing(f: &[u64; 256], b: usize, p: Words, w: Words) -> Words
    requires { b < 128 }
    ensures { WithMissing f.now b p w result }
{
    Words {
        lo: w.lo | bits::without(f[2 * b], p.lo),
        hi: w.hi | bits::without(f[2 * b + 1], p.hi),
    }
}

// The firsts of the pairs that stand the wrong way round. A pass over the claim: of an entry's row each has to stand before it.
fn turned_firsts(f: &[u64; 256], o: &[u8]) -> Words
    requires { SmallEntries o.now }
    ensures { TurnedFirsts f.now o.now (length o.now) result }
{
    let mut p = order::none();
    let mut w = order::none();
    for entry in o {
        let b = usize::from(*entry);
        w = join_missing(f, b, p, w);
        p = order::with(p, b);
    }
    w
}

// Those that stand in the claim up to a, which is one of them.
fn up_to(o: &[u8], a: usize) -> Words
    requires { SmallEntries o.now }
    ensures { place a o.now < length o.now → UpTo o.now a result }
{
    let mut p = order::none();
    for entry in o {
        let b = usize::from(*entry);
        p = order::with(p, b);
        if b == a {
            return p;
        }
    }
    p
}

// Whether a has to stand before b, one of w.
fn is_turned(f: &[u64; 256], w: Words, a: usize, b: usize) -> bool
    requires { (a < 128) × (b < 128) }
    ensures { result ≡ turned_in f.now w a b }
{
    bits::bit(f, b, a) && order::has(w, b)
}

// The least b for which that is so, or n.
fn second(f: &[u64; 256], w: Words, n: usize, a: usize) -> usize
    requires { (n ≤ 128) × (a < 128) }
    ensures { result ≡ first n 0 n (turned_in f.now w a) }
{
    (0..n).find(|b| is_turned(f, w, a, *b)).unwrap_or(n)
}

// "the forced pair standing the wrong way round that is least by first and then second"; yes where there is none. n is how
// many transactions the history has, with 0.
fn try_pairs(f: &[u64; 256], o: &[u8], n: usize) -> ClaimRuling
    requires { SmallEntries o.now × (n ≤ 128) }
    ensures { (h : History) (level : ℕ) → n ≡ size h → has_members h o.now ≡ true → Holds f.now (before (forced h level)) → reply (Ok result) ≡ pair_reply n (forced h level) o.now (least_first n (forced h level) o.now) }
{
    let w = turned_firsts(f, o);
    let a = bits::least_of(w.lo, w.hi, 0);
    if a < 128 {
        let b = second(f, up_to(o, a), n, a);
        return ClaimRuling::NoPair(a, b);
    }
    ClaimRuling::Yes
}

// What leads to what through forced pairs is not worked out. m has those that count.
fn claim_pairs(h: &[u64], k: &[u8], m: Words, level: u8, o: &[u8]) -> ClaimRuling
    requires { AtLevel h.now k.now level × Gathered (committed (history_of h.now)) (size (history_of h.now)) m × (has_members (history_of h.now) o.now ≡ true) }
    ensures { reply (Ok result) ≡ pair_reply (size (history_of h.now)) (forced (history_of h.now) level) o.now (least_first (size (history_of h.now)) (forced (history_of h.now) level) o.now) }
{
    let mut p = [0u8; 128];
    pairs::fill_priors(h, &mut p);
    let mut f = [0u64; 256];
    let mut s = [0u64; 256];
    let mut v = [0u64; 256];
    // a claim with the right members has as many entries as there are members
    forcing::force(h, k, &p, m, o.len(), level, &mut f, &mut s, &mut v);
    try_pairs(&f, o, table::txs(h) + 1)
}

// ── the call ──

// "A no names the first reason that holds"
fn claim_history(h: &[u64], k: &[u8], level: u8, o: &[u8]) -> ClaimRuling
    requires { AtLevel h.now k.now level }
    ensures { reply (Ok result) ≡ claimed_in (history_of h.now) level o.now }
{
    // all that a trace with clean reads takes is a count, which goes by many bytes at once
    if sifting::count_findings(h, k) != 0 {
        return ClaimRuling::NoRead(sifting::first_finding(h, k));
    }
    let m = forcing::members(h);
    if !has_members(m, o) {
        return ClaimRuling::NoMembers;
    }
    claim_pairs(h, k, m, level, o)
}

// What is to be said of an order that is claimed for a trace at a level, one byte a transaction: what the definition gives these bytes, this level and this
// claim. "Refusals: 1 to 11."
pub fn claim(trace: &[u8], level: u8, order: &[u8]) -> Result<ClaimRuling, Refusal>
    ensures { reply result ≡ claimed trace.now level order.now }
{
    forcing::check_level(level)?;
    // a byte for each number that an operation can have
    let mut h = [0u64; table::WORDS];
    let mut k = [0u8; 1025];
    forcing::prepare(trace, &mut h, &mut k)?;
    Ok(claim_history(&h, &k, level, order))
}
