// The calls for C programs, the index daemon first: numbers and byte slices in, a number out. They know nothing of the judge and of claims but their contracts.
// `ferozhak_c` exports them, and include/ferozhak.h has them as C sees them.
#![tactic(auto)]

ghost use Rattle.std.specs.Prelude.{◌≡◌, ℕ, ◌≤◌, List, length};
ghost use Rattle.base.proofs.Fill.{Appended};
ghost use Rattle.rules.specs.Outcome.{reported};
ghost use Rattle.deciding.specs.Deciding.{decision_of, whole_counts, whole_put, count_bytes, decided_as, decided, strongest_no, is_accepted_at, strongest};
ghost use Rattle.claims_rules.specs.Claims.{reply};
ghost use Rattle.claims_rules.specs.Numbers.{reply_no, reply_bytes, in_numbers, claimed_in_numbers};
ghost use Rattle.pairs.specs.Pairs.{Ready};
ghost use Rattle.forcing.specs.Forcing.{ReadInto, AtLevel};
ghost use Rattle.ferozhak.specs.Calls.{level_byte, bytes_of, refused_five, seen_at, without_lists, seen_of, below_causal};
ghost use Rattle.rules.specs.Refusals.{cause_no};

use claims_rules::ClaimRuling;
use deciding::{Decision, Strongest};
use rules::{Cause, Refusal, Ruling};

// ── the first call ──

// Judges the trace at a level and answers 1 promote, 2 hold or 3 no trace: "promote exactly on acceptance, hold on rejection, no trace on refusal, with the
// counts". The three buffers get what the judge puts there, and the slice for the counts five numbers of four bytes, little-endian, as many as fit whole.
pub fn ferozhak_decide(
    trace: &[u8],
    level: u32,
    findings: &mut [u8],
    pairs: &mut [u8],
    order: &mut [u8],
    counts: &mut [u8],
) -> u32
    ensures { decided_as result findings.new pairs.new order.new counts.new ≡ decided trace.now level findings.old pairs.old order.old counts.old }
{
    let answer = judging::judge(trace, level_byte(level), findings, pairs, order);
    put_five(counts_of(answer), counts);
    u32::from(decision_of(answer))
}

// C's numbers are wider than the judge's byte: 257 must not be taken for 1.
fn level_byte(level: u32) -> u8
    ensures { result ≡ level_byte level }
{
    if level < 4 {
        return level as u8;
    }
    0
}

// What each answer of the judge is to the index.
#[tactic(auto, unfolding(rules::specs::Outcome::reported, deciding::specs::Deciding::decision_of))]
fn decision_of(answer: Result<Ruling, Refusal>) -> Decision
    ensures { result ≡ decision_of (reported answer).verdict }
{
    match answer {
        Err(_) => Decision::NoTrace,
        Ok(Ruling::Rejected(_, _)) => Decision::Hold,
        Ok(Ruling::Accepted(_)) => Decision::Promote,
    }
}

// ── five numbers for C ──

// The numbers of an answer, 0 where they do not apply: three of the call's own, then a refusal's number and place.
#[derive(Clone, Copy, Debug, PartialEq, Eq)]
struct Five {
    first: usize,
    second: usize,
    third: usize,
    no: u8,
    place: usize,
}

const NONE: Five = Five {
    first: 0,
    second: 0,
    third: 0,
    no: 0,
    place: 0,
};

fn refused(refusal: Refusal) -> Five
    ensures { result ≡ refused_five refusal }
{
    Five {
        no: u8::from(refusal.cause),
        place: refusal.place,
        ..NONE
    }
}

// "0 where they do not apply"
#[tactic(auto, unfolding(rules::specs::Outcome::reported, deciding::specs::Deciding::count_bytes))]
fn counts_of(answer: Result<Ruling, Refusal>) -> Five
    ensures { bytes_of result ≡ count_bytes (reported answer) }
{
    match answer {
        Err(refusal) => refused(refusal),
        Ok(Ruling::Rejected(findings, pairs)) => Five {
            first: findings,
            second: pairs,
            ..NONE
        },
        Ok(Ruling::Accepted(order)) => Five {
            third: order,
            ..NONE
        },
    }
}

// One behind the other. Answers where they end.
fn spell(five: Five, out: &mut [u8]) -> usize
    requires { 20 ≤ length out.old }
    ensures { Appended out.old 0 out.new result (bytes_of five) }
{
    let to = putting::put_number(out, 0, 4, five.first as u64);
    let to = putting::put_number(out, to, 4, five.second as u64);
    let to = putting::put_number(out, to, 4, five.third as u64);
    let to = putting::put_number(out, to, 4, u64::from(five.no));
    putting::put_number(out, to, 4, five.place as u64)
}

// How many of n bytes get a number.
fn whole_counts(n: usize) -> usize
    ensures { (result ≡ whole_counts n) × (result ≤ 20) × (result ≤ n) }
{
    if n < 20 {
        return n - n % 4;
    }
    20
}

// They are spelt beside the caller's slice, which may be too short for all.
fn put_five(five: Five, slice: &mut [u8])
    ensures { slice.new ≡ whole_put (bytes_of five) slice.old }
{
    let mut all = [0u8; 20];
    spell(five, &mut all);
    copying::copy(&all, whole_counts(slice.len()), slice);
}

// ── the second call ──

// The strongest level that accepts the trace, 3, 2 or 1; 0 if none does or the trace is refused.
pub fn ferozhak_strongest(trace: &[u8]) -> u32
    ensures { result ≡ strongest_no (strongest trace.now) }
{
    u32::from(strongest_of(trace))
}

// The trace is read once for all levels; one that cannot be read is accepted by none.
fn strongest_of(trace: &[u8]) -> Strongest
    ensures { result ≡ strongest trace.now }
{
    // a byte for each number that an operation can have
    let mut h = [0u64; table::WORDS];
    let mut k = [0u8; 1025];
    match forcing::prepare(trace, &mut h, &mut k) {
        Err(_) => Strongest::NoLevel,
        Ok(_) => strongest_of_history(&h, &k),
    }
}

// A trace that no level accepts for an unclean read shows at the first look: it is judged once.
fn strongest_of_history(h: &[u64], k: &[u8]) -> Strongest
    requires { Ready h.now k.now }
    ensures { (s : List ℕ) → ReadInto s h.now k.now → result ≡ strongest s }
{
    let third = look(h, k, 3);
    match third {
        Seen::Here => Strongest::Causal,
        Seen::NotHere => below_causal(h, k),
        Seen::Nowhere => Strongest::NoLevel,
    }
}

// The stronger of the two other levels that accepts.
fn below_causal(h: &[u64], k: &[u8]) -> Strongest
    requires { Ready h.now k.now }
    ensures { (s : List ℕ) → ReadInto s h.now k.now → result ≡ below_causal s }
{
    if accepts(h, k, 2) {
        return Strongest::ReadAtomicity;
    }
    if accepts(h, k, 1) {
        return Strongest::ReadCommitted;
    }
    Strongest::NoLevel
}

fn accepts(h: &[u64], k: &[u8], level: u8) -> bool
    requires { AtLevel h.now k.now level }
    ensures { (s : List ℕ) → ReadInto s h.now k.now → result ≡ is_accepted_at s level }
{
    match look(h, k, level) {
        Seen::Here => true,
        Seen::NotHere | Seen::Nowhere => false,
    }
}

// Where a trace is accepted, by a look at one level: at this one; not at this one, for its pairs; at none, for an unclean read.
#[derive(Clone, Copy, Debug, PartialEq, Eq)]
enum Seen {
    Here,
    NotHere,
    Nowhere,
}

// Judges at one level, with room for an order and none for lists. That is sound: a trace that is rejected has a finding or a pair, which needs 6 bytes or 4,
// so its rejection shows as 12 or 13 and never as an acceptance; and one that is accepted has an order of at most 128 bytes, so its acceptance never shows as
// 14.
fn look(h: &[u64], k: &[u8], level: u8) -> Seen
    requires { AtLevel h.now k.now level }
    ensures { (s : List ℕ) → ReadInto s h.now k.now → result ≡ seen_at s level }
{
    let mut findings = [0u8; 0];
    let mut pairs = [0u8; 0];
    let mut order = [0u8; 128];
    let answer = judging::judge_history(h, k, level, &mut findings, &mut pairs, &mut order);
    seen_of(answer)
}

// What the judge's answer shows then.
#[tactic(auto, unfolding(crate::specs::Calls::seen_of))]
fn seen_of(answer: Result<Ruling, Refusal>) -> Seen
    ensures { result ≡ seen_of answer }
{
    match answer {
        Err(refusal) => without_lists(refusal.cause),
        Ok(Ruling::Rejected(_, _)) => Seen::NotHere,
        Ok(Ruling::Accepted(_)) => Seen::Here,
    }
}

// What a refusal shows where no room for lists was lent. 13 says that pairs are listed at this level; 12 that a read is unclean, and so it is at every level.
fn without_lists(cause: Cause) -> Seen
    ensures { result ≡ without_lists (cause_no cause) }
{
    if u8::from(cause) == u8::from(Cause::PairsRoom) {
        Seen::NotHere
    } else {
        Seen::Nowhere
    }
}

// ── the third call ──

// Says of an order that is claimed for the trace at a level, one byte a transaction, 1 yes, 2 no for a read, 3 no for its members, 4 no for a pair, or 5 refused.
// The slice gets five numbers of four bytes, little-endian, as many as fit whole: the read's operation number, the pair's first and second, the refusal's number
// and its place.
pub fn ferozhak_claim(trace: &[u8], level: u32, claim: &[u8], numbers: &mut [u8]) -> u32
    ensures { in_numbers result numbers.new ≡ claimed_in_numbers trace.now level claim.now numbers.old }
{
    let answer = claims::claim(trace, level_byte(level), claim);
    put_five(numbers_of(answer), numbers);
    answer_number(answer)
}

#[tactic(auto, unfolding(claims_rules::specs::Claims::reply, claims_rules::specs::Numbers::reply_no))]
fn answer_number(answer: Result<ClaimRuling, Refusal>) -> u32
    ensures { result ≡ reply_no (reply answer) }
{
    match answer {
        Ok(ClaimRuling::Yes) => 1,
        Ok(ClaimRuling::NoRead(_)) => 2,
        Ok(ClaimRuling::NoMembers) => 3,
        Ok(ClaimRuling::NoPair(_, _)) => 4,
        Err(_) => 5,
    }
}

// "0 where they do not apply"
#[tactic(auto, unfolding(claims_rules::specs::Claims::reply, claims_rules::specs::Numbers::reply_bytes))]
fn numbers_of(answer: Result<ClaimRuling, Refusal>) -> Five
    ensures { bytes_of result ≡ reply_bytes (reply answer) }
{
    match answer {
        Ok(ClaimRuling::Yes | ClaimRuling::NoMembers) => NONE,
        Ok(ClaimRuling::NoRead(operation)) => Five {
            first: operation,
            ..NONE
        },
        Ok(ClaimRuling::NoPair(first, second)) => Five {
            second: first,
            third: second,
            ..NONE
        },
        Err(refusal) => refused(refusal),
    }
}
