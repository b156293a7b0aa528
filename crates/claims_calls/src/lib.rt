// Whoever asks about a claimed order has what document 02 promises. These functions know nothing of `claims::claim`, of what prints its answer, of
// `ferozhak::ferozhak_claim` and of `judging::judge` but their contracts: were one of those weaker, they would not be proved.
#![tactic(auto)]

ghost use Rattle.std.specs.Prelude.{◌≡◌};
ghost use Rattle.claims_laws.specs.Told.{ClaimPrinted, ClaimNumbered};
ghost use Rattle.claims_calls.specs.Calls.{ClaimPromised, JudgedAndClaimed, ShownClaimed, ClaimedAtLevels, shown_length};

use claims_rules::ClaimRuling;
use rules::{Refusal, Ruling};
use two::Two;

// ── one claim ──

// Yes exactly if the claim is a commit order of the level and all reads are clean; each no under its own condition, and none earlier; "Refusals: 1 to 11."
pub fn promised_claim(trace: &[u8], level: u8, order: &[u8]) -> Result<ClaimRuling, Refusal>
    ensures { ClaimPromised trace.now level order.now result }
{
    claims::claim(trace, level, order)
}

// The same for C, in numbers.
pub fn promised_numbers(trace: &[u8], level: u32, claim: &[u8], numbers: &mut [u8]) -> u32
    ensures { ClaimNumbered trace.now level claim.now numbers.old result numbers.new }
{
    ferozhak::ferozhak_claim(trace, level, claim, numbers)
}

// .. and as a line: what is handed back, and what a program prints, is just that.
pub fn printed_claim<'a>(trace: &[u8], level: u8, order: &[u8], line: &'a mut [u8; 64]) -> &'a [u8]
    ensures { ClaimPrinted trace.now level order.now result.now }
{
    claims_text::claim_text(trace, level, order, line)
}

// ── the judge and a claim ──

// What the judge answers of a trace, and what is said of an order that is claimed for it.
#[derive(Clone, Copy, Debug, PartialEq, Eq)]
pub struct JudgedClaim {
    pub judged: Result<Ruling, Refusal>,
    pub claimed: Result<ClaimRuling, Refusal>,
}

// A trace that is rejected gets a no for every claim; one that gets a yes is accepted; and both refuse a trace alike.
pub fn judged_and_claimed(
    trace: &[u8],
    level: u8,
    claim: &[u8],
    findings: &mut [u8],
    pairs: &mut [u8],
    order: &mut [u8],
) -> JudgedClaim
    ensures { JudgedAndClaimed trace.now level claim.now result findings.old pairs.old order.old findings.new pairs.new order.new }
{
    let judged = judging::judge(trace, level, findings, pairs, order);
    let claimed = claims::claim(trace, level, claim);
    JudgedClaim { judged, claimed }
}

// How long an order is shown.
#[tactic(auto, unfolding(crate::specs::Calls::shown_length))]
fn shown_length(answer: Result<Ruling, Refusal>) -> usize
    ensures { result ≡ shown_length answer }
{
    match answer {
        Err(_) | Ok(Ruling::Rejected(_, _)) => 0,
        Ok(Ruling::Accepted(n)) => n,
    }
}

// What is shown on acceptance is claimed, and gets a yes: so a trace that is accepted has one.
pub fn claim_shown(
    trace: &[u8],
    level: u8,
    findings: &mut [u8],
    pairs: &mut [u8],
    order: &mut [u8],
) -> JudgedClaim
    ensures { ShownClaimed trace.now level result findings.old pairs.old order.old findings.new pairs.new order.new }
{
    let judged = judging::judge(trace, level, findings, pairs, order);
    let n = shown_length(judged);
    let claimed = claims::claim(trace, level, &order[..n]);
    JudgedClaim { judged, claimed }
}

// ── two levels ──

// A yes at level 3 is a yes at 2, and at 2 one at 1; two calls at one level coincide.
pub fn claimed_at_levels(
    trace: &[u8],
    level: u8,
    weaker: u8,
    order: &[u8],
) -> Two<Result<ClaimRuling, Refusal>>
    ensures { ClaimedAtLevels trace.now level weaker order.now result }
{
    Two {
        one: claims::claim(trace, level, order),
        other: claims::claim(trace, weaker, order),
    }
}
