// A call made on two traces that are alike: the one is the other, moved to another edition; or they differ only in their notes. Each function makes one call on
// both, knows nothing of it but its contract, and promises what document 02 says of it for each trace, whatever they are, and what the two have in common.
#![tactic(auto)]

ghost use Rattle.alike_calls.specs.Alike.{JudgedBoth, ListsJudgedBoth, PrintedBoth, ListedBoth, RewrittenBoth, WholeBoth, MovedBoth, TalliedBoth, DecidedBoth, StrongestBoth, ClaimedBoth, NumberedBoth, LedBoth, LatestBoth};

use appends::ListCounts;
use claims_rules::ClaimRuling;
use moving::Output;
use rules::{Refusal, Ruling};
use two::Two;
use vectors_calls::LedBy;

// ── the judge ──

// Two traces, judged at one level.
pub fn judged_both(
    trace: &[u8],
    other: &[u8],
    level: u8,
    findings: &mut [u8],
    pairs: &mut [u8],
    order: &mut [u8],
    findings2: &mut [u8],
    pairs2: &mut [u8],
    order2: &mut [u8],
) -> Two<Result<Ruling, Refusal>>
    ensures { JudgedBoth trace.now other.now level result findings.old pairs.old order.old findings2.old pairs2.old order2.old findings.new pairs.new order.new findings2.new pairs2.new order2.new }
{
    let one = judging::judge(trace, level, findings, pairs, order);
    let other = judging::judge(other, level, findings2, pairs2, order2);
    Two { one, other }
}

// Two traces, whose answers are put as text.
pub fn printed_both(trace: &[u8], other: &[u8], out: &mut [u8], out2: &mut [u8]) -> Two<usize>
    ensures { PrintedBoth trace.now other.now result out.old out2.old out.new out2.new }
{
    let one = printing::put_answer(trace, out);
    let other = printing::put_answer(other, out2);
    Two { one, other }
}

// ── the calls for C ──

// Two traces, decided at one level.
pub fn decided_both(
    trace: &[u8],
    other: &[u8],
    level: u32,
    findings: &mut [u8],
    pairs: &mut [u8],
    order: &mut [u8],
    counts: &mut [u8],
    findings2: &mut [u8],
    pairs2: &mut [u8],
    order2: &mut [u8],
    counts2: &mut [u8],
) -> Two<u32>
    ensures { DecidedBoth trace.now other.now level result findings.old pairs.old order.old counts.old findings2.old pairs2.old order2.old counts2.old findings.new pairs.new order.new counts.new findings2.new pairs2.new order2.new counts2.new }
{
    let one = ferozhak::ferozhak_decide(trace, level, findings, pairs, order, counts);
    let other = ferozhak::ferozhak_decide(other, level, findings2, pairs2, order2, counts2);
    Two { one, other }
}

// The strongest levels of two traces.
pub fn strongest_both(trace: &[u8], other: &[u8]) -> Two<u32>
    ensures { StrongestBoth trace.now other.now result }
{
    let one = ferozhak::ferozhak_strongest(trace);
    let other = ferozhak::ferozhak_strongest(other);
    Two { one, other }
}

// ── orders from elsewhere ──

// One order, claimed for two traces at one level.
pub fn claimed_both(
    trace: &[u8],
    other: &[u8],
    level: u8,
    order: &[u8],
) -> Two<Result<ClaimRuling, Refusal>>
    ensures { ClaimedBoth trace.now other.now level order.now result }
{
    let one = claims::claim(trace, level, order);
    let other = claims::claim(other, level, order);
    Two { one, other }
}

// .. by the call for C.
pub fn claims_numbered_both(
    trace: &[u8],
    other: &[u8],
    level: u32,
    claim: &[u8],
    numbers: &mut [u8],
    numbers2: &mut [u8],
) -> Two<u32>
    ensures { NumberedBoth trace.now other.now level claim.now numbers.old numbers2.old result numbers.new numbers2.new }
{
    let one = ferozhak::ferozhak_claim(trace, level, claim, numbers);
    let other = ferozhak::ferozhak_claim(other, level, claim, numbers2);
    Two { one, other }
}

// ── the call on lists ──

// Two traces, whose lists are judged.
pub fn lists_judged_both(
    trace: &[u8],
    other: &[u8],
    findings: &mut [u8],
    pairs: &mut [u8],
    findings2: &mut [u8],
    pairs2: &mut [u8],
) -> Two<Result<ListCounts, Refusal>>
    ensures { ListsJudgedBoth trace.now other.now result findings.old pairs.old findings2.old pairs2.old findings.new pairs.new findings2.new pairs2.new }
{
    let one = appends::judge_lists(trace, findings, pairs);
    let other = appends::judge_lists(other, findings2, pairs2);
    Two { one, other }
}

// ── the calls for vectors ──

// Two traces, asked whether transaction a leads to b.
pub fn led_both(trace: &[u8], other: &[u8], a: usize, b: usize) -> Two<Result<LedBy, Refusal>>
    ensures { LedBoth trace.now other.now a b result }
{
    let one = vectors_calls::leads_to(trace, a, b);
    let other = vectors_calls::leads_to(other, a, b);
    Two { one, other }
}

// Two traces, asked for the latest known transaction of the session of a that t's vector has.
pub fn latest_both(
    trace: &[u8],
    other: &[u8],
    t: usize,
    a: usize,
) -> Two<Result<Option<usize>, Refusal>>
    ensures { LatestBoth trace.now other.now t a result }
{
    let one = vectors_calls::latest_known(trace, t, a);
    let other = vectors_calls::latest_known(other, t, a);
    Two { one, other }
}

// ── the calls that fill a buffer ──

// Two traces, turned into steps.
pub fn listed_both(
    trace: &[u8],
    other: &[u8],
    out: &mut [u8],
    out2: &mut [u8],
) -> Two<Result<usize, Refusal>>
    ensures { ListedBoth trace.now other.now result out.old out2.old out.new out2.new }
{
    let one = lister::list_steps(trace, out);
    let other = lister::list_steps(other, out2);
    Two { one, other }
}

// Two traces, written again, by way of a buffer for the steps of each.
pub fn rewritten_both(
    trace: &[u8],
    other: &[u8],
    steps: &mut [u8],
    out: &mut [u8],
    steps2: &mut [u8],
    out2: &mut [u8],
) -> Two<Result<usize, Refusal>>
    ensures { RewrittenBoth trace.now other.now result steps.old out.old steps2.old out2.old steps.new out.new steps2.new out2.new }
{
    let one = rewriting::rewrite_trace(trace, steps, out);
    let other = rewriting::rewrite_trace(other, steps2, out2);
    Two { one, other }
}

// .. without such buffers.
pub fn whole_both(
    trace: &[u8],
    other: &[u8],
    out: &mut [u8],
    out2: &mut [u8],
) -> Two<Result<usize, Refusal>>
    ensures { WholeBoth trace.now other.now result out.old out2.old out.new out2.new }
{
    let one = rewriting::rewrite_whole(trace, out);
    let other = rewriting::rewrite_whole(other, out2);
    Two { one, other }
}

// Two traces, moved to edition 1.
pub fn moved_both_1(
    trace: &[u8],
    other: &[u8],
    out: &mut [u8],
    out2: &mut [u8],
) -> Two<Result<usize, Refusal>>
    ensures { MovedBoth trace.now other.now result out.old out2.old out.new out2.new }
{
    let one = mover::to_edition_1(trace, out);
    let other = mover::to_edition_1(other, out2);
    Two { one, other }
}

// Two traces, moved to edition 2.
pub fn moved_both_2(
    trace: &[u8],
    other: &[u8],
    out: &mut [u8],
    out2: &mut [u8],
) -> Two<Result<Output, Refusal>>
    ensures { TalliedBoth trace.now other.now result out.old out2.old out.new out2.new }
{
    let one = mover::to_edition_2(trace, out);
    let other = mover::to_edition_2(other, out2);
    Two { one, other }
}
