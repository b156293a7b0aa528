// Whoever decides by the two calls has what document 02 promises. These functions know nothing of `ferozhak::ferozhak_decide` and `ferozhak::ferozhak_strongest`
// but their contracts: were one of those weaker, they would not be proved.
#![tactic(auto)]

ghost use Rattle.std.specs.Prelude.{◌≤◌, length};
ghost use Rattle.decided.specs.Decides.{Decides, DecidesOutright};
ghost use Rattle.decided.specs.Strongest.{StrongestIs};

// Promoted exactly on acceptance, held on rejection, no trace on refusal, with the counts and every byte; and with buffers that are sized once the decision
// hangs on the trace and the level alone.
pub fn promised_decision(
    trace: &[u8],
    level: u32,
    findings: &mut [u8],
    pairs: &mut [u8],
    order: &mut [u8],
    counts: &mut [u8],
) -> u32
    ensures { Decides trace.now level findings.old pairs.old order.old counts.old result findings.new pairs.new order.new counts.new × (6144 ≤ length findings.old → 65024 ≤ length pairs.old → 128 ≤ length order.old → DecidesOutright trace.now level result) }
{
    ferozhak::ferozhak_decide(trace, level, findings, pairs, order, counts)
}

// The strongest level that accepts; 0 if none does or the trace is refused.
pub fn promised_strongest(trace: &[u8]) -> u32
    ensures { StrongestIs trace.now result }
{
    ferozhak::ferozhak_strongest(trace)
}
