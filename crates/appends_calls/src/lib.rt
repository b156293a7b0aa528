// Whoever has the lists of a trace judged has what document 02 promises. These functions know nothing of `appends::judge_lists` and of `judging::judge` but their
// contracts: were one of those weaker, they would not be proved.
#![tactic(auto)]

ghost use Rattle.appends_rules.specs.ListOutcome.{list_outcome};
ghost use Rattle.appends.specs.Answering.{list_reported};
ghost use Rattle.appends_calls.specs.Calls.{ListsPromised, JudgedAndListed};
ghost use Rattle.appends_calls.specs.Printed.{ListsPrinted};

use appends::ListCounts;
use rules::{Refusal, Ruling};

// ── lists ──

// The findings among list reads and both lists of pairs, each in its order and nothing else, with all three counts; or a refusal, under its own row and with
// nothing written.
pub fn promised_lists(
    trace: &[u8],
    findings: &mut [u8],
    pairs: &mut [u8],
) -> Result<ListCounts, Refusal>
    ensures { ListsPromised trace.now findings.old pairs.old (list_outcome (list_reported result) findings.new pairs.new) }
{
    appends::judge_lists(trace, findings, pairs)
}

// .. and as text: what is handed back, and what a program prints, is just that.
pub fn printed_lists<'a>(trace: &[u8], text: &'a mut [u8; appends_text::TEXT]) -> &'a [u8]
    ensures { ListsPrinted trace.now result.now }
{
    appends_text::lists_text(trace, text)
}

// ── the judge and the call on lists ──

// What the judge answers of a trace, and what is said of its lists.
#[derive(Clone, Copy, Debug, PartialEq, Eq)]
pub struct JudgedLists {
    pub judged: Result<Ruling, Refusal>,
    pub listed: Result<ListCounts, Refusal>,
}

// "this call has 2 to 11 with 17 among them": both refuse a trace alike, where the level is one.
pub fn judged_and_listed(
    trace: &[u8],
    level: u8,
    findings: &mut [u8],
    pairs: &mut [u8],
    order: &mut [u8],
    faults: &mut [u8],
    ties: &mut [u8],
) -> JudgedLists
    ensures { JudgedAndListed trace.now level result findings.old pairs.old order.old faults.old ties.old findings.new pairs.new order.new faults.new ties.new }
{
    let judged = judging::judge(trace, level, findings, pairs, order);
    let listed = appends::judge_lists(trace, faults, ties);
    JudgedLists { judged, listed }
}
