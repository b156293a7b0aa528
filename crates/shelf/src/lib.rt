// Whoever moves a trace has what document 02 promises. These functions know nothing of `mover::to_edition_1`, `mover::to_edition_2`, `judging::judge` and the
// calls of `telling` but their contracts: were one of those weaker, they would not be proved.
#![tactic(auto)]

ghost use Rattle.std.specs.Prelude.{◌≡◌, true, false, ◌≤◌, length, take};
ghost use Rattle.rules.specs.Outcome.{reported, outcome, judged};
ghost use Rattle.writing.specs.Filling.{Gives};
ghost use Rattle.moving.specs.Moving.{moved_to};
ghost use Rattle.moved.specs.Moved.{Moves, MovesToSecond};
ghost use Rattle.shelf.specs.Shelf.{CameBack, MovedAndJudged};
ghost use Rattle.shelf.specs.Printed.{MovedPrinted, NotesPrinted};

use moving::Output;
use rules::{Refusal, Ruling};

// What comes out is a trace of edition 1 that is judged alike; a refusal is given only on its row.
pub fn promised_1(trace: &[u8], out: &mut [u8]) -> Result<usize, Refusal>
    ensures { Moves false trace.now out.old result out.new }
{
    mover::to_edition_1(trace, out)
}

// .. of edition 2, told with the number of notes that the trace had.
pub fn promised_2(trace: &[u8], out: &mut [u8]) -> Result<Output, Refusal>
    ensures { MovesToSecond trace.now out.old result out.new }
{
    mover::to_edition_2(trace, out)
}

// The first n bytes, moved to edition 1.
fn move_front(trace: &[u8], n: usize, out: &mut [u8]) -> Result<usize, Refusal>
    requires { n ≤ length trace.now }
    ensures { Gives result out.new (moved_to false (take n trace.now) out.old) }
{
    mover::to_edition_1(&trace[..n], out)
}

// To edition 2 and back: a trace of edition 1 without notes comes out with its own bytes, any other of edition 1 without its notes.
pub fn there_and_back(trace: &[u8], between: &mut [u8], out: &mut [u8]) -> Result<usize, Refusal>
    ensures { CameBack trace.now between.old out.old result between.new out.new }
{
    let there = mover::to_edition_2(trace, between)?;
    move_front(between, there.length, out)
}

// ── moved, and judged before and after ──

// The answer to a move, and the judge's answers to the trace and to what came out.
#[derive(Clone, Copy, Debug, PartialEq, Eq)]
pub struct MovedJudged {
    pub moved: Result<usize, Refusal>,
    pub before: Result<Ruling, Refusal>,
    pub after: Result<Ruling, Refusal>,
}

// The trace is moved to edition 2 or 1 and judged at a level before and after: alike, as far as operation numbers let it. Where the move is refused, nothing came
// out, and no bytes are judged.
pub fn moved_and_judged(
    second: bool,
    trace: &[u8],
    out: &mut [u8],
    level: u8,
    findings: &mut [u8],
    pairs: &mut [u8],
    order: &mut [u8],
    findings2: &mut [u8],
    pairs2: &mut [u8],
    order2: &mut [u8],
) -> MovedJudged
    ensures { MovedAndJudged second trace.now out.old level result out.new findings.old pairs.old order.old findings2.old pairs2.old order2.old findings.new pairs.new order.new findings2.new pairs2.new order2.new }
{
    let moved = move_to(second, trace, out);
    let before = judging::judge(trace, level, findings, pairs, order);
    let after = judge_front(out, moved.unwrap_or(0), level, findings2, pairs2, order2);
    MovedJudged {
        moved,
        before,
        after,
    }
}

// One of the two moves, without the number of notes.
fn move_to(second: bool, trace: &[u8], out: &mut [u8]) -> Result<usize, Refusal>
    ensures { Gives result out.new (moved_to second trace.now out.old) }
{
    if second {
        return mover::to_edition_2(trace, out).map(|output| output.length);
    }
    mover::to_edition_1(trace, out)
}

// The first n bytes, judged.
fn judge_front(
    trace: &[u8],
    n: usize,
    level: u8,
    findings: &mut [u8],
    pairs: &mut [u8],
    order: &mut [u8],
) -> Result<Ruling, Refusal>
    requires { n ≤ length trace.now }
    ensures { outcome (reported result) findings.new pairs.new order.new ≡ judged (take n trace.now) level findings.old pairs.old order.old }
{
    judging::judge(&trace[..n], level, findings, pairs, order)
}

// ── printed ──

// What is handed back, and what `to_edition_1` prints, is what the documents say: the trace in edition 1, or the line of its refusal.
pub fn printed_1<'a>(trace: &[u8], out: &'a mut [u8; 32768]) -> &'a [u8]
    ensures { MovedPrinted false trace.now result.now }
{
    telling::edition_1_text(trace, out)
}

// .. and what `to_edition_2` prints, in edition 2.
pub fn printed_2<'a>(trace: &[u8], out: &'a mut [u8; 32768]) -> &'a [u8]
    ensures { MovedPrinted true trace.now result.now }
{
    telling::edition_2_text(trace, out)
}

// .. and what that prints on standard error: how many notes the trace had.
pub fn printed_notes<'a>(trace: &[u8], line: &'a mut [u8; 64]) -> &'a [u8]
    ensures { NotesPrinted trace.now result.now }
{
    telling::notes_text(trace, line)
}
