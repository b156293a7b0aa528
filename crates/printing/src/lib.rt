// Judges a trace at the three levels and puts the text of its answer into a lent buffer: what the programs share.
#![tactic(auto)]

ghost use Rattle.std.specs.Prelude.{◌≡◌, ◌*◌, ◌≤◌, length};
ghost use Rattle.text.specs.Answer.{block_text, answer_text};
ghost use Rattle.table.specs.Table.{history_of};
ghost use Rattle.show.specs.Laid.{Put, Short};
ghost use Rattle.printing.specs.Printing.{Written, Taken, blocks_text, rejected_text};

use entries::Lines;
use rules::Ruling;

// The text of a trace's answer, as far as the buffer reaches. Answers how long it is. The trace is read once for all levels.
pub fn put_answer(trace: &[u8], out: &mut [u8]) -> usize
    ensures { Written trace.now out.old out.new result }
{
    // a byte for each number that an operation can have
    let mut h = [0u64; table::WORDS];
    let mut k = [0u8; 1025];
    match forcing::prepare(trace, &mut h, &mut k) {
        Err(refusal) => show::put_refusal(out, 0, refusal),
        Ok(_) => put_blocks(&h, &k, out),
    }
}

// .. whole, as the front of a lent buffer that no text is longer than: what a program prints. Of the bytes behind it nothing can be said, since a buffer
// whose part is handed back has no exit; no program looks at them.
#[tactic(auto, using(crate::proofs::Promise::answer_whole))]
pub fn answer_text<'a>(trace: &[u8], text: &'a mut [u8; 1048576]) -> &'a [u8]
    ensures { (result.now ≡ answer_text trace.now) × (result.ref_ptr ≡ text.entry.ref_ptr) }
{
    let end = put_answer(trace, text);
    show::front(text, end)
}

// ── the blocks ──

// The blocks of the three levels, each at the end of the one before.
// Kept (5): `h` and `k` travel together, as `forcing::prepare` and `judging::judge_history`, which are public, take them.
#[tactic(auto, using(show::proofs::Laws::parts))]
fn put_blocks(h: &[u64], k: &[u8], out: &mut [u8]) -> usize
    requires { Taken h.now k.now × Short 0 (blocks_text (history_of h.now)) }
    ensures { Put out.old 0 out.new result (blocks_text (history_of h.now)) }
{
    let first = put_block(h, k, 1, out, 0);
    let second = put_block(h, k, 2, out, first);
    put_block(h, k, 3, out, second)
}

// Judges at one level and puts its block.
fn put_block(h: &[u64], k: &[u8], level: u8, out: &mut [u8], at: usize) -> usize
    requires { Taken h.now k.now × (1 ≤ level) × (level ≤ 3) × Short at (block_text (history_of h.now) level) }
    ensures { Put out.old at out.new result (block_text (history_of h.now) level) }
{
    // Enough for 1,024 findings, for every pair of two different ones of 128 transactions, and for an order of them.
    let mut findings = [0u8; 6144];
    let mut pairs = [0u8; 65024];
    let mut order = [0u8; 128];
    let answer = judging::judge_history(h, k, level, &mut findings, &mut pairs, &mut order);
    // it is never refused: the trace was read, and the buffers are long enough
    let Ok(ruling) = answer else {
        return at;
    };
    match ruling {
        Ruling::Rejected(reads, listed) => put_rejected(
            level, reads, listed, &findings, &pairs, out, at,
        ),
        Ruling::Accepted(n) => show::put_accepted(out, at, level, &order[..n]),
    }
}

// Kept (6): a count stands beside each list, since `entries::put_entries`, which is public, takes both.
#[tactic(auto, using(show::proofs::Laws::parts), unfolding(entries::specs::Entries::width, crate::specs::Printing::rejected_text))]
fn put_rejected(
    level: u8,
    reads: usize,
    listed: usize,
    findings: &[u8],
    pairs: &[u8],
    out: &mut [u8],
    at: usize,
) -> usize
    requires { (6 * reads ≤ length findings.now) × (4 * listed ≤ length pairs.now) × Short at (rejected_text level reads listed findings.now pairs.now) }
    ensures { Put out.old at out.new result (rejected_text level reads listed findings.now pairs.now) }
{
    let to = show::put_rejected(out, at, level, reads, listed);
    let to = entries::put_entries(Lines::ReadLines, findings, reads, out, to);
    entries::put_entries(Lines::PairLines, pairs, listed, out, to)
}
