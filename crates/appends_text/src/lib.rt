// What the program `lists` prints. The text is handed back as the front of a lent buffer, just the bytes that are to be printed: the program writes these, and
// nothing else.
#![tactic(auto)]

ghost use Rattle.std.specs.Prelude.{◌≡◌, ◌+◌, ◌*◌, ◌≤◌, length};
ghost use Rattle.show.specs.Laid.{Put, Short};
ghost use Rattle.appends_text.specs.ListsText.{lists_text};
ghost use Rattle.appends_text.specs.Told.{counted_text};

use appends::ListCounts;
use entries::Lines;

// Room for the text: no text is longer (`lists_short`, proofs/Lengths.antt).
pub const TEXT: usize = 655360;

// What is to be said of the lists of a trace.
pub fn lists_text<'a>(trace: &[u8], text: &'a mut [u8; TEXT]) -> &'a [u8]
    ensures { (result.now ≡ lists_text trace.now) × (result.ref_ptr ≡ text.entry.ref_ptr) }
{
    let end = put_text(trace, text);
    show::front(text, end)
}

// .. put into a buffer, as far as it reaches. Answers how long it is.
fn put_text(trace: &[u8], out: &mut [u8]) -> usize
    ensures { Put out.old 0 out.new result (lists_text trace.now) }
{
    // Enough for 1,024 findings, and twice for every pair of 128 transactions, so that 12 and 13 are never given.
    let mut findings = [0u8; 6144];
    let mut pairs = [0u8; 131072];
    match appends::judge_lists(trace, &mut findings, &mut pairs) {
        Err(refusal) => show::put_refusal(out, 0, refusal),
        Ok(counts) => put_told(counts, &findings, &pairs, out),
    }
}

// The counts, then the lines of the three lists. The pairs over both stand behind the others.
// Kept (6): a count stands beside each list, since `entries::put_entries`, which is public, takes both.
#[tactic(auto, using(show::proofs::Laws::parts), unfolding(entries::specs::Entries::width, crate::specs::Told::counted_text, crate::specs::ListsText::lists_line))]
fn put_told(counts: ListCounts, findings: &[u8], pairs: &[u8], out: &mut [u8]) -> usize
    requires { (6 * counts.findings ≤ length findings.now) × (4 * (counts.writes + counts.both) ≤ length pairs.now) × Short 0 (counted_text counts.findings counts.writes counts.both findings.now pairs.now) }
    ensures { Put out.old 0 out.new result (counted_text counts.findings counts.writes counts.both findings.now pairs.now) }
{
    let numbers = [counts.findings, counts.writes, counts.both];
    let to = show::put_line(out, 0, b"lists", &numbers);
    let to = entries::put_entries(Lines::ReadLines, findings, counts.findings, out, to);
    let to = entries::put_entries(Lines::WriteLines, pairs, counts.writes, out, to);
    let both = &pairs[4 * counts.writes..];
    entries::put_entries(Lines::BothLines, both, counts.both, out, to)
}
