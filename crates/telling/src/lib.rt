// What the programs print that write traces. Each function takes a whole input and hands back, as the front of a lent buffer, just the bytes that are to be
// printed: a program writes these, and nothing else. What they are is said in specs/, without a buffer; that stands here, since no crate below knows both the
// lines (`text`) and the calls that write and move traces. Of the bytes behind the text nothing can be said, since a buffer whose part is handed back has no
// exit; no program looks at them.
#![tactic(auto)]

ghost use Rattle.std.specs.Prelude.{true, false, ◌≡◌, ◌≤◌, length};
ghost use Rattle.writing.specs.Filling.{said};
ghost use Rattle.telling.specs.Telling.{given_text, rewritten_text, moved_text, notes_text};
ghost use Rattle.telling.specs.Parts.{filled_text, read_text, Fronts};

use rules::Refusal;

// A trace has no more bytes, so whatever comes out has room, a refusal's line too, and 16 is never given.
pub const ROOM: usize = 32768;

// Room for `notes N`: a number has at most 20 digits.
pub const LINE: usize = 64;

// ── standard output ──

// The trace that a starting serial and steps make.
pub fn given_text<'a>(given: &[u8], out: &'a mut [u8; ROOM]) -> &'a [u8]
    ensures { (result.now ≡ given_text given.now) × (result.ref_ptr ≡ out.entry.ref_ptr) }
{
    let answer = rewriting::write_given(given, out);
    text_of(answer, out)
}

// A trace, turned into steps and written again.
pub fn rewritten_text<'a>(trace: &[u8], out: &'a mut [u8; ROOM]) -> &'a [u8]
    ensures { (result.now ≡ rewritten_text trace.now) × (result.ref_ptr ≡ out.entry.ref_ptr) }
{
    let answer = rewriting::rewrite_whole(trace, out);
    text_of(answer, out)
}

// A trace, moved to edition 1; to edition 2.
// Kept (2): the four functions are public, and no two share more than the call of `text_of`.
pub fn edition_1_text<'a>(trace: &[u8], out: &'a mut [u8; ROOM]) -> &'a [u8]
    ensures { (result.now ≡ moved_text false trace.now) × (result.ref_ptr ≡ out.entry.ref_ptr) }
{
    let answer = mover::to_edition_1(trace, out);
    text_of(answer, out)
}

pub fn edition_2_text<'a>(trace: &[u8], out: &'a mut [u8; ROOM]) -> &'a [u8]
    ensures { (result.now ≡ moved_text true trace.now) × (result.ref_ptr ≡ out.entry.ref_ptr) }
{
    let answer = mover::to_edition_2(trace, out).map(|output| output.length);
    text_of(answer, out)
}

// What was put into the buffer, or the line of a refusal in its place.
#[tactic(auto, using(crate::proofs::Fronts::at_front))]
fn text_of<'a>(answer: Result<usize, Refusal>, out: &'a mut [u8; ROOM]) -> &'a [u8]
    requires { (said answer).length ≤ length out.old }
    ensures { (result.now ≡ filled_text answer out.old) × (result.ref_ptr ≡ out.entry.ref_ptr) }
{
    let end = put_text(answer, out);
    show::front(out, end)
}

fn put_text(answer: Result<usize, Refusal>, out: &mut [u8]) -> usize
    requires { ((said answer).length ≤ length out.old) × (64 ≤ length out.old) }
    ensures { Fronts (filled_text answer out.old) out.old out.new result }
{
    match answer {
        Err(refusal) => show::put_refusal(out, 0, refusal),
        Ok(n) => n,
    }
}

// ── standard error ──

// How many notes a trace has; nothing of one that is refused. It is read once more for that: a call hands back a part of one buffer, and the moved trace
// and this line stand in two.
#[tactic(auto, using(crate::proofs::Fronts::at_front, crate::proofs::Texts::notes_told))]
pub fn notes_text<'a>(trace: &[u8], line: &'a mut [u8; LINE]) -> &'a [u8]
    ensures { (result.now ≡ notes_text trace.now) × (result.ref_ptr ≡ line.entry.ref_ptr) }
{
    let mut h = [0u64; table::WORDS];
    let read = trace::read_trace(trace, &mut h);
    let end = put_notes(read, line);
    show::front(line, end)
}

fn put_notes(read: Result<usize, Refusal>, line: &mut [u8]) -> usize
    requires { 64 ≤ length line.old }
    ensures { Fronts (read_text read) line.old line.new result }
{
    match read {
        Err(_) => 0,
        Ok(notes) => show::put_notes(line, 0, notes),
    }
}
