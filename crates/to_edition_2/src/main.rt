// Reads a trace from standard input and prints it, moved to edition 2; on standard error, how many notes it had.
#![tactic(auto)]

use std::io;

// Kept (2): the programs of this shape differ in the call between reading and writing; a closure that hands back a part of what it is lent is no plainer.
fn main(rt: HostRuntime) -> io::Result<()> {
    // One byte more than a trace may have, so that a longer one is seen to be too long. Whatever stands behind, both texts are the same (`kept-moved`,
    // `kept_notes`, telling/proofs/Kept.antt).
    let mut bytes = [0u8; 32769];
    let n = streams::read_full(&mut rt.stdin(), &mut bytes)?;
    let mut out = [0u8; telling::ROOM];
    let text = telling::edition_2_text(&bytes[..n], &mut out);
    // The notes are told where the trace could be printed.
    rt.stdout().write_all(text)?;
    let mut line = [0u8; telling::LINE];
    let notes = telling::notes_text(&bytes[..n], &mut line);
    rt.stderr().write_all(notes)
}
