// Reads a trace from standard input and prints what is to be said of its lists: `lists < trace`.
#![tactic(auto)]

use std::io;

// Kept (2): the programs of this shape differ in the call between reading and writing; a closure that hands back a part of what it is lent is no plainer.
fn main(rt: HostRuntime) -> io::Result<()> {
    // One byte more than a trace may have, so that a longer one is seen to be too long. Whatever stands behind, the text is the same (`kept_lists`,
    // appends_text/proofs/Kept.antt).
    let mut bytes = [0u8; 32769];
    let n = streams::read_full(&mut rt.stdin(), &mut bytes)?;
    let mut text = [0u8; appends_text::TEXT];
    let lists = appends_text::lists_text(&bytes[..n], &mut text);
    rt.stdout().write_all(lists)
}
