// Reads a starting serial and steps from standard input and prints the trace that they make.
#![tactic(auto)]

use std::io;

// Kept (2): the programs of this shape differ in the call between reading and writing; a closure that hands back a part of what it is lent is no plainer.
fn main(rt: HostRuntime) -> io::Result<()> {
    // The serial, and 1,279 steps at most: 127 opens, as many closes and 1,024 operations can pass, so the last of these is refused, if none before it is,
    // and what stands behind is not looked at (`kept_given`, telling/proofs/Kept.antt).
    let mut given = [0u8; 20468];
    let n = streams::read_full(&mut rt.stdin(), &mut given)?;
    let mut out = [0u8; telling::ROOM];
    let text = telling::given_text(&given[..n], &mut out);
    rt.stdout().write_all(text)
}
