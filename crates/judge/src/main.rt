// Reads a trace from standard input and prints the judge's answer.
#![tactic(auto)]

use std::io;

fn main(rt: HostRuntime) -> io::Result<()> {
    // One byte more than a trace may have, so that a longer one is seen to be too long. Whatever stands behind, the text is the same (`kept-text`,
    // printing/proofs/Promise.antt).
    let mut bytes = [0u8; 32769];
    let n = streams::read_full(&mut rt.stdin(), &mut bytes)?;
    // No answer's text is longer than this.
    let mut text = [0u8; 1048576];
    let answer = printing::answer_text(&bytes[..n], &mut text);
    rt.stdout().write_all(answer)
}
