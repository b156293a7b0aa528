// Reads a trace from standard input and prints what is to be said of an order that is claimed for it: `claim LEVEL T.. < trace`.
#![tactic(auto)]

ghost use Rattle.std.specs.Prelude.{◌<◌, ◌≤◌};

use std::env::FillError;
use std::io;
use std::io::{Read, Write};
use std::rt::Env;

// One entry more than a claim with the right members can have: a longer claim is answered as its first 129 are (`kept_claim`, claims_text/proofs/Kept.antt).
const KEPT: usize = 129;

fn main(rt: HostRuntime) -> io::Result<()> {
    let count = arg_count(&rt);
    let level = level_at(&rt, 1);
    let mut order = [0u8; KEPT];
    if level == 0 || !put_order(&rt, count, &mut order) {
        return tell_usage(&rt);
    }
    print_answer(
        &mut rt.stdin(),
        &mut rt.stdout(),
        level,
        &order,
        kept(count),
    )
}

fn tell_usage(rt: &impl Eprint) -> io::Result<()> {
    eprintln!(rt;
        "usage: claim LEVEL T.. < trace (LEVEL is rc, ra or tcc; T.. are numbers from 0 to 255)"
    )
}

// ── the arguments ──

// How many arguments there are, the program's name among them.
fn arg_count(rt: &impl Env) -> usize {
    let mut word = [0u8; 3];
    for i in 0..usize::MAX {
        if let Err(FillError::NotPresent) = rt.arg(i, &mut word) {
            return i;
        }
    }
    usize::MAX
}

// An argument that has more than three bytes names no level and no number. Such a one, as one that is missing, counts as the empty word, which names none
// either (`kept_word`, claims_text/proofs/Kept.antt). Answers how long the word is.
fn put_word(rt: &impl Env, i: usize, word: &mut [u8; 3]) -> usize
    ensures { result ≤ 3 }
{
    rt.arg(i, word).unwrap_or(0)
}

fn level_at(rt: &impl Env, i: usize) -> u8 {
    let mut word = [0u8; 3];
    let n = put_word(rt, i, &mut word);
    claims_text::level_named(&word[..n])
}

fn number_at(rt: &impl Env, i: usize) -> usize {
    let mut word = [0u8; 3];
    let n = put_word(rt, i, &mut word);
    claims_text::number_named(&word[..n])
}

// The claim's numbers stand behind the level. False where a word is none, also behind those that are kept.
fn put_order(rt: &impl Env, count: usize, order: &mut [u8; KEPT]) -> bool {
    for i in 2..count {
        let n = number_at(rt, i);
        if 255 < n {
            return false;
        }
        keep(order, i - 2, n);
    }
    true
}

fn keep(order: &mut [u8; KEPT], at: usize, n: usize)
    requires { n < 256 }
{
    if at < KEPT {
        order[at] = n as u8;
    }
}

// How many of them are kept.
fn kept(count: usize) -> usize
    ensures { result ≤ 129 }
{
    if count < 2 {
        return 0;
    }
    if KEPT < count - 2 {
        return KEPT;
    }
    count - 2
}

// ── the answer ──

// The claim is the first m of order.
fn print_answer<R: Read, W: Write>(
    input: &mut R,
    output: &mut W,
    level: u8,
    order: &[u8; KEPT],
    m: usize,
) -> io::Result<()>
    requires { m ≤ 129 }
{
    // One byte more than a trace may have, so that a longer one is seen to be too long. Whatever stands behind, the line is the same (`kept-trace`,
    // claims_text/proofs/Kept.antt).
    let mut bytes = [0u8; 32769];
    let n = streams::read_full(input, &mut bytes)?;
    let order: &[u8] = order;
    let mut line = [0u8; claims_text::LINE];
    let text = claims_text::claim_text(&bytes[..n], level, &order[..m], &mut line);
    output.write_all(text)
}
