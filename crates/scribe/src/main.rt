// Answers many requests in one run. Standard input has items: what is asked, 1 byte (`s`, `l`, `r`, `1` or `2`); the room for the answer and the length of what is
// given, 2 bytes little-endian each; and what is given. Each answer, or the line of a refusal, stands behind its length, 2 bytes little-endian; behind an answer to
// `2` stands the number of notes, 2 bytes little-endian, 0 with a refusal.
#![tactic(auto)]

ghost use Rattle.std.specs.Prelude.{◌≤◌, length};
ghost use Rattle.writing.specs.Filling.{said};
ghost use Rattle.moving.specs.Tally.{filled_of};

use moving::Output;
use rules::Refusal;
use std::io;
use std::io::{Read, Write};

fn main(rt: HostRuntime) -> io::Result<()> {
    answer_all(&mut rt.stdin(), &mut rt.stdout())
}

// A proved loop has to end, and nothing says that the input does: so it counts, to a number that no run uses up.
fn answer_all<R: Read, W: Write>(input: &mut R, output: &mut W) -> io::Result<()> {
    for _ in 0..u64::MAX {
        if !answer_next(input, output)? {
            break;
        }
    }
    Ok(())
}

// One item. False where the input has ended, or asks for anything else.
fn answer_next<R: Read, W: Write>(input: &mut R, output: &mut W) -> io::Result<bool> {
    let mut head = [0u8; 5];
    if streams::read_full(input, &mut head)? < 5 {
        return Ok(false);
    }
    let room = frame::u16_at(&head, 1) as usize;
    let n = frame::u16_at(&head, 3) as usize;
    let mut given = [0u8; 65535];
    let mut out = [0u8; 65535];
    lend(input, output, head[0], n, room, &mut given, &mut out)
}

// The next n bytes are given, and the first `room` bytes of a buffer lent.
fn lend<R: Read, W: Write>(
    input: &mut R,
    output: &mut W,
    asked: u8,
    n: usize,
    room: usize,
    given: &mut [u8],
    out: &mut [u8],
) -> io::Result<bool>
    requires { (n ≤ length given.old) × (room ≤ length out.old) }
{
    answer_item(input, output, asked, &mut given[..n], &mut out[..room])
}

// Where the input ends early, what there is of it is taken.
fn answer_item<R: Read, W: Write>(
    input: &mut R,
    output: &mut W,
    asked: u8,
    given: &mut [u8],
    out: &mut [u8],
) -> io::Result<bool> {
    let n = streams::read_full(input, given)?;
    answer(output, asked, &given[..n], out)
}

fn answer<W: Write>(output: &mut W, asked: u8, given: &[u8], out: &mut [u8]) -> io::Result<bool> {
    match asked {
        b's' => {
            let filled = rewriting::write_given(given, out);
            print_answer(output, filled, out)?;
        }
        b'l' => {
            let filled = list_given(given, out);
            print_answer(output, filled, out)?;
        }
        b'r' => {
            let filled = rewriting::rewrite_whole(given, out);
            print_answer(output, filled, out)?;
        }
        b'1' => {
            let filled = mover::to_edition_1(given, out);
            print_answer(output, filled, out)?;
        }
        b'2' => {
            let tallied = mover::to_edition_2(given, out);
            print_tallied(output, tallied, out)?;
        }
        _ => return Ok(false),
    }
    Ok(true)
}

// A trace, whose steps are answered.
fn list_given(trace: &[u8], out: &mut [u8]) -> Result<usize, Refusal>
    ensures { (said result).length ≤ length out.new }
{
    lister::list_steps(trace, out)
}

// ── what is printed ──

// What was put into the buffer, or the line of a refusal.
fn print_answer<W: Write>(
    output: &mut W,
    answer: Result<usize, Refusal>,
    out: &[u8],
) -> io::Result<()>
    requires { (said answer).length ≤ length out.now }
{
    match answer {
        Err(refusal) => print_refusal(output, refusal),
        Ok(n) => print_front(output, out, n),
    }
}

// .. and the number of notes, 0 with a refusal.
fn print_tallied<W: Write>(
    output: &mut W,
    answer: Result<Output, Refusal>,
    out: &[u8],
) -> io::Result<()>
    requires { (said (filled_of answer)).length ≤ length out.now }
{
    match answer {
        Err(refusal) => {
            print_refusal(output, refusal)?;
            print_number(output, 0)
        }
        Ok(moved) => {
            print_front(output, out, moved.length)?;
            print_number(output, moved.notes)
        }
    }
}

// `refused NO PLACE`: two numbers of at most 20 digits. It has a buffer of its own: the one that was lent may have room for less.
fn print_refusal<W: Write>(output: &mut W, refusal: Refusal) -> io::Result<()> {
    let mut line = [0u8; 64];
    let end = show::put_refusal(&mut line, 0, refusal);
    print_front(output, &line, end)
}

// The first n bytes, behind their number.
fn print_front<W: Write>(output: &mut W, bytes: &[u8], n: usize) -> io::Result<()>
    requires { n ≤ length bytes.now }
{
    print_number(output, n)?;
    output.write_all(&bytes[..n])
}

// 2 bytes little-endian.
fn print_number<W: Write>(output: &mut W, n: usize) -> io::Result<()> {
    let bytes = [(n % 256) as u8, (n / 256 % 256) as u8];
    output.write_all(&bytes)
}
