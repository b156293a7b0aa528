// Judges many traces in one run. Standard input has each trace behind its length, 2 bytes little-endian; a line `--` follows each answer.
#![tactic(auto)]

ghost use Rattle.std.specs.Prelude.{◌≡◌, ◌<◌, ◌≤◌, length};

use std::io;
use std::io::{Read, Write};

fn main(rt: HostRuntime) -> io::Result<()> {
    judge_all(&mut rt.stdin(), &mut rt.stdout())
}

// A proved loop has to end, and nothing says that the input does: so it counts, to a number that no run uses up. No answer's text is longer than the buffer
// that each turn gets.
fn judge_all<R: Read, W: Write>(input: &mut R, output: &mut W) -> io::Result<()> {
    let mut text = [0u8; 1048576];
    for _ in 0..u64::MAX {
        if !judge_next(input, output, &mut text)? {
            break;
        }
    }
    Ok(())
}

// One trace. False where the input has ended.
fn judge_next<R: Read, W: Write>(
    input: &mut R,
    output: &mut W,
    text: &mut [u8; 1048576],
) -> io::Result<bool> {
    let mut head = [0u8; 2];
    if streams::read_full(input, &mut head)? < 2 {
        return Ok(false);
    }
    let mut bytes = [0u8; 65535];
    let n = wide(head[0]) + 256 * wide(head[1]);
    judge_bytes(input, output, n, &mut bytes, text)?;
    output.write_all(b"--\n")?;
    Ok(true)
}

// The next n bytes are a trace.
fn judge_bytes<R: Read, W: Write>(
    input: &mut R,
    output: &mut W,
    n: usize,
    bytes: &mut [u8],
    text: &mut [u8; 1048576],
) -> io::Result<()>
    requires { n ≤ length bytes.old }
{
    judge_trace(input, output, &mut bytes[..n], text)
}

// Where the input ends early, what there is of it is taken.
fn judge_trace<R: Read, W: Write>(
    input: &mut R,
    output: &mut W,
    trace: &mut [u8],
    text: &mut [u8; 1048576],
) -> io::Result<()> {
    let n = streams::read_full(input, trace)?;
    let answer = printing::answer_text(&trace[..n], text);
    output.write_all(answer)
}

fn wide(b: u8) -> usize
    ensures { (result ≡ b) × (result < 256) }
{
    b as usize
}
