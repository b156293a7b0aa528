// A trace read and written again: it is turned into steps, and a trace is made of these.
#![tactic(auto)]

ghost use Rattle.std.specs.Prelude.{◌≡◌, ◌≤◌, length, take};
ghost use Rattle.rules.specs.Records.{serial_at};
ghost use Rattle.writing.specs.Filling.{fill_of, said, Gives};
ghost use Rattle.writing.specs.Writing.{written, written_given};
ghost use Rattle.writing.specs.Rewriting.{rewritten_whole};
ghost use Rattle.rewriting.specs.Rewriting.{Rewrote};

use rules::{Cause, Refusal};

// The first n bytes of these steps, with the trace's first serial.
fn write_front(trace: &[u8], steps: &[u8], n: usize, out: &mut [u8]) -> Result<usize, Refusal>
    requires { (8 ≤ length trace.now) × (n ≤ length steps.now) }
    ensures { fill_of (said result) out.new ≡ written (take n steps.now) (serial_at trace.now 0) out.old }
{
    let serial = frame::u32_at(trace, 4);
    maker::write_trace(&steps[..n], serial, out)
}

// Fills `out` with the trace that the steps of this one make, by way of a lent buffer for these. A refusal of the trace, or of the buffer for the steps,
// is handed on, with nothing written to `out`; one of `out` leaves the steps in theirs.
pub fn rewrite_trace(trace: &[u8], steps: &mut [u8], out: &mut [u8]) -> Result<usize, Refusal>
    ensures { Rewrote result trace.now steps.old steps.new out.old out.new }
{
    let n = lister::list_steps(trace, steps)?;
    write_front(trace, steps, n, out)
}

// ── whole inputs, as the programs get them ──

// A starting serial, 4 bytes, and the steps behind it. Where there are fewer bytes than a serial has, too few are left: 3, at the first byte.
pub fn write_given(given: &[u8], out: &mut [u8]) -> Result<usize, Refusal>
    ensures { Gives result out.new (written_given given.now out.old) }
{
    if given.len() < 4 {
        return Err(Cause::TooFew.at(0));
    }
    let serial = frame::u32_at(given, 0);
    maker::write_trace(&given[4..], serial, out)
}

// A trace. The steps in between always have room: at most 127 opens, as many closes and 1,024 operations, 16 bytes each.
pub fn rewrite_whole(trace: &[u8], out: &mut [u8]) -> Result<usize, Refusal>
    ensures { Gives result out.new (rewritten_whole trace.now out.old) }
{
    let mut steps = [0u8; 20448];
    rewrite_trace(trace, &mut steps, out)
}
