// A trace turned into steps: its history goes into a table, and from there into a lent buffer, sixteen bytes a step.
#![tactic(auto)]

ghost use Rattle.std.specs.Prelude.{◌≡◌};
ghost use Rattle.table.specs.Table.{history_of, Held};
ghost use Rattle.writing.specs.Filling.{said, fill_of, content, into};
ghost use Rattle.writing.specs.Listing.{stepped};
ghost use Rattle.lister.specs.Lister.{all_bytes, Listable};

use blocks::Place;
use rules::{Cause, Refusal};
use writing::Form;

// A trace that was read.
fn list_history(h: &[u64], out: &mut [u8]) -> Result<usize, Refusal>
    requires { Held h.now × Listable (history_of h.now) }
    ensures { fill_of (said result) out.new ≡ into (content (all_bytes (history_of h.now))) out.old }
{
    let count = 2 * table::txs(h) + table::ops(h);
    let n = 16 * count;
    if out.len() < n {
        return Err(Cause::OutputRoom.at(n));
    }
    blocks::put_txs(
        h,
        Form::Step,
        0,
        out,
        Place {
            at: n,
            count: count as u32,
        },
    );
    Ok(n)
}

// Puts the steps of a trace into a lent buffer: "2 to 11, then 16". One of edition 2 has no steps: once it is read, it is refused for its first record. What
// the answer means, and what the buffer then holds, is what the definition gives these bytes and this buffer.
pub fn list_steps(trace: &[u8], out: &mut [u8]) -> Result<usize, Refusal>
    ensures { fill_of (said result) out.new ≡ stepped trace.now out.old }
{
    let mut h = [0u64; table::WORDS];
    trace::read_trace(trace, &mut h)?;
    if frame::is_second(trace) {
        return Err(Cause::Kind.at(0));
    }
    list_history(&h, out)
}
