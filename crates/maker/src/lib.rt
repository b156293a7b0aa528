// A trace from steps: the steps are followed into a table, as a reading's records are; then, if no row refuses, a record is put for each.
#![tactic(auto)]

ghost use Rattle.std.specs.Prelude.{◌≡◌, ◌+◌, ◌*◌, ◌<◌, ◌≤◌, length};
ghost use Rattle.base.proofs.Fill.{Appended};
ghost use Rattle.rules.specs.History.{tx_count, op_count};
ghost use Rattle.rules.specs.Records.{written_key};
ghost use Rattle.table.specs.Table.{table_words, history_of, Held};
ghost use Rattle.writing.specs.Filling.{fill_of, said};
ghost use Rattle.writing.specs.Steps.{step_count, step_of, step_at, steps_in};
ghost use Rattle.writing.specs.Writing.{is_no_step, trace_of, written};
ghost use Rattle.maker.specs.Maker.{Entered, Ended, FollowedInto, Makes};

use rules::{Cause, Event, Refusal};

// ── steps ──

// How many there are; a rest of fewer than sixteen bytes is one.
fn step_count(s: &[u8]) -> usize
    ensures { result ≡ step_count s.now }
{
    (s.len() + 15) / 16
}

// "sixteen a step, little-endian: kind (2), session or status (2), key (4), value (8)"
fn step_of(s: &[u8], at: usize) -> Event
    requires { at + 16 ≤ length s.now }
    ensures { (result ≡ step_of s.now at) × (written_key result < 4294967296) }
{
    let kind = frame::u16_at(s, at);
    match kind {
        1 => Event::Open(frame::u16_at(s, at + 2)),
        2 => Event::Read(frame::u32_at(s, at + 4), frame::u64_at(s, at + 8)),
        3 => Event::Write(frame::u32_at(s, at + 4) as u64, frame::u64_at(s, at + 8)),
        4 => Event::Close(frame::u16_at(s, at + 2)),
        _ => Event::Other,
    }
}

// "A rest of fewer than sixteen bytes is a step of no kind"
fn step_at(s: &[u8], at: usize) -> Event
    requires { at ≤ length s.now }
    ensures { (result ≡ step_at s.now at) × (written_key result < 4294967296) }
{
    if s.len() - at < 16 {
        return Event::Other;
    }
    step_of(s, at)
}

// ── following them ──

// Row 6, "any other kind".
fn is_no_step(event: Event) -> bool
    ensures { result ≡ is_no_step event }
{
    match event {
        Event::Open(_) => false,
        Event::Read(_, _) => false,
        Event::Write(_, _) => false,
        Event::Close(_) => false,
        Event::End(_) => true,
        Event::Note => true,
        Event::Other => true,
    }
}

// A step goes into the table h, unless a row, 6 to 10, refuses it.
fn enter(event: Event, h: &mut [u64]) -> Result<(), Cause>
    requires { Held h.old × (written_key event < 4294967296) }
    ensures { Entered result h.new h.old event }
{
    if is_no_step(event) {
        return Err(Cause::Kind);
    }
    steps::take(event, h)?;
    Ok(())
}

// The end record, which would have the number of transactions opened, unless a row refuses it.
fn enter_end(h: &mut [u64]) -> Result<(), Cause>
    requires { Held h.old }
    ensures { Ended result h.new h.old }
{
    let txs = table::txs(h) as u16;
    steps::take(Event::End(txs), h)?;
    Ok(())
}

// All steps and the end record go into the table h, unless a row refuses one of them: "the step's number, from 1, as place; a sequence that ends inside a
// transaction gets 7 with the number of steps plus one"
fn follow_steps(s: &[u8], h: &mut [u64]) -> Result<(), Refusal>
    requires { length h.old ≡ table_words }
    ensures { FollowedInto result h.new s.now }
{
    table::clear(h);
    let n = step_count(s);
    for k in 0..n {
        rules::placed(enter(step_at(s, 16 * k), h), k + 1)?;
    }
    rules::placed(enter_end(h), n + 1)
}

// ── the trace ──

// How long it is: an open and a close take 19 bytes, an operation 20, the end 10.
fn trace_length(h: &[u64]) -> usize
    requires { Held h.now }
    ensures { result ≡ 19 * tx_count (history_of h.now) + 20 * op_count (history_of h.now) + 10 }
{
    19 * table::txs(h) + 20 * table::ops(h) + 10
}

// A record for each step, then the end record.
fn put_trace(s: &[u8], serial: u32, h: &[u64], out: &mut [u8]) -> usize
    requires { Makes h.now s.now × (length (trace_of serial (steps_in s.now) (history_of h.now)) ≤ length out.old) }
    ensures { Appended out.old 0 out.new result (trace_of serial (steps_in s.now) (history_of h.now)) }
{
    let mut next = serial;
    let mut at = 0;
    for k in 0..step_count(s) {
        at = putting::put_record(out, at, next, false, 0, step_at(s, 16 * k));
        // "after 4,294,967,295 comes 0"
        next = next.wrapping_add(1);
    }
    let txs = table::txs(h) as u16;
    putting::put_record(out, at, next, false, 0, Event::End(txs))
}

// "16, output buffer too short, place the bytes needed, after all others"
fn put_whole(s: &[u8], serial: u32, h: &[u64], out: &mut [u8]) -> Result<usize, Refusal>
    requires { Makes h.now s.now }
    ensures { fill_of (said result) out.new ≡ written s.now serial out.old }
{
    let needed = trace_length(h);
    if out.len() < needed {
        return Err(Cause::OutputRoom.at(needed));
    }
    Ok(put_trace(s, serial, h, out))
}

// ── the call ──

// Fills the buffer with the trace of these steps, whose first serial is given. "Nothing is written on refusal"; what the answer means, and what the
// buffer then holds, is what the definition gives these bytes, this serial and this buffer.
pub fn write_trace(steps: &[u8], serial: u32, out: &mut [u8]) -> Result<usize, Refusal>
    ensures { fill_of (said result) out.new ≡ written steps.now serial out.old }
{
    let mut h = [0u64; table::WORDS];
    follow_steps(steps, &mut h)?;
    put_whole(steps, serial, &h, out)
}
