// A trace moved from one edition to the other: its history goes into a table, and from there, transaction by transaction, into a lent buffer.
#![tactic(auto)]

ghost use Rattle.std.specs.Prelude.{◌≡◌, true, false, ◌≤◌, length};
ghost use Rattle.rules.specs.History.{tx_count, op_count};
ghost use Rattle.rules.specs.Records.{serial_at, is_second};
ghost use Rattle.table.specs.Table.{history_of, Held};
ghost use Rattle.rules.specs.Reading.{reading, notes_of};
ghost use Rattle.writing.specs.Filling.{Gives, content, into};
ghost use Rattle.writing.specs.Forms.{form_of, preamble, whole_of};
ghost use Rattle.writing.proofs.Sizes.{whole_size};
ghost use Rattle.blocks.specs.Blocks.{PutBefore, RoomBefore};
ghost use Rattle.moving.specs.Moving.{is_same, moved_trace, is_list_kind, list_from, first_list, moved_to};
ghost use Rattle.moving.specs.Tally.{tallied_fill, with_notes, moved_to_second, GivesTallied};
ghost use Rattle.mover.specs.Mover.{whole_count, Movable};

use blocks::Place;
use moving::Output;
use rules::{Cause, Event, Refusal};
use writing::Form;

// ── a trace that is of the wanted edition ──

fn is_same(is: bool, second: bool) -> bool
    ensures { result ≡ is_same is second }
{
    if is {
        return second;
    }
    !second
}

// "A trace already in the wanted edition comes out unchanged, notes too."
fn put_same(trace: &[u8], notes: usize, out: &mut [u8]) -> Result<Output, Refusal>
    ensures { tallied_fill result out.new ≡ with_notes (into (content trace.now) out.old) notes }
{
    let n = trace.len();
    if out.len() < n {
        return Err(Cause::OutputRoom.at(n));
    }
    copying::copy(trace, n, out);
    Ok(Output { length: n, notes })
}

// ── one that is not ──

fn form_of(second: bool) -> Form
    ensures { result ≡ form_of second }
{
    if second {
        return Form::Second;
    }
    Form::First
}

// How many bytes and how many records the moved trace has.
fn moved_length(h: &[u64], second: bool) -> usize
    requires { Held h.now }
    ensures { result ≡ whole_size second (tx_count (history_of h.now)) (op_count (history_of h.now)) }
{
    if second {
        return 21 * table::txs(h) + 22 * table::ops(h) + 20;
    }
    19 * table::txs(h) + 20 * table::ops(h) + 10
}

fn moved_count(h: &[u64], second: bool) -> u32
    requires { Held h.now }
    ensures { result ≡ whole_count second (tx_count (history_of h.now)) (op_count (history_of h.now)) }
{
    let records = (2 * table::txs(h) + table::ops(h) + 1) as u32;
    if second {
        return records + 1;
    }
    records
}

// "Edition 2 of the trace begins with a kind 16 record".
fn put_preamble(second: bool, first: u32, out: &mut [u8], place: Place) -> Place
    requires { RoomBefore (form_of second) out.old place (preamble second) }
    ensures { PutBefore (form_of second) first out.old place out.new result (preamble second) }
{
    if second {
        return blocks::put_before(Form::Second, first, 0, Event::Other, out, place);
    }
    place
}

// The end record, the transactions and what the edition begins with, from the last to the first.
fn put_whole(h: &[u64], second: bool, first: u32, out: &mut [u8], place: Place) -> Place
    requires { Held h.now × Movable second (history_of h.now) × RoomBefore (form_of second) out.old place (whole_of second (history_of h.now)) }
    ensures { PutBefore (form_of second) first out.old place out.new result (whole_of second (history_of h.now)) }
{
    let form = form_of(second);
    let txs = table::txs(h) as u16;
    let from = blocks::put_before(form, first, 0, Event::End(txs), out, place);
    let from = blocks::put_txs(h, form, first, out, from);
    put_preamble(second, first, out, from)
}

// "The first serial is kept and the rest follow it. Notes are left out."
fn put_moved(
    trace: &[u8],
    h: &[u64],
    notes: usize,
    second: bool,
    out: &mut [u8],
) -> Result<Output, Refusal>
    requires { Held h.now × Movable second (history_of h.now) × (8 ≤ length trace.now) }
    ensures { tallied_fill result out.new ≡ with_notes (into (content (moved_trace second (serial_at trace.now 0) (history_of h.now))) out.old) notes }
{
    let first = frame::u32_at(trace, 4);
    let n = moved_length(h, second);
    if out.len() < n {
        return Err(Cause::OutputRoom.at(n));
    }
    let count = moved_count(h, second);
    put_whole(h, second, first, out, Place { at: n, count });
    Ok(Output { length: n, notes })
}

// ── appends and list reads, which edition 1 has not ──

fn is_list_kind(kind: u16) -> bool
    ensures { result ≡ is_list_kind kind }
{
    if kind == 23 {
        return true;
    }
    kind == 24
}

// "the first such record": its offset, from record to record; the trace's length where there is none.
fn list_from(trace: &[u8]) -> usize
    ensures { result ≡ list_from (length trace.now) trace.now 0 }
{
    let n = trace.len();
    let mut at = 0;
    // Kept (3): each step is as long as the record says, so no range has these offsets; a rest of the slice in place of the offset would not answer where it is.
    while at + 4 <= n {
        if is_list_kind(frame::u16_at(trace, at + 2)) {
            return at;
        }
        at += 2 + usize::from(frame::u16_at(trace, at));
    }
    n
}

// .. of a trace that is of edition 2 or is not.
fn first_list(is: bool, trace: &[u8]) -> usize
    requires { is ≡ is_second trace.now }
    ensures { result ≡ first_list trace.now }
{
    if is {
        return list_from(trace);
    }
    trace.len()
}

// ── the calls ──

// To edition 2 or 1: "Refusals: 01's for the input, then 16 for the output."; "20, list kinds in a move to edition 1, .. before 16".
fn move_to(second: bool, trace: &[u8], out: &mut [u8]) -> Result<Output, Refusal>
    ensures { tallied_fill result out.new ≡ with_notes (moved_to second trace.now out.old) (notes_of (reading trace.now)) }
{
    let mut h = [0u64; table::WORDS];
    let notes = trace::read_trace(trace, &mut h)?;
    let is = frame::is_second(trace);
    if is_same(is, second) {
        return put_same(trace, notes, out);
    }
    let place = first_list(is, trace);
    if place < trace.len() {
        return Err(Cause::ListsMoved.at(place));
    }
    put_moved(trace, &h, notes, second, out)
}

// Fills a lent buffer with a trace, moved to edition 1, and does not answer its notes. What the answer means, and what the buffer then holds, is what the
// definition gives these bytes and this buffer.
pub fn to_edition_1(trace: &[u8], out: &mut [u8]) -> Result<usize, Refusal>
    ensures { Gives result out.new (moved_to false trace.now out.old) }
{
    move_to(false, trace, out).map(|output| output.length)
}

// .. moved to edition 2, and answers how many notes the trace had.
pub fn to_edition_2(trace: &[u8], out: &mut [u8]) -> Result<Output, Refusal>
    ensures { GivesTallied result out.new (moved_to_second trace.now out.old) }
{
    move_to(true, trace, out)
}
