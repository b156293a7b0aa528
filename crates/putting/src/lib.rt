// Numbers, records and steps as bytes, put into a lent buffer. Each function puts its bytes at `at` and answers where they end. Every other byte
// stays as it was.
#![tactic(auto)]

ghost use Rattle.std.specs.Prelude.{◌≡◌, ◌++◌, ◌+◌, ◌≤◌, length};
ghost use Rattle.base.proofs.Fill.{Appended};
ghost use Rattle.rules.specs.Numbers.{bytes};
ghost use Rattle.rules.specs.Traces.{record_of};
ghost use Rattle.writing.specs.Steps.{field_bytes, step_bytes};
ghost use Rattle.rules.specs.Records.{fields_from};
ghost use Rattle.writing.specs.Writing.{item_of};
ghost use Rattle.writing.specs.Forms.{mark, item_with, item_in, form_bytes};
ghost use Rattle.putting.specs.Putting.{lead_of};

use rules::Event;
use writing::Form;

// "all little-endian": n in this many bytes.
pub fn put_number(out: &mut [u8], at: usize, width: usize, n: u64) -> usize
    requires { at + width ≤ length out.old }
    ensures { Appended out.old at out.new result (bytes width n) }
{
    let end = at + width;
    let mut left = n;
    for to in at..end {
        out[to] = (left % 256) as u8;
        left /= 256;
    }
    end
}

// Kept (6): the buffer and a place in it go in, and the next place comes out, in each function: `Appended` says it of the public ones.

// A key and a value.
fn put_pair(out: &mut [u8], at: usize, key: u64, value: u64) -> usize
    requires { at + length (bytes 4 key ++ bytes 8 value) ≤ length out.old }
    ensures { Appended out.old at out.new result (bytes 4 key ++ bytes 8 value) }
{
    let to = put_number(out, at, 4, key);
    put_number(out, to, 8, value)
}

// ── a record ──

// Kept (7): `second` says the edition, as the definitions have it (`item_in`): it chooses numbers as well as what is put.

// Its kind's number. What enters nothing is, in edition 2, the record that says the edition.
#[tactic(auto, unfolding(writing::specs::Writing::item_of, writing::specs::Forms::item_with))]
fn kind_of(second: bool, event: Event) -> u64
    ensures { result ≡ (item_in second (mark 0 event)).kind }
{
    match event {
        Event::Open(_) => 1,
        Event::Read(..) => 2,
        Event::Write(..) => 3,
        Event::Close(_) => 4,
        Event::End(_) => 5,
        Event::Note => 6,
        Event::Other if second => 16,
        Event::Other => 0,
    }
}

// How long its payload is. In edition 2 "read and write .. and close .. have the session before their other fields", in two bytes; so many has the number of
// the edition too.
fn session_length(second: bool) -> u64
    ensures { (result ≡ fields_from second) × (result ≤ 2) }
{
    if second { 2 } else { 0 }
}

#[tactic(auto, unfolding(writing::specs::Writing::item_of, writing::specs::Forms::item_with, rules::specs::Numbers::bytes))]
fn payload_length(second: bool, event: Event) -> u64
    ensures { (result ≡ length (item_in second (mark 0 event)).payload) × (result ≤ 14) }
{
    let more = session_length(second);
    match event {
        Event::Open(_) | Event::End(_) => 2,
        Event::Read(..) | Event::Write(..) => 12 + more,
        Event::Close(_) => 1 + more,
        Event::Note => 0,
        Event::Other => more,
    }
}

// The payload in edition 1.
#[tactic(auto, unfolding(writing::specs::Writing::item_of, rules::specs::Numbers::bytes))]
fn put_first(out: &mut [u8], at: usize, event: Event) -> usize
    requires { at + length (item_of event).payload ≤ length out.old }
    ensures { Appended out.old at out.new result (item_of event).payload }
{
    match event {
        Event::Open(session) => put_number(out, at, 2, session as u64),
        Event::Read(key, value) => put_pair(out, at, key as u64, value),
        Event::Write(key, value) => put_pair(out, at, key, value),
        Event::Close(status) => put_number(out, at, 1, status as u64),
        Event::End(txs) => put_number(out, at, 2, txs as u64),
        Event::Note | Event::Other => at,
    }
}

// What stands before it in edition 2: the session of a read, a write and a close; where nothing else stands, the number of the edition.
#[tactic(auto, unfolding(crate::specs::Putting::lead_of, rules::specs::Numbers::bytes))]
fn put_lead(out: &mut [u8], at: usize, session: u16, event: Event) -> usize
    requires { at + length (lead_of session event) ≤ length out.old }
    ensures { Appended out.old at out.new result (lead_of session event) }
{
    match event {
        Event::Read(..) | Event::Write(..) | Event::Close(_) => put_number(
            out,
            at,
            2,
            session as u64,
        ),
        Event::Other => put_number(out, at, 2, 2),
        Event::Open(_) | Event::End(_) | Event::Note => at,
    }
}

// The payload in edition 2.
fn put_second(out: &mut [u8], at: usize, session: u16, event: Event) -> usize
    requires { at + length (item_with session event).payload ≤ length out.old }
    ensures { Appended out.old at out.new result (item_with session event).payload }
{
    let to = put_lead(out, at, session, event);
    put_first(out, to, event)
}

fn put_payload(out: &mut [u8], at: usize, second: bool, session: u16, event: Event) -> usize
    requires { at + length (item_in second (mark session event)).payload ≤ length out.old }
    ensures { Appended out.old at out.new result (item_in second (mark session event)).payload }
{
    if second {
        put_second(out, at, session, event)
    } else {
        put_first(out, at, event)
    }
}

// "A record is a 2-byte length, a 2-byte kind, a 4-byte serial and a payload"; "The length counts everything after itself." In edition 2 or 1, of a
// transaction of this session.
pub fn put_record(
    out: &mut [u8],
    at: usize,
    serial: u32,
    second: bool,
    session: u16,
    event: Event,
) -> usize
    requires { at + length (record_of serial (item_in second (mark session event))) ≤ length out.old }
    ensures { Appended out.old at out.new result (record_of serial (item_in second (mark session event))) }
{
    let to = put_number(out, at, 2, 6 + payload_length(second, event));
    let to = put_number(out, to, 2, kind_of(second, event));
    let to = put_number(out, to, 4, serial as u64);
    put_payload(out, to, second, session, event)
}

// ── a step ──

// "kind (2), session or status (2), key (4), value (8)"
fn put_fields(out: &mut [u8], at: usize, kind: u64, second: u16, key: u64, value: u64) -> usize
    requires { at + length (field_bytes kind second key value) ≤ length out.old }
    ensures { Appended out.old at out.new result (field_bytes kind second key value) }
{
    let to = put_number(out, at, 2, kind);
    let to = put_number(out, to, 2, second as u64);
    put_pair(out, to, key, value)
}

// A step; for an event that is none, nothing.
#[tactic(auto, unfolding(writing::specs::Steps::step_bytes))]
pub fn put_step(out: &mut [u8], at: usize, event: Event) -> usize
    requires { at + length (step_bytes event) ≤ length out.old }
    ensures { Appended out.old at out.new result (step_bytes event) }
{
    match event {
        Event::Open(session) => put_fields(out, at, 1, session, 0, 0),
        Event::Read(key, value) => put_fields(out, at, 2, 0, key as u64, value),
        Event::Write(key, value) => put_fields(out, at, 3, 0, key, value),
        Event::Close(status) => put_fields(out, at, 4, status, 0, 0),
        Event::End(_) | Event::Note | Event::Other => at,
    }
}

// ── in any form ──

// How many bytes an event has.
#[tactic(auto, unfolding(writing::specs::Steps::step_bytes, writing::specs::Steps::field_bytes, rules::specs::Numbers::bytes))]
fn step_length(event: Event) -> usize
    ensures { result ≡ length (step_bytes event) }
{
    match event {
        Event::Open(_) | Event::Read(..) | Event::Write(..) | Event::Close(_) => 16,
        Event::End(_) | Event::Note | Event::Other => 0,
    }
}

#[tactic(auto, unfolding(writing::specs::Forms::form_bytes))]
pub fn event_length(form: Form, event: Event) -> usize
    ensures { result ≡ length (form_bytes form 0 (mark 0 event)) }
{
    match form {
        Form::Step => step_length(event),
        Form::First => 8 + payload_length(false, event) as usize,
        Form::Second => 8 + payload_length(true, event) as usize,
    }
}

// An event of a transaction of this session; as a record it has this serial.
#[tactic(auto, unfolding(writing::specs::Forms::form_bytes))]
pub fn put_event(
    out: &mut [u8],
    at: usize,
    form: Form,
    serial: u32,
    session: u16,
    event: Event,
) -> usize
    requires { at + length (form_bytes form serial (mark session event)) ≤ length out.old }
    ensures { Appended out.old at out.new result (form_bytes form serial (mark session event)) }
{
    match form {
        Form::Step => put_step(out, at, event),
        Form::First => put_record(out, at, serial, false, session, event),
        Form::Second => put_record(out, at, serial, true, session, event),
    }
}
