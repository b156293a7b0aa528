// A history's transactions, one after the other, put into a lent buffer as steps or as records. They are put from the last event backwards, since a
// transaction's operations are reached from its last one down: each function puts its bytes before a place and answers where they start. Every other byte
// stays as it was.
#![tactic(auto)]

ghost use Rattle.std.specs.Prelude.{◌≡◌, ◌+◌, false, [], ◌∷◌};
ghost use Rattle.rules.specs.History.{tx, op, op_count, is_open};
ghost use Rattle.rules.proofs.Singles.{ReadsSingle};
ghost use Rattle.table.specs.Table.{history_of, Held, HasTx, HasOp};
ghost use Rattle.writing.specs.Listing.{op_step};
ghost use Rattle.writing.specs.Forms.{mark, tx_block, blocks_of};
ghost use Rattle.blocks.specs.Blocks.{op_marks, PutBefore, RoomBefore, NoneOpen};

use rules::Event;
use writing::Form;

// Where something starts or is to end, and how many events stand before it.
#[derive(Clone, Copy)]
pub struct Place {
    pub at: usize,
    pub count: u32,
}

// ── one event ──

// As a record it has the serial that comes so many after the first.
pub fn put_before(
    form: Form,
    first: u32,
    session: u16,
    event: Event,
    out: &mut [u8],
    place: Place,
) -> Place
    requires { RoomBefore form out.old place (mark session event ∷ []) }
    ensures { PutBefore form first out.old place out.new result (mark session event ∷ []) }
{
    let at = place.at - putting::event_length(form, event);
    let count = place.count - 1;
    // "after 4,294,967,295 comes 0"
    let serial = first.wrapping_add(count);
    putting::put_event(out, at, form, serial, session, event);
    Place { at, count }
}

// Operation i as an event.
fn op_step(h: &[u64], i: usize) -> Event
    requires { HasOp h.now i × ReadsSingle (history_of h.now) }
    ensures { result ≡ op_step (op (history_of h.now) i) }
{
    let key = table::key_of(h, i);
    let value = table::value_of(h, i);
    if table::is_write(h, i) {
        return Event::Write(key, value);
    }
    Event::Read(key as u32, value)
}

// ── a transaction ──
// Kept (5): form and first travel together through two private functions only; the public ones take them apart, so that a struct would be no plainer.

// The operations of transaction t, whose session is given, from its last one down.
fn put_ops(
    h: &[u64],
    t: usize,
    form: Form,
    first: u32,
    session: u16,
    out: &mut [u8],
    place: Place,
) -> Place
    requires { HasTx h.now t × ReadsSingle (history_of h.now) × (session ≡ (tx (history_of h.now) t).session) × RoomBefore form out.old place (op_marks (history_of h.now) t (op_count (history_of h.now) + 1)) }
    ensures { PutBefore form first out.old place out.new result (op_marks (history_of h.now) t (op_count (history_of h.now) + 1)) }
{
    let mut from = place;
    let mut i = table::last_op(h, t);
    while 0 < i {
        from = put_before(form, first, session, op_step(h, i), out, from);
        i = table::prev_op(h, i);
    }
    from
}

// Its close, its operations, its open.
fn put_tx(h: &[u64], t: usize, form: Form, first: u32, out: &mut [u8], place: Place) -> Place
    requires { HasTx h.now t × ReadsSingle (history_of h.now) × (is_open (history_of h.now) t ≡ false) × RoomBefore form out.old place (tx_block (history_of h.now) t) }
    ensures { PutBefore form first out.old place out.new result (tx_block (history_of h.now) t) }
{
    let status = table::status_of(h, t) as u16;
    let session = table::session_of(h, t) as u16;
    let from = put_before(form, first, session, Event::Close(status), out, place);
    let from = put_ops(h, t, form, first, session, out, from);
    put_before(form, first, session, Event::Open(session), out, from)
}

// ── all of them ──

// "transactions become blocks in order of opening": from the last one down.
pub fn put_txs(h: &[u64], form: Form, first: u32, out: &mut [u8], place: Place) -> Place
    requires { Held h.now × ReadsSingle (history_of h.now) × NoneOpen (history_of h.now) × RoomBefore form out.old place (blocks_of (history_of h.now)) }
    ensures { PutBefore form first out.old place out.new result (blocks_of (history_of h.now)) }
{
    let mut from = place;
    for t in (1..=table::txs(h)).rev() {
        from = put_tx(h, t, form, first, out, from);
    }
    from
}
