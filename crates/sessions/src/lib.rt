// Which transaction is open in each session of an edition 2 trace, and the step of any event of it. The bytes o say it beside the table h, so that
// no call looks at all transactions but that of an end record.
#![tactic(auto)]

ghost use Rattle.std.specs.Prelude.{◌≡◌, true, ◌+◌, ◌<◌, length, get_or};
ghost use Rattle.rules.specs.History.{tx_count, is_open, open_of, any_open};
ghost use Rattle.rules.specs.Reading.{is_end, met_in};
ghost use Rattle.table.specs.Table.{history_of, Held, HasTx, Below};
ghost use Rattle.steps.specs.Steps.{Takable};
ghost use Rattle.sessions.specs.Open.{bucket_for, Kept, OnWay, linked, unlinked, Beside, is_close, Placed, kept_by, TookOf};

use rules::{Cause, Event};
use steps::Next;

// The bucket that a session falls into: the sum of its two bytes, modulo 128.
fn bucket(session: u64) -> usize
    ensures { Below result (bucket_for session) 128 }
{
    ((session % 256 + session / 256) % 128) as usize
}

// "Each session may have one transaction open": its number, 0 where none is. Only the open ones of one bucket are looked at, from the greatest down.
fn open_of(o: &[u8], h: &[u64], session: u16) -> usize
    requires { Held h.now × Kept o.now (history_of h.now) }
    ensures { Below result (open_of (history_of h.now) session) (tx_count (history_of h.now) + 1) }
{
    let mut t = o[bucket(session as u64)] as usize;
    while 0 < t {
        if table::session_of(h, t) == session as u64 {
            return t;
        }
        t = o[128 + t] as usize;
    }
    0
}

// Whether transaction t has been opened and not closed.
fn is_open(h: &[u64], t: usize) -> bool
    requires { HasTx h.now t }
    ensures { result ≡ is_open (history_of h.now) t }
{
    table::status_of(h, t) == 3
}

// "an end with any open": the greatest open one, 0 where none is. Only the end record asks this.
fn any_open(h: &[u64]) -> usize
    requires { Held h.now }
    ensures { Below result (any_open (history_of h.now)) (tx_count (history_of h.now) + 1) }
{
    for t in (1..=table::txs(h)).rev() {
        if is_open(h, t) {
            return t;
        }
    }
    0
}

// The byte that has the number of the open transaction t: its bucket's, or that of the next greater open one in the bucket.
fn place_of(o: &[u8], h: &[u64], t: usize) -> usize
    requires { HasTx h.now t × Kept o.now (history_of h.now) × (is_open (history_of h.now) t ≡ true) }
    ensures { OnWay (history_of h.now) t result × (get_or o.now result 0 ≡ t) }
{
    let mut p = bucket(table::session_of(h, t));
    while o[p] as usize != t {
        p = 128 + o[p] as usize;
    }
    p
}

// Transaction t has opened, in a session of bucket b.
fn enter(o: &mut [u8], t: usize, b: usize)
    requires { (length o.old ≡ 256) × (t < 128) × (b < 128) }
    ensures { o.new ≡ linked o.old t b }
{
    let next = o[b];
    o[128 + t] = next;
    o[b] = t as u8;
}

// Transaction t has closed, whose number byte p has.
fn leave(o: &mut [u8], t: usize, p: usize)
    requires { (length o.old ≡ 256) × (t < 128) × (p < 256) }
    ensures { o.new ≡ unlinked o.old t p }
{
    let next = o[128 + t];
    o[p] = next;
    o[128 + t] = 0;
}

fn is_end(event: Event) -> bool
    ensures { result ≡ is_end event }
{
    matches!(event, Event::End(_))
}

fn is_close(event: Event) -> bool
    ensures { result ≡ is_close event }
{
    matches!(event, Event::Close(_))
}

// Kept (5): h and o travel together, but `take` writes both between the calls, so that a struct of references would be made anew for each: no plainer.

// The open transaction that an event meets, 0 where there is none: in edition 1 the open one, in edition 2 that of its record's session, and for an
// end any.
fn met(event: Event, session: u16, second: bool, h: &[u64], o: &[u8]) -> usize
    requires { Held h.now × Beside second o.now (history_of h.now) }
    ensures { Below result (met_in second (history_of h.now) session event) (tx_count (history_of h.now) + 1) }
{
    if second {
        if is_end(event) {
            return any_open(h);
        }
        return open_of(o, h, session);
    }
    steps::current(h)
}

// The byte that has the number of t, where a close of edition 2 meets it; else 0.
fn place(event: Event, t: usize, second: bool, h: &[u64], o: &[u8]) -> usize
    requires { Held h.now × Beside second o.now (history_of h.now) × (t < tx_count (history_of h.now) + 1) × (second ≡ true → 0 < t → is_open (history_of h.now) t ≡ true) }
    ensures { Placed second o.now (history_of h.now) event t result }
{
    if second && 0 < t && is_close(event) {
        return place_of(o, h, t);
    }
    0
}

// Behind a step that met t, when n transactions had been opened: another has, where none was met, or t is closed, whose number byte p has, or neither.
fn keep(n: usize, t: usize, p: usize, h: &[u64], o: &mut [u8])
    requires { Held h.now × (length o.old ≡ 256) × (n < tx_count (history_of h.now) + 1) × (t < tx_count (history_of h.now) + 1) × (p < 256) × (0 < t → tx_count (history_of h.now) ≡ n) }
    ensures { o.new ≡ kept_by o.old n t p (history_of h.now) }
{
    if 0 < t {
        if is_open(h, t) {
            return;
        }
        leave(o, t, p);
        return;
    }
    let m = table::txs(h);
    if m == n {
        return;
    }
    enter(o, m, bucket(table::session_of(h, m)));
}

// The step of any event, where `session` is its record's, in edition 2. The bytes keep who is open behind it. One call of the step serves both editions.
pub fn take(
    event: Event,
    session: u16,
    second: bool,
    h: &mut [u64],
    o: &mut [u8],
) -> Result<Next, Cause>
    requires { Held h.old × Beside second o.old (history_of h.old) × Takable (history_of h.old) event }
    ensures { TookOf result h.new o.new h.old o.old second session event }
{
    let t = met(event, session, second, h, o);
    let p = place(event, t, second, h, o);
    let n = table::txs(h);
    let next = steps::take_in(event, t, h);
    if second {
        keep(n, t, p, h, o);
    }
    next
}
