// What an event does to the history in the table h, or the row, 7 to 10, that refuses it.
#![tactic(auto)]

ghost use Rattle.std.specs.Prelude.{◌≡◌, ltb, leb, ◌+◌, ◌≤◌, ◌<◌};
ghost use Rattle.base.specs.Base.{first_fit};
ghost use Rattle.rules.specs.History.{current as latest, tx_count, op_count, write_of};
ghost use Rattle.rules.specs.Refusals.{no_of};
ghost use Rattle.table.specs.Table.{history_of, Held, Below};
ghost use Rattle.steps.specs.Steps.{held_rows, Takable, Took};

use rules::{Cause, Event};

// How the reading goes on behind an event that no row refuses: with the next record; the same, behind a note, and behind an append or a list read; not at all,
// the end has come.
#[derive(Clone, Copy, Debug, PartialEq, Eq)]
pub enum Next {
    Go,
    Count,
    List,
    Done,
}

// Edition 1, "Transactions do not overlap in the trace": the one that is open is the latest; 0 where none is.
pub fn current(h: &[u64]) -> usize
    requires { Held h.now }
    ensures { Below result (latest (history_of h.now)) (tx_count (history_of h.now) + 1) }
{
    let t = table::txs(h);
    if t == 0 {
        return 0;
    }
    if table::status_of(h, t) != 3 {
        return 0;
    }
    t
}

// Row 9: one operation more would be the 1,025th.
fn is_full(h: &[u64]) -> bool
    requires { Held h.now }
    ensures { result ≡ leb 1024 (op_count (history_of h.now)) }
{
    1024 <= table::ops(h)
}

// The step of each kind, where t is the open transaction, 0 where there is none.

fn take_open(h: &mut [u64], t: usize, s: u16) -> Result<Next, Cause>
    requires { Held h.old }
    ensures { Took result h.new h.old t (Event.Open s) }
{
    if 0 < t {
        return Err(Cause::Misplaced);
    }
    if 127 <= table::txs(h) {
        return Err(Cause::Excess);
    }
    table::put_tx(h, s);
    Ok(Next::Go)
}

fn take_read(h: &mut [u64], t: usize, x: u32, v: u64) -> Result<Next, Cause>
    requires { Held h.old × (t ≤ tx_count (history_of h.old)) }
    ensures { Took result h.new h.old t (Event.Read x v) }
{
    if t == 0 {
        return Err(Cause::Misplaced);
    }
    if is_full(h) {
        return Err(Cause::Excess);
    }
    table::put_read(h, t, x, v);
    Ok(Next::Go)
}

// Rows 7, 8 and 9 of a write, an append or a list read.
fn check_write(h: &[u64], t: usize, v: u64) -> Result<(), Cause>
    requires { Held h.now }
    ensures { no_of result ≡ first_fit (held_rows (history_of h.now) t v) }
{
    if t == 0 {
        return Err(Cause::Misplaced);
    }
    // "Value 0 is a key's initial value, so a write may not have it."
    if v == 0 {
        return Err(Cause::Unlawful);
    }
    if is_full(h) {
        return Err(Cause::Excess);
    }
    Ok(())
}

// Row 10. Two list reads have two offsets, so that none is looked for.
fn repeats(h: &[u64], x: u64, v: u64) -> bool
    requires { Held h.now × (8589934592 ≤ x → write_of (history_of h.now) x v ≡ 0) }
    ensures { result ≡ ltb 0 (write_of (history_of h.now) x v) }
{
    if 8589934592 <= x {
        return false;
    }
    0 < table::write_of(h, x, v)
}

// A write of single values.
fn take_write(h: &mut [u64], t: usize, x: u64, v: u64) -> Result<Next, Cause>
    requires { Held h.old × (t ≤ tx_count (history_of h.old)) × (x < 4294967296) }
    ensures { Took result h.new h.old t (Event.Write x v) }
{
    check_write(h, t, v)?;
    if 0 < table::write_of(h, x, v) {
        return Err(Cause::Repeated);
    }
    table::put_write(h, t, x, v);
    Ok(Next::Go)
}

// An append or a list read.
fn take_list(h: &mut [u64], t: usize, x: u64, v: u64) -> Result<Next, Cause>
    requires { Held h.old × (t ≤ tx_count (history_of h.old)) × (4294967296 ≤ x) × (x < 17179869184) × (8589934592 ≤ x → 0 < v → write_of (history_of h.old) x v ≡ 0) }
    ensures { Took result h.new h.old t (Event.Write x v) }
{
    check_write(h, t, v)?;
    if repeats(h, x, v) {
        return Err(Cause::Repeated);
    }
    table::put_write(h, t, x, v);
    Ok(Next::List)
}

// What is held as a write, by its key.
fn take_held(h: &mut [u64], t: usize, x: u64, v: u64) -> Result<Next, Cause>
    requires { Held h.old × (t ≤ tx_count (history_of h.old)) × (x < 17179869184) × (8589934592 ≤ x → 0 < v → write_of (history_of h.old) x v ≡ 0) }
    ensures { Took result h.new h.old t (Event.Write x v) }
{
    if x < 4294967296 {
        return take_write(h, t, x, v);
    }
    take_list(h, t, x, v)
}

fn take_close(h: &mut [u64], t: usize, status: u16) -> Result<Next, Cause>
    requires { Held h.old × (t ≤ tx_count (history_of h.old)) }
    ensures { Took result h.new h.old t (Event.Close status) }
{
    if t == 0 {
        return Err(Cause::Misplaced);
    }
    // "8 now begins at status 3"
    if 2 < status {
        return Err(Cause::Unlawful);
    }
    table::close_tx(h, t, status as u64);
    Ok(Next::Go)
}

fn take_end(h: &[u64], t: usize, n: u16) -> Result<Next, Cause>
    requires { Held h.now }
    ensures { Took result h.now h.now t (Event.End n) }
{
    if 0 < t {
        return Err(Cause::Misplaced);
    }
    let opened = table::txs(h);
    if n as usize != opened {
        return Err(Cause::Unlawful);
    }
    Ok(Next::Done)
}

// The step of any event, where t is the open transaction that it meets. A note "has no part in judging".
pub fn take_in(event: Event, t: usize, h: &mut [u64]) -> Result<Next, Cause>
    requires { Held h.old × (t ≤ tx_count (history_of h.old)) × Takable (history_of h.old) event }
    ensures { Took result h.new h.old t event }
{
    match event {
        Event::Open(s) => take_open(h, t, s),
        Event::Read(x, v) => take_read(h, t, x, v),
        Event::Write(x, v) => take_held(h, t, x, v),
        Event::Close(status) => take_close(h, t, status),
        Event::End(n) => take_end(h, t, n),
        Event::Note => Ok(Next::Count),
        Event::Other => Ok(Next::Go),
    }
}

// The same in edition 1.
pub fn take(event: Event, h: &mut [u64]) -> Result<Next, Cause>
    requires { Held h.old × Takable (history_of h.old) event }
    ensures { Took result h.new h.old (latest (history_of h.old)) event }
{
    let t = current(h);
    take_in(event, t, h)
}
