// The whole reading of a trace: its history goes into the table h, and its notes are counted.
#![tactic(auto)]

ghost use Rattle.std.specs.Prelude.{◌≡◌, ◌+◌, ◌<◌, true, false, length};
ghost use Rattle.base.specs.Base.{◌or◌};
ghost use Rattle.rules.specs.Records.{is_second};
ghost use Rattle.rules.specs.Refusals.{told};
ghost use Rattle.rules.proofs.Singles.{Singles};
ghost use Rattle.table.specs.Table.{table_words, history_of, Held};
ghost use Rattle.sessions.specs.Open.{Beside};
ghost use Rattle.trace.specs.Turns.{finish as finishing, Turned};
ghost use Rattle.trace.specs.Trace.{TraceRead, Standing, WayIs, AnyMore, Mixes, BeforeLists, EndsLists};

use rules::{Cause, Refusal};
use steps::Next;

// Behind a record that no row refuses: where the next one starts, the serial that has to come, the number of notes so far, and whether the record is an append
// or a list read; or the reading is over, with the number of notes.
#[derive(Clone, Copy, Debug, PartialEq, Eq)]
pub enum Turn {
    More(usize, u32, usize, bool),
    Over(usize),
}

// "After the end record, 11": bytes follow it, place the first such byte.
fn finish(s: &[u8], at: usize, notes: usize) -> Result<Turn, Refusal>
    ensures { told result ≡ finishing s.now at notes }
{
    if at < s.len() {
        return Err(Cause::BytesBehind.at(at));
    }
    Ok(Turn::Over(notes))
}

// One record, at `at`, where `serial` has to come.
fn turn_at(
    s: &[u8],
    at: usize,
    serial: u32,
    notes: usize,
    second: bool,
    h: &mut [u64],
    o: &mut [u8],
) -> Result<Turn, Refusal>
    requires { Standing s.now at notes h.old × (second ≡ is_second s.now) × Beside second o.old (history_of h.old) }
    ensures { Turned result h.new h.old s.now at serial notes × Beside second o.new (history_of h.new) }
{
    let stated = rules::placed(frame::frame_at(s, at, serial, second), at)?;
    let after = at + 2 + frame::u16_at(s, at) as usize;
    let taken = sessions::take(stated.event, stated.session, second, h, o);
    let next = rules::placed(taken, at)?;
    // "after 4,294,967,295 comes 0"
    let follow = frame::u32_at(s, at + 4).wrapping_add(1);
    match next {
        Next::Done => finish(s, after, notes),
        Next::Go => Ok(Turn::More(after, follow, notes, false)),
        Next::Count => Ok(Turn::More(after, follow, notes + 1, false)),
        Next::List => Ok(Turn::More(after, follow, notes, true)),
    }
}

// How far records were read: to behind one whose offset comes first, with what is known there; or to the end, with the number of notes.
#[derive(Clone, Copy, Debug, PartialEq, Eq)]
pub enum Way {
    Behind(usize, usize, u32, usize),
    Over(usize),
}

// Whether to stop behind a record: behind each, or behind an append or a list read.
fn stops(each: bool, lists: bool) -> bool
    ensures { result ≡ (each or lists) }
{
    each || lists
}

// The records from the one at `from` on, where `expected` has to come, past so many notes: one record, or all up to the first append or list read, before which
// no key can have both single values and lists.
fn read_records(
    s: &[u8],
    from: usize,
    expected: u32,
    counted: usize,
    second: bool,
    each: bool,
    h: &mut [u64],
    o: &mut [u8],
) -> Result<Way, Refusal>
    requires { Standing s.now from counted h.old × (second ≡ is_second s.now) × Beside second o.old (history_of h.old) × (each ≡ false → Singles (history_of h.old)) }
    ensures { WayIs s.now from expected counted h.old each h.new result × Beside second o.new (history_of h.new) }
{
    let mut at = from;
    let mut serial = expected;
    let mut notes = counted;
    loop {
        let turn = turn_at(s, at, serial, notes, second, h, o)?;
        match turn {
            Turn::Over(count) => return Ok(Way::Over(count)),
            Turn::More(after, follow, count, lists) => {
                if stops(each, lists) {
                    return Ok(Way::Behind(at, after, follow, count));
                }
                at = after;
                serial = follow;
                notes = count;
            }
        }
    }
}

// Row 17 behind a record that was read, where n operations were entered before it: whether the one that it has entered mixes single values and lists.
fn mixes(h: &[u64], k: &mut [u16; 1153], n: usize) -> bool
    requires { Held h.now × AnyMore k.old (history_of h.now) n }
    ensures { Mixes result k.new (history_of h.now) n }
{
    if table::ops(h) == n {
        return false;
    }
    mixing::enter(h, k, n + 1)
}

// The records from the one at `after` on, where the one at `first` is the first append or list read: from here on an index of keys is kept.
fn read_lists(
    s: &[u8],
    first: usize,
    after: usize,
    follow: u32,
    count: usize,
    second: bool,
    h: &mut [u64],
    o: &mut [u8],
) -> Result<usize, Refusal>
    requires { BeforeLists s.now first after follow count h.old × (second ≡ is_second s.now) × Beside second o.old (history_of h.old) }
    ensures { EndsLists s.now first after follow count h.old result h.new }
{
    let mut k = [0u16; 1153];
    if mixing::enter_all(h, &mut k) {
        return Err(Cause::Mixed.at(first));
    }
    let mut at = after;
    let mut serial = follow;
    let mut notes = count;
    loop {
        let n = table::ops(h);
        let way = read_records(s, at, serial, notes, second, true, h, o)?;
        match way {
            Way::Over(count) => return Ok(count),
            Way::Behind(record, after, follow, count) => {
                if mixes(h, &mut k, n) {
                    return Err(Cause::Mixed.at(record));
                }
                at = after;
                serial = follow;
                notes = count;
            }
        }
    }
}

// The whole trace, with its number of notes: row 2, then record by record. Only a trace that has lists needs the index of keys.
pub fn read_trace(s: &[u8], h: &mut [u64]) -> Result<usize, Refusal>
    requires { length h.old ≡ table_words }
    ensures { TraceRead result h.new h.old s.now }
{
    table::clear(h);
    if 32768 < s.len() {
        return Err(Cause::TooLong.at(32768));
    }
    let second = frame::is_second(s);
    let mut o = [0u8; 256];
    let way = read_records(s, 0, 0, 0, second, false, h, &mut o)?;
    match way {
        Way::Over(notes) => Ok(notes),
        Way::Behind(first, after, follow, count) => {
            read_lists(s, first, after, follow, count, second, h, &mut o)
        }
    }
}
