// One record of a trace: its fields, the framing checks in the document's order, and what its payload says.
#![tactic(auto)]

ghost use Rattle.std.specs.Prelude.{◌≡◌, true, false, ◌+◌, ◌≤◌, ◌<◌, length, get_or, ltb};
ghost use Rattle.base.specs.Base.{◌or◌, first_fit};
ghost use Rattle.rules.specs.Numbers.{le};
ghost use Rattle.rules.specs.Records.{len_at, next_at, payload_at, is_second, fields_from, number_at, list_place as place_of, breaks, is_unknown, is_misfit, is_late, is_other_edition, frame_rows};
ghost use Rattle.rules.specs.History.{append_key, list_key};
ghost use Rattle.rules.specs.Refusals.{no_of, numbered};
ghost use Rattle.frame.specs.Framing.{kind_rows, lengths, ListKind, Above, stated, session_in, stated_of, stated_at, StatedIs, StatedAnywhere, SoundFramed, LongEnough, Fit, framing};

use rules::{Cause, Event};

// "all little-endian": the numbers that 2, 4 and 8 bytes spell.
pub fn u16_at(s: &[u8], at: usize) -> u16
    requires { at + 2 ≤ length s.now }
    ensures { result ≡ le 2 s.now at }
{
    u16::from_le_bytes([s[at], s[at + 1]])
}

pub fn u32_at(s: &[u8], at: usize) -> u32
    requires { at + 4 ≤ length s.now }
    ensures { result ≡ le 4 s.now at }
{
    u32::from_le_bytes([s[at], s[at + 1], s[at + 2], s[at + 3]])
}

pub fn u64_at(s: &[u8], at: usize) -> u64
    requires { at + 8 ≤ length s.now }
    ensures { result ≡ le 8 s.now at }
{
    u64::from_le_bytes([
        s[at],
        s[at + 1],
        s[at + 2],
        s[at + 3],
        s[at + 4],
        s[at + 5],
        s[at + 6],
        s[at + 7],
    ])
}

// "Edition 2 of the trace begins with a kind 16 record": whether this one does.
pub fn is_second(s: &[u8]) -> bool
    ensures { result ≡ is_second s.now }
{
    if s.len() < 4 {
        return false;
    }
    u16_at(s, 2) == 16
}

// The payload of the record at `at`: the part of the trace past the record's eight-byte header.
fn payload_at(s: &[u8], at: usize) -> &[u8]
    requires { (6 ≤ len_at s.now at) × (next_at s.now at ≤ length s.now) }
    ensures { result.now ≡ payload_at s.now at }
{
    let a = at + 8;
    let e = at + 2 + u16_at(s, at) as usize;
    &s[a..e]
}

// What a record says: the session that it names, 0 where it names none, and its event.
#[derive(Clone, Copy)]
pub struct Stated {
    pub session: u16,
    pub event: Event,
}

// Each kind's own reader gets the payload, and nothing else of the trace. In edition 2 "read and write .. and close .. have the session before
// their other fields".

// Where those other fields begin: behind the session's two bytes, or with the payload.
fn fields_from(second: bool) -> usize
    ensures { result ≡ fields_from second }
{
    if second {
        return 2;
    }
    0
}

// The session before them, 0 in edition 1, which has none there.
fn session_in(p: &[u8], second: bool) -> u16
    requires { fields_from second ≤ length p.now }
    ensures { result ≡ session_in second p.now }
{
    if second {
        return u16_at(p, 0);
    }
    0
}

// Kind 1, open: session, 2 bytes.
fn read_open(p: &[u8]) -> Stated
    requires { 2 ≤ length p.now }
    ensures { result ≡ stated (le 2 p.now 0) (Event.Open (le 2 p.now 0)) }
{
    let session = u16_at(p, 0);
    Stated {
        session: session,
        event: Event::Open(session),
    }
}

// Kind 2, read: key, 4; value, 8.
fn read_read(p: &[u8], second: bool) -> Stated
    requires { fields_from second + 12 ≤ length p.now }
    ensures { StatedAnywhere result (stated (session_in second p.now) (Event.Read (le 4 p.now (fields_from second)) (le 8 p.now (fields_from second + 4)))) }
{
    let from = fields_from(second);
    Stated {
        session: session_in(p, second),
        event: Event::Read(u32_at(p, from), u64_at(p, from + 4)),
    }
}

// Kind 3, write: key, 4; value, 8.
fn read_write(p: &[u8], second: bool) -> Stated
    requires { fields_from second + 12 ≤ length p.now }
    ensures { StatedAnywhere result (stated (session_in second p.now) (Event.Write (le 4 p.now (fields_from second)) (le 8 p.now (fields_from second + 4)))) }
{
    let from = fields_from(second);
    Stated {
        session: session_in(p, second),
        event: Event::Write(u32_at(p, from) as u64, u64_at(p, from + 4)),
    }
}

// Kind 4, close: status, 1 byte.
fn read_close(p: &[u8], second: bool) -> Stated
    requires { fields_from second + 1 ≤ length p.now }
    ensures { result ≡ stated (session_in second p.now) (Event.Close (le 1 p.now (fields_from second))) }
{
    let from = fields_from(second);
    Stated {
        session: session_in(p, second),
        event: Event::Close(p[from] as u16),
    }
}

// Kind 5, end: number of transactions opened, 2 bytes.
fn read_end(p: &[u8]) -> Stated
    requires { 2 ≤ length p.now }
    ensures { result ≡ stated 0 (Event.End (le 2 p.now 0)) }
{
    Stated {
        session: 0,
        event: Event::End(u16_at(p, 0)),
    }
}

// Kind 23, append: session, 2; key, 4; value, 8. It is held as a write to a key above those of single values.
fn read_append(p: &[u8]) -> Stated
    requires { 14 ≤ length p.now }
    ensures { StatedAnywhere result (stated (le 2 p.now 0) (Event.Write (append_key (le 4 p.now 2)) (le 8 p.now 6))) }
{
    Stated {
        session: u16_at(p, 0),
        event: Event::Write(4294967296 + u32_at(p, 2) as u64, u64_at(p, 6)),
    }
}

// What is held of a list read at `at`: its offset, or, of "number 33 and up", 0.
fn list_place(at: usize, n: u16) -> u64
    ensures { result ≡ place_of at n }
{
    if 32 < n {
        return 0;
    }
    at as u64
}

// Kind 24, list read: session, 2; key, 4; number, 2. Its values stay where they stand.
fn read_list(p: &[u8], at: usize) -> Stated
    requires { 8 ≤ length p.now }
    ensures { StatedIs at result (stated (le 2 p.now 0) (Event.Write (list_key (le 4 p.now 2)) (place_of at (le 2 p.now 6)))) }
{
    Stated {
        session: u16_at(p, 0),
        event: Event::Write(
            8589934592 + u32_at(p, 2) as u64,
            list_place(at, u16_at(p, 6)),
        ),
    }
}

// Kind 16: the number of the edition, 2 bytes.
fn read_edition(p: &[u8]) -> u16
    requires { 2 ≤ length p.now }
    ensures { result ≡ le 2 p.now 0 }
{
    u16_at(p, 0)
}

// What the payload p of a record above kind 6 at `at` says: an append, a list read, or the record that says the edition.
fn stated_above(at: usize, kind: u16, p: &[u8]) -> Stated
    requires { Above kind × LongEnough true kind (length p.now + 6) }
    ensures { StatedIs at result (stated_of true at kind p.now) }
{
    match kind {
        23 => read_append(p),
        24 => read_list(p, at),
        _ => Stated {
            session: 0,
            event: Event::Other,
        },
    }
}

// What the payload p of a record of this kind at `at` says. A note's text has no part in judging; kind 16's number is checked by row 8, and is no event.
fn stated_of(second: bool, at: usize, kind: u16, p: &[u8]) -> Stated
    requires { LongEnough second kind (length p.now + 6) }
    ensures { StatedIs at result (stated_of second at kind p.now) }
{
    match kind {
        1 => read_open(p),
        2 => read_read(p, second),
        3 => read_write(p, second),
        4 => read_close(p, second),
        5 => read_end(p),
        6 => Stated {
            session: 0,
            event: Event::Note,
        },
        _ => stated_above(at, kind, p),
    }
}

// What the record at `at` says, whose framing passed.
fn stated_at(s: &[u8], at: usize, second: bool) -> Stated
    requires { Fit second s.now at }
    ensures { StatedIs at result (stated_at second s.now at) }
{
    stated_of(second, at, u16_at(s, at + 2), payload_at(s, at))
}

// Row 5, "serial doesn't follow"; "The first serial is free".
fn breaks_off(s: &[u8], at: usize, expected: u32) -> bool
    requires { at + 8 ≤ length s.now }
    ensures { result ≡ breaks s.now at expected }
{
    if at == 0 {
        return false;
    }
    u32_at(s, at + 4) != expected
}

// Whether a kind above 5, but 16, is unknown in edition 2: not one of lists.
fn is_unknown_above(kind: u16) -> bool
    requires { (5 < kind) × (kind ≡ 16 → ⊥) }
    ensures { result ≡ is_unknown true kind }
{
    if kind == 23 {
        return false;
    }
    kind != 24
}

// Row 6, "unknown kind": the kinds are 1 to 6, but "6 for a note in edition 2", and 16, and in edition 2 those of lists.
fn is_unknown(second: bool, kind: u16) -> bool
    ensures { result ≡ is_unknown second kind }
{
    if kind == 16 {
        return false;
    }
    if kind < 1 {
        return true;
    }
    if second {
        if 5 < kind {
            return is_unknown_above(kind);
        }
        return false;
    }
    6 < kind
}

// The length of kinds 1 to 5, in each edition. Only a note has more than one.
fn length_of(second: bool, kind: usize) -> usize
    requires { (1 ≤ kind) × (kind < 6) }
    ensures { result ≡ get_or (lengths second) kind 0 }
{
    match (kind, second) {
        (2 | 3, false) => 18,
        (2 | 3, true) => 20,
        (4, false) => 7,
        (4, true) => 9,
        _ => 8,
    }
}

// Whether a number lies outside of low to high: a length, or a byte of a name.
pub fn is_outside(len: usize, low: usize, high: usize) -> bool
    ensures { result ≡ (ltb len low or ltb high len) }
{
    if len < low {
        return true;
    }
    high < len
}

// Whether the length of a list read at `at` is not "14 plus 8 a value", by its own number, which it has if it is as long as that takes.
fn is_list_misfit(s: &[u8], at: usize, len: usize) -> bool
    requires { (len ≡ len_at s.now at) × (next_at s.now at ≤ length s.now) }
    ensures { result ≡ is_misfit true 24 len (number_at s.now at) }
{
    if len < 14 {
        return true;
    }
    len != 14 + 8 * (u16_at(s, at + 14) as usize)
}

// .. of an append or a list read.
fn is_misfit_above(s: &[u8], at: usize, kind: usize, len: usize) -> bool
    requires { ListKind kind × (len ≡ len_at s.now at) × (next_at s.now at ≤ length s.now) }
    ensures { result ≡ is_misfit true kind len (number_at s.now at) }
{
    if kind == 23 {
        return len != 20;
    }
    is_list_misfit(s, at, len)
}

// Row 4, length "not this kind's".
fn is_misfit(s: &[u8], at: usize, second: bool, kind: usize, len: usize) -> bool
    requires { (is_unknown second kind ≡ false) × (len ≡ len_at s.now at) × (next_at s.now at ≤ length s.now) }
    ensures { result ≡ is_misfit second kind len (number_at s.now at) }
{
    if kind == 16 {
        return len != 8;
    }
    if second {
        if 5 < kind {
            return is_misfit_above(s, at, kind, len);
        }
        return len != length_of(true, kind);
    }
    if kind == 6 {
        return is_outside(len, 6, 70);
    }
    len != length_of(false, kind)
}

// Row 7, "a kind 16 that isn't first".
fn is_late(kind: u16, at: usize) -> bool
    ensures { result ≡ is_late kind at }
{
    if kind != 16 {
        return false;
    }
    0 < at
}

// Row 8, "for another payload" than 2.
fn is_other_edition(s: &[u8], at: usize, kind: u16) -> bool
    requires { ((kind ≡ 16) → len_at s.now at ≡ 8) × (next_at s.now at ≤ length s.now) }
    ensures { result ≡ is_other_edition kind (le 2 s.now (at + 8)) }
{
    if kind != 16 {
        return false;
    }
    read_edition(payload_at(s, at)) != 2
}

// The first row that refuses the record at `at` for its kind: "6, length for its kind (4)", then those of kind 16.
fn check_kind(s: &[u8], at: usize, second: bool) -> Result<(), Cause>
    requires { (at + 8 ≤ length s.now) × (next_at s.now at ≤ length s.now) }
    ensures { no_of result ≡ first_fit (kind_rows second s.now at) }
{
    let len = u16_at(s, at) as usize;
    let kind = u16_at(s, at + 2);
    if is_unknown(second, kind) {
        return Err(Cause::Kind);
    }
    if is_misfit(s, at, second, kind as usize, len) {
        return Err(Cause::Length);
    }
    if is_late(kind, at) {
        return Err(Cause::Misplaced);
    }
    if is_other_edition(s, at, kind) {
        return Err(Cause::Unlawful);
    }
    Ok(())
}

// The first row that refuses the framing of the record at `at`: "length field present (3), length at least 6 (4), bytes present (3), then 5, 6, length for
// its kind (4)".
fn check_frame(s: &[u8], at: usize, expected: u32, second: bool) -> Result<(), Cause>
    requires { at ≤ length s.now }
    ensures { no_of result ≡ first_fit (frame_rows second s.now at expected) }
{
    let left = s.len() - at;
    if left < 2 {
        return Err(Cause::TooFew);
    }
    let len = u16_at(s, at) as usize;
    if len < 6 {
        return Err(Cause::Length);
    }
    if left - 2 < len {
        return Err(Cause::TooFew);
    }
    if breaks_off(s, at, expected) {
        return Err(Cause::Serial);
    }
    check_kind(s, at, second)
}

// What the record at `at` says, or the row that refuses it, where `expected` is the serial that has to come, in edition 2 or not.
pub fn frame_at(s: &[u8], at: usize, expected: u32, second: bool) -> Result<Stated, Cause>
    requires { at ≤ length s.now }
    ensures { (numbered result ≡ framing second s.now at expected) × SoundFramed at result }
{
    check_frame(s, at, expected, second)?;
    Ok(stated_at(s, at, second))
}
