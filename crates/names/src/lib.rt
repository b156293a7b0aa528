// Names in place of numbers: a names file checked and indexed, and a key's name handed back as a part of the file that has it.
#![tactic(auto)]

ghost use Rattle.std.specs.Prelude.{◌≤◌, ◌<◌, ◌≡◌, ◌+◌, length, get_or, Ok};
ghost use Rattle.std.specs.List.{list_any};
ghost use Rattle.rules.specs.Records.{next_at};
ghost use Rattle.rules.specs.Refusals.{no_of, told};
ghost use Rattle.names_rules.specs.Names.{key_at, name_no, checked, record_with, IndexOf, Indexes, files_told, in_file, refusal, place_in, place_of, bytes_at, memory_at, PlaceWithin};
ghost use Rattle.names.specs.Halving.{LessBefore};
ghost use Rattle.names.specs.Odd.{odd_byte};

use names_rules::{FileRefusal, NamePlace, NamesFile};
use rules::{Cause, Refusal};

// ── one file ──

// Whether a byte is another than one "from 32 to 126".
fn has_odd(name: &[u8]) -> bool
    ensures { result ≡ list_any odd_byte name.now }
{
    name.iter()
        .any(|byte| frame::is_outside(usize::from(*byte), 32, 126))
}

// The first row that refuses the record at `at`, where one does; `low` is the least key that may come. It is wider than a key, since the last key may be the
// greatest.
fn no_at(s: &[u8], at: usize, low: u64) -> Result<(), Cause>
    requires { at ≤ length s.now }
    ensures { no_of result ≡ name_no s.now at low }
{
    let left = s.len() - at;
    if left < 2 {
        return Err(Cause::TooFew);
    }
    let len = frame::u16_at(s, at) as usize;
    if frame::is_outside(len, 7, 46) {
        return Err(Cause::Length);
    }
    if left - 2 < len {
        return Err(Cause::TooFew);
    }
    if frame::u16_at(s, at + 2) != 32 {
        return Err(Cause::Kind);
    }
    if has_odd(&s[at + 8..at + 2 + len]) {
        return Err(Cause::Unlawful);
    }
    if (frame::u32_at(s, at + 4) as u64) < low {
        return Err(Cause::Descending);
    }
    Ok(())
}

// Where the next record starts.
fn next_at(s: &[u8], at: usize) -> usize
    requires { at + 2 ≤ length s.now }
    ensures { result ≡ next_at s.now at }
{
    at + 2 + usize::from(frame::u16_at(s, at))
}

// A names file checked whole, in one pass.
pub fn check(s: &[u8]) -> Result<(), Refusal>
    ensures { told result ≡ checked s.now }
{
    if 32768 < s.len() {
        return Err(Cause::TooLong.at(32768));
    }
    let mut at = 0;
    let mut low = 0;
    while at < s.len() {
        rules::placed(no_at(s, at, low), at)?;
        low = u64::from(frame::u32_at(s, at + 4)) + 1;
        at = next_at(s, at);
    }
    Ok(())
}

// ── the index of one file ──

// The offsets of a lawful file's records, in order; how many there are is answered. A file has at most 32,768 bytes, so that each offset fits.
fn fill_index(s: &[u8], at: &mut [u16]) -> usize
    requires { (checked s.now ≡ Ok tt) × (3640 ≤ length at.old) }
    ensures { Indexes s.now at.old at.new result }
{
    let mut n = 0;
    let mut from = 0;
    // Kept (3): it goes from record to record, and the file says where it ends, not the index.
    while from < s.len() {
        at[n] = from as u16;
        n += 1;
        from = next_at(s, from);
    }
    n
}

// .. in an array that always has room: the least record has 9 bytes, so that there are never more than 3,640.
pub fn index(s: &[u8], at: &mut [u16; 3640]) -> usize
    requires { checked s.now ≡ Ok tt }
    ensures { Indexes s.now at.old at.new result }
{
    fill_index(s, at)
}

// A lawful file and its index.
#[derive(Clone, Copy)]
struct Indexed<'a> {
    s: &'a [u8],
    at: &'a [u16],
    ghost lawful: { IndexOf s.now at.now },
}

impl Indexed<'_> {
    // The key of record i.
    fn key_of(&self, i: usize) -> u64
        requires { i < length self.now.at.now }
        ensures { result ≡ key_at self.now.s.now (get_or self.now.at.now i 0) }
    {
        u64::from(frame::u32_at(self.s, usize::from(self.at[i]) + 4))
    }

    // How many records have lesser keys: they are the first ones, since keys ascend, so that each test halves what is left.
    fn less_before(&self, key: u64) -> usize
        ensures { LessBefore self.now.s.now self.now.at.now key result }
    {
        let mut low = 0;
        let mut high = self.at.len();
        // Kept (3): tried by partition_point, and what it requires stayed open: its closure has to take any offset, and only a record's has a key.
        while low < high {
            let mid = low + (high - low) / 2;
            if self.key_of(mid) < key {
                low = mid + 1;
            } else {
                high = mid;
            }
        }
        low
    }

    // The offset of the record that has the key, else the file's length. A number that no key can be is found nowhere.
    fn record_of(&self, key: u64) -> usize
        ensures { result ≡ record_with self.now.s.now key }
    {
        let i = self.less_before(key);
        if i < self.at.len() && self.key_of(i) == key {
            return usize::from(self.at[i]);
        }
        self.s.len()
    }
}

// ── two files ──

// What comes of checking one of them, as what comes of checking both.
fn in_file(answer: Result<(), Refusal>, file: NamesFile) -> Result<(), FileRefusal>
    ensures { result ≡ in_file file answer }
{
    answer.map_err(|refusal| FileRefusal { file, refusal })
}

// "own file first": the refusal of the two, or none. Both are checked whole before anything is answered of either.
pub fn check_both(own: &[u8], shared: &[u8]) -> Result<(), FileRefusal>
    ensures { files_told result ≡ refusal own.now shared.now }
{
    in_file(check(own), NamesFile::Own)?;
    in_file(check(shared), NamesFile::Shared)
}

// Where the key's name is, in two lawful files, each with its index.
fn place_in(own: &Indexed, shared: &Indexed, key: u64) -> Option<NamePlace>
    ensures { result ≡ place_in own.now.s.now shared.now.s.now key }
{
    let a = own.record_of(key);
    if a < own.s.len() {
        return Some(NamePlace {
            file: NamesFile::Own,
            from: a + 8,
            to: next_at(own.s, a),
        });
    }
    let b = shared.record_of(key);
    if b < shared.s.len() {
        return Some(NamePlace {
            file: NamesFile::Shared,
            from: b + 8,
            to: next_at(shared.s, b),
        });
    }
    None
}

// .. where neither has one yet.
fn place_indexed(own: &[u8], shared: &[u8], key: u64) -> Option<NamePlace>
    requires { refusal own.now shared.now ≡ Ok tt }
    ensures { result ≡ place_in own.now shared.now key }
{
    let mut ours = [0u16; 3640];
    let n = index(own, &mut ours);
    let mut theirs = [0u16; 3640];
    let m = index(shared, &mut theirs);
    place_in(
        &Indexed {
            s: own,
            at: &ours[..n],
        },
        &Indexed {
            s: shared,
            at: &theirs[..m],
        },
        key,
    )
}

// .. in any two files: nowhere "on refusal".
fn place_of(own: &[u8], shared: &[u8], key: u32) -> Option<NamePlace>
    ensures { result ≡ place_of own.now shared.now key }
{
    match check_both(own, shared) {
        Err(_) => None,
        Ok(()) => place_indexed(own, shared, key as u64),
    }
}

// The part at a place, of the own file or of the shared one: its bytes, and where they are. An empty one is the own file's front.
fn part_at<'a>(own: &'a [u8], shared: &'a [u8], place: Option<NamePlace>) -> &'a [u8]
    requires { PlaceWithin own.now shared.now place }
    ensures { (result.now ≡ bytes_at own.now shared.now place) × (result.ref_ptr ≡ memory_at own.entry.ref_ptr shared.entry.ref_ptr place) }
{
    match place {
        None => &own[..0],
        Some(NamePlace { file, from, to }) => match file {
            NamesFile::Own => &own[from..to],
            NamesFile::Shared => &shared[from..to],
        },
    }
}

// The key's name in two files that were found lawful and indexed: nothing is checked again.
pub fn name_in<'a>(
    own: &'a [u8],
    shared: &'a [u8],
    ours: &[u16],
    theirs: &[u16],
    key: u64,
) -> &'a [u8]
    requires { IndexOf own.now ours.now × IndexOf shared.now theirs.now }
    ensures { (result.now ≡ bytes_at own.now shared.now (place_in own.now shared.now key)) × (result.ref_ptr ≡ memory_at own.entry.ref_ptr shared.entry.ref_ptr (place_in own.now shared.now key)) }
{
    part_at(
        own,
        shared,
        place_in(
            &Indexed { s: own, at: ours },
            &Indexed {
                s: shared,
                at: theirs,
            },
            key,
        ),
    )
}

// "the stretch of the own file with that name, failing that the shared file's, failing that an empty one, as on refusal".
pub fn name<'a>(own: &'a [u8], shared: &'a [u8], key: u32) -> &'a [u8]
    ensures { (result.now ≡ bytes_at own.now shared.now (place_of own.now shared.now key)) × (result.ref_ptr ≡ memory_at own.entry.ref_ptr shared.entry.ref_ptr (place_of own.now shared.now key)) }
{
    part_at(own, shared, place_of(own, shared, key))
}
