// The lines that the programs print, put into a lent buffer. Each function puts its text at `at`, as far as the buffer reaches, and answers where the text
// ends. Every other byte stays as it was.
// Kept (5): `out` and `at` travel together, but the public functions, which docs/ names, take both and answer the place: each would make a struct and undo it.
#![tactic(auto)]

ghost use Rattle.std.specs.Prelude.{◌≡◌, [], ◌∷◌, ◌++◌, ◌+◌, ◌<◌, ◌≤◌, length, take};
ghost use Rattle.text.specs.Lines.{decimal, field, fields, line, level_word, refused_line, rejected_line, accepted_line, read_line, notes_line};
ghost use Rattle.show.specs.Laid.{Put, Short};
ghost use Rattle.rules.specs.Refusals.{cause_no};

use rules::Refusal;

fn put_byte(out: &mut [u8], at: usize, b: u8) -> usize
    requires { Short at (b ∷ []) }
    ensures { Put out.old at out.new result (b ∷ []) }
{
    if at < out.len() {
        out[at] = b;
    }
    at + 1
}

fn put_word(out: &mut [u8], at: usize, word: &[u8]) -> usize
    requires { Short at word.now }
    ensures { Put out.old at out.new result word.now }
{
    let mut to = at;
    for b in word {
        to = put_byte(out, to, *b);
    }
    to
}

fn put_digit(out: &mut [u8], at: usize, d: usize) -> usize
    requires { (d < 10) × Short at ((48 + d) ∷ []) }
    ensures { Put out.old at out.new result ((48 + d) ∷ []) }
{
    put_byte(out, at, b'0' + d as u8)
}

// The digits of n: those of a tenth of it, and the last.
// Kept (4): `write!` is no plainer. It stops with an error where the buffer is full, and says nothing of where the whole text would end.
fn put_number(out: &mut [u8], at: usize, n: usize) -> usize
    requires { Short at (decimal n) }
    ensures { Put out.old at out.new result (decimal n) }
{
    if n < 10 {
        return put_digit(out, at, n);
    }
    let to = put_number(out, at, n / 10);
    put_digit(out, to, n % 10)
}

#[tactic(auto, using(crate::proofs::Laws::parts), unfolding(text::specs::Lines::field))]
fn put_field(out: &mut [u8], at: usize, n: usize) -> usize
    requires { Short at (field n) }
    ensures { Put out.old at out.new result (field n) }
{
    let to = put_byte(out, at, b' ');
    put_number(out, to, n)
}

// What follows a line's word: a field for each number, and the line's end.
fn put_numbers(out: &mut [u8], at: usize, numbers: &[usize]) -> usize
    requires { Short at (fields numbers.now) }
    ensures { Put out.old at out.new result (fields numbers.now) }
{
    let mut to = at;
    for n in numbers {
        to = put_field(out, to, *n);
    }
    put_byte(out, to, b'\n')
}

// A number for each byte of a list, and the line's end.
// Kept (2): one function for bytes and numbers is no plainer: the contract of `Into` is a relation, so each caller would have to name the list of numbers too.
fn put_list(out: &mut [u8], at: usize, list: &[u8]) -> usize
    requires { Short at (fields list.now) }
    ensures { Put out.old at out.new result (fields list.now) }
{
    let mut to = at;
    for b in list {
        to = put_field(out, to, usize::from(*b));
    }
    put_byte(out, to, b'\n')
}

// The word of a level.
fn level_word(level: u8) -> &'static [u8]
    ensures { result.now ≡ level_word level }
{
    match level {
        1 => b"rc",
        2 => b"ra",
        _ => b"tcc",
    }
}

// A level's word and another.
#[tactic(auto, using(crate::proofs::Laws::parts))]
fn put_verdict(out: &mut [u8], at: usize, level: u8, word: &[u8]) -> usize
    requires { Short at (level_word level ++ word.now) }
    ensures { Put out.old at out.new result (level_word level ++ word.now) }
{
    let to = put_word(out, at, level_word(level));
    put_word(out, to, word)
}

// A line: a word and its numbers.
#[tactic(auto, using(crate::proofs::Laws::parts), unfolding(text::specs::Lines::line))]
pub fn put_line(out: &mut [u8], at: usize, word: &[u8], numbers: &[usize]) -> usize
    requires { Short at (line word.now numbers.now) }
    ensures { Put out.old at out.new result (line word.now numbers.now) }
{
    let to = put_word(out, at, word);
    put_numbers(out, to, numbers)
}

// `refused NO PLACE`
#[tactic(auto, unfolding(text::specs::Lines::refused_line))]
pub fn put_refused(out: &mut [u8], at: usize, no: usize, place: usize) -> usize
    requires { Short at (refused_line no place) }
    ensures { Put out.old at out.new result (refused_line no place) }
{
    put_line(out, at, b"refused", &[no, place])
}

// .. of a refusal.
pub fn put_refusal(out: &mut [u8], at: usize, refusal: Refusal) -> usize
    requires { Short at (refused_line (cause_no refusal.cause) refusal.place) }
    ensures { Put out.old at out.new result (refused_line (cause_no refusal.cause) refusal.place) }
{
    let no = u8::from(refusal.cause);
    put_refused(out, at, usize::from(no), refusal.place)
}

// A level's first line.
#[tactic(auto, using(crate::proofs::Laws::parts), unfolding(text::specs::Lines::rejected_line, text::specs::Lines::line))]
pub fn put_rejected(out: &mut [u8], at: usize, level: u8, findings: usize, pairs: usize) -> usize
    requires { Short at (rejected_line level findings pairs) }
    ensures { Put out.old at out.new result (rejected_line level findings pairs) }
{
    let to = put_verdict(out, at, level, b" rejected");
    put_numbers(out, to, &[findings, pairs])
}

#[tactic(auto, using(crate::proofs::Laws::parts), unfolding(text::specs::Lines::accepted_line, text::specs::Lines::line))]
pub fn put_accepted(out: &mut [u8], at: usize, level: u8, order: &[u8]) -> usize
    requires { Short at (accepted_line level order.now) }
    ensures { Put out.old at out.new result (accepted_line level order.now) }
{
    let to = put_verdict(out, at, level, b" accepted");
    put_list(out, to, order)
}

// `read T OP KIND WRITE`
#[tactic(auto, unfolding(text::specs::Lines::read_line))]
pub fn put_read(out: &mut [u8], at: usize, tx: usize, op: usize, kind: usize, write: usize) -> usize
    requires { Short at (read_line tx op kind write) }
    ensures { Put out.old at out.new result (read_line tx op kind write) }
{
    put_line(out, at, b"read", &[tx, op, kind, write])
}

// `notes N`
#[tactic(auto, unfolding(text::specs::Lines::notes_line))]
pub fn put_notes(out: &mut [u8], at: usize, notes: usize) -> usize
    requires { Short at (notes_line notes) }
    ensures { Put out.old at out.new result (notes_line notes) }
{
    put_line(out, at, b"notes", &[notes])
}

// The first `end` bytes of a lent buffer.
pub fn front<'a, const N: usize>(buffer: &'a mut [u8; N], end: usize) -> &'a [u8]
    requires { end ≤ length buffer.old }
    ensures { (result.now ≡ take end buffer.old) × (result.ref_ptr ≡ buffer.entry.ref_ptr) }
{
    &buffer[..end]
}
