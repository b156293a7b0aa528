// The lines of a list's entries, from the bytes that it has in a buffer: of findings and of pairs, each sort of pairs with its own word. Each function puts its
// text at `at`, as far as the buffer `out` reaches, and answers where the text ends.
// Kept (5): `list` and `i`, and `out` and `at`, travel together: the definitions say of a list which line its entry i has, and `show` takes the other two so.
#![tactic(auto)]

ghost use Rattle.std.specs.Prelude.{◌≡◌, ◌+◌, ◌*◌, ◌≤◌, length};
ghost use Rattle.rules.specs.Numbers.{le};
ghost use Rattle.show.specs.Laid.{Put, Short};
ghost use Rattle.entries.specs.Entries.{width, pair_entry, entry_line, list_text};
ghost use Rattle.entries.specs.declared.Lines.TheVariants.{ReadLines};

// What a list's entries are printed as: findings; the judge's pairs; pairs over write dependencies, and over both sorts.
#[derive(Clone, Copy)]
pub enum Lines {
    ReadLines,
    PairLines,
    WriteLines,
    BothLines,
}

// The lines of the first n entries of a list.
#[tactic(auto, unfolding(crate::specs::Entries::list_text))]
pub fn put_entries(lines: Lines, list: &[u8], n: usize, out: &mut [u8], at: usize) -> usize
    requires { (width lines * n ≤ length list.now) × Short at (list_text lines list.now n) }
    ensures { Put out.old at out.new result (list_text lines list.now n) }
{
    let mut to = at;
    for i in 0..n {
        to = put_entry(lines, list, i, out, to);
    }
    to
}

// The line of a list's entry i.
#[tactic(auto, unfolding(crate::specs::Entries::width, crate::specs::Entries::entry_line))]
fn put_entry(lines: Lines, list: &[u8], i: usize, out: &mut [u8], at: usize) -> usize
    requires { (width lines * i + width lines ≤ length list.now) × Short at (entry_line lines list.now i) }
    ensures { Put out.old at out.new result (entry_line lines list.now i) }
{
    match lines {
        Lines::ReadLines => put_finding(list, i, out, at),
        Lines::PairLines => put_listed(b"pair", list, i, out, at),
        Lines::WriteLines => put_listed(b"write", list, i, out, at),
        Lines::BothLines => put_listed(b"both", list, i, out, at),
    }
}

// `read T OP KIND WRITE`
#[tactic(auto, unfolding(crate::specs::Entries::entry_line))]
fn put_finding(findings: &[u8], i: usize, out: &mut [u8], at: usize) -> usize
    requires { (6 * i + 6 ≤ length findings.now) × Short at (entry_line ReadLines findings.now i) }
    ensures { Put out.old at out.new result (entry_line ReadLines findings.now i) }
{
    let t = usize::from(findings[6 * i]);
    let kind = usize::from(findings[6 * i + 1]);
    let op = number2_at(findings, 6 * i + 2);
    let write = number2_at(findings, 6 * i + 4);
    show::put_read(out, at, t, op, kind, write)
}

// A word, then `A B REASONS`
#[tactic(auto, unfolding(crate::specs::Entries::pair_entry))]
fn put_listed(word: &[u8], pairs: &[u8], i: usize, out: &mut [u8], at: usize) -> usize
    requires { (4 * i + 4 ≤ length pairs.now) × Short at (pair_entry word.now pairs.now i) }
    ensures { Put out.old at out.new result (pair_entry word.now pairs.now i) }
{
    let a = usize::from(pairs[4 * i]);
    let b = usize::from(pairs[4 * i + 1]);
    let reasons = usize::from(pairs[4 * i + 2]);
    show::put_line(out, at, word, &[a, b, reasons])
}

// Two bytes of a list as a number, little-endian.
#[tactic(auto, unfolding(rules::specs::Numbers::le))]
fn number2_at(list: &[u8], i: usize) -> usize
    requires { i + 2 ≤ length list.now }
    ensures { result ≡ le 2 list.now i }
{
    usize::from(u16::from_le_bytes([list[i], list[i + 1]]))
}
