// What the program `claim` prints, and what the words mean that it is called with. The text is handed back as the front of a lent buffer, just the bytes that
// are to be printed: the program writes these, and nothing else.
#![tactic(auto)]

ghost use Rattle.std.specs.Prelude.{true, ◌≡◌, MatchOption, length, Ok};
ghost use Rattle.base.specs.Base.{some};
ghost use Rattle.text.specs.Digits.{denoted};
ghost use Rattle.claims_rules.specs.Lines.{claim_text};
ghost use Rattle.claims_rules.specs.Words.{level_named, is_other, is_short, number_named};
ghost use Rattle.claims_text.specs.Replies.{Replied};

use claims_rules::ClaimRuling;
use rules::Refusal;

// Room for the line: two numbers have at most 40 digits.
pub const LINE: usize = 64;

// ── the answer ──

// What is to be said of an order that is claimed for a trace at a level.
#[tactic(auto, using(show::proofs::Laws::at_front), unfolding(claims_rules::specs::Lines::claim_text))]
pub fn claim_text<'a>(trace: &[u8], level: u8, order: &[u8], line: &'a mut [u8; LINE]) -> &'a [u8]
    ensures { (result.now ≡ claim_text trace.now level order.now) × (result.ref_ptr ≡ line.entry.ref_ptr) }
{
    let end = put_reply(claims::claim(trace, level, order), line);
    show::front(line, end)
}

fn put_reply(answer: Result<ClaimRuling, Refusal>, line: &mut [u8; LINE]) -> usize
    ensures { Replied answer line.old line.new result }
{
    match answer {
        Ok(ruling) => put_ruling(ruling, line),
        Err(refusal) => show::put_refusal(line, 0, refusal),
    }
}

fn put_ruling(ruling: ClaimRuling, line: &mut [u8; LINE]) -> usize
    ensures { Replied (Ok ruling) line.old line.new result }
{
    match ruling {
        ClaimRuling::Yes => show::put_line(line, 0, b"yes", &[]),
        ClaimRuling::NoRead(op) => show::put_line(line, 0, b"no read", &[op]),
        ClaimRuling::NoMembers => show::put_line(line, 0, b"no members", &[]),
        ClaimRuling::NoPair(a, b) => show::put_line(line, 0, b"no pair", &[a, b]),
    }
}

// ── the words ──

// The level of a word; 0 where it names none.
// Kept (1): the definition, which is public, gives 0 for none.
pub fn level_named(word: &[u8]) -> u8
    ensures { result ≡ level_named word.now }
{
    if word == b"rc".as_slice() {
        1
    } else if word == b"ra".as_slice() {
        2
    } else if word == b"tcc".as_slice() {
        3
    } else {
        0
    }
}

// Some byte is no digit.
fn has_other(word: &[u8]) -> bool
    ensures { result ≡ some 0 (length word.now) (is_other word.now) }
{
    word.iter().any(|b| !b.is_ascii_digit())
}

// One to three digits, and no zero before them.
fn is_short(word: &[u8]) -> bool
    ensures { result ≡ is_short word.now }
{
    if word.is_empty() || 3 < word.len() || has_other(word) {
        return false;
    }
    word[0] != b'0' || word.len() == 1
}

// The number that digits denote.
fn denote(word: &[u8]) -> usize
    requires { is_short word.now ≡ true }
    ensures { result ≡ denoted word.now }
{
    let mut n = 0;
    for b in word {
        n = 10 * n + usize::from(*b - b'0');
    }
    n
}

// The number from 0 to 255 that a word names, as `judge` prints numbers.
fn small_number(word: &[u8]) -> Option<u8>
    ensures { MatchOption result (number_named word.now ≡ 256) (λ n. number_named word.now ≡ n) }
{
    if !is_short(word) {
        return None;
    }
    u8::try_from(denote(word)).ok()
}

// .. 256 where it names none from 0 to 255.
// Kept (1): the definition, which is public, gives 256 for none.
pub fn number_named(word: &[u8]) -> usize
    ensures { result ≡ number_named word.now }
{
    small_number(word).map_or(256, usize::from)
}
