// From a trace to the pairs that a level forces: what whoever judges it, or an order that is claimed for it, begins with. Nothing is closed here but, at level 3,
// basic pairs that form a cycle.
#![tactic(auto)]

ghost use Rattle.std.specs.Prelude.{◌≡◌, ◌+◌, ◌≤◌, ◌<◌, length};
ghost use Rattle.base.specs.Base.{count};
ghost use Rattle.rules.specs.History.{size, committed};
ghost use Rattle.rules.specs.Levels.{basic};
ghost use Rattle.table.specs.Table.{table_words, history_of, Settled};
ghost use Rattle.bits.specs.Bits.{Holds};
ghost use Rattle.order.specs.Sets.{Gathered};
ghost use Rattle.pairs.specs.Pairs.{before};
ghost use Rattle.keys.specs.Keys.{writers};
ghost use Rattle.causal.specs.Causal.{Parties, Searched};
ghost use Rattle.forcing.specs.Forcing.{LevelChecked, Prepared, AtLevel, left_at, Forcing};

use order::Words;
use rules::{Cause, Refusal};

// ── what all levels share ──

// Row 1: "the level is not 1, 2 or 3", place 0.
// Kept (1): a level stays a byte here and in the public calls, which take any: a type of three levels would ask more of whoever calls.
pub fn check_level(level: u8) -> Result<(), Refusal>
    ensures { LevelChecked level result }
{
    if level < 1 || 3 < level {
        return Err(Cause::NoLevel.at(0));
    }
    Ok(())
}

// What all levels share: the trace is read into h, those that count as committed get their marks there, and k gets what is to be known of each operation.
pub fn prepare(trace: &[u8], h: &mut [u64], k: &mut [u8]) -> Result<usize, Refusal>
    requires { (length h.old ≡ table_words) × (length k.old ≡ 1025) }
    ensures { Prepared result trace.now h.old k.old h.new k.new }
{
    let notes = trace::read_trace(trace, h)?;
    settling::settle(h);
    reads::classify(h, k);
    Ok(notes)
}

// ── who takes part ──

// The transactions that count as committed, 0 among them: "Only committed transactions take part".
pub fn members(h: &[u64]) -> Words
    requires { Settled h.now }
    ensures { Gathered (committed (history_of h.now)) (size (history_of h.now)) result }
{
    let mut w = order::none();
    for t in 0..=table::txs(h) {
        if reads::is_committed(h, t) {
            w = order::with(w, t);
        }
    }
    w
}

// How many transactions count as committed, 0 among them.
pub fn count_members(h: &[u64]) -> usize
    requires { Settled h.now }
    ensures { result ≡ count 0 (size (history_of h.now)) (committed (history_of h.now)) }
{
    (0..table::txs(h) + 1)
        .filter(|t| reads::is_committed(h, *t))
        .count()
}

// ── what a level forces ──
// Row b of a table has the bits of what stands before b.

// Levels 1 and 2: s has the basic pairs, which are all that the search goes by ("an earlier clean external read in t3, of any key, came from t2", or "(t2, t3)
// is a basic pair"), and f who writes what; v gets the pairs that the level adds, and f the basic ones.
fn search_direct(
    h: &[u64],
    k: &[u8],
    level: u8,
    f: &mut [u64; 256],
    s: &[u64; 256],
    v: &mut [u64; 256],
)
    requires { AtLevel h.now k.now level × (level ≡ 3 → ⊥) × Holds s.now (before (basic (history_of h.now))) × Holds f.old (writers (history_of h.now)) × (length v.old ≡ 256) }
    ensures { Searched (history_of h.now) level f.new v.new }
{
    // no vectors
    rivals::fill_rivals(h, k, s, &k[..0], 0, f, v, level);
    bits::copy(s, f);
}

// .. level 3: "t2 leads to t3 through one or more basic pairs".
fn search(
    h: &[u64],
    k: &[u8],
    p: &[u8; 128],
    m: Words,
    n: usize,
    level: u8,
    f: &mut [u64; 256],
    s: &mut [u64; 256],
    v: &mut [u64; 256],
)
    requires { AtLevel h.now k.now level × Parties h.now p.now m n × Holds s.old (before (basic (history_of h.now))) × Holds f.old (writers (history_of h.now)) × (length v.old ≡ 256) }
    ensures { Searched (history_of h.now) level f.new v.new × Holds s.new (left_at (history_of h.now) level) }
{
    if level == 3 {
        causal::search(h, k, p, m, n, f, s, v);
    } else {
        search_direct(h, k, level, f, s, v);
    }
}

// f: forced pairs; v: "The level adds the pair t2 before t1"; s: what the search for these went by. While it goes on, f lends its room to the table of who
// writes what, and before it v to the keys that are read. p has the prior transaction of each, m those that count, n of them.
pub fn force(
    h: &[u64],
    k: &[u8],
    p: &[u8; 128],
    m: Words,
    n: usize,
    level: u8,
    f: &mut [u64; 256],
    s: &mut [u64; 256],
    v: &mut [u64; 256],
)
    requires { AtLevel h.now k.now level × Parties h.now p.now m n × (length f.old ≡ 256) × (length s.old ≡ 256) × (length v.old ≡ 256) }
    ensures { Forcing h.now k.now f.new v.new level × Holds s.new (left_at (history_of h.now) level) }
{
    pairs::fill_basic(h, k, p, s);
    keys::fill_writers(h, k, v, f);
    search(h, k, p, m, n, level, f, s, v);
    bits::join(v, f);
}
