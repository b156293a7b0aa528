// Level 3: what leads to what is read off vectors, where basic pairs form no cycle, and else off the closed table.
#![tactic(auto)]

ghost use Rattle.std.specs.Prelude.{◌≡◌, ◌<◌, length};
ghost use Rattle.rules.specs.History.{size};
ghost use Rattle.rules.specs.Levels.{basic};
ghost use Rattle.table.specs.Table.{history_of};
ghost use Rattle.bits.specs.Bits.{Holds, plus_selves};
ghost use Rattle.pairs.specs.Pairs.{Ready, before, Priors};
ghost use Rattle.keys.specs.Keys.{writers};
ghost use Rattle.vectors.specs.Vectors.{Zeros};
ghost use Rattle.causal.specs.Causal.{Parties, Known, left_in, Searched};

use order::Words;

// s has the basic pairs, and becomes what the search goes by: with the vectors, which x gets, or alone. Answers the number of their columns, 0 where the table is
// used: "with a cycle the old table is used".
pub fn know(
    h: &[u64],
    p: &[u8; 128],
    m: Words,
    n: usize,
    s: &mut [u64; 256],
    x: &mut [u8; 16384],
) -> usize
    requires { Parties h.now p.now m n × Holds s.old (before (basic (history_of h.now))) × Zeros x.old }
    ensures { Known (history_of h.now) s.new x.new result × (result ≡ 0 → x.new ≡ x.old) }
{
    let size = table::txs(h) + 1;
    let mut c = [0u8; 128];
    columns::fill_columns(h, p, &mut c);
    let width = columns::width(&c, size);
    if vectors::fill_vectors(s, size, m, n, &c, width, x) {
        bits::add_selves(s, size);
        return width;
    }
    bits::close(s, size);
    0
}

// f gets the basic pairs, which s has besides each row's own number, but where the table was closed.
fn put_basic(h: &[u64], k: &[u8], p: &[u8; 128], s: &[u64; 256], width: usize, f: &mut [u64; 256])
    requires { Ready h.now k.now × Priors (history_of h.now) p.now × (0 < width → Holds s.now (plus_selves (size (history_of h.now)) (before (basic (history_of h.now))))) × (length f.old ≡ 256) }
    ensures { Holds f.new (before (basic (history_of h.now))) }
{
    if width == 0 {
        pairs::fill_basic(h, k, p, f);
    } else {
        bits::copy(s, f);
        bits::drop_selves(f, table::txs(h) + 1);
    }
}

// s has the basic pairs and f who writes what; v gets the pairs that level 3 adds, and f the basic ones. s is left with what the search went by.
pub fn search(
    h: &[u64],
    k: &[u8],
    p: &[u8; 128],
    m: Words,
    n: usize,
    f: &mut [u64; 256],
    s: &mut [u64; 256],
    v: &mut [u64; 256],
)
    requires { Ready h.now k.now × Parties h.now p.now m n × Holds s.old (before (basic (history_of h.now))) × Holds f.old (writers (history_of h.now)) × (length v.old ≡ 256) }
    ensures { Searched (history_of h.now) 3 f.new v.new × Holds s.new (left_in (history_of h.now)) }
{
    let mut x = [0u8; 16384];
    let width = know(h, p, m, n, s, &mut x);
    rivals::fill_rivals(h, k, s, &x, width, f, v, 3);
    put_basic(h, k, p, s, width, f);
}
