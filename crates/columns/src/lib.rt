// The columns of a table of vectors: a transaction's column is the number of its session's first transaction.
#![tactic(auto)]

ghost use Rattle.std.specs.Prelude.{◌≡◌, ◌+◌, ◌≤◌, ◌<◌};
ghost use Rattle.base.specs.Base.{last};
ghost use Rattle.table.specs.Table.{history_of, HasTx, Settled};
ghost use Rattle.pairs.specs.Pairs.{Blank, Priors};
ghost use Rattle.columns.specs.Columns.{column_at, SoFar, Numbered, says_column};

// The column of t, where c has those of the transactions before t: the column of the prior transaction of its session, and t itself where there is none.
fn column(h: &[u64], p: &[u8; 128], c: &[u8; 128], t: usize) -> u8
    requires { Settled h.now × Priors (history_of h.now) p.now × HasTx h.now t × SoFar (history_of h.now) t c.now }
    ensures { result ≡ column_at (history_of h.now) t }
{
    if !reads::is_committed(h, t) {
        return 0;
    }
    if p[t] == 0 {
        return t as u8;
    }
    c[p[t] as usize]
}

// The column of each transaction. The bytes p are what `pairs::fill_priors` makes.
pub fn fill_columns(h: &[u64], p: &[u8; 128], c: &mut [u8; 128])
    requires { Settled h.now × Priors (history_of h.now) p.now × Blank c.old }
    ensures { Numbered (history_of h.now) c.new }
{
    for t in 1..=table::txs(h) {
        c[t] = column(h, p, c, t);
    }
}

// Whether s is its own column, and so some transaction's.
fn is_column(c: &[u8; 128], s: usize) -> bool
    requires { s < 128 }
    ensures { result ≡ says_column c.now s }
{
    c[s] == s as u8
}

// One more than the greatest column of the numbers below n. 0 is one always.
pub fn width(c: &[u8; 128], n: usize) -> usize
    requires { n ≤ 128 }
    ensures { result ≡ last (says_column c.now) n + 1 }
{
    for s in (1..n).rev() {
        if is_column(c, s) {
            return s + 1;
        }
    }
    1
}
