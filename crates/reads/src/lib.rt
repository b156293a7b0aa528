#![tactic(auto)]

ghost use Rattle.std.specs.Prelude.{◌≡◌, ◌+◌, ◌≤◌, ◌<◌, length};
ghost use Rattle.rules.specs.History.{op, tx_count, op_count, origin_of, source_of, committed};
ghost use Rattle.rules.specs.Reads.{wrote_between, kind_by, kind_of};
ghost use Rattle.table.specs.Table.{history_of, Held, HasTx, HasOp, Settled, Below};
ghost use Rattle.reads.specs.Kinds.{number_in};
ghost use Rattle.reads.specs.Verdicts.{writes_key_at, wrote_up_to, verdict_of, Classified};

// The six kinds of unclean reads, by their numbers.
#[derive(Clone, Copy)]
enum Kind {
    ThinAir = 1,
    Aborted = 2,
    Future = 3,
    NotMyLast = 4,
    NotMyOwn = 5,
    Intermediate = 6,
}

// Whether transaction t counts as committed, as 0 does (document 02, "commits nobody answered").
pub fn is_committed(h: &[u64], t: usize) -> bool
    requires { Settled h.now }
    ensures { result ≡ committed (history_of h.now) t }
{
    t == 0 || t <= table::txs(h) && table::is_marked(h, t)
}

// Whether operation i is a write of x.
fn writes_key(h: &[u64], x: u64, i: usize) -> bool
    requires { HasOp h.now i }
    ensures { result ≡ writes_key_at (history_of h.now) x i }
{
    table::is_write(h, i) && table::key_of(h, i) == x
}

// Whether operation j's transaction writes x above operation a, by j or an earlier operation: only its own operations are looked at, from j down.
fn wrote_up_to(h: &[u64], x: u64, a: usize, j: usize) -> bool
    requires { Held h.now × (j ≤ op_count (history_of h.now)) }
    ensures { result ≡ wrote_up_to (history_of h.now) x a j }
{
    let mut i = j;
    while a < i {
        if writes_key(h, x, i) {
            return true;
        }
        i = table::prev_op(h, i);
    }
    false
}

// Whether transaction t writes x above operation a.
pub fn wrote_after(h: &[u64], t: usize, x: u64, a: usize) -> bool
    requires { HasTx h.now t }
    ensures { result ≡ wrote_between (history_of h.now) t x a (op_count (history_of h.now) + 1) }
{
    wrote_up_to(h, x, a, table::last_op(h, t))
}

// Its transaction, where that write is number w: "from the write's transaction, or from transaction 0 when v is 0".
fn source_of(h: &[u64], i: usize, w: usize) -> usize
    requires { HasOp h.now i × (w ≡ origin_of (history_of h.now) i) }
    ensures { Below result (source_of (history_of h.now) i) (tx_count (history_of h.now) + 1) }
{
    if w == 0 {
        return 0;
    }
    table::tx_of(h, w)
}

// A read: operation i of a history's table, of the key x.
#[derive(Clone, Copy)]
struct Read<'a> {
    h: &'a [u64],
    i: usize,
    x: u64,
    ghost there: { HasOp h.now i },
}

impl Read<'_> {
    // Whether its transaction writes x above operation a and before it.
    fn wrote_before(&self, a: usize) -> bool
        ensures { result ≡ wrote_between (history_of self.now.h.now) (op (history_of self.now.h.now) self.now.i).tx self.now.x a self.now.i }
    {
        wrote_up_to(self.h, self.x, a, table::prev_op(self.h, self.i))
    }

    // The kind where no write has its value, v. "Thin air: v is not 0 and no write has (x, v)." "Not my own: v is 0 .., and t wrote x before the read."
    fn unwritten_kind(&self, v: u64) -> Option<Kind>
        ensures { number_in result ≡ kind_by (history_of self.now.h.now) self.now.i (op (history_of self.now.h.now) self.now.i).tx self.now.x v 0 0 }
    {
        if v != 0 {
            return Some(Kind::ThinAir);
        }
        if self.wrote_before(0) {
            return Some(Kind::NotMyOwn);
        }
        None
    }

    // The kind where its own transaction wrote its value, by number w. "Future: that write is in t, after the read." "Not my last: that write is in t, before
    // the read, with another write of x between."
    fn own_kind(&self, w: usize) -> Option<Kind>
        requires { HasOp self.now.h.now w × ((op (history_of self.now.h.now) self.now.i).value ≡ 0 → ⊥) }
        ensures { number_in result ≡ kind_by (history_of self.now.h.now) self.now.i (op (history_of self.now.h.now) self.now.i).tx self.now.x (op (history_of self.now.h.now) self.now.i).value w (op (history_of self.now.h.now) self.now.i).tx }
    {
        if self.i < w {
            return Some(Kind::Future);
        }
        if self.wrote_before(w) {
            return Some(Kind::NotMyLast);
        }
        None
    }

    // The kind where another transaction wrote its value, u, by number w. "Aborted: that write is in another transaction, which aborted." "Not my own: .. its
    // write is in another, committed transaction, and t wrote x before the read." "Intermediate: that write is in another committed transaction, which later
    // wrote x again."
    fn other_kind(&self, w: usize, u: usize) -> Option<Kind>
        requires { Settled self.now.h.now × HasOp self.now.h.now w × ((op (history_of self.now.h.now) self.now.i).value ≡ 0 → ⊥) × HasTx self.now.h.now u × (u ≡ (op (history_of self.now.h.now) self.now.i).tx → ⊥) }
        ensures { number_in result ≡ kind_by (history_of self.now.h.now) self.now.i (op (history_of self.now.h.now) self.now.i).tx self.now.x (op (history_of self.now.h.now) self.now.i).value w u }
    {
        if !is_committed(self.h, u) {
            return Some(Kind::Aborted);
        }
        if self.wrote_before(0) {
            return Some(Kind::NotMyOwn);
        }
        if wrote_after(self.h, u, self.x, w) {
            return Some(Kind::Intermediate);
        }
        None
    }
}

// The kind of read i, whose value write number w wrote; none where it is clean.
fn kind_of(h: &[u64], i: usize, w: usize) -> Option<Kind>
    requires { Settled h.now × HasOp h.now i × (w ≡ origin_of (history_of h.now) i) }
    ensures { number_in result ≡ kind_of (history_of h.now) i }
{
    let read = Read {
        h,
        i,
        x: table::key_of(h, i),
    };
    if w == 0 {
        return read.unwritten_kind(table::value_of(h, i));
    }
    let u = table::tx_of(h, w);
    if u == table::tx_of(h, i) {
        return read.own_kind(w);
    }
    read.other_kind(w, u)
}

// What is to be known of operation i. Its value's write is searched for once.
// Kept (1): one byte an operation, of a kind or of a source, in fixed memory; findings are counted many bytes at once.
pub fn verdict_of(h: &[u64], i: usize) -> u8
    requires { Settled h.now × HasOp h.now i }
    ensures { result ≡ verdict_of (history_of h.now) i }
{
    if table::is_write(h, i) {
        return 0;
    }
    let t = table::tx_of(h, i);
    if !is_committed(h, t) {
        return 0;
    }
    let w = table::origin_of(h, i);
    if let Some(kind) = kind_of(h, i, w) {
        return kind as u8;
    }
    let s = source_of(h, i, w);
    if s == t {
        return 0;
    }
    8 + s as u8
}

// A byte for each operation.
pub fn classify(h: &[u64], k: &mut [u8])
    requires { Settled h.now × (length k.old ≡ 1025) }
    ensures { Classified k.old k.new (history_of h.now) }
{
    for i in 1..=table::ops(h) {
        k[i] = verdict_of(h, i);
    }
}
