// Who counts as committed, worked out once, behind the reading: "Such a transaction counts as committed exactly if a transaction counted as committed, other
// than itself, reads one of its values; the smallest such set is meant. All others count as aborted." Those that count get the table's mark. They also
// stand in a queue, in the order in which they come to count, so that the reads of each are looked at once.
#![tactic(auto)]

ghost use Rattle.std.specs.Prelude.{◌≡◌, true, ◌+◌, ◌<◌, ◌≤◌, length, get_or, set, MatchOption};
ghost use Rattle.rules.specs.History.{op};
ghost use Rattle.table.specs.Table.{history_of, marked, Held, HasTx, HasOp};
ghost use Rattle.settling.specs.Settling.{Admitted, Remarked, Begun, Begins, Marks, Further, Gains, TakenUp, LookedAt, Ends, Settles};

// What a close says. "Status 2 now means unanswered."
// Kept (1): a status is the number that the table's word has of it, and a step and a record.
const COMMITTED: u64 = 1;

const UNANSWERED: u64 = 2;

// Those that count, in the order in which they came to count. The first `seen` of the list's `len` were looked at.
#[derive(Drop)]
struct Queue {
    list: [u8; 128],
    len: usize,
    seen: usize,
}

impl Queue {
    fn new() -> Queue
        ensures { (length result.list ≡ 128) × (result.len ≡ 0) × (result.seen ≡ 0) }
    {
        Queue {
            list: [0; 128],
            len: 0,
            seen: 0,
        }
    }

    fn push(&mut self, t: usize)
        requires { (self.old.len < 128) × (t < 256) }
        ensures { (self.new.list ≡ set self.old.list self.old.len t) × (self.new.len ≡ self.old.len + 1) × (self.new.seen ≡ self.old.seen) }
    {
        self.list[self.len] = t as u8;
        self.len += 1;
    }

    // The next to look at.
    fn next(&mut self) -> Option<usize>
        requires { self.old.len ≤ 128 }
        ensures stays { (self.new.list ≡ self.old.list) × (self.new.len ≡ self.old.len) }
        ensures next { MatchOption result ((self.old.len ≤ self.old.seen) × (self.new.seen ≡ self.old.seen)) (λ t. (self.old.seen < self.old.len) × (t ≡ get_or self.old.list self.old.seen 0) × (self.new.seen ≡ self.old.seen + 1)) }
    {
        if self.len <= self.seen {
            return None;
        }
        let t = usize::from(self.list[self.seen]);
        self.seen += 1;
        Some(t)
    }
}

// Kept (5): h and q travel together; a struct of both would borrow h mutably, and each clause would name it through the struct, before and after: no plainer.

// Transaction t counts from now on: it gets its mark, and a place at the queue's end.
fn admit(h: &mut [u64], q: &mut Queue, t: usize)
    requires { HasTx h.old t × (q.old.len < 128) }
    ensures { Admitted h.old q.old.list q.old.len t h.new q.new.list q.new.len × (q.new.seen ≡ q.old.seen) }
{
    table::mark(h, t, 1);
    q.push(t);
}

// ── those that said so ──

// Transaction t counts where its close says that it committed. Elsewhere it loses the mark that it may have: reading promises nothing about marks.
fn admit_if_said(h: &mut [u64], q: &mut Queue, t: usize)
    requires { HasTx h.old t × Begun h.old q.old.list q.old.len t }
    ensures { Begins h.old h.new q.new.list q.new.len (t + 1) × (q.new.seen ≡ q.old.seen) }
{
    if table::status_of(h, t) == COMMITTED {
        admit(h, q, t);
    } else {
        table::mark(h, t, 0);
    }
}

// .. each transaction of the table. None of them was looked at.
fn admit_said(h: &mut [u64]) -> Queue
    requires { Held h.old }
    ensures { Marks h.new result.list result.len × Remarked h.old h.new × (result.seen ≡ 0) }
{
    let mut q = Queue::new();
    for t in 1..=table::txs(h) {
        admit_if_said(h, &mut q, t);
    }
    q
}

// ── those whose values they read ──

// The transaction that comes to count by operation i of one that counts: the unanswered one whose value i reads, unless it counts already. A transaction
// that counts gains nothing by reading its own values, so "other than itself" needs no test.
fn gained_by(h: &[u64], i: usize) -> Option<usize>
    requires { HasOp h.now i }
    ensures { MatchOption result (TakenUp h.now i) (Gains h.now i) }
{
    if table::is_write(h, i) {
        return None;
    }
    let w = table::origin_of(h, i);
    if w == 0 {
        return None;
    }
    let u = table::tx_of(h, w);
    if table::status_of(h, u) != UNANSWERED || table::is_marked(h, u) {
        return None;
    }
    Some(u)
}

// The one that comes to count by operation i, where there is one, is let in.
fn admit_writer(h: &mut [u64], q: &mut Queue, i: usize)
    requires { HasOp h.old i × Marks h.old q.old.list q.old.len × (marked h.old (op (history_of h.old) i).tx ≡ true) }
    ensures { Further h.old q.old.list q.old.len h.new q.new.list q.new.len × TakenUp h.new i × (q.new.seen ≡ q.old.seen) }
{
    if let Some(u) = gained_by(h, i) {
        admit(h, q, u);
    }
}

// .. by any operation of t, which counts: only its own are looked at, from its last down.
fn admit_writers(h: &mut [u64], q: &mut Queue, t: usize)
    requires { HasTx h.old t × Marks h.old q.old.list q.old.len × (marked h.old t ≡ true) }
    ensures { Further h.old q.old.list q.old.len h.new q.new.list q.new.len × LookedAt h.new t × (q.new.seen ≡ q.old.seen) }
{
    let mut i = table::last_op(h, t);
    while 0 < i {
        admit_writer(h, q, i);
        i = table::prev_op(h, i);
    }
}

// .. by any that counts: the queue grows while it is gone through, so that those who come to count are looked at in turn.
fn admit_on(h: &mut [u64], q: &mut Queue)
    requires { Marks h.old q.old.list q.old.len × (q.old.seen ≡ 0) }
    ensures { Ends h.old h.new }
{
    while let Some(t) = q.next() {
        admit_writers(h, q, t);
    }
}

// Works out who counts as committed: each gets its mark, all others lose theirs.
pub fn settle(h: &mut [u64])
    requires { Held h.old }
    ensures { Settles h.old h.new }
{
    let mut q = admit_said(h);
    admit_on(h, &mut q);
}
