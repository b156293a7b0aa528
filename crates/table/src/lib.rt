#![tactic(auto)]

ghost use Rattle.std.specs.Prelude.{◌≡◌, ◌+◌, ◌<◌, length, true, false};
ghost use Rattle.rules.specs.History.{tx, op, tx_count, op_count, empty, opened, closed, with_op, writes_value, write_of, origin_of};
ghost use Rattle.table.specs.Table.{table_words, history_of, marked, last_of, prev_of, bucket_of, head_of, link_of, Held, HasTx, HasOp, HasWrite, HasList, prev_list, Below, Becomes, cleared, put_tx, close_tx, mark_tx, put_words, put_op};

// How many words a history's table has.
pub const WORDS: usize = 2306;

// The number of transactions; of operations.
pub fn txs(h: &[u64]) -> usize
    requires { Held h.now }
    ensures { result ≡ tx_count (history_of h.now) }
{
    (h[0] % 128) as usize
}

pub fn ops(h: &[u64]) -> usize
    requires { Held h.now }
    ensures { result ≡ op_count (history_of h.now) }
{
    (h[0] / 128) as usize
}

// Transaction t.
pub fn session_of(h: &[u64], t: usize) -> u64
    requires { HasTx h.now t }
    ensures { result ≡ (tx (history_of h.now) t).session }
{
    h[t] / 4 % 65536
}

pub fn status_of(h: &[u64], t: usize) -> u64
    requires { HasTx h.now t }
    ensures { result ≡ (tx (history_of h.now) t).status }
{
    h[t] % 4
}

// Kept (1): here and below 0 is the number of none, as the definitions have it, and the lists' bytes, so that what is found goes on as it is.
// The number of t's last operation, 0 where it has none.
pub fn last_op(h: &[u64], t: usize) -> usize
    requires { HasTx h.now t }
    ensures { Below result (last_of (history_of h.now) t) (op_count (history_of h.now) + 1) }
{
    (h[t] / 262144 % 2048) as usize
}

// Whether t is marked as one that counts as committed.
pub fn is_marked(h: &[u64], t: usize) -> bool
    requires { HasTx h.now t }
    ensures { result ≡ marked h.now t }
{
    h[t] / 536870912 % 2 == 1
}

// Operation i.
pub fn tx_of(h: &[u64], i: usize) -> usize
    requires { HasOp h.now i }
    ensures { Below result (op (history_of h.now) i).tx (tx_count (history_of h.now) + 1) }
{
    (h[128 + 2 * i] % 128) as usize
}

pub fn is_write(h: &[u64], i: usize) -> bool
    requires { HasOp h.now i }
    ensures { result ≡ (op (history_of h.now) i).is_write }
{
    h[128 + 2 * i] / 128 % 2 == 1
}

pub fn key_of(h: &[u64], i: usize) -> u64
    requires { HasOp h.now i }
    ensures { result ≡ (op (history_of h.now) i).key }
{
    h[128 + 2 * i] / 256 % 17179869184
}

pub fn value_of(h: &[u64], i: usize) -> u64
    requires { HasOp h.now i }
    ensures { result ≡ (op (history_of h.now) i).value }
{
    h[129 + 2 * i]
}

// The number of the operation before i in the same transaction, 0 where there is none.
pub fn prev_op(h: &[u64], i: usize) -> usize
    requires { HasOp h.now i }
    ensures { Below result (prev_of (history_of h.now) i) i }
{
    (h[128 + 2 * i] / 4398046511104 % 2048) as usize
}

// The bucket that a write of v to x falls into. x + v itself might not fit into a word.
fn bucket_of(x: u64, v: u64) -> usize
    ensures { Below result (bucket_of x v) 128 }
{
    if x < 8589934592 {
        return ((x % 128 + v % 128) % 128) as usize;
    }
    (x % 128) as usize
}

// The number of the last write of bucket b, 0 where it has none.
fn head_of(h: &[u64], b: usize) -> usize
    requires { Held h.now × (b < 128) }
    ensures { Below result (head_of (history_of h.now) b) (op_count (history_of h.now) + 1) }
{
    h[2178 + b] as usize
}

// The number of the write before write i in the same bucket, 0 where there is none.
fn link_of(h: &[u64], i: usize) -> usize
    requires { HasWrite h.now i }
    ensures { Below result (link_of (history_of h.now) i) i }
{
    (h[128 + 2 * i] / 9007199254740992) as usize
}

// Whether write i is one of v to x. Values are tested first: few operations share one.
fn writes_value(h: &[u64], x: u64, v: u64, i: usize) -> bool
    requires { HasWrite h.now i }
    ensures { result ≡ writes_value (history_of h.now) x v i }
{
    value_of(h, i) == v && key_of(h, i) == x
}

// The number of the last write of v to x, 0 where no write has them: only the writes of one bucket are looked at, from its last one down.
pub fn write_of(h: &[u64], x: u64, v: u64) -> usize
    requires { Held h.now }
    ensures { Below result (write_of (history_of h.now) x v) (op_count (history_of h.now) + 1) }
{
    let mut i = head_of(h, bucket_of(x, v));
    while 0 < i {
        if writes_value(h, x, v, i) {
            return i;
        }
        i = link_of(h, i);
    }
    0
}

// The number of the list read before list read i that has its key, 0 where there is none: they are all in one bucket.
pub fn prev_list(h: &[u64], i: usize) -> usize
    requires { HasList h.now i }
    ensures { Below result (prev_list (history_of h.now) i) i }
{
    let x = key_of(h, i);
    let mut j = link_of(h, i);
    while 0 < j {
        if key_of(h, j) == x {
            return j;
        }
        j = link_of(h, j);
    }
    0
}

// "The search for a write must answer its operation number besides its transaction": the number of the write that has operation i's key and value, 0 where
// the value is 0 or no write has them. The transaction follows from it. Whoever asks where a value comes from asks here.
pub fn origin_of(h: &[u64], i: usize) -> usize
    requires { HasOp h.now i }
    ensures { Below result (origin_of (history_of h.now) i) (op_count (history_of h.now) + 1) }
{
    let v = value_of(h, i);
    if v == 0 {
        return 0;
    }
    write_of(h, key_of(h, i), v)
}

// No transaction and no operation. A search starts at its bucket's word, so those are cleared too.
pub fn clear(h: &mut [u64])
    requires { length h.old ≡ table_words }
    ensures { Becomes h.new (cleared h.old) empty }
{
    h[0] = 0;
    h[2178..WORDS].fill(0);
}

// One transaction more, of session s, which is open.
pub fn put_tx(h: &mut [u64], s: u16)
    requires { Held h.old × (tx_count (history_of h.old) < 127) }
    ensures { Becomes h.new (put_tx h.old s) (opened (history_of h.old) s) }
{
    let n = h[0];
    let t = (n % 128) as usize + 1;
    h[t] = 4 * (s as u64) + 3;
    h[0] = n + 1;
}

// Transaction t gets the status x.
pub fn close_tx(h: &mut [u64], t: usize, x: u64)
    requires { HasTx h.old t × (x < 4) }
    ensures { Becomes h.new (close_tx h.old t x) (closed (history_of h.old) t x) }
{
    let s = h[t] / 4;
    h[t] = 4 * s + x;
}

// Transaction t gets the mark, where c is 1, or loses it, where c is 0.
pub fn mark(h: &mut [u64], t: usize, c: u64)
    requires { HasTx h.old t × (c < 2) }
    ensures { Becomes h.new (mark_tx h.old t c) (history_of h.old) }
{
    let w = h[t] % 536870912;
    h[t] = w + 536870912 * c;
}

// One operation more of transaction t: it reads v from the key k; it writes v to the key k, and is its bucket's last write from now on.
pub fn put_read(h: &mut [u64], t: usize, k: u32, v: u64)
    requires { HasTx h.old t × (op_count (history_of h.old) < 1024) }
    ensures { Becomes h.new (put_op h.old (record { tx = t; is_write = false; key = k; value = v })) (with_op (history_of h.old) (record { tx = t; is_write = false; key = k; value = v })) }
{
    put_op(h, t, t as u64 + 256 * (k as u64), v);
}

pub fn put_write(h: &mut [u64], t: usize, k: u64, v: u64)
    requires { HasTx h.old t × (op_count (history_of h.old) < 1024) × (k < 17179869184) }
    ensures { Becomes h.new (put_op h.old (record { tx = t; is_write = true; key = k; value = v })) (with_op (history_of h.old) (record { tx = t; is_write = true; key = k; value = v })) }
{
    let b = 2178 + bucket_of(k, v);
    let i = h[0] / 128 + 1;
    let q = h[b];
    let w = t as u64 + 128 + 256 * k;
    put_op(h, t, w + 9007199254740992 * q, v);
    h[b] = i;
}

// One operation more of transaction t, whose first word is w besides the number of the operation before it. That is t's last, which the new one now is.
fn put_op(h: &mut [u64], t: usize, w: u64, v: u64)
    requires { HasTx h.old t × (op_count (history_of h.old) < 1024) × (w < 9241386435364257792) }
    ensures { h.new ≡ put_words h.old t w v }
{
    let n = h[0];
    let i = (n / 128) as usize + 1;
    let z = h[t];
    h[128 + 2 * i] = w + 4398046511104 * (z / 262144 % 2048);
    h[129 + 2 * i] = v;
    h[t] = z % 262144 + 262144 * (i as u64);
    h[0] = n + 128;
}
