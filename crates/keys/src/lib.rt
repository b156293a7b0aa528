// Keys by buckets: row b of a table stands for the keys x with x % 128 = b, and has the bits of the transactions that write the one that is read. Where
// different keys of a bucket are read, it has the bits of those that write any of the bucket's keys: so a transaction without the bit does not write the key
// that is read, and one with it may; where the bucket is not shared so, it does.
#![tactic(auto)]

ghost use Rattle.std.specs.Prelude.{◌≡◌, List, ℕ, ◌+◌, ◌<◌, length};
ghost use Rattle.rules.specs.History.{op};
ghost use Rattle.table.specs.Table.{history_of, Held, HasOp};
ghost use Rattle.bits.specs.Bits.{bit_of, Holds, nothing, either};
ghost use Rattle.bits.proofs.Tables.{Rewritten};
ghost use Rattle.pairs.specs.Pairs.{Ready};
ghost use Rattle.keys.specs.Keys.{bucket_of, key_below, key_read, is_entered, writers, Kept, shared_bit, shared_only, Parted, write_bit};

// The bucket of operation i's key.
pub fn bucket_of(h: &[u64], i: usize) -> usize
    requires { HasOp h.now i }
    ensures { (result ≡ bucket_of (op (history_of h.now) i).key) × (result < 128) }
{
    (table::key_of(h, i) % 128) as usize
}

// ── which keys are read ──

// Kept (5): h, k, r and w are passed on as the public function gets them: a struct of them would be made there for that alone, and each step writes another.

// The word of operation i's bucket gets its key, where it is a clean external read.
fn keep_key(h: &[u64], k: &[u8], r: &mut [u64], i: usize)
    requires { Ready h.now k.now × HasOp h.now i × (length r.old ≡ 256) }
    ensures { (o : List ℕ) → Rewritten (key_below (history_of h.now) i) o r.old 128 → Rewritten (key_below (history_of h.now) (i + 1)) o r.new 128 }
{
    if 8 <= k[i] {
        r[bucket_of(h, i)] = table::key_of(h, i);
    }
}

// The key that is read of each bucket: where different ones are, the last.
fn keep_keys(h: &[u64], k: &[u8], r: &mut [u64])
    requires { Ready h.now k.now × (length r.old ≡ 256) }
    ensures { Rewritten (key_read (history_of h.now)) r.old r.new 128 }
{
    // a word for each bucket: no key yet
    r[..128].fill(0);
    for i in 1..=table::ops(h) {
        keep_key(h, k, r, i);
    }
}

// Bit 0 of the row of operation i's bucket, where it is a clean external read of another key than the one that r has.
fn mark_other(h: &[u64], k: &[u8], r: &[u64], w: &mut [u64], i: usize)
    requires { Ready h.now k.now × HasOp h.now i × Kept (history_of h.now) r.now × (length w.old ≡ 256) }
    ensures { Holds w.new (either (bit_of w.old) (shared_bit (history_of h.now) i)) }
{
    if k[i] < 8 {
        return;
    }
    let b = bucket_of(h, i);
    if r[b] != table::key_of(h, i) {
        bits::set_bit(w, b, 0);
    }
}

fn mark_shared(h: &[u64], k: &[u8], r: &[u64], w: &mut [u64])
    requires { Ready h.now k.now × Kept (history_of h.now) r.now × Holds w.old nothing }
    ensures { Holds w.new (shared_only (history_of h.now)) }
{
    for i in 1..=table::ops(h) {
        mark_other(h, k, r, w, i);
    }
}

// ── who writes them ──

// Whether operation i is a write that is entered: of the key that is read of its bucket, or of any, where the bucket is shared.
fn is_entered(h: &[u64], r: &[u64], w: &[u64], i: usize) -> bool
    requires { HasOp h.now i × Kept (history_of h.now) r.now × Parted (history_of h.now) w.now }
    ensures { result ≡ is_entered (history_of h.now) i }
{
    if !table::is_write(h, i) {
        return false;
    }
    let b = bucket_of(h, i);
    r[b] == table::key_of(h, i) || bits::bit(w, b, 0)
}

// The row of operation i's key gets the bit of its transaction, where it is such a write.
fn enter_write(h: &[u64], r: &[u64], w: &mut [u64], i: usize)
    requires { HasOp h.now i × Kept (history_of h.now) r.now × Parted (history_of h.now) w.old }
    ensures { Holds w.new (either (bit_of w.old) (write_bit (history_of h.now) i)) }
{
    if is_entered(h, r, w, i) {
        bits::set_bit(w, bucket_of(h, i), table::tx_of(h, i));
    }
}

fn enter_writes(h: &[u64], r: &[u64], w: &mut [u64])
    requires { Held h.now × Kept (history_of h.now) r.now × Holds w.old (shared_only (history_of h.now)) }
    ensures { Holds w.new (writers (history_of h.now)) }
{
    for i in 1..=table::ops(h) {
        enter_write(h, r, w, i);
    }
}

// The table of who writes the keys that are read. Half of the words of r get the key that is read of each bucket.
pub fn fill_writers(h: &[u64], k: &[u8], r: &mut [u64], w: &mut [u64])
    requires { Ready h.now k.now × (length r.old ≡ 256) × (length w.old ≡ 256) }
    ensures { Holds w.new (writers (history_of h.now)) × Rewritten (key_read (history_of h.now)) r.old r.new 128 }
{
    keep_keys(h, k, r);
    bits::clear(w);
    mark_shared(h, k, r, w);
    enter_writes(h, r, w);
}
