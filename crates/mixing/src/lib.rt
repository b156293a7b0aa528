// Row 17, "a key with single values and lists". An index of keys stands beside the table h, so that no check looks through all earlier operations.
#![tactic(auto)]

ghost use Rattle.std.specs.Prelude.{◌≡◌, ◌<◌, replicate};
ghost use Rattle.rules.specs.History.{is_single, is_other_sort};
ghost use Rattle.table.specs.Table.{history_of, Held, HasOp, Below};
ghost use Rattle.mixing.specs.Mixing.{first_like, key_bucket, Indexed, chained, KeyEntered, EnteredAll};

// The bucket that a key falls into, from the key that it is held with: what lists add to a key is a multiple of 128.
fn bucket(x: u64) -> usize
    ensures { Below result (key_bucket x) 128 }
{
    (x % 128) as usize
}

// Whether an operation that is held with the key x is one of single values.
fn is_single(x: u64) -> bool
    ensures { result ≡ is_single x }
{
    x < 4294967296
}

// Whether of two operations, held with the keys x and y, one is of single values and the other of lists.
fn is_other(x: u64, y: u64) -> bool
    ensures { result ≡ is_other_sort (is_single x) (is_single y) }
{
    is_single(x) != is_single(y)
}

// The first operation before i that has i's key, 0 where none has: only the keys of one bucket are looked at, each once.
fn find(h: &[u64], k: &[u16; 1153], i: usize) -> usize
    requires { HasOp h.now i × Indexed k.now (history_of h.now) i }
    ensures { Below result (first_like (history_of h.now) i) i }
{
    let x = table::key_of(h, i);
    let mut j = k[bucket(x)] as usize;
    while 0 < j {
        if table::key_of(h, j) % 4294967296 == x % 4294967296 {
            return j;
        }
        j = k[128 + j] as usize;
    }
    0
}

// Operation i, the first of its key, goes into bucket b.
fn chain(k: &mut [u16; 1153], i: usize, b: usize)
    requires { (i < 1025) × (b < 128) }
    ensures { k.new ≡ chained k.old i b }
{
    let next = k[b];
    k[128 + i] = next;
    k[b] = i as u16;
}

// Whether operation i has the key of an earlier one that is of the other sort. No earlier one mixes, so that all earlier ones of its key are of one sort and
// the first of them tells; where there is none, i is entered.
pub fn enter(h: &[u64], k: &mut [u16; 1153], i: usize) -> bool
    requires { HasOp h.now i × Indexed k.old (history_of h.now) i }
    ensures { KeyEntered result k.new (history_of h.now) i }
{
    let j = find(h, k, i);
    let x = table::key_of(h, i);
    if j == 0 {
        chain(k, i, bucket(x));
        return false;
    }
    is_other(table::key_of(h, j), x)
}

// .. of any operation, where the index is empty.
pub fn enter_all(h: &[u64], k: &mut [u16; 1153]) -> bool
    requires { Held h.now × (k.old ≡ replicate 1153 0) }
    ensures { EnteredAll result k.new (history_of h.now) }
{
    for i in 1..=table::ops(h) {
        if enter(h, k, i) {
            return true;
        }
    }
    false
}
