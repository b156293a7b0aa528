// Vectors in a table of 128 rows of 128 bytes: row t, column s has the latest of that column's session that t knows, and for t's own column t itself.
#![tactic(auto)]

ghost use Rattle.std.specs.Prelude.{◌≡◌, ◌<◌, ◌≤◌, length};
ghost use Rattle.order.specs.declared.Words.{Words};
ghost use Rattle.vectors.specs.Vectors.{Columns, Changed, NarrowRow, merged_block, merged_row, noted_row, Sources, RowGathered, RowPrepared, Finished, Sequence, AllFilled, Zeros, VectorsGiven, VectorsMade, Small, Joined};

use order::Words;

// ── one row ──

// Kept (5): v, f, c and width are passed on as the public function gets them: v is written, and each step below reads fewer of the others.

// Sixteen columns of row t, from 16 * j on, get what row p has there. A length that is fixed: the compiler makes it one comparison.
fn merge_block(v: &mut [u8; 16384], t: usize, p: usize, j: usize)
    requires { (length v.old ≡ 16384) × (t < 128) × (p < 128) × (j < 8) }
    ensures { Changed v.old t (merged_block v.old t p j) v.new }
{
    for s in 0..16 {
        let i = 128 * t + 16 * j + s;
        v[i] = v[i].max(v[128 * p + 16 * j + s]);
    }
}

// Row t gets what row p knows, which has nothing from column `width` on.
fn merge_row(v: &mut [u8; 16384], t: usize, p: usize, width: usize)
    requires { (length v.old ≡ 16384) × (t < 128) × (p < 128) × (width ≤ 128) × NarrowRow v.old p width }
    ensures { Changed v.old t (merged_row v.old t p) v.new }
{
    for j in 0..width.div_ceil(16) {
        merge_block(v, t, p, j);
    }
}

// Row t gets x at column s.
fn note(v: &mut [u8; 16384], t: usize, s: usize, x: usize)
    requires { (length v.old ≡ 16384) × (t < 128) × (s < 128) × (x < 128) }
    ensures { Changed v.old t (noted_row v.old t s x) v.new }
{
    let i = 128 * t + s;
    v[i] = v[i].max(x as u8);
}

// Row t gets what those before t know. From the greatest down, and without those that stand before one that was taken, since that one knows what they do:
// so each source is taken once, and of a session the last alone.
fn gather(v: &mut [u8; 16384], f: &[u64; 256], t: usize, width: usize)
    requires { Sources f.now t width v.old }
    ensures { RowGathered f.now t v.old v.new }
{
    let mut lo = f[2 * t];
    let mut hi = f[2 * t + 1];
    let mut p = bits::greatest_of(lo, hi);
    while 0 < p {
        merge_row(v, t, p, width);
        lo = bits::without(lo, f[2 * p] | bits::own_bit(p, 0));
        hi = bits::without(hi, f[2 * p + 1] | bits::own_bit(p, 1));
        p = bits::greatest_of(lo, hi);
    }
}

// .. and itself.
fn take_row(v: &mut [u8; 16384], f: &[u64; 256], c: &[u8; 128], t: usize, width: usize)
    requires { RowPrepared f.now c.now t width v.old }
    ensures { Finished f.now c.now t v.old v.new }
{
    gather(v, f, t, width);
    note(v, t, c[t] as usize, t);
}

// ── all rows ──

// The rows of o, in this order.
fn fill(v: &mut [u8; 16384], f: &[u64; 256], c: &[u8; 128], o: &[u8], width: usize)
    requires { Zeros v.old × Columns c.now width × Sequence f.now o.now (length o.now) }
    ensures { AllFilled f.now c.now o.now (length o.now) v.new }
{
    for t in o {
        take_row(v, f, c, *t as usize, width);
    }
}

// The vectors, and true; where some member leads to itself, false, and v stays as it is. Row b of f has the bits of what stands before b, w has the members,
// of which there are m, and c their columns, below `width`.
pub fn fill_vectors(
    f: &[u64; 256],
    n: usize,
    w: Words,
    m: usize,
    c: &[u8; 128],
    width: usize,
    v: &mut [u8; 16384],
) -> bool
    requires { VectorsGiven f.now n w m c.now width v.old }
    ensures { VectorsMade f.now n w c.now v.old v.new result }
{
    let mut o = [0u8; 128];
    let k = order::order_all(f, n, w, &mut o);
    if k != m {
        return false;
    }
    fill(v, f, c, &o[..k], width);
    true
}

// ── asking ──

// The rows of f that row t of v names, joined.
pub fn known(f: &[u64], v: &[u8], t: usize, width: usize) -> Words
    requires { (length f.now ≡ 256) × (length v.now ≡ 16384) × (t < 128) × (width ≤ 128) × Small v.now t }
    ensures { Joined f.now v.now t width result }
{
    let mut lo = 0;
    let mut hi = 0;
    for s in 1..width {
        let x = v[128 * t + s] as usize;
        lo |= f[2 * x];
        hi |= f[2 * x + 1];
    }
    Words { lo, hi }
}
