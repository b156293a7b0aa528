// The listed pairs of any relation that a table holds, and the list of them with the reasons of dependencies. Row b of a table has the bits of what stands
// before b: w has write dependencies, r read dependencies.
#![tactic(auto)]

ghost use Rattle.std.specs.Prelude.{◌≡◌, ◌+◌, ◌*◌, ◌≤◌, ◌<◌, length};
ghost use Rattle.base.proofs.Fill.{Appended};
ghost use Rattle.bits.specs.Bits.{bit_of, Under};
ghost use Rattle.sifting.specs.Lists.{pair_count, all_for};
ghost use Rattle.listings.specs.Listings.{ListsOver, dep_reasons_in, Sheets};

use sifting::{Listed, weight};

// c gets the listed pairs of f, by first, and f stays as it is. Of what leads to what, row a has whoever leads to a; those of them that a stands before are the
// seconds of the listed pairs whose first is a: "A pair is listed if its second leads to its first".
pub fn list_over(f: &[u64], c: &mut [u64], n: usize)
    requires { Under n f.now × (length c.old ≡ 256) }
    ensures { ListsOver f.now n c.new }
{
    bits::copy(f, c);
    bits::close(c, n);
    sifting::sift(c, f, n);
}

// ── the list of these ──

// c has the listed pairs, by first; `four` is what a read dependency counts.
#[derive(Clone, Copy)]
struct Dependencies<'a> {
    c: &'a [u64],
    w: &'a [u64],
    r: &'a [u64],
    four: u8,
}

impl Listed for Dependencies<'_> {
    ghost can_ask = { λ s a b. (length s.c.now ≡ 256) × (length s.w.now ≡ 256) × (length s.r.now ≡ 256) × (s.four ≤ 4) × (a < 128) × (b < 128) };

    ghost has = { λ s. bit_of s.c.now };

    ghost reasons = { λ s. dep_reasons_in s.w.now s.r.now s.four };

    fn has(&self, a: usize, b: usize) -> bool {
        bits::bit(self.c, a, b)
    }

    // "reason 16", "reason 4", the latter where it counts.
    fn reasons(&self, a: usize, b: usize) -> u8 {
        weight(bits::bit(self.r, b, a), self.four) + weight(bits::bit(self.w, b, a), 16)
    }
}

// The list of pairs, by first and then second, from `at` on; where it ends.
pub fn put_over(
    c: &[u64],
    w: &[u64],
    r: &[u64],
    n: usize,
    four: u8,
    out: &mut [u8],
    at: usize,
) -> usize
    requires { Sheets c.now w.now r.now n four × (at + 4 * pair_count c.now n ≤ length out.old) }
    ensures { Appended out.old at out.new result (all_for (bit_of c.now) (dep_reasons_in w.now r.now four) n) }
{
    sifting::put_listed(&Dependencies { c, w, r, four }, n, out, at)
}
