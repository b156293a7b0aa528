// Bytes copied from one lent buffer to another.
#![tactic(auto)]

ghost use Rattle.std.specs.Prelude.{◌≤◌, length, take};
ghost use Rattle.base.proofs.Fill.{Appended};

// The first n bytes, to the other's front. Every other byte stays as it was.
// Kept (3): `copy_from_slice` has the archive for C ask its host for `memmove`; a loop, which needs no more than `memcpy`, does not.
pub fn copy(from: &[u8], n: usize, to: &mut [u8])
    requires { (n ≤ length from.now) × (n ≤ length to.old) }
    ensures { Appended to.old 0 to.new n (take n from.now) }
{
    for i in 0..n {
        to[i] = from[i];
    }
}
