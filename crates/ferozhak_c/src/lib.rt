// The calls for C programs, as include/ferozhak.h has them: the archive's exports. Each is the library's call of the same name (`ferozhak`) and promises what
// that one promises.
#![tactic(auto)]

ghost use Rattle.std.specs.Prelude.{◌≡◌};
ghost use Rattle.deciding.specs.Deciding.{decided_as, decided, strongest_no, strongest};
ghost use Rattle.claims_rules.specs.Numbers.{in_numbers, claimed_in_numbers};

// Judges the trace at a level and answers 1 promote, 2 hold or 3 no trace: "promote exactly on acceptance, hold on rejection, no trace on refusal, with the
// counts". The three buffers get what the judge puts there, and the slice for the counts five numbers of four bytes, little-endian, as many as fit whole.
#[unsafe(no_mangle)]
pub extern "C" fn ferozhak_decide(
    trace: &[u8],
    level: u32,
    findings: &mut [u8],
    pairs: &mut [u8],
    order: &mut [u8],
    counts: &mut [u8],
) -> u32
    ensures { decided_as result findings.new pairs.new order.new counts.new ≡ decided trace.now level findings.old pairs.old order.old counts.old }
{
    ferozhak::ferozhak_decide(trace, level, findings, pairs, order, counts)
}

// The strongest level that accepts the trace, 3, 2 or 1; 0 if none does or the trace is refused.
#[unsafe(no_mangle)]
pub extern "C" fn ferozhak_strongest(trace: &[u8]) -> u32
    ensures { result ≡ strongest_no (strongest trace.now) }
{
    ferozhak::ferozhak_strongest(trace)
}

// Says of an order that is claimed for the trace at a level, one byte a transaction, 1 yes, 2 no for a read, 3 no for its members, 4 no for a pair, or 5 refused.
// The slice gets five numbers of four bytes, little-endian, as many as fit whole: the read's operation number, the pair's first and second, the refusal's number
// and its place.
#[unsafe(no_mangle)]
pub extern "C" fn ferozhak_claim(trace: &[u8], level: u32, claim: &[u8], numbers: &mut [u8]) -> u32
    ensures { in_numbers result numbers.new ≡ claimed_in_numbers trace.now level claim.now numbers.old }
{
    ferozhak::ferozhak_claim(trace, level, claim, numbers)
}
