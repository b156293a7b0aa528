// The answers and events that code and definitions share. specs/ says what they mean.
#![tactic(auto)]

ghost use Rattle.std.specs.Prelude.{◌≡◌};
ghost use Rattle.rules.specs.Refusals.{cause_no, refusal_at, placed_at};

// A record's kind with what its payload says, but for the session that an operation or a close of edition 2 has. A write's key is below 2^32 in a trace; an
// append and a list read are held as writes to greater ones (specs/History.antt). Other is the record that says the edition, which does nothing to the
// history, and any unknown kind.
#[derive(Clone, Copy)]
pub enum Event {
    Open(u16),
    Read(u32, u64),
    Write(u64, u64),
    Close(u16),
    End(u16),
    Note,
    Other,
}

// Why a call refuses what it was given: the rows of the table of refusals, with their numbers (specs/Refusals.antt).
#[derive(Clone, Copy, Debug, PartialEq, Eq)]
pub enum Cause {
    // the level is not 1, 2 or 3
    NoLevel = 1,
    // more bytes than a trace may have
    TooLong = 2,
    // too few bytes are left for a length or for what it says, or no end came
    TooFew = 3,
    // a length that no record, or none of its kind, has
    Length = 4,
    // the serial does not follow
    Serial = 5,
    // an unknown kind
    Kind = 6,
    // an event that has no place where it stands
    Misplaced = 7,
    // a field that may not have what it has
    Unlawful = 8,
    // one transaction, or one operation, too many
    Excess = 9,
    // a write repeats a key and value
    Repeated = 10,
    // bytes follow the end record
    BytesBehind = 11,
    // a lent buffer is too short: for findings, for pairs, for an order, for what is to be put out
    FindingsRoom = 12,
    PairsRoom = 13,
    OrderRoom = 14,
    OutputRoom = 16,
    // a key with single values and lists
    Mixed = 17,
    // the keys of a names file do not ascend
    Descending = 18,
    // lists do not fit edition 1
    ListsMoved = 20,
}

impl From<Cause> for u8 {
    ghost from_gives = { λ cause no. no ≡ cause_no cause };

    fn from(cause: Cause) -> u8 {
        cause as u8
    }
}

// A refusal: why, and where.
#[derive(Clone, Copy, Debug, PartialEq, Eq)]
pub struct Refusal {
    pub cause: Cause,
    pub place: usize,
}

impl Cause {
    // The refusal for this cause at a place.
    pub fn at(self, place: usize) -> Refusal
        ensures { result ≡ refusal_at self place }
    {
        Refusal { cause: self, place }
    }
}

// What comes of a part, as what comes of the whole: where a row refuses the part, the whole is refused at its place.
pub fn placed<T>(answer: Result<T, Cause>, place: usize) -> Result<T, Refusal>
    ensures { result ≡ placed_at place answer }
{
    answer.map_err(|cause| cause.at(place))
}

// What the judge says of a trace that it does not refuse: rejected, with the counts of findings and of pairs; accepted, with the order's length.
#[derive(Clone, Copy, Debug, PartialEq, Eq)]
pub enum Ruling {
    Rejected(usize, usize),
    Accepted(usize),
}
