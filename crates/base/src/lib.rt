// Lists and grounds: definitions (specs/) and laws (proofs/) over any element type, which every other crate cites; and the grounds of
// refusal by name.

#![tactic(auto)]

ghost use Rattle.base.specs.Grounds.{IsNumber};

// Why an event, a tick, a block or a table is refused: document 01's grounds, each with its number there. (19 is no ground's.)
#[derive(Clone, Copy, Debug, PartialEq, Eq)]
pub enum Refusal {
    UnfitRecord = 1, // unknown kind, or a field that the kind does not use is not 0
    NotInTable = 2, // channel, master or target number not in the table
    TargetIsMaster = 3, // target is the master
    AllBegun = 4, // 65,535 begins accepted for this master
    NoRoom = 5, // the kind to be added is at its limit in the receiving channel
    NoSuchEntry = 6, // no such entry
    InMaster = 7, // drop request in a master channel
    AlreadyCommitted = 8, // the R is already committed
    BehindPosted = 9, // an older P stands before the entry in N
    AlreadyLatched = 10, // N1 holds this transaction's R, or its opposite holds its C
    AtTarget = 11, // latch where N1 is the target agent
    NoAnswer = 12, // N1 is a bridge channel and its opposite has no matching C
    OldestAnswer = 13, // the C is the oldest in its channel
    AnswerBehind = 14, // the matching C is a read's and has an older P before it
    InConflict = 15, // two events of a tick conflict
    NotSound = 16, // state not sound
    ShortList = 17, // answer list shorter than the number of records
    NotRecords = 18, // record bytes not a multiple of 8, or more than 504; a single step's are not eight
    NotABlock = 20, // not 512 bytes
    WrongCheck = 21, // the check is not the weighted sum
    WrongHead = 22, // kind, place or count wrong
    OutOfRange = 23, // a count or limit out of range
    UnusedByte = 24, // an unused byte is not 0
    NoSuchBus = 25, // a bus that is not there
    OnOneBus = 26, // a bridge with both ends on one bus
    NotOneWay = 27, // not exactly one way
}

// Document 01's number.
impl From<Refusal> for u8 {
    ghost from_gives = { IsNumber };

    fn from(r: Refusal) -> u8 {
        r as u8
    }
}
