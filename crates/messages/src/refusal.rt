// Why a call refuses: the refusals of document 01, and of document 02 from 15 on, each by a name. Number 4 is withdrawn
// (02, R-2), and has none.
ghost use Rattle.std.specs.Prelude.{◌≡◌};
ghost use Rattle.messages.specs.Refusals.{number_of};

#[derive(Clone, Copy, PartialEq, Eq)]
pub enum Refusal {
    // The bytes are not 4, 8, .. 28.
    WrongLength = 1,
    // Bit 15 is 0.
    Unstructured = 2,
    // The major is 2 or 3.
    WrongMajor = 3,
    // The shape is not one of the table's, or a number names no edition.
    WrongShape = 5,
    // What arrives is not awaited.
    Unawaited = 6,
    // An answer is awaited.
    Waiting = 7,
    // A bad page, or a NAK that voids.
    BadAnswer = 8,
    // The present state does not take the event.
    NotNow = 9,
    // Policy's data breaks its limits.
    BadData = 10,
    // A buffer or a run is too short.
    TooShort = 11,
    // No held catalogue, or what is named is not in it.
    NotHeld = 12,
    Blocked = 13,
    // Two hundred pages without an end.
    Endless = 14,
    // In a catalogue's bytes: no kind of record, a record that is cut or has to come, one that may not follow, bytes
    // behind the end, no whole identity.
    UnknownKind = 15,
    CutRecord = 16,
    OutOfOrder = 17,
    BytesAfterEnd = 18,
    NoIdentity = 19,
}

// The number that the documents give it.
impl From<Refusal> for u8 {
    ghost from_gives = { λ refusal number. number ≡ number_of refusal };

    fn from(refusal: Refusal) -> u8 {
        refusal as u8
    }
}
