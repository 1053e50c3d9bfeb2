#![tactic(auto)]

// The records of a catalogue, one at a time over the caller's bytes. Documents 01, "Catalogue bytes", and 02, R-1.
mod missing;
mod reader;

ghost use Rattle.std.specs.Prelude.{true, ◌≡◌, ◌+◌, ◌*◌, ◌^◌, ◌<◌, length, get_or};
ghost use Rattle.catalogue.specs.Bytes.{svid_kind, mode_kind, end_kind};
ghost use Rattle.records.specs.Records.{is_identity, found_in, found_at};
ghost use Rattle.records.specs.Shown.{as_found};

pub use missing::{Missing, fault_of};
pub use reader::{Reader, record_from};
use reading::object_at;

// The kinds of record; an identity's is the number of its objects.
// Any byte may come off a file, and each of these is met in one pattern: `Record` is their enum.
const LEAST_OBJECTS: u8 = 3;

const MOST_OBJECTS: u8 = 6;

const SVID: u8 = 0x10;

const MODE: u8 = 0x20;

const END: u8 = 0x00;

// The number of bytes of an identity object, and of each record, the kind counted.
pub const OBJECT_BYTES: usize = 4;

pub const SVID_RECORD: usize = 3;

pub const MODE_RECORD: usize = 5;

const END_RECORD: usize = 1;

// An identity has its number of objects, which stand behind its kind.
#[derive(Clone, Copy, PartialEq, Eq)]
pub enum Record {
    Identity(u8),
    Svid(u16),
    Mode(u32),
    End,
}

// A whole record, and the number of its bytes, the kind counted.
#[derive(Clone, Copy)]
pub struct Whole {
    pub record: Record,
    pub length: usize,
}

fn is_identity(kind: u8) -> bool
    ensures { result ≡ is_identity kind }
{
    LEAST_OBJECTS <= kind && kind <= MOST_OBJECTS
}

// The kind is an identity's, of that many objects.
// Here and below the clauses say what the pattern that called has found.
fn identity_in(bytes: &[u8], kind: u8) -> Result<Whole, Missing>
    requires { (0 < length bytes.now) × (get_or bytes.now 0 0 ≡ kind) × (is_identity kind ≡ true) }
    ensures { as_found result ≡ found_in bytes.now }
{
    let length = 1 + usize::from(kind) * OBJECT_BYTES;
    if bytes.len() < length {
        return Err(Missing::Cut);
    }
    Ok(Whole {
        record: Record::Identity(kind),
        length,
    })
}

// The length of each record is a constant in its own branch, so that a walk need not wait for the kind to know where the next one stands.
fn svid_in(bytes: &[u8]) -> Result<Whole, Missing>
    requires { (0 < length bytes.now) × (get_or bytes.now 0 0 ≡ svid_kind) }
    ensures { as_found result ≡ found_in bytes.now }
{
    if bytes.len() < SVID_RECORD {
        return Err(Missing::Cut);
    }
    Ok(Whole {
        record: Record::Svid(u16::from_le_bytes([bytes[1], bytes[2]])),
        length: SVID_RECORD,
    })
}

fn mode_in(bytes: &[u8]) -> Result<Whole, Missing>
    requires { (0 < length bytes.now) × (get_or bytes.now 0 0 ≡ mode_kind) }
    ensures { as_found result ≡ found_in bytes.now }
{
    if bytes.len() < MODE_RECORD {
        return Err(Missing::Cut);
    }
    Ok(Whole {
        record: Record::Mode(object_at(&bytes[1..], 0)),
        length: MODE_RECORD,
    })
}

// The kind is none of the others.
fn identity_or_unknown(bytes: &[u8], kind: u8) -> Result<Whole, Missing>
    requires { (0 < length bytes.now) × (get_or bytes.now 0 0 ≡ kind) × (kind ≡ svid_kind → ⊥) × (kind ≡ mode_kind → ⊥) × (kind ≡ end_kind → ⊥) }
    ensures { as_found result ≡ found_in bytes.now }
{
    if is_identity(kind) {
        identity_in(bytes, kind)
    } else {
        Err(Missing::Unknown)
    }
}

// Modes come most often, so they are asked for first.
fn record_in(bytes: &[u8]) -> Result<Whole, Missing>
    ensures { as_found result ≡ found_in bytes.now }
{
    match bytes {
        [] => Err(Missing::Nothing),
        [MODE, ..] => mode_in(bytes),
        [SVID, ..] => svid_in(bytes),
        [END, ..] => Ok(Whole {
            record: Record::End,
            length: END_RECORD,
        }),
        [kind, ..] => identity_or_unknown(bytes, *kind),
    }
}

// What stands at an offset of the bytes; past their end a record is cut.
pub fn record_at(bytes: &[u8], at: usize) -> Result<Whole, Missing>
    ensures { as_found result ≡ found_at bytes.now at }
{
    record_in(bytes.get(at..).ok_or(Missing::Cut)?)
}
