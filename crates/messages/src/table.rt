// 01's table of commands, and the one rule over it.
ghost use Rattle.std.specs.Prelude.{◌≡◌, cond, ◌/◌, ◌%◌, ◌<◌, eqb};
ghost use Rattle.messages.specs.Table.{row_of, counts_of};
ghost use Rattle.messages.specs.Table.{fits as Table·fits, shape as Table·shape};

use crate::{ATTENTION, ENTER, EXIT, Head, IDENTITY, MODES, PD_SID, SVIDS};

// What a command's messages look like. The object counts, the header counted, stand as two hexadecimal digits a type, least and most,
// BUSY first: 0x11114711 is BUSY 1..1, NAK 1..1, ACK 4..7, REQ 1..1; 1..0 is none. One number is one load, and its digits need no branch.
#[derive(Clone, Copy)]
pub struct Row {
    pub counts: u32,
    pub lowest: u16,
    pub highest: u16,
    pub first: u8,
    pub last: u8,
}

const HIGHEST_SVID: u16 = 0xFFFF;

const COMMANDS: u8 = 32;

const TYPES: u8 = 4;

// The table: a row for each command that has one of its own, and one for command 0 and 7..31.
const OTHER_ROW: Row = Row {
    counts: 0x10111017,
    lowest: 0,
    highest: HIGHEST_SVID,
    first: 0,
    last: 7,
};

const IDENTITY_ROW: Row = Row {
    counts: 0x11114711,
    lowest: PD_SID,
    highest: PD_SID,
    first: 0,
    last: 0,
};

const SVIDS_ROW: Row = Row {
    counts: 0x11112711,
    lowest: PD_SID,
    highest: PD_SID,
    first: 0,
    last: 0,
};

const MODES_ROW: Row = Row {
    counts: 0x11112711,
    lowest: 1,
    highest: HIGHEST_SVID,
    first: 0,
    last: 0,
};

const ENTER_ROW: Row = Row {
    counts: 0x11111112,
    lowest: 1,
    highest: HIGHEST_SVID,
    first: 1,
    last: 6,
};

const EXIT_ROW: Row = Row {
    counts: 0x11111111,
    lowest: 1,
    highest: HIGHEST_SVID,
    first: 1,
    last: 7,
};

const ATTENTION_ROW: Row = Row {
    counts: 0x10101012,
    lowest: 1,
    highest: HIGHEST_SVID,
    first: 1,
    last: 6,
};

fn row_of(command: u8) -> Row
    ensures { result ≡ row_of command }
{
    match command {
        IDENTITY => IDENTITY_ROW,
        SVIDS => SVIDS_ROW,
        MODES => MODES_ROW,
        ENTER => ENTER_ROW,
        EXIT => EXIT_ROW,
        ATTENTION => ATTENTION_ROW,
        _ => OTHER_ROW,
    }
}

fn byte_of(half: u32, kind: u8) -> u32
    ensures { result ≡ cond (eqb (kind % 2) 0) (half % 256) (half / 256) }
{
    if kind % 2 == 0 {
        half % 256
    } else {
        half / 256
    }
}

// The digits of one type, by halves: two choices between numbers, and no jump.
fn counts_of(row: Row, kind: u8) -> u32
    requires { kind < 4 }
    ensures { result ≡ counts_of row kind }
{
    if kind < 2 {
        byte_of(row.counts % 65536, kind)
    } else {
        byte_of(row.counts / 65536, kind)
    }
}

fn fits(row: Row, head: Head, count: u8) -> bool
    requires { head.kind < 4 }
    ensures { result ≡ Table·fits row head count }
{
    let counts = counts_of(row, head.kind);
    if (count as u32) < counts / 16 {
        return false;
    }
    if counts % 16 < (count as u32) {
        return false;
    }
    if head.position < row.first {
        return false;
    }
    if row.last < head.position {
        return false;
    }
    if head.svid < row.lowest {
        return false;
    }
    head.svid <= row.highest
}

// Do a head and a number of objects, the header counted, fit the command's row?
pub fn shape(head: Head, count: u8) -> bool
    ensures { result ≡ Table·shape head count }
{
    let command = head.command;
    if COMMANDS <= command {
        return false;
    }
    if TYPES <= head.kind {
        return false;
    }
    fits(row_of(command), head, count)
}
