// The laptop end's owner as one value: the port, and what the calls for each side are lent.
ghost use Rattle.std.specs.Prelude.{◌≡◌, not, replicate, ◌==◌};
ghost use Rattle.messages.specs.Refusals.{number_in};
ghost use Rattle.laptop.specs.Marks.{reported};
ghost use Rattle.port.specs.Sides.{fresh_port, own_of, seen as Sides·seen};
ghost use Rattle.port.specs.Step.{stepped};
ghost use Rattle.driving.specs.Lending.{memory_of, other_side, Heard, HeldWritten, LentAs, Made, OthersStays};

use crate::lending::Lent;
use crate::memory::Memory;
use events::Call;
use laptop::Laptop;
use messages::Refusal;
use port::{Accepted, Port, Refused, Side, seen};

#[derive(Clone, Copy)]
pub struct Owner {
    pub port: Port,
    lent: Lent,
}

// Without what it handed over.
pub fn outcome_of(given: Result<Accepted, Refused>) -> Result<(), Refusal>
    ensures { number_in result ≡ (stepped given).refusal }
{
    match given {
        Ok(_) => Ok(()),
        Err(refused) => Err(refused.refusal),
    }
}

// Whether the bytes in the output buffer are to be sent.
pub fn sends(given: Result<Accepted, Refused>) -> bool
    ensures { result ≡ not ((stepped given).length == 0) }
{
    given.is_ok_and(|accepted| accepted.length != 0)
}

pub fn port_after(given: Result<Accepted, Refused>) -> Port
    ensures { result ≡ (stepped given).port }
{
    match given {
        Ok(accepted) => accepted.port,
        Err(refused) => refused.port,
    }
}

impl Owner {
    // The owner of a fresh port, who lends runs that are full of a word.
    pub fn new(word: u32) -> Owner
        ensures port { result.port ≡ fresh_port }
        ensures partner { result.lent.partner.run ≡ replicate 440 word }
        ensures cable { result.lent.cable.run ≡ replicate 440 word }
    {
        let mut lent = Lent::new(word);
        Owner {
            port: lent.begin(),
            lent,
        }
    }

    pub fn lent(&self, side: Side) -> &Memory
        ensures { result.now ≡ memory_of side self.now.lent }
    {
        self.lent.to(side)
    }

    // The laptop of document 01 on the side.
    pub fn laptop(&self, side: Side) -> Laptop
        ensures { result ≡ Sides·seen side self.now.port }
    {
        seen(side, self.port)
    }

    // Later calls for the side are lent so many words of its runs.
    pub fn lend(&mut self, side: Side, run_words: usize, held_words: usize)
        ensures lent { LentAs run_words held_words (memory_of side self.old.lent) (memory_of side self.new.lent) }
        ensures other { OthersStays side self.old.lent self.new.lent }
        ensures port { self.new.port ≡ self.old.port }
    {
        self.lent.to_mut(side).lend(run_words, held_words);
    }

    // A message from the side.
    pub fn hear(&mut self, side: Side, bytes: &[u8]) -> Result<Accepted, Refused>
        ensures heard { Heard side self.old.port bytes.now
            (memory_of side self.old.lent) (memory_of side self.new.lent) (stepped result) }
        ensures other { OthersStays side self.old.lent self.new.lent }
        ensures port { self.new.port ≡ (stepped result).port }
    {
        let port = self.port;
        let given = self.lent.hear(port, side, bytes);
        self.port = port_after(given);
        given
    }

    // A call that is no message changes nothing but the port.
    pub fn make(&mut self, side: Side, call: Call, out: &mut [u8]) -> Result<Accepted, Refused>
        ensures made { Made side self.old.port call (memory_of side self.old.lent) out.old (stepped result) out.new }
        ensures lent { self.new.lent ≡ self.old.lent }
        ensures port { self.new.port ≡ (stepped result).port }
    {
        let given = self.lent.make(self.port, side, call, out);
        self.port = port_after(given);
        given
    }

    // How many modes of the SVID are entered on the side.
    pub fn report(&self, side: Side, svid: u16) -> u32
        ensures { result ≡ reported (own_of side self.now.port).held
            (memory_of side self.now.lent).held_svids (memory_of side self.now.lent).entered svid }
    {
        self.lent.to(side).report(self.port, side, svid)
    }

    // Writes the catalogue that the side holds.
    pub fn write_held(&self, side: Side, out: &mut [u8]) -> Result<u16, Refusal>
        ensures { HeldWritten side self.now.port (memory_of side self.now.lent) out.old result out.new }
    {
        self.lent.to(side).write_held(self.port, side, out)
    }
}

// The other of the two, and no conversion.
pub fn other(side: Side) -> Side
    ensures { result ≡ other_side side }
{
    match side {
        Side::Partner => Side::Cable,
        Side::Cable => Side::Partner,
    }
}
