// What the laptop end's owner lends its calls.
ghost use Rattle.std.specs.Prelude.{◌≡◌, ◌≤◌, drop, length, replicate};
ghost use Rattle.std.specs.Borrow.{sem};
ghost use Rattle.laptop.specs.Marks.{reported};
ghost use Rattle.laptop.specs.State.{memory_lent};
ghost use Rattle.port.specs.Calls.{HearsOn};
ghost use Rattle.port.specs.Sides.{fresh_port, own_of};
ghost use Rattle.port.specs.Step.{stepped};
ghost use Rattle.driving.specs.Lending.{lent_words, memory_of, Heard, HeldWritten, LendsMemory, LentAs, Made, OthersStays};

use crate::memory::{Memory, RUN};
use events::Call;
use messages::Refusal;
use port::{Accepted, Port, Refused, Side, write_catalogue};

// What a message gave that is lent only the first words of the two runs.
fn hear_within(
    port: Port,
    side: Side,
    bytes: &[u8],
    svids: &mut [u16; 72],
    modes: &mut [u8; 72],
    identity: &mut [u32; 6],
    run: &mut [u32],
    run_words: usize,
    held_svids: &mut [u16; 72],
    held_modes: &mut [u8; 72],
    held_identity: &mut [u32; 6],
    held_run: &mut [u32],
    held_words: usize,
    entered: &mut [u8; 72],
) -> Result<Accepted, Refused>
    requires within { run_words ≤ length run.old }
    requires held_within { held_words ≤ length held_run.old }
    ensures hears { HearsOn side port bytes.now (lent_words run_words held_words
        (memory_lent svids modes identity run held_svids held_modes held_identity held_run entered)) (stepped result) }
    ensures rest { drop run_words run.new ≡ drop run_words run.old }
    ensures held_rest { drop held_words held_run.new ≡ drop held_words held_run.old }
{
    port::message(
        port,
        side,
        bytes,
        svids,
        modes,
        identity,
        &mut run[..run_words],
        held_svids,
        held_modes,
        held_identity,
        &mut held_run[..held_words],
        entered,
    )
}

impl Memory {
    // What a message gave. It may write to all that its side is lent.
    fn hear(&mut self, port: Port, side: Side, bytes: &[u8]) -> Result<Accepted, Refused>
        ensures { Heard side port bytes.now self.old self.new (stepped result) }
    {
        hear_within(
            port,
            side,
            bytes,
            &mut self.svids,
            &mut self.modes,
            &mut self.identity,
            &mut self.run,
            self.run_words,
            &mut self.held_svids,
            &mut self.held_modes,
            &mut self.held_identity,
            &mut self.held_run,
            self.held_words,
            &mut self.entered,
        )
    }

    // What a call gave that is no message. A timer or the protocol error concerns the side that waits.
    fn make(&self, port: Port, side: Side, call: Call, out: &mut [u8]) -> Result<Accepted, Refused>
        ensures { Made side port call self.now out.old (stepped result) out.new }
    {
        let run = &self.run[..self.run_words];
        let held_run = &self.held_run[..self.held_words];
        match call {
            Call::Next => port::next(port, side, &self.svids, &self.entered, run, held_run, out),
            Call::StartOver => port::start_over(port, side, &self.entered, run, held_run, out),
            Call::Drop => port::drop(port, side, run, held_run, out),
            Call::ResponseTimer => port::response_timer(port),
            Call::EntryTimer => port::entry_timer(port),
            Call::ExitTimer => port::exit_timer(port),
            Call::ProtocolError => port::protocol_error(port),
            Call::Enter(mode) => port::enter(
                port,
                side,
                mode.svid,
                mode.position,
                &self.held_svids,
                &self.held_modes,
                &self.entered,
                run,
                held_run,
                out,
            ),
            Call::Exit(mode) => port::exit(
                port,
                side,
                mode.svid,
                mode.position,
                &self.held_svids,
                &self.held_modes,
                &self.entered,
                run,
                held_run,
                out,
            ),
        }
    }

    // How many modes of the SVID are entered.
    pub(crate) fn report(&self, port: Port, side: Side, svid: u16) -> u32
        ensures { result ≡ reported (own_of side port).held self.now.held_svids self.now.entered svid }
    {
        port::report(port, side, svid, &self.held_svids, &self.entered)
    }

    // Writes the catalogue that is held.
    pub(crate) fn write_held(&self, port: Port, side: Side, out: &mut [u8]) -> Result<u16, Refusal>
        ensures { HeldWritten side port self.now out.old result out.new }
    {
        write_catalogue(
            port,
            side,
            &self.held_svids,
            &self.held_modes,
            &self.held_identity,
            &self.held_run[..self.held_words],
            out,
        )
    }

    // Later calls are lent so many words of the runs.
    pub(crate) fn lend(&mut self, run_words: usize, held_words: usize)
        ensures { LentAs run_words held_words self.old self.new }
    {
        self.run_words = run_words.min(RUN);
        self.held_words = held_words.min(RUN);
    }
}

// What the calls for both sides are lent.
#[derive(Clone, Copy)]
pub struct Lent {
    pub partner: Memory,
    pub cable: Memory,
}

impl Lent {
    // Runs that are full of a word.
    pub fn new(word: u32) -> Lent
        ensures partner { result.partner.run ≡ replicate 440 word }
        ensures cable { result.cable.run ≡ replicate 440 word }
    {
        Lent {
            partner: Memory::new(word),
            cable: Memory::new(word),
        }
    }

    // A fresh port, and no entered modes.
    pub fn begin(&mut self) -> Port
        ensures port { result ≡ fresh_port }
        ensures partner { self.new.partner.run ≡ self.old.partner.run }
        ensures cable { self.new.cable.run ≡ self.old.cable.run }
    {
        let partner = &mut self.partner;
        let cable = &mut self.cable;
        port::fresh(&mut partner.entered, &mut cable.entered)
    }

    pub(crate) fn to(&self, side: Side) -> &Memory
        ensures { result.now ≡ memory_of side self.now }
    {
        match side {
            Side::Partner => &self.partner,
            Side::Cable => &self.cable,
        }
    }

    pub(crate) fn to_mut(&mut self, side: Side) -> &mut Memory
        ensures* lends { sem 𝓛 (LendsMemory self.entry side result) }
        ensures value { result.now ≡ memory_of side self.old }
    {
        match side {
            Side::Partner => &mut self.partner,
            Side::Cable => &mut self.cable,
        }
    }

    // A message from the side.
    pub fn hear(&mut self, port: Port, side: Side, bytes: &[u8]) -> Result<Accepted, Refused>
        ensures heard { Heard side port bytes.now (memory_of side self.old) (memory_of side self.new) (stepped result) }
        ensures other { OthersStays side self.old self.new }
    {
        self.to_mut(side).hear(port, side, bytes)
    }

    // A call that is no message.
    pub fn make(
        &self,
        port: Port,
        side: Side,
        call: Call,
        out: &mut [u8],
    ) -> Result<Accepted, Refused>
        ensures { Made side port call (memory_of side self.now) out.old (stepped result) out.new }
    {
        self.to(side).make(port, side, call, out)
    }
}
