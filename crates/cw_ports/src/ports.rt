// The ports of an image that runs.
ghost use Rattle.std.specs.Prelude.{◌≡◌, ℕ, ◌-◌, ◌^◌, true, false};
ghost use Rattle.cw_io.specs.Bytes.{before_told, after_told, IsEnd};
ghost use Rattle.cw_ports.specs.Pieces.{part};
ghost use Rattle.cw_ports.specs.Supplies.{is_open};
ghost use Rattle.cw_ports.specs.Later.{InputLater, OutputLater, SidesLater, IsSettled, input_side, output_side, faults_of};
ghost use Rattle.cw_ports.specs.Sides.{IsNewInlet, IsNewOutlet, device_of, input_of, output_of, gathered_in};
ghost use Rattle.cw_ports.specs.Concluding.{IsFresh};
ghost use Rattle.cw_ports.specs.Laws.{input_stays, input_goes_on, output_stays, output_goes_on};

use crate::inlet::Inlet;
use crate::outlet::Outlet;
use cw_cpu86::Ports;
use cw_io::{Failed, Sink, Source};

/// A source and a sink as the ports of an image, both in pieces of 4,096 bytes, and what was told of the end.
///
/// Input is taken only where port 10h or 11h is used and no byte is in hand. Output is written when a piece is gathered, before each taking of input,
/// and where the run ends.
#[derive(Drop)]
pub struct ImagePorts<'a, 'b, I: Source, O> {
    pub(crate) inlet: Inlet<'a, I>,
    pub(crate) outlet: Outlet<'b, O>,
    pub(crate) kind: u8,
    pub(crate) segment: u8,
    pub(crate) line_low: u8,
    pub(crate) line_high: u8,
}

impl<'a, 'b, I: Source, O: Sink> ImagePorts<'a, 'b, I, O> {
    /// Ports to which nothing was told.
    pub fn new(inlet: Inlet<'a, I>, outlet: Outlet<'b, O>) -> ImagePorts<'a, 'b, I, O>
        requires unread { IsNewInlet inlet }
        requires unwritten { IsNewOutlet O.Sink outlet }
        ensures name { result.inlet.input.ghost_name ≡ inlet.entry.input.ghost_name }
        ensures source { result.inlet.input.now ≡ inlet.entry.input.now }
        ensures name_out { result.outlet.out.ghost_name ≡ outlet.entry.out.ghost_name }
        ensures sink { result.outlet.out.now ≡ outlet.entry.out.now }
        ensures fresh { IsFresh (device_of O.Sink result) (input_of result) (output_of O.Sink result) }
    {
        ImagePorts {
            inlet,
            outlet,
            kind: 0,
            segment: 0,
            line_low: 0,
            line_high: 0,
        }
    }
}

impl<I: Source, O: Sink> ImagePorts<'_, '_, I, O> {
    // Sees to it that a byte is in hand, or that the input has come to its end.
    #[tactic(auto, using(crate::proofs::Pieces::count_ends, crate::proofs::Pieces::settled_empty, crate::proofs::Pieces::settled_open))]
    fn ask(&mut self) -> bool
        ensures left { before_told (part self.new.inlet.bytes self.new.inlet.from self.new.inlet.to)
            (I.left self.new.inlet.input.now) ≡ before_told
            (part self.old.inlet.bytes self.old.inlet.from self.old.inlet.to) (I.left self.old.inlet.input.now) }
        ensures held { after_told (O.held self.new.outlet.out.now)
            (part self.new.outlet.bytes self.new.outlet.from self.new.outlet.to)
            ≡ after_told (O.held self.old.outlet.out.now)
            (part self.old.outlet.bytes self.old.outlet.from self.old.outlet.to) }
        ensures used { self.new.inlet.is_used ≡ true }
        ensures refused { result ≡ false → self.new.inlet.is_cut ≡ true }
        ensures granted { result ≡ true → self.new.inlet.is_cut ≡ self.old.inlet.is_cut }
        ensures settled { IsSettled self.old.inlet.supply self.old.outlet.to self.old.outlet.is_broken
            → IsSettled self.new.inlet.supply self.new.outlet.to self.new.outlet.is_broken }
        ensures kind { self.new.kind ≡ self.old.kind }
        ensures segment { self.new.segment ≡ self.old.segment }
        ensures line_low { self.new.line_low ≡ self.old.line_low }
        ensures line_high { self.new.line_high ≡ self.old.line_high }
        ensures end { result ≡ true → self.new.inlet.from ≡ self.new.inlet.to → IsEnd (I.left self.new.inlet.input.now) }
        ensures at_end { result ≡ true → self.new.inlet.from ≡ self.new.inlet.to → self.new.inlet.is_at_end ≡ true }
        ensures told { self.new.inlet.told_end ≡ self.old.inlet.told_end }
        ensures open { result ≡ true → is_open self.new.inlet.supply ≡ true }
        ensures fine { result ≡ true → (faults_of self.new.inlet.supply self.new.outlet.is_broken ≡ 0)
            × (faults_of self.old.inlet.supply self.old.outlet.is_broken ≡ 0) }
        ensures faulty { result ≡ false → faults_of self.new.inlet.supply self.new.outlet.is_broken ≡ 2 ^ 64 - 1 }
        ensures input { InputLater (input_side self.old.inlet.input.ghost_name (I.left self.old.inlet.input.now)
            (I.faults self.old.inlet.input.now) self.old.inlet.taken self.old.inlet.supply)
            (input_side self.new.inlet.input.ghost_name (I.left self.new.inlet.input.now)
            (I.faults self.new.inlet.input.now) self.new.inlet.taken self.new.inlet.supply) }
        ensures output { OutputLater (output_side self.old.outlet.out.ghost_name (O.held self.old.outlet.out.now)
            (O.faults self.old.outlet.out.now) self.old.outlet.is_broken)
            (output_side self.new.outlet.out.ghost_name (O.held self.new.outlet.out.now)
            (O.faults self.new.outlet.out.now) self.new.outlet.is_broken) }
    {
        self.inlet.is_used = true;
        if !self.inlet.supply.is_open() {
            return false;
        }
        if self.outlet.is_broken {
            self.inlet.is_cut = true;
            return false;
        }
        if self.inlet.from < self.inlet.to {
            return true;
        }
        if self.inlet.is_at_end {
            return true;
        }
        if !self.outlet.flush() {
            self.inlet.is_cut = true;
            return false;
        }
        self.inlet.fill()
    }
}

impl<I: Source, O: Sink> Ports for ImagePorts<'_, '_, I, O> {
    ghost device = { λ p. device_of O.Sink p };

    ghost faults = { λ p. faults_of p.inlet.supply p.outlet.is_broken };

    ghost becomes = { λ p q. SidesLater (input_of p) (output_of O.Sink p) (gathered_in p) (input_of q) (output_of O.Sink q) (gathered_in q) };

    fn take(&mut self, port: u8) -> Result<u8, Failed> {
        match port {
            0x10 => {
                if !self.ask() {
                    return Err(Failed);
                }
                if self.inlet.from < self.inlet.to {
                    Ok(self.inlet.next())
                } else {
                    Ok(0)
                }
            }
            0x11 => {
                if !self.ask() {
                    return Err(Failed);
                }
                let has_more = self.inlet.has_bytes();
                self.inlet.told_end = Some(!has_more);
                if has_more { Ok(0) } else { Ok(1) }
            }
            _ => Ok(0),
        }
    }

    #[tactic(auto, using(crate::proofs::Pieces::settled_open))]
    fn give(&mut self, port: u8, value: u8) -> Result<(), Failed> {
        match port {
            0x12 => {
                if self.outlet.is_broken {
                    return Err(Failed);
                }
                if !self.inlet.supply.is_open() {
                    return Err(Failed);
                }
                if !self.outlet.push(value) {
                    return Err(Failed);
                }
            }
            0x13 => self.kind = value,
            0x14 => self.segment = value,
            0x15 => self.line_low = value,
            0x16 => self.line_high = value,
            _ => {}
        }
        Ok(())
    }

    ghost stays = { λ p. (input_stays _, output_stays _, λ settled. settled) };

    ghost goes_on = { λ p q r first second. (
      input_goes_on _ _ _ first.0 second.0,
      output_goes_on _ _ _ first.1 second.1,
      λ settled. second.2 (first.2 settled),
    ) };
}
