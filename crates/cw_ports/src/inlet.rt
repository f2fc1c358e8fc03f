// The input of a run: a source, and the bytes of it that are in hand.
ghost use Rattle.std.specs.Prelude.{◌≡◌, ℕ, ◌+◌, ◌<◌, ◌≤◌, ◌∷◌, length, nat_lt, Some, None, true, false};
ghost use Rattle.cw_io.specs.Bytes.{before_told, IsEnd};
ghost use Rattle.cw_ports.specs.Pieces.{part, left_count, input_limit};
ghost use Rattle.cw_ports.specs.Supplies.{is_open};
ghost use Rattle.cw_ports.specs.Later.{InputLater, input_side};
ghost use Rattle.cw_ports.specs.declared.supply.Supply.TheVariants.{Faulty};

use crate::supply::Supply;
use cw_io::Source;

/// The most bytes that are asked for at once, and the most that are gathered.
pub(crate) const PIECE: usize = 4096;

/// The most bytes that an input may have.
const INPUT_LIMIT: usize = 16_777_216;

/// A source, the bytes taken from it that are in hand, how many were taken, whether a byte was refused, whether the source said that
/// it is at its end, and what the program was told of that and took no byte since. A source at its end is not asked again, since one that tells nothing of its
/// bytes, as a terminal, could give more.
#[derive(Drop)]
pub struct Inlet<'a, I: Source> {
    pub(crate) input: &'a mut I,
    pub(crate) bytes: [u8; PIECE],
    pub(crate) from: usize,
    pub(crate) to: usize,
    pub(crate) taken: usize,
    pub(crate) is_used: bool,
    pub(crate) is_cut: bool,
    pub(crate) supply: Supply,
    pub(crate) is_at_end: bool,
    pub(crate) told_end: Option<bool>,
    ghost order: { from ≤ to },
    ghost room: { to ≤ 4096 },
    ghost unused: { is_used ≡ false → taken ≡ 0 },
    ghost ended: { is_at_end ≡ true → left_count (I.left input.now) ≡ 0 },
    ghost open: { is_open supply ≡ true → taken ≤ input_limit },
    ghost more: { told_end ≡ Some false → from < to },
    ghost no_more: { told_end ≡ Some true → (from ≡ to) × (is_at_end ≡ true) },
    ghost over: { is_open supply ≡ false → told_end ≡ None },
    ghost cut: { is_open supply ≡ false → is_cut ≡ true },
    ghost dry: { supply ≡ Faulty → from ≡ to },
}

impl<'a, I: Source> Inlet<'a, I> {
    ghost use Rattle.cw_ports.specs.Sides.{IsNewInlet};

    /// An input of which nothing was asked.
    pub fn new(input: &'a mut I) -> Inlet<'a, I>
        ensures name { result.input.ghost_name ≡ input.entry.ghost_name }
        ensures source { result.input.now ≡ input.old }
        ensures unread { IsNewInlet result }
    {
        Inlet {
            input,
            bytes: [0; PIECE],
            from: 0,
            to: 0,
            taken: 0,
            is_used: false,
            is_cut: false,
            supply: Supply::Open,
            is_at_end: false,
            told_end: None,
        }
    }

    /// Takes a piece of the input, where none is in hand, and answers whether that went well. It asks for no byte past the first one over the limit.
    #[tactic(auto, using(crate::proofs::Pieces::end_counts))]
    pub(crate) fn fill(&mut self) -> bool
        requires none { self.old.from ≡ self.old.to }
        requires used { self.old.is_used ≡ true }
        requires open { is_open self.old.supply ≡ true }
        requires more { self.old.is_at_end ≡ false }
        ensures left { before_told (part self.new.bytes self.new.from self.new.to) (I.left self.new.input.now)
            ≡ before_told (part self.old.bytes self.old.from self.old.to) (I.left self.old.input.now) }
        ensures later { InputLater (input_side self.old.input.ghost_name (I.left self.old.input.now)
            (I.faults self.old.input.now) self.old.taken self.old.supply)
            (input_side self.new.input.ghost_name (I.left self.new.input.now) (I.faults self.new.input.now)
            self.new.taken self.new.supply) }
        ensures end { result ≡ true → self.new.from ≡ self.new.to → IsEnd (I.left self.new.input.now) }
        ensures at_end { result ≡ true → self.new.from ≡ self.new.to → self.new.is_at_end ≡ true }
        ensures told { self.new.told_end ≡ self.old.told_end }
        ensures open { result ≡ is_open self.new.supply }
        ensures used { self.new.is_used ≡ true }
        ensures granted { result ≡ true → self.new.is_cut ≡ self.old.is_cut }
    {
        let ask = PIECE.min(INPUT_LIMIT + 1 - self.taken);
        let mut bytes = self.bytes;
        match self.input.read(&mut bytes[..ask]) {
            Ok(count) => {
                self.bytes = bytes;
                self.from = 0;
                self.to = count;
                let taken = self.taken + count;
                if taken > INPUT_LIMIT {
                    self.supply = Supply::TooLong;
                    self.is_cut = true;
                }
                self.taken = taken;
                self.is_at_end = count == 0;
                taken <= INPUT_LIMIT
            }
            Err(_) => {
                self.supply = Supply::Faulty;
                self.is_cut = true;
                false
            }
        }
    }

    /// Whether a byte is in hand.
    pub(crate) fn has_bytes(&self) -> bool
        ensures test { result ≡ nat_lt self.now.from self.now.to }
        ensures some { result ≡ true → 0 < length (part self.now.bytes self.now.from self.now.to) }
    {
        self.from < self.to
    }

    /// The next byte in hand.
    pub(crate) fn next(&mut self) -> u8
        requires { self.old.from < self.old.to }
        ensures first { part self.old.bytes self.old.from self.old.to ≡ result ∷ part self.new.bytes self.new.from self.new.to }
        ensures input { self.new.input.now ≡ self.old.input.now }
        ensures name { self.new.input.ghost_name ≡ self.old.input.ghost_name }
        ensures taken { self.new.taken ≡ self.old.taken }
        ensures used { self.new.is_used ≡ self.old.is_used }
        ensures cut { self.new.is_cut ≡ self.old.is_cut }
        ensures supply { self.new.supply ≡ self.old.supply }
        ensures told { self.new.told_end ≡ None }
    {
        let value = self.bytes[self.from];
        self.told_end = None;
        self.from += 1;
        value
    }
}
