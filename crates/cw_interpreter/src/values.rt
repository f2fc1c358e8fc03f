//! Orders on words: loading and storing, numbers, bits, addresses, tests, and bytes.
use crate::machine::{ADDRESS, BOUNDS, End, Machine, OVERFLOW, ZERO_DIVISOR};
use crate::words::{bits_of, floor_scaled, signed_bits_of, trunc_scaled, with_bits};
use cw_order::Order;

impl<'a> Machine<'a> {
    pub(crate) fn carry_out(&mut self, order: &Order) {
        match order {
            Order::Save => {}
            Order::Const(word) => self.put(word.cast_signed()),
            Order::Home { family, offset } => self.put(self.home(*family, *offset)),
            Order::FrameHome(offset) => {
                let address = self.frame_home(*offset);
                self.put(address);
            }
            Order::Load => {
                let address = self.take_number();
                let word = self.word_at(address);
                self.put(word);
            }
            Order::Store => {
                let address = self.take_number();
                let word = self.take();
                self.store(address, word);
            }
            Order::LoadPart { t, b, signed } => self.load_part(*t, *b, *signed),
            Order::StorePart { t, b } => self.store_part(*t, *b),
            Order::Drop => {
                self.take();
            }
            _ => self.reckon(order),
        }
    }

    fn load_part(&mut self, t: u8, b: u8, signed: bool) {
        let address = self.take_number();
        let word = self.word_at(address);
        self.put(if signed {
            signed_bits_of(word, t, b)
        } else {
            bits_of(word, t, b).cast_signed()
        });
    }

    fn store_part(&mut self, t: u8, b: u8) {
        let address = self.take_number();
        let value = self.take();
        let old = self.word_at(address);
        self.store(address, with_bits(old, t, b, value));
    }

    // Orders on numbers.
    fn reckon(&mut self, order: &Order) {
        match order {
            Order::Rescale { from, to, .. } => {
                let x = self.take_number();
                let places = i32::from(*to).wrapping_sub(i32::from(*from));
                self.put_number(floor_scaled(x, places), OVERFLOW);
            }
            Order::Neg(_) => {
                let x = self.take_number();
                self.put_number(x.wrapping_neg(), OVERFLOW);
            }
            Order::Take { t, b } => {
                let x = self.take();
                self.put(bits_of(x, *t, *b).cast_signed());
            }
            _ => self.reckon_two(order),
        }
    }

    fn reckon_two(&mut self, order: &Order) {
        match order {
            Order::Add(_) => {
                let (x, y) = self.take_two();
                self.put_number(x.wrapping_add(y), OVERFLOW);
            }
            Order::Sub(_) => {
                let (x, y) = self.take_two();
                self.put_number(x.wrapping_sub(y), OVERFLOW);
            }
            Order::Mul { power, .. } => {
                let (x, y) = self.take_two();
                self.put_number(floor_scaled(x.wrapping_mul(y), i32::from(*power)), OVERFLOW);
            }
            Order::Div { power, .. } => {
                let (x, y) = self.take_two();
                match trunc_scaled(x, y, i32::from(*power)) {
                    Some(quotient) => self.put_number(quotient, OVERFLOW),
                    None => self.stop(ZERO_DIVISOR),
                }
            }
            _ => self.combine(order),
        }
    }

    // Takes two words, the top one last.
    fn take_two(&mut self) -> (i64, i64) {
        let y = self.take_number();
        let x = self.take_number();
        (x, y)
    }

    // Orders on bits.
    fn combine(&mut self, order: &Order) {
        match order {
            Order::And => {
                let y = self.take();
                let x = self.take();
                self.put(x & y);
            }
            Order::Or => {
                let y = self.take();
                let x = self.take();
                self.put(x | y);
            }
            Order::Xor => {
                let y = self.take();
                let x = self.take();
                self.put(x ^ y);
            }
            Order::Less => {
                let y = self.take();
                let x = self.take();
                self.put(x.wrapping_sub(y));
            }
            _ => self.address(order),
        }
    }

    // Orders on addresses.
    fn address(&mut self, order: &Order) {
        match order {
            Order::IndexLess { lower, .. } => {
                let i = self.take_number();
                self.put_number(i.wrapping_sub(i64::from(*lower)), ADDRESS);
            }
            Order::Element { lower, .. } => self.element(i64::from(*lower)),
            Order::ElementOfTwo {
                lower,
                second,
                width,
                ..
            }
            | Order::ElementInside {
                lower,
                second,
                width,
                ..
            } => self.element_of_two(i64::from(*lower), i64::from(*second), i64::from(*width)),
            Order::Entry { width, word, .. } => {
                self.entry(i64::from(*width), i64::from(*word));
            }
            _ => self.test(order),
        }
    }

    fn element(&mut self, lower: i64) {
        let (index, base) = self.take_two();
        let place = self.fitting(index.wrapping_sub(lower), ADDRESS);
        self.put_address(base.wrapping_add(place));
    }

    fn element_of_two(&mut self, lower: i64, second: i64, width: i64) {
        let base = self.take_number();
        let (i, j) = self.take_two();
        let row = self.fitting(i.wrapping_sub(lower), ADDRESS);
        let start = self.fitting(row.wrapping_mul(width), ADDRESS);
        let behind = self.fitting(j.wrapping_sub(second), ADDRESS);
        let place = self.fitting(start.wrapping_add(behind), ADDRESS);
        self.put_address(base.wrapping_add(place));
    }

    fn entry(&mut self, width: i64, word: i64) {
        let (number, base) = self.take_two();
        let start = self.fitting(number.wrapping_mul(width), ADDRESS);
        let place = self.fitting(start.wrapping_add(word), ADDRESS);
        self.put_address(base.wrapping_add(place));
    }

    // Puts an address, which must be a word and one of the data area.
    fn put_address(&mut self, address: i64) {
        match i16::try_from(address) {
            Ok(word) => {
                self.in_area(word);
                self.put(word);
            }
            Err(_) => self.stop(ADDRESS),
        }
    }

    // Tests, and bytes.
    fn test(&mut self, order: &Order) {
        match order {
            Order::InArea(_) => {
                let address = self.take_number();
                self.put_address(address);
            }
            Order::InBounds { lower, upper, .. } => {
                let index = self.take();
                if index < *lower || index > *upper {
                    self.stop(BOUNDS);
                }
                self.put(index);
            }
            Order::ReadByte => match self.input.split_first() {
                Some((byte, rest)) => {
                    self.input = rest;
                    self.put(i16::from(*byte));
                }
                None => self.put(-1),
            },
            Order::WriteByte => self.write(),
            _ => self.go(order),
        }
    }

    fn write(&mut self) {
        let [low, _] = self.take().to_le_bytes();
        if self.end.is_none() && self.output.push(low).is_err() {
            self.end_with(End::NoMemory);
        }
    }
}
