//! Each function of cw_word on its edges. The digests were computed outside, from exact fractions.
use crate::tree::{Tree, value};
use cw_word::*;
use std::alloc::Global;
use std::test::Fail;

const EDGES: &[i16] = &[
    -32768, -32767, -16385, -256, -3, -1, 0, 1, 2, 255, 16384, 32767,
];

const BITS: &[u16] = &[0, 1, 0x1234, 0x5555, 0x7fff, 0x8000, 0xaaaa, 0xffff];

// Numbers with a point: the whole part, the digits after it, and how many these are.
const NUMBERS: &[(u64, u64, u8)] = &[
    (0, 0, 0),
    (0, 5, 1),
    (0, 999_999_999_999, 12),
    (0, 1, 12),
    (1, 0, 0),
    (2, 5, 1),
    (123, 456, 3),
    (999, 999, 3),
    (16383, 999_999_999_999, 12),
    (16384, 0, 0),
    (32767, 999_999_999_999, 12),
    (32768, 0, 0),
    (999_999_999_999, 999_999_999_999, 12),
];

#[derive(Clone, Copy)]
struct Digest(u32);

impl Digest {
    fn add(&mut self, value: u32) {
        self.0 = self.0.wrapping_mul(31).wrapping_add(value);
    }

    fn word(&mut self, word: i16) {
        self.add((i32::from(word) + 40000).unsigned_abs());
    }

    fn outcome(&mut self, outcome: Result<i16, Over>) {
        match outcome {
            Ok(word) => self.word(word),
            Err(Over) => self.add(1),
        }
    }
}

fn sums() -> u32 {
    let mut digest = Digest(0);
    for &a in EDGES {
        for &b in EDGES {
            digest.outcome(sum(a, b));
            digest.outcome(difference(a, b));
        }
        digest.outcome(negate(a));
    }
    digest.0
}

fn rescaled() -> u32 {
    let mut digest = Digest(0);
    for &word in EDGES {
        for from in 0..16 {
            for to in 0..16 {
                digest.outcome(rescale(word, from, to));
            }
        }
    }
    digest.0
}

fn products() -> u32 {
    let mut digest = Digest(0);
    for &a in EDGES {
        for &b in EDGES {
            for step in 0..46u8 {
                digest.outcome(product(a, b, step as i8 - 30));
            }
        }
    }
    digest.0
}

fn quotients() -> u32 {
    let mut digest = Digest(0);
    for &a in EDGES {
        for &b in EDGES {
            for step in 0..32u8 {
                match quotient(a, b, step as i8 - 15) {
                    Ok(word) => digest.word(word),
                    Err(Arith::Over) => digest.add(1),
                    Err(Arith::Zero) => digest.add(2),
                }
            }
        }
    }
    digest.0
}

fn fields() -> u32 {
    let mut digest = Digest(0);
    for &word in BITS {
        for t in 1..17 {
            for b in 0..17 - t {
                digest.add(u32::from(take_bits(word, t, b)));
                digest.word(take_signed(word, t, b));
                for &value in BITS {
                    digest.add(u32::from(put_bits(word, t, b, value)));
                }
            }
        }
    }
    digest.0
}

fn numbers() -> u32 {
    let mut digest = Digest(0);
    for &(whole, digits, places) in NUMBERS {
        if whole < 1_000_000_000_000 && places <= 12 && digits < 10u64.pow(u32::from(places)) {
            for scale in 0..16 {
                digest.outcome(decimal(whole, digits, places, scale));
            }
            match best_scale(whole, digits, places) {
                Ok(scale) => digest.add(u32::from(scale) + 40000),
                Err(Over) => digest.add(1),
            }
        }
    }
    digest.0
}

#[test]
fn digests(rt: HostRuntime) {
    for (digest, wanted) in &[
        (sums(), 1262373016),
        (rescaled(), 930682428),
        (products(), 3840369264),
        (quotients(), 793334503),
        (fields(), 658527700),
        (numbers(), 1175684087),
    ] {
        assert_eq!(rt; *digest, *wanted);
    }
}

#[test]
fn words(rt: HostRuntime) {
    for (word, wanted) in &[
        (sum(32767, 1), Err(Over)),
        (negate(-32768), Err(Over)),
        (rescale(-1, 2, 0), Ok(-1)),
        (product(80, 80, -5), Ok(200)),
        (decimal(2, 5, 1, 5), Ok(80)),
    ] {
        assert_eq!(rt; *word, *wanted);
    }
    for (word, wanted) in &[
        (quotient(-7, 2, 0), Ok(-3)),
        (quotient(-32768, -1, 0), Err(Arith::Over)),
        (quotient(1, 0, 0), Err(Arith::Zero)),
    ] {
        assert_eq!(rt; *word, *wanted);
    }
    assert_eq!(rt; put_bits(put_bits(0, 5, 5, 9), 5, 0, 31), 319);
    assert_eq!(rt; take_signed(319, 5, 0), -1);
    assert_eq!(rt; best_scale(2, 5, 1), Ok(13));
}

const NAMES: &[(&[u8], bool)] = &[
    (b"A", true),
    (b"A234567890123456789012345678901", true),
    (b"A2345678901234567890123456789012", false),
    (b"", false),
    (b"1A", false),
    (b"Z9A0", true),
    (b"Aa", false),
    (b"A B", false),
];

#[test]
fn names(rt: HostRuntime) {
    for &(bytes, is_name) in NAMES {
        match Name::new(bytes) {
            Some(name) => {
                assert!(rt; is_name);
                assert_eq!(rt; name.bytes(), bytes);
                assert!(rt; Name::new(name.bytes()) == Some(name));
            }
            None => assert!(rt; !is_name),
        }
    }
}

#[test]
fn lists(rt: HostRuntime) -> Result<(), Fail> {
    let alloc = rt.alloc();
    let mut list = List::new(alloc);
    list.push(3u8)?;
    list.push(4)?;
    let copy = list.clone()?;
    assert_eq!(rt; copy.as_slice(), [3, 4].as_slice());
    assert!(rt; copy == list);
    list.push(5)?;
    assert!(rt; copy != list);
    let taken = List::of(vec![in alloc; 3u8, 4]?);
    assert!(rt; copy == taken);
    Ok(())
}

// The sum of the largest word, of 2 with its sign turned, and of a word.
fn sum_with(alloc: Global, word: i16) -> Result<Tree, NoMemory> {
    let mut terms = List::new(alloc);
    terms.push(Tree::Word(32767))?;
    terms.push(Tree::Negative(Boxed::new(alloc, Tree::Word(2))?))?;
    terms.push(Tree::Word(word))?;
    Ok(Tree::Sum(terms))
}

#[test]
fn trees(rt: HostRuntime) -> Result<(), Fail> {
    let alloc = rt.alloc();
    let three = Boxed::new(alloc, 3i16)?;
    assert_eq!(rt; *three.get(), 3);
    assert_eq!(rt; value(&sum_with(alloc, three.into_inner())?), None);
    assert_eq!(rt; value(&Tree::Word(7)), Some(7));
    let lowest = Boxed::new(alloc, Tree::Word(-32768))?;
    assert_eq!(rt; value(&Tree::Negative(lowest)), None);
    Ok(())
}
