//! Code of blocks of several orders.
ghost use Rattle.std.specs.Prelude.{◌≡◌, ◌≤◌, ◌+◌, ◌-ℤ◌, true, false, ◌<◌, ◌++◌, ◌∷◌, [], length};
ghost use Rattle.cw_order.specs.HasCode.{HasCode};
ghost use Rattle.cw_order.specs.declared.order.Order.TheVariants as order;
ghost use Rattle.cw_assemble.specs.Growing.{Adds};
ghost use Rattle.cw_tmpl.specs.Blocks.{is_within, form_within, TestsWithin, OperandWithin, NamesParts};
ghost use Rattle.cw_tmpl.specs.Names.{no_names};
ghost use Rattle.cw_tmpl.specs.Pieces.{IsCoded};
ghost use Rattle.cw_tmpl.specs.declared.pieces.Target.TheVariants as target;
ghost use Rattle.cw_tmpl.specs.declared.pieces.Coded.TheVariants as coded;
ghost use Rattle.cw_tmpl.specs.declared.blocks.Block.TheVariants as block;
ghost use Rattle.cw_tmpl.specs.declared.blocks.Simple.TheVariants as simple;
ghost use Rattle.cw_tmpl.specs.Templates.{address_pieces, load_place, store_place, operate_place, change_place};
ghost use Rattle.cw_tmpl.specs.Templates.{index_added, index_loaded, from_lower, indexes_between};
ghost use Rattle.cw_tmpl.specs.Templates.{index_below, address_tested, index_tested, element_address, operation};
ghost use Rattle.cw_tmpl.specs.Templates.{with_operand, product_with, pieces_size, checked_by};
ghost use Rattle.cw_tmpl.specs.Templates.{branch_by, template_by, operated, word_compared, top_from_lower, times_entry, formed, bounded_address, block_pieces};

use crate::calling::frame_field;
use crate::checks::{put_check, put_count};
use crate::draft::Draft;
use crate::indexes::{indexes_to, put_times_entry, put_top_below, put_top_from_lower};
use crate::jumping::put_branch;
use crate::orders::{put_order, put_short_order};
use crate::parts::{put_part_taken, put_shifted_down_signed, put_shifted_up};
use crate::rows::put_row;
use crate::words::mask;
use cw_i86::Instr;
use cw_order::{Comparator, Order, Place};
use cw_tmpl::instructions::{
    AT_SI, AX, BASE, BX, CX, DI, SI, change, compare, compare_number, copy, divide_signed, double,
    jump_if_below, load, multiply, operate, operate_number, set_word, store, with_number,
};
use cw_tmpl::library::{ADDRESS, BOUNDS};
use cw_tmpl::{Block, Bounded, Bounds, Coded, Element, Form, Names, Simple, Target, Test, Use};

/// Adds what is needed before an instruction names a place.
fn put_address(code: &mut Draft, place: Place)
    ensures { Adds code.old (address_pieces place) code.new }
{
    match place {
        Place::Word { .. } => code.put_nothing(),
        Place::Frame(_) => code.put_all(&[Coded::Whole(load(BX, BASE))]),
    }
}

/// AX from a place.
fn load_place(place: Place) -> Coded
    ensures value { result ≡ load_place place }
    ensures coded { IsCoded result }
{
    match place {
        Place::Word { family, offset } => Coded::Load(Target::Bytes { family, offset }),
        Place::Frame(offset) => Coded::Whole(load(AX, frame_field(offset))),
    }
}

/// AX to a place.
fn store_place(place: Place) -> Coded
    ensures value { result ≡ store_place place }
    ensures coded { IsCoded result }
{
    match place {
        Place::Word { family, offset } => Coded::Store(Target::Bytes { family, offset }),
        Place::Frame(offset) => Coded::Whole(store(frame_field(offset), AX)),
    }
}

/// An operation of the arithmetic unit on AX and the word at a place.
fn operate_place(number: u8, place: Place) -> Coded
    requires { number < 8 }
    ensures value { result ≡ operate_place number place }
    ensures coded { IsCoded result }
{
    match place {
        Place::Word { family, offset } => Coded::Operate {
            operation: number,
            reg: AX,
            target: Target::Bytes { family, offset },
        },
        Place::Frame(offset) => Coded::Whole(operate(number, AX, frame_field(offset))),
    }
}

/// The same on the word at a place, which changes, and AX.
fn change_place(number: u8, place: Place) -> Coded
    requires { number < 8 }
    ensures value { result ≡ change_place number place }
    ensures coded { IsCoded result }
{
    match place {
        Place::Word { family, offset } => Coded::Change {
            operation: number,
            reg: AX,
            target: Target::Bytes { family, offset },
        },
        Place::Frame(offset) => Coded::Whole(change(number, frame_field(offset), AX)),
    }
}

/// Adds SI with the address of a word of a family and the word at a place added.
fn put_index(code: &mut Draft, index: Place, family: u16, offset: u16)
    ensures { Adds code.old (index_added index family offset) code.new }
{
    let base = Coded::Move {
        reg: SI,
        target: Target::Word { family, offset },
    };
    match index {
        Place::Word { family, offset } => code.put_all(&[
            base,
            Coded::Operate {
                operation: 0,
                reg: SI,
                target: Target::Bytes { family, offset },
            },
        ]),
        Place::Frame(offset) => code.put_all(&[
            Coded::Whole(load(BX, BASE)),
            base,
            Coded::Whole(operate(0, SI, frame_field(offset))),
        ]),
    }
}

/// Adds the address of an element, compared with the length of the data area and doubled, in SI. `zero` is the word that index 0 names.
fn put_address_tested(code: &mut Draft, element: Element, zero: u16)
    ensures { Adds code.old (address_tested element zero) code.new }
{
    put_index(code, element.index, element.family, zero);
    code.put_all(&[
        Coded::Whole(compare(SI, DI)),
        Coded::Whole(jump_if_below(5)),
        Coded::Call(Target::LibraryAhead(ADDRESS)),
        Coded::Data(element.line),
        Coded::Whole(double(SI)),
    ]);
}

/// Adds SI from a place.
pub(crate) fn put_index_loaded(code: &mut Draft, index: Place)
    ensures { Adds code.old (index_loaded index) code.new }
{
    match index {
        Place::Word { family, offset } => code.put_all(&[Coded::Fetch {
            reg: SI,
            target: Target::Bytes { family, offset },
        }]),
        Place::Frame(offset) => code.put_all(&[
            Coded::Whole(load(BX, BASE)),
            Coded::Whole(load(SI, frame_field(offset))),
        ]),
    }
}

/// Adds SI less a lower bound.
pub(crate) fn put_from_lower(code: &mut Draft, lower: i16)
    ensures { Adds code.old (from_lower lower) code.new }
{
    if lower == 0 {
        code.put_nothing();
    } else {
        code.put_all(&[Coded::Whole(operate_number(5, SI, lower.cast_unsigned()))]);
    }
}

/// How many indexes are between the bounds of an element.
pub(crate) fn indexes_between(lower: i16, upper: i16, span: u16) -> u16
    requires { is_within (upper -ℤ lower) span ≡ true }
    ensures { result ≡ indexes_between (upper -ℤ lower) }
{
    (i32::from(upper) - i32::from(lower) + 1) as u16
}

/// Adds the comparison of SI with so many indexes, and the address of the word that SI then counts from, doubled, in SI.
fn put_index_below(code: &mut Draft, count: u16, line: u16, family: u16, first: u16)
    ensures { Adds code.old (index_below count line family first) code.new }
{
    code.put_all(&[
        Coded::Whole(operate_number(7, SI, count)),
        Coded::Whole(jump_if_below(5)),
        Coded::Call(Target::LibraryAhead(BOUNDS)),
        Coded::Data(line),
        Coded::Sum {
            reg: SI,
            target: Target::Word {
                family,
                offset: first,
            },
        },
        Coded::Whole(double(SI)),
    ]);
}

/// Adds the address of an element whose index is compared with its bounds, doubled, in SI.
fn put_index_tested(code: &mut Draft, element: Element, upper: i16, line: u16)
    requires { is_within (upper -ℤ element.lower) element.span ≡ true }
    ensures { Adds code.old (index_tested element upper line) code.new }
{
    put_index_loaded(code, element.index);
    put_from_lower(code, element.lower);
    let count = indexes_between(element.lower, upper, element.span);
    put_index_below(code, count, line, element.family, element.first);
}

/// Adds the address of an element, tested and doubled, in SI.
fn put_element_address(code: &mut Draft, element: Element)
    requires { TestsWithin element element.test }
    ensures { Adds code.old (element_address element) code.new }
{
    match element.test {
        Test::Address { zero } => put_address_tested(code, element, zero),
        Test::Bounds { upper, line } => put_index_tested(code, element, upper, line),
    }
}

/// Adds the address of an element and an instruction behind it.
fn put_at_element(code: &mut Draft, element: Element, last: Coded)
    requires last { IsCoded last }
    requires within { TestsWithin element element.test }
    ensures { Adds code.old (element_address element ++ last ∷ []) code.new }
{
    put_element_address(code, element);
    code.put_all(&[last]);
}

fn put_fetch_part(code: &mut Draft, place: Place, t: u8, b: u8, signed: bool)
    requires { t + b ≤ 16 }
    ensures { Adds code.old (block_pieces no_names 0 0 false (block.FetchPart place t b signed) order.Save) code.new }
{
    put_address(code, place);
    code.put_all(&[load_place(place)]);
    put_part_taken(code, t, b, signed);
}

fn put_assign_part(code: &mut Draft, place: Place, t: u8, b: u8)
    requires some { 1 ≤ t }
    requires within { t + b ≤ 16 }
    ensures { Adds code.old (block_pieces no_names 0 0 false (block.AssignPart place t b) order.Save) code.new }
{
    put_shifted_up(code, b);
    put_address(code, place);
    code.put_all(&[
        operate_place(6, place),
        Coded::Whole(with_number(4, mask(t, b))),
        change_place(6, place),
    ]);
}

fn put_fetch(code: &mut Draft, place: Place)
    ensures { Adds code.old (address_pieces place ++ load_place place ∷ []) code.new }
{
    put_address(code, place);
    code.put_all(&[load_place(place)]);
}

fn put_assign(code: &mut Draft, place: Place)
    ensures { Adds code.old (address_pieces place ++ store_place place ∷ []) code.new }
{
    put_address(code, place);
    code.put_all(&[store_place(place)]);
}

fn put_operation_at(code: &mut Draft, number: u8, place: Place)
    requires { number < 8 }
    ensures { Adds code.old (address_pieces place ++ operate_place number place ∷ []) code.new }
{
    put_address(code, place);
    code.put_all(&[operate_place(number, place)]);
}

/// Adds an operation on AX and a simple operand.
fn put_with_operand(code: &mut Draft, number: u8, operand: Simple)
    requires number { number < 8 }
    requires within { OperandWithin operand }
    ensures { Adds code.old (with_operand number operand) code.new }
{
    match operand {
        Simple::Number(word) => code.put_all(&[Coded::Whole(with_number(number, word))]),
        Simple::Contents(place) => put_operation_at(code, number, place),
        Simple::Element(element) => {
            put_at_element(code, element, Coded::Whole(operate(number, AX, AT_SI)))
        }
    }
}

fn put_product_at(code: &mut Draft, place: Place)
    ensures { Adds code.old (product_with (simple.Contents place)) code.new }
{
    code.put_all(&[Coded::Whole(copy(CX, AX))]);
    put_address(code, place);
    code.put_all(&[load_place(place), Coded::Whole(multiply(CX))]);
}

fn put_product_of(code: &mut Draft, element: Element)
    requires { TestsWithin element element.test }
    ensures { Adds code.old (product_with (simple.Element element)) code.new }
{
    code.put_all(&[Coded::Whole(copy(CX, AX))]);
    put_element_address(code, element);
    code.put_all(&[Coded::Whole(load(AX, AT_SI)), Coded::Whole(multiply(CX))]);
}

/// Adds a product of AX and a simple operand.
fn put_product_with(code: &mut Draft, operand: Simple)
    requires { OperandWithin operand }
    ensures { Adds code.old (product_with operand) code.new }
{
    match operand {
        Simple::Number(word) => code.put_all(&[
            Coded::Whole(set_word(BX, word)),
            Coded::Whole(multiply(BX)),
        ]),
        Simple::Contents(place) => put_product_at(code, place),
        Simple::Element(element) => put_product_of(code, element),
    }
}

/// Adds a sum or a difference, and its check.
fn put_sum(code: &mut Draft, short: bool, number: u8, operand: Simple, line: u16, to: u32)
    requires number { number < 8 }
    requires within { OperandWithin operand }
    ensures { Adds code.old (with_operand number operand
        ++ checked_by short line (length code.old.assembly.bytes + pieces_size (with_operand number operand)) to)
        code.new }
{
    put_with_operand(code, number, operand);
    put_check(code, short, line, to);
}

/// Adds a product, and its check.
fn put_product(code: &mut Draft, short: bool, operand: Simple, line: u16, to: u32)
    requires { OperandWithin operand }
    ensures { Adds code.old (product_with operand ++ checked_by short line
        (length code.old.assembly.bytes + pieces_size (product_with operand)) to) code.new }
{
    put_product_with(code, operand);
    put_check(code, short, line, to);
}

/// Adds a jump where a comparison of AX with a simple operand holds.
fn put_comparison(code: &mut Draft, short: bool, operand: Simple, comparator: Comparator, to: u32)
    requires { OperandWithin operand }
    ensures { Adds code.old (with_operand 7 operand ++ branch_by short comparator
        (length code.old.assembly.bytes + pieces_size (with_operand 7 operand)) to) code.new }
{
    put_with_operand(code, 7, operand);
    put_branch(code, short, comparator, to);
}

/// Adds the code of a simple operand and an order that uses it, whose jump may be short, or whose check may jump back.
fn put_operated(
    code: &mut Draft,
    short: bool,
    operand: Simple,
    with: Use,
    number: usize,
    names: &Names,
)
    requires { OperandWithin operand }
    ensures { Adds code.old (operated names.now (length code.old.assembly.bytes) number short operand with) code.new }
{
    let call = names.call(number);
    match with {
        Use::Add(line) => put_sum(code, short, 0, operand, line, call),
        Use::Subtract(line) => put_sum(code, short, 5, operand, line, call),
        Use::Multiply(line) => put_product(code, short, operand, line, call),
        Use::Mask => put_with_operand(code, 4, operand),
        Use::Union => put_with_operand(code, 1, operand),
        Use::Differ => put_with_operand(code, 6, operand),
        Use::Compare { comparator, mark } => {
            put_comparison(code, short, operand, comparator, names.mark(mark))
        }
    }
}

/// Adds a word of the frame compared with a number.
fn put_word_compared(code: &mut Draft, offset: u16, with: u16)
    ensures { Adds code.old (word_compared offset with) code.new }
{
    code.put_all(&[
        Coded::Whole(load(BX, BASE)),
        Coded::Whole(compare_number(frame_field(offset), with)),
    ]);
}

/// Adds what fetches two words of the frame, the first one first.
fn put_both(code: &mut Draft, first: u16, second: u16)
    ensures { Adds code.old (block_pieces no_names 0 0 false (block.FetchBoth first second) order.Save) code.new }
{
    code.put_all(&[
        Coded::Whole(load(BX, BASE)),
        Coded::Whole(load(AX, frame_field(first))),
        Coded::Whole(Instr::Push(AX)),
        Coded::Whole(load(AX, frame_field(second))),
    ]);
}

/// Adds a jump where a comparison of a word of the frame with a number holds.
fn put_compare_word(
    code: &mut Draft,
    short: bool,
    offset: u16,
    with: u16,
    comparator: Comparator,
    to: u32,
)
    ensures { Adds code.old (word_compared offset with
        ++ branch_by short comparator (length code.old.assembly.bytes + pieces_size (word_compared offset with)) to)
        code.new }
{
    put_word_compared(code, offset, with);
    put_branch(code, short, comparator, to);
}

/// Adds the address of a word of the entry whose number is in AX.
pub(crate) fn put_entry_formed(code: &mut Draft, family: u16, first: u16, width: u16, word: u16)
    requires { first + word < 65536 }
    ensures { Adds code.old (times_entry width ++ coded.Sum 0 (target.Word family (first + word)) ∷ []) code.new }
{
    put_times_entry(code, width);
    code.put_all(&[Coded::Sum {
        reg: AX,
        target: Target::Word {
            family,
            offset: first + word,
        },
    }])
}

/// Adds the address that is formed of an index in AX.
fn put_formed(code: &mut Draft, bounds: Bounds, family: u16, first: u16, form: Form)
    requires { form_within bounds first form ≡ true }
    ensures { Adds code.old (formed family first form) code.new }
{
    match form {
        Form::Element { .. } => code.put_all(&[Coded::Sum {
            reg: AX,
            target: Target::Word {
                family,
                offset: first,
            },
        }]),
        Form::Entry { width, word, .. } => put_entry_formed(code, family, first, width, word),
    }
}

/// How many indexes are between the bounds of one of which an address is formed.
fn indexes_formed(bounds: Bounds, first: u16, form: Form) -> u16
    requires { form_within bounds first form ≡ true }
    ensures { result ≡ indexes_between (bounds.upper -ℤ bounds.lower) }
{
    match form {
        Form::Element { span, .. } => indexes_between(bounds.lower, bounds.upper, span),
        Form::Entry { .. } => indexes_to(bounds.upper),
    }
}

/// Adds the comparison of an index with its bounds, and the address that is formed of it.
fn put_bounded(code: &mut Draft, bounded: Bounded)
    requires { form_within bounded.bounds bounded.first bounded.form ≡ true }
    ensures { Adds code.old (bounded_address bounded) code.new }
{
    let Bounded {
        bounds,
        family,
        first,
        form,
    } = bounded;
    let count = indexes_formed(bounds, first, form);
    put_top_from_lower(code, bounds.lower);
    put_top_below(code, bounds.line, count);
    put_formed(code, bounds, family, first, form);
}

/// Adds the code of a quotient by a number in the processor's own division.
fn put_divided_by(code: &mut Draft, number: u16)
    ensures { Adds code.old (block_pieces no_names 0 0 false (block.Divide number 0) order.Save) code.new }
{
    code.put_all(&[
        Coded::Whole(set_word(BX, number)),
        Coded::Whole(Instr::Cwd),
        Coded::Whole(divide_signed(BX)),
    ]);
}

/// Adds the code of an order alone, whose jump may be short, or whose check may jump back.
fn put_single(code: &mut Draft, short: bool, order: &Order, number: usize, names: &Names)
    requires { HasCode order.now }
    ensures { Adds code.old (template_by short names.now (length code.old.assembly.bytes) number order.now) code.new }
{
    if short {
        put_short_order(code, order, number, names);
    } else {
        put_order(code, order, names);
    }
}

/// Adds the code of a block that begins with an order of this number, and whose jump may be short, or whose check may jump back.
pub(crate) fn put_block(
    code: &mut Draft,
    short: bool,
    block: Block,
    order: &Order,
    number: usize,
    names: &Names,
)
    requires code { HasCode order.now }
    requires parts { NamesParts block }
    ensures { Adds code.old (block_pieces names.now (length code.old.assembly.bytes) number short block order.now) code.new }
{
    match block {
        Block::Within(_) => code.put_nothing(),
        Block::Single => put_single(code, short, order, number, names),
        Block::Fetch(place) => put_fetch(code, place),
        Block::Assign(place) => put_assign(code, place),
        Block::Write => code.put_all(&[Coded::Whole(Instr::Out(0x12))]),
        Block::Divide { by, .. } => put_divided_by(code, by),
        Block::Operate { operand, with } => {
            put_operated(code, short, operand, with, number, names)
        }
        Block::FetchPart {
            place,
            t,
            b,
            signed,
        } => put_fetch_part(code, place, t, b, signed),
        Block::AssignPart { place, t, b } => put_assign_part(code, place, t, b),
        Block::FetchElement(element) => {
            put_at_element(code, element, Coded::Whole(load(AX, AT_SI)))
        }
        Block::AssignElement(element) => {
            put_at_element(code, element, Coded::Whole(store(AT_SI, AX)))
        }
        Block::Count { down, line } => { put_count(code, short, down, line, names.call(number)) }
        Block::Halve { places, .. } => put_shifted_down_signed(code, places),
        Block::Bounded(bounded) => put_bounded(code, bounded),
        Block::Row(row) => put_row(code, row),
        Block::FetchBoth { first, second } => put_both(code, first, second),
        Block::CompareWord {
            offset,
            with,
            comparator,
            mark,
        } => put_compare_word(code, short, offset, with, comparator, names.mark(mark)),
    }
}
