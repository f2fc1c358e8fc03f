//! The sizes of the code of orders and of their blocks.
ghost use Rattle.std.specs.Prelude.{◌≡◌, ◌≤◌, ◌+◌, ◌*◌, ◌++◌, ◌∷◌, [], true, false, IfOk};
ghost use Rattle.cw_order.specs.HasCode.{HasCode};
ghost use Rattle.cw_order.specs.declared.order.Order.TheVariants as order;
ghost use Rattle.cw_tmpl.specs.Blocks.{NamesParts};
ghost use Rattle.cw_tmpl.specs.declared.blocks.Block.TheVariants as block;
ghost use Rattle.cw_tmpl.specs.declared.blocks.Simple.TheVariants as simple;
ghost use Rattle.cw_order.specs.declared.order.Place.TheVariants as cell;
ghost use Rattle.cw_tmpl.specs.Templates.{address_pieces, load_place, store_place, pieces_size, field_size, frame_size, word_compared};
ghost use Rattle.cw_tmpl.specs.Templates.{doubled_size, loop_ways_size, order_size, block_size, argument_load_size};
ghost use Rattle.cw_tmpl.specs.ShortForms.{saved};
ghost use Rattle.cw_tmpl.specs.Sizes.{index_size, lower_size, element_size, used_size, shift_size, part_size, times_size, width_size};
ghost use Rattle.cw_tmpl.specs.Sizes.{bound_size, word_size, bounds_size, top_lower_size, times_entry_size, formed_size, listed_size, column_size};

use crate::calling::bytes_of_words;
use crate::words::power;
use cw_order::{Comparator, Order, Place};
use cw_tmpl::laws::sizes;
use cw_tmpl::{Block, Bounded, Column, Element, Form, Row, Simple, Test, Use, is_checked};
use cw_word::NoMemory;

/// How many bytes a multiplication by a number has.
fn times_size(number: u16) -> u32
    ensures { result ≡ times_size number }
{
    if number == 0x8000 { 14 } else { 12 }
}

/// The same of an entry's words.
fn width_size(width: u16) -> u32
    ensures is { result ≡ width_size width }
    ensures small { result ≤ 14 }
{
    if width == 1 { 0 } else { times_size(width) }
}

/// How many bytes an instruction has that loads a register from an argument.
fn argument_load_size(words: u16) -> u32
    requires { words ≤ 256 }
    ensures is { result ≡ argument_load_size words }
    ensures small { result ≤ 4 }
{
    if 4 + 2 * words < 128 { 3 } else { 4 }
}

/// How many bytes the call of a procedure parameter has.
pub(crate) fn call_special_size(words: u8) -> u32
    ensures is { result ≡ argument_load_size words + 9 }
    ensures small { result ≤ 13 }
{
    argument_load_size(u16::from(words)) + 9
}

/// How many bytes two such instructions have, for the words of a control parameter.
fn control_load_size(words: u8) -> u32
    ensures is { result ≡ argument_load_size (words + 1) + argument_load_size words }
    ensures small { result ≤ 8 }
{
    argument_load_size(u16::from(words) + 1) + argument_load_size(u16::from(words))
}

/// How many bytes the code of an index less its lower bound has.
fn bound_size(lower: i16) -> u32
    ensures is { result ≡ bound_size lower }
    ensures small { result ≤ 10 }
{
    if lower == 0 { 0 } else { 10 }
}

/// How many bytes the code has that adds the place of a word in its entry.
fn word_size(word: u16) -> u32
    ensures is { result ≡ word_size word }
    ensures small { result ≤ 10 }
{
    if word == 0 { 0 } else { 10 }
}

fn rescale_size(from: u8, to: u8) -> u32
    requires { to ≤ 15 }
    ensures { result ≡ listed_size (order.Rescale from to 0) }
{
    if from <= to {
        times_size(power(to - from))
    } else {
        5
    }
}

fn product_size(scale: i8) -> u32
    requires { HasCode (order.Mul scale 0) }
    ensures { result ≡ listed_size (order.Mul scale 0) }
{
    if scale > 0 {
        times_size(power(scale.unsigned_abs())) + 10
    } else if scale == 0 {
        10
    } else if scale >= -15 {
        14
    } else {
        10
    }
}

/// The bytes of a table of so many words, and of the code before it. NoMemory comes where the number is no u32.
pub(crate) fn table_size(before: u32, words: usize) -> Result<u32, NoMemory>
    ensures { IfOk result (λ n. n ≡ before + 2 * words) }
{
    match u32::try_from(words) {
        Ok(words) => match words.checked_mul(2) {
            Some(bytes) => sum(before, bytes),
            None => Err(NoMemory),
        },
        Err(_) => Err(NoMemory),
    }
}

/// A sum of sizes or places. NoMemory comes where it is no u32.
pub(crate) fn sum(a: u32, b: u32) -> Result<u32, NoMemory>
    ensures { IfOk result (λ n. n ≡ a + b) }
{
    match a.checked_add(b) {
        Some(sum) => Ok(sum),
        None => Err(NoMemory),
    }
}

/// How many bytes a shift by a number of places has.
fn shift_size(places: u8) -> u32
    ensures { result ≡ shift_size places }
{
    match places {
        0 => 0,
        1 => 2,
        _ => 5,
    }
}

/// How many bytes the code has that takes a part of a word.
fn part_size(t: u8, b: u8, signed: bool) -> u32
    requires { t + b ≤ 16 }
    ensures { result ≡ part_size t b signed }
{
    if signed {
        shift_size(16 - (t + b)) + shift_size(16 - t)
    } else if t + b == 16 {
        shift_size(b)
    } else {
        shift_size(b) + 3
    }
}

/// How many bytes the displacement of a word so many bytes behind BX has.
fn field_size(by: u16) -> u32
    ensures is { result ≡ field_size by }
    ensures small { result ≤ 2 }
{
    if by == 0 {
        0
    } else if by < 128 {
        1
    } else {
        2
    }
}

/// The same of a word of the frame.
fn frame_size(offset: u16) -> u32
    ensures is { result ≡ frame_size offset }
    ensures small { result ≤ 2 }
{
    field_size(bytes_of_words(offset))
}

/// How many bytes the code has that adds an index at a place to the address of a word.
fn index_size(index: Place) -> u32
    ensures is { result ≡ index_size index }
    ensures small { result ≤ 10 }
{
    match index {
        Place::Word { .. } => 7,
        Place::Frame(offset) => frame_size(offset) + 8,
    }
}

/// How many bytes the code of an index less a lower bound has, in SI.
fn lower_size(lower: i16) -> u32
    ensures is { result ≡ lower_size lower }
    ensures small { result ≤ 4 }
{
    if lower == 0 { 0 } else { 4 }
}

/// How many bytes the code of the address of an element has, in SI.
fn element_size(element: Element) -> u32
    ensures is { result ≡ element_size element element.test }
    ensures small { result ≤ 28 }
{
    match element.test {
        Test::Address { .. } => index_size(element.index) + 11,
        Test::Bounds { .. } => index_size(element.index) + lower_size(element.lower) + 14,
    }
}

/// How many bytes the comparison of an index with both bounds has.
fn bounds_size(lower: i16) -> u32
    ensures { result ≡ bounds_size lower }
{
    if lower == 0 { 10 } else { 20 }
}

/// How many bytes the code of an index less a lower bound has, in AX.
fn top_lower_size(lower: i16) -> u32
    ensures is { result ≡ top_lower_size lower }
    ensures small { result ≤ 3 }
{
    if lower == 0 { 0 } else { 3 }
}

/// How many bytes the product with the words of an entry or a row has.
fn times_entry_size(width: u16) -> u32
    ensures is { result ≡ times_entry_size width }
    ensures small { result ≤ 5 }
{
    if width == 1 { 0 } else { 5 }
}

/// How many bytes the address has that is formed of an index.
fn formed_size(form: Form) -> u32
    ensures is { result ≡ formed_size form }
    ensures small { result ≤ 9 }
{
    match form {
        Form::Element { .. } => 4,
        Form::Entry { width, .. } => { if width == 1 { 4 } else { 9 } }
    }
}

/// How many bytes the code of an index has that is compared with its bounds, and of an address that is formed of it.
fn bounded_size(bounded: Bounded) -> u32
    ensures { result ≡ block_size false (block.Bounded bounded) order.Save }
{
    top_lower_size(bounded.bounds.lower) + 10 + formed_size(bounded.form)
}

/// How many bytes a second index has, in SI.
fn column_size(column: Column) -> u32
    ensures is { result ≡ column_size column }
    ensures small { result ≤ 7 }
{
    match column {
        Column::Number(_) => 3,
        Column::Contents(Place::Word { .. }) => 4,
        Column::Contents(Place::Frame(offset)) => frame_size(offset) + 5,
    }
}

/// How many bytes the code of two indexes has that are compared with their bounds, and of the address that is made of them.
fn row_size(row: Row) -> u32
    ensures { result ≡ block_size false (block.Row row) order.Save }
{
    let made = Form::Entry {
        width: row.width,
        word: 0,
        span: row.span,
        line: row.columns.line,
    };
    top_lower_size(row.rows.lower)
        + column_size(row.column)
        + lower_size(row.columns.lower)
        + formed_size(made)
        + 23
}

/// How many bytes an order has behind it that uses the element.
fn used_size(with: Use) -> u32
    ensures is { result ≡ used_size with }
    ensures small { result ≤ 13 }
{
    match with {
        Use::Add(_) | Use::Subtract(_) => 9,
        Use::Multiply(_) => 13,
        Use::Mask | Use::Union | Use::Differ => 2,
        Use::Compare { .. } => 7,
    }
}

/// How many bytes the code of an element and an order that uses it has.
fn element_used_size(element: Element, with: Use) -> u32
    ensures { result ≡ block_size false (block.Operate (simple.Element element) with) order.Save }
{
    element_size(element) + used_size(with)
}

/// How many bytes the code of an element has that is fetched or assigned.
fn element_moved_size(element: Element) -> u32
    ensures fetched { result ≡ block_size false (block.FetchElement element) order.Save }
    ensures assigned { result ≡ block_size false (block.AssignElement element) order.Save }
{
    element_size(element) + 2
}

/// How many bytes the code of twice the address of a place has.
fn doubled_size(place: Place) -> u32
    ensures is { result ≡ doubled_size place }
    ensures small { result ≤ 7 }
{
    match place {
        Place::Word { .. } => 3,
        Place::Frame(_) => 7,
    }
}

/// How many bytes the way of a loop has.
fn loop_ways_size(marks: &[u32]) -> Result<u32, NoMemory>
    ensures { IfOk result (λ n. n ≡ loop_ways_size marks.now) }
{
    match marks {
        [_] => Ok(6),
        _ => table_size(20, marks.len()),
    }
}

/// How many bytes the code of an order alone has.
fn order_size(order: &Order) -> Result<u32, NoMemory>
    requires { HasCode order.now }
    ensures { IfOk result (λ n. n ≡ order_size order.now) }
{
    let size = match order {
        Order::Mark | Order::Drop | Order::Start(_) => 0,
        Order::Save => 1,
        Order::Const(0) => 2,
        Order::Const(_) | Order::Home { .. } | Order::Jump(_) | Order::GoCommon(_) => 3,
        Order::And | Order::Or | Order::Xor | Order::ReadByte | Order::WriteByte => 3,
        Order::NextBody | Order::Less | Order::Load => 5,
        Order::LabelOut(_) | Order::SwitchOut(_) | Order::ProcOut(_) => 5,
        Order::LabelCommon(_) | Order::SwitchCommon(_) | Order::ProcCommon(_) => 5,
        Order::Exhausted(_) | Order::Return { .. } => 6,
        Order::SetVariable(_) | Order::AddStep(_) | Order::PutVariable(_) => 6,
        Order::CallProc { .. } | Order::CallCommon { .. } => 6,
        Order::Bind { argument, .. } => argument_load_size(u16::from(*argument)) + 3,
        Order::Store | Order::Enter(0) => 7,
        Order::JumpIf { .. } | Order::GoSwitch { .. } | Order::GoSwitchCommon { .. } => 8,
        Order::FrameHome(_) => 8,
        Order::Neg(_) | Order::InArea(_) => 9,
        Order::Add(_) => 10,
        Order::SpecialOut(place) => control_load_size(*place) + 2,
        Order::Take { t, b } => part_size(*t, *b, false),
        Order::BindFrame { argument, offset } => argument_load_size(u16::from(*argument))
            + (frame_size(*offset) + 5),
        Order::Sub(_) | Order::IndexLess { .. } => 12,
        Order::GoSwitchSpecial { place, .. } => control_load_size(*place) + 5,
        Order::CallSpecial { place, .. } => call_special_size(*place),
        Order::GoMain(_) => 15,
        Order::LoadPart { t, b, signed } => part_size(*t, *b, *signed) + 5,
        Order::GoSpecial(place) => control_load_size(*place) + 9,
        Order::InBounds { lower, .. } => bounds_size(*lower),
        Order::Div { .. } => 25,
        Order::Enter(_) => 34,
        Order::StorePart { b, .. } => shift_size(*b) + 12,
        Order::Rescale { from, to, .. } => rescale_size(*from, *to),
        Order::Mul { power, .. } => product_size(*power),
        Order::Element { lower, .. } => bound_size(*lower) + 21,
        Order::ElementOfTwo {
            lower,
            second,
            width,
            ..
        } => bound_size(*second) + bound_size(*lower) + times_size(*width) + 33,
        Order::ElementInside {
            lower,
            second,
            width,
            ..
        } => { top_lower_size(*second) + top_lower_size(*lower) + times_entry_size(*width) + 10 }
        Order::Entry { width, word, .. } => width_size(*width) + word_size(*word) + 21,
        Order::NextStep { looped, .. } => doubled_size(*looped) + 10,
        Order::LoopWay(marks) => return loop_ways_size(marks.as_slice()),
        Order::SwitchWay { marks, .. } => return table_size(20, marks.as_slice().len()),
    };
    Ok(size)
}

/// How many bytes the code of a word of the frame and an order that uses it has.
fn frame_used_size(offset: u16, with: Use) -> u32
    ensures { result ≡ block_size false (block.Operate (simple.Contents (cell.Frame offset)) with) order.Save }
{
    frame_size(offset) + 3 + used_size(with)
}

/// How many bytes the code of a simple operand and an order that uses it has.
fn operated_size(operand: Simple, with: Use) -> u32
    ensures { result ≡ block_size false (block.Operate operand with) order.Save }
{
    match (operand, with) {
        (Simple::Number(_), Use::Add(_) | Use::Subtract(_)) => 10,
        (Simple::Number(_), Use::Multiply(_)) => 12,
        (Simple::Number(_), Use::Mask | Use::Union | Use::Differ) => 3,
        (Simple::Number(_), Use::Compare { .. }) => 8,
        (Simple::Contents(Place::Word { .. }), Use::Add(_) | Use::Subtract(_)) => 11,
        (Simple::Contents(Place::Word { .. }), Use::Multiply(_)) => 14,
        (Simple::Contents(Place::Word { .. }), Use::Mask | Use::Union | Use::Differ) => 4,
        (Simple::Contents(Place::Word { .. }), Use::Compare { .. }) => 9,
        (Simple::Contents(Place::Frame(offset)), _) => frame_used_size(offset, with),
        (Simple::Element(element), _) => element_used_size(element, with),
    }
}

/// How many bytes the code has that loads AX from a word of the frame, or stores it there.
fn frame_moved_size(offset: u16) -> u32
    ensures fetched { result ≡ pieces_size (address_pieces (cell.Frame offset) ++ load_place (cell.Frame offset) ∷ []) }
    ensures assigned { result ≡ pieces_size (address_pieces (cell.Frame offset) ++ store_place (cell.Frame offset) ∷ []) }
{
    frame_size(offset) + 5
}

/// The same of a place.
fn place_size(place: Place) -> u32
    ensures fetched { result ≡ pieces_size (address_pieces place ++ load_place place ∷ []) }
    ensures assigned { result ≡ pieces_size (address_pieces place ++ store_place place ∷ []) }
{
    match place {
        Place::Word { .. } => 3,
        Place::Frame(offset) => frame_moved_size(offset),
    }
}

/// How many bytes the code has that takes a part of a word of the frame.
fn frame_part_size(offset: u16, t: u8, b: u8, signed: bool) -> u32
    requires { t + b ≤ 16 }
    ensures { result ≡ block_size false (block.FetchPart (cell.Frame offset) t b signed) order.Save }
{
    frame_size(offset) + 5 + part_size(t, b, signed)
}

/// How many bytes the code has that stores AX in a part of a word of the frame.
fn frame_part_stored_size(offset: u16, t: u8, b: u8) -> u32
    ensures { result ≡ block_size false (block.AssignPart (cell.Frame offset) t b) order.Save }
{
    shift_size(b) + (2 * frame_size(offset) + 10)
}

/// How many bytes the code of two words of the frame has.
fn both_size(first: u16, second: u16) -> u32
    ensures { result ≡ block_size false (block.FetchBoth first second) order.Save }
{
    frame_size(first) + (frame_size(second) + 8)
}

/// How many bytes the comparison of a word of the frame with a number has.
fn word_compared_size(offset: u16, with: u16) -> u32
    ensures { result ≡ pieces_size (word_compared offset with) }
{
    frame_size(offset) + 7
}

/// The same with a near jump behind it.
fn compare_word_size(offset: u16, with: u16, comparator: Comparator, mark: u32) -> u32
    ensures { result ≡ block_size false (block.CompareWord offset with comparator mark) order.Save }
{
    word_compared_size(offset, with) + 5
}

/// How many bytes the short form of a block saves.
fn saved(block: Block, order: &Order) -> u32
    ensures { result ≡ saved block order.now }
{
    match block {
        Block::Single => match order {
            Order::Add(_) | Order::Sub(_) | Order::Neg(_) => 5,
            Order::Rescale { from, to, .. } if from <= to => 5,
            Order::Mul { power, .. } if is_checked(*power) => 5,
            Order::Div { .. } => 5,
            Order::Jump(_) => 1,
            Order::JumpIf { .. } => 3,
            Order::LoopWay(marks) => match marks.as_slice() {
                [_] => 3,
                _ => 0,
            },
            _ => 0,
        },
        Block::Operate { with, .. } => match with {
            Use::Add(_) | Use::Subtract(_) | Use::Multiply(_) => 5,
            Use::Compare { .. } => 3,
            Use::Mask | Use::Union | Use::Differ => 0,
        },
        Block::Count { .. } => 5,
        Block::CompareWord { .. } => 3,
        _ => 0,
    }
}

/// How many bytes the code of a block has that begins with an order, and whose jump may be short, or whose check may jump back.
pub(crate) fn block_size(short: bool, block: Block, order: &Order) -> Result<u32, NoMemory>
    requires code { HasCode order.now }
    requires parts { NamesParts block }
    ensures { IfOk result (λ n. n ≡ block_size short block order.now) }
{
    let size = near_size(block, order)?;
    if short {
        sizes();
        Ok(size - saved(block, order))
    } else {
        Ok(size)
    }
}

/// How many bytes it has with a near jump.
fn near_size(block: Block, order: &Order) -> Result<u32, NoMemory>
    requires code { HasCode order.now }
    requires parts { NamesParts block }
    ensures { IfOk result (λ n. n ≡ block_size false block order.now) }
{
    let size = match block {
        Block::Within(_) => 0,
        Block::Single => return order_size(order),
        Block::Fetch(place) | Block::Assign(place) => place_size(place),
        Block::Write => 2,
        Block::Divide { .. } => 6,
        Block::Operate { operand, with } => operated_size(operand, with),
        Block::FetchPart {
            place: Place::Word { .. },
            t,
            b,
            signed,
        } => part_size(t, b, signed) + 3,
        Block::FetchPart {
            place: Place::Frame(offset),
            t,
            b,
            signed,
        } => frame_part_size(offset, t, b, signed),
        Block::AssignPart {
            place: Place::Word { .. },
            b,
            ..
        } => shift_size(b) + 11,
        Block::AssignPart {
            place: Place::Frame(offset),
            t,
            b,
        } => frame_part_stored_size(offset, t, b),
        Block::FetchElement(element) | Block::AssignElement(element) => {
            element_moved_size(element)
        }
        Block::Count { .. } => 8,
        Block::Halve { places, .. } => shift_size(places),
        Block::Bounded(bounded) => bounded_size(bounded),
        Block::Row(row) => row_size(row),
        Block::FetchBoth { first, second } => both_size(first, second),
        Block::CompareWord {
            offset,
            with,
            comparator,
            mark,
        } => compare_word_size(offset, with, comparator, mark),
    };
    Ok(size)
}
