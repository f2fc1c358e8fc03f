//! The orders of items, numbers and operations.
ghost use Rattle.std.specs.Prelude.{◌≡◌, ◌%◌, slice_index_or, IfOk, IsTrue};
ghost use Rattle.cw_word.specs.Decimal.{decimal_floor};
ghost use Rattle.cw_gen_expr.specs.ReferenceExpressions.{item_order, item_span, table_span, parameter_words, argument_words, control_place};
ghost use Rattle.cw_unit.specs.Scales.{operand_scale};

use cw_order::Order;
use cw_unit::layout::{Layout, Sort};
use cw_unit::scales::natural_scale;
use cw_unit::unit::{Expr, Param, Unit};
use cw_word::{NoMemory, Num};

/// The family and the offset of an item.
pub fn home(layout: &Layout, item: u32) -> (u16, u16)
    ensures { result ≡ slice_index_or layout.now.homes item (0, 0) }
{
    match layout.homes.as_slice().get(item as usize) {
        Some(home) => *home,
        None => (0, 0),
    }
}

/// The order that puts the address of a word of an item.
pub fn item(layout: &Layout, item: u32, word: u16) -> Order
    ensures { result ≡ item_order layout.now item word }
{
    let (family, offset) = home(layout, item);
    let offset = offset.wrapping_add(word);
    match layout.families.as_slice().get(family as usize) {
        Some(found) => match found.sort {
            Sort::Frame(base) => Order::FrameHome(base.wrapping_add(offset)),
            _ => Order::Home { family, offset },
        },
        None => Order::Home { family, offset },
    }
}

/// How many words are known to be in the data area from an item on: those of its family, where that is not in a frame.
pub fn span(layout: &Layout, item: u32) -> u16
    ensures { result ≡ item_span layout.now item }
{
    let (family, offset) = home(layout, item);
    match layout.families.as_slice().get(family as usize) {
        Some(found) => match found.sort {
            Sort::Frame(_) => 0,
            _ => (found.extent.saturating_sub(u32::from(offset)) % 65_536) as u16,
        },
        None => 0,
    }
}

/// The same of a table, where nothing is known of a table parameter.
pub fn span_of_table(layout: &Layout, parameter: bool, table: u32) -> u16
    ensures { result ≡ table_span layout.now parameter table }
{
    if parameter { 0 } else { span(layout, table) }
}

/// The word of a number at a scale. NoMemory comes for numbers that no unit has.
pub fn number_word(number: &Num, scale: u8) -> Result<u16, NoMemory>
    ensures { IfOk result (λ word. word ≡ decimal_floor number.now.whole number.now.digits number.now.places scale % 65536) }
{
    if scale > 15 {
        return Err(NoMemory);
    }
    match number.at_scale(scale) {
        Ok(word) => Ok(word as u16),
        Err(_) => Err(NoMemory),
    }
}

/// The words of an argument.
fn words(parameter: &Param) -> u8
    ensures { result ≡ parameter_words parameter.now }
{
    match parameter {
        Param::Value(..) | Param::Location(..) | Param::Array(..) | Param::Table(..) => 1,
        Param::Label(_) | Param::Switch(_) | Param::Proc(..) => 2,
    }
}

/// The words of arguments. NoMemory comes where they are over 255.
pub fn all_words(parameters: &[Param]) -> Result<u8, NoMemory>
    ensures { IfOk result (λ n. n ≡ argument_words parameters.now) }
{
    let mut total: u8 = 0;
    for parameter in parameters {
        total = total.checked_add(words(parameter)).ok_or(NoMemory)?;
    }
    Ok(total)
}

/// How many words of arguments follow that of a control parameter.
pub fn place_of_control(parameters: &[Param], control: u8) -> Result<u8, NoMemory>
    ensures { IfOk result (λ n. n ≡ control_place parameters.now control) }
{
    let mut left = control;
    for i in 0..parameters.len() {
        if words(&parameters[i]) == 2 {
            if left == 0 {
                return all_words(&parameters[i + 1..]);
            }
            left -= 1;
        }
    }
    Ok(0)
}

/// The scale of an operand of a product, a quotient or an operation on bits. NoMemory comes for numbers that no unit has.
pub fn scale_of_operand(unit: &Unit, e: &Expr) -> Result<u8, NoMemory>
    ensures { IfOk result (λ f. f ≡ operand_scale unit.now e.now) }
{
    match e {
        Expr::Num(number) => {
            if number.places() == 0 {
                return Ok(0);
            }
            match number.best_scale() {
                Ok(scale) => Ok(scale),
                Err(_) => Err(NoMemory),
            }
        }
        _ => Ok(natural_scale(unit, e)),
    }
}
