//! Whether orders by hand have numbers that have code.
ghost use Rattle.std.specs.Prelude.{◌≡◌, nat_lt};
ghost use Rattle.std.specs.List.{list_all};
ghost use Rattle.cw_word.specs.FixedPoint.{fits_word};
ghost use Rattle.cw_built.specs.Coded.{is_part, has_numbers};

use cw_order::Order;

// A byte is one.
fn is_byte(n: u8) -> bool
    ensures { result ≡ nat_lt n 256 }
{
    u16::from(n) < 256
}

// And so is a word.
fn is_word(n: u16) -> bool
    ensures { result ≡ nat_lt n 65536 }
{
    u32::from(n) < 65_536
}

// And a word with a sign.
fn is_signed_word(n: i16) -> bool
    ensures { result ≡ fits_word n }
{
    let _within = n;
    true
}

// Whether t bits from bit b lie in a word.
fn is_part(t: u8, b: u8) -> bool
    ensures { result ≡ is_part t b }
{
    1 <= t && u16::from(t) + u16::from(b) <= 16
}

// Whether the numbers of an order have code.
fn has_numbers(order: &Order) -> bool
    ensures { result ≡ has_numbers order.now }
{
    match order {
        Order::Rescale { from, to, .. } => *from <= 15 && *to <= 15,
        Order::Mul { power, .. } => -30 <= *power && *power <= 15,
        Order::Div { power, .. } => -15 <= *power && *power <= 16,
        Order::Take { t, b } | Order::LoadPart { t, b, .. } | Order::StorePart { t, b } => {
            is_part(*t, *b)
        }
        Order::IndexLess { lower, .. } => is_signed_word(*lower),
        Order::Element { lower, .. } => is_signed_word(*lower),
        Order::ElementOfTwo {
            lower,
            second,
            width,
            ..
        }
        | Order::ElementInside {
            lower,
            second,
            width,
            ..
        } => is_signed_word(*lower) && is_signed_word(*second) && *width <= 32_768,
        Order::Entry { width, word, .. } => *width <= 32_768 && *word < 32_768,
        Order::InBounds { lower, upper, .. } => is_signed_word(*lower) && is_signed_word(*upper),
        Order::FrameHome(number) | Order::Enter(number) => is_word(*number),
        Order::BindFrame { argument, offset } => is_byte(*argument) && *offset < 32_768,
        Order::Bind { argument, .. } => is_byte(*argument),
        Order::Return { arguments, .. } => is_byte(*arguments),
        Order::CallSpecial { place, .. }
        | Order::SpecialOut(place)
        | Order::GoSpecial(place)
        | Order::GoSwitchSpecial { place, .. } => is_byte(*place),
        Order::LoopWay(marks) | Order::SwitchWay { marks, .. } => {
            marks.as_slice().len() < 32_768
        }
        _ => true,
    }
}

/// Whether the numbers of each order have code.
pub fn have_numbers(orders: &[Order]) -> bool
    ensures { result ≡ list_all has_numbers orders.now }
{
    for order in orders {
        if !has_numbers(order) {
            return false;
        }
    }
    true
}
