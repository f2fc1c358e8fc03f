//! What the numbers of a text have at a token.
ghost use Rattle.std.specs.Prelude.{◌≡◌};
ghost use Rattle.cw_table.specs.Rows.{item_at};
ghost use Rattle.cw_make_items.specs.Lookup.{item_in, item_here, proc_in, proc_here, control_in, control_here, goal_in, goal_of, line_of};

use cw_number::numbered::Numbered;
use cw_scope::resolve::Named;
use cw_table::table::Table;
use cw_tree::leaf::{Position, RawName};
use cw_unit::unit::Goal;

fn found(numbers: &Table<Numbered>, token: u32) -> Option<Numbered>
    ensures { result ≡ item_at numbers.now token }
{
    numbers.find(token).copied()
}

pub fn item_here(numbers: &Table<Numbered>, token: u32) -> u32
    ensures { result ≡ item_here numbers.now token }
{
    match found(numbers, token) {
        Some(Numbered::Item(i)) => i,
        _ => 0,
    }
}

pub fn proc_here(numbers: &Table<Numbered>, token: u32) -> u16
    ensures { result ≡ proc_here numbers.now token }
{
    match found(numbers, token) {
        Some(Numbered::Proc(p)) => p,
        _ => 0,
    }
}

pub fn control_here(numbers: &Table<Numbered>, token: u32) -> u8
    ensures { result ≡ control_here numbers.now token }
{
    match found(numbers, token) {
        Some(Numbered::Control(c)) => c,
        _ => 0,
    }
}

fn goal_in(number: &Option<Numbered>) -> Goal
    ensures { result ≡ goal_in number.now }
{
    match number {
        Some(Numbered::Label(l)) => Goal::Own(*l),
        Some(Numbered::CommonLabel(d)) => Goal::Common(*d),
        _ => Goal::Own(0),
    }
}

/// The label to which a name in the list of a switch refers.
pub fn goal_of(named: &Named, numbers: &Table<Numbered>, name: &RawName) -> Goal
    ensures { result ≡ goal_of named.now numbers.now name.now }
{
    match named.uses.find(name.at.token) {
        None => Goal::Own(0),
        Some(token) => goal_in(&found(numbers, *token)),
    }
}

/// A line as the unit has it.
pub fn line_of(at: Position) -> u16
    ensures { result ≡ line_of at }
{
    if at.line <= 65535 {
        at.line as u16
    } else {
        65535
    }
}
