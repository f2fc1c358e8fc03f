//! Which switches and labels of a unit something names.
ghost use Rattle.std.specs.Prelude.{◌≡◌, ℕ, ◌<◌, ◌||◌, ◌&&◌, false, length, IfOk};
ghost use Rattle.cw_tmpl.specs.Named.{is_number, switch_of_order, switch_of_shared, label_of_order, label_of_shared};
ghost use Rattle.cw_tmpl.specs.Named.{label_of_goal, orders_name_switch, shared_has_switch};
ghost use Rattle.cw_tmpl.specs.Named.{orders_name_label, shared_has_label, goals_list_label, is_named_switch, switches_list_label, is_named_label};
ghost use Rattle.cw_assemble.specs.Flags.{flag, AreFlags};

use cw_order::{Order, Orders};
use cw_unit::unit::{Def, Goal};
use cw_word::{List, NoMemory};
use std::alloc::Global;

/// The switch of an order that jumps through it, or puts it as an argument.
fn switch_of_order(order: &Order) -> Option<u32>
    ensures { result ≡ switch_of_order order.now }
{
    match order {
        Order::GoSwitch { switch, .. } => Some(*switch),
        Order::SwitchOut(switch) => Some(*switch),
        _ => None,
    }
}

fn switch_of_shared(shared: Def) -> Option<u32>
    ensures { result ≡ switch_of_shared shared }
{
    match shared {
        Def::Switch(switch) => Some(switch),
        _ => None,
    }
}

/// The label of an order that puts it as an argument.
fn label_of_order(order: &Order) -> Option<u32>
    ensures { result ≡ label_of_order order.now }
{
    match order {
        Order::LabelOut(label) => Some(*label),
        _ => None,
    }
}

fn label_of_shared(shared: Def) -> Option<u32>
    ensures { result ≡ label_of_shared shared }
{
    match shared {
        Def::Label(label) => Some(label),
        _ => None,
    }
}

fn label_of_goal(goal: Goal) -> Option<u32>
    ensures { result ≡ label_of_goal goal }
{
    match goal {
        Goal::Own(label) => Some(label),
        Goal::Common(_) => None,
    }
}

/// Flags of which none is set.
fn no_flags(alloc: Global, count: usize) -> Result<Vec<bool>, NoMemory>
    ensures { IfOk result (λ flags. AreFlags flags.items count (λ k. false)) }
{
    vec![in alloc; false; count].map_err(|_| NoMemory)
}

/// Sets the flag of a number. A number past the end has none.
fn set(flags: &mut Vec<bool>, number: Option<u32>)
    ensures long { length flags.new.items ≡ length flags.old.items }
    ensures each { (k : ℕ) → k < length flags.old.items → flag flags.new.items k ≡ (flag flags.old.items k || is_number k number) }
{
    if let Some(number) = number {
        let number = number as usize;
        if number < flags.len() {
            flags[number] = true;
        }
    }
}

/// Sets the flags of the switches that orders name.
fn set_switches_of_orders(flags: &mut Vec<bool>, orders: &[Order])
    ensures long { length flags.new.items ≡ length flags.old.items }
    ensures each { (k : ℕ) → k < length flags.old.items → flag flags.new.items k ≡ (flag flags.old.items k || orders_name_switch orders.now k) }
{
    for order in orders {
        set(flags, switch_of_order(order));
    }
}

/// Sets those of the switches among what a unit shares.
fn set_shared_switches(flags: &mut Vec<bool>, shared: &[Def])
    ensures long { length flags.new.items ≡ length flags.old.items }
    ensures each { (k : ℕ) → k < length flags.old.items → flag flags.new.items k ≡ (flag flags.old.items k || shared_has_switch shared.now k) }
{
    for one in shared {
        set(flags, switch_of_shared(*one));
    }
}

/// Sets the flags of the labels that orders name.
fn set_labels_of_orders(flags: &mut Vec<bool>, orders: &[Order])
    ensures long { length flags.new.items ≡ length flags.old.items }
    ensures each { (k : ℕ) → k < length flags.old.items → flag flags.new.items k ≡ (flag flags.old.items k || orders_name_label orders.now k) }
{
    for order in orders {
        set(flags, label_of_order(order));
    }
}

/// Sets those of the labels among what a unit shares.
fn set_shared_labels(flags: &mut Vec<bool>, shared: &[Def])
    ensures long { length flags.new.items ≡ length flags.old.items }
    ensures each { (k : ℕ) → k < length flags.old.items → flag flags.new.items k ≡ (flag flags.old.items k || shared_has_label shared.now k) }
{
    for one in shared {
        set(flags, label_of_shared(*one));
    }
}

/// Sets the flags of the labels that a switch lists, where it is named.
fn set_labels_of_switch(flags: &mut Vec<bool>, named: bool, goals: &[Goal])
    ensures long { length flags.new.items ≡ length flags.old.items }
    ensures each { (k : ℕ) → k < length flags.old.items → flag flags.new.items k ≡ (flag flags.old.items k || (named && goals_list_label goals.now k)) }
{
    if named {
        set_labels_of_goals(flags, goals);
    }
}

fn set_labels_of_goals(flags: &mut Vec<bool>, goals: &[Goal])
    ensures long { length flags.new.items ≡ length flags.old.items }
    ensures each { (k : ℕ) → k < length flags.old.items → flag flags.new.items k ≡ (flag flags.old.items k || goals_list_label goals.now k) }
{
    for goal in goals {
        set(flags, label_of_goal(*goal));
    }
}

/// Sets the flags of the labels that the switches list that something names, as the flags of the switches tell.
fn set_labels_of_switches(flags: &mut Vec<bool>, orders: &Orders, named: &[bool])
    requires { AreFlags named.now (length orders.now.switches) (is_named_switch orders.now) }
    ensures long { length flags.new.items ≡ length flags.old.items }
    ensures each { (k : ℕ) → k < length flags.old.items
        → flag flags.new.items k
        ≡ (flag flags.old.items k || switches_list_label (is_named_switch orders.now) 0 orders.now.switches k) }
{
    let switches = orders.switches.as_slice();
    for number in 0..switches.len() {
        set_labels_of_switch(flags, named[number], switches[number].as_slice());
    }
}

/// A flag for each switch: whether something names it.
pub(crate) fn named_switches(alloc: Global, orders: &Orders) -> Result<List<bool>, NoMemory>
    ensures { IfOk result (λ flags. AreFlags flags (length orders.now.switches) (is_named_switch orders.now)) }
{
    let mut flags = no_flags(alloc, orders.switches.as_slice().len())?;
    set_switches_of_orders(&mut flags, orders.list.as_slice());
    set_shared_switches(&mut flags, orders.shared.as_slice());
    Ok(List::of(flags))
}

/// A flag for each label: whether something names it. The flags of the switches are given.
pub(crate) fn named_labels(
    alloc: Global,
    orders: &Orders,
    switches: &[bool],
) -> Result<List<bool>, NoMemory>
    requires { AreFlags switches.now (length orders.now.switches) (is_named_switch orders.now) }
    ensures { IfOk result (λ flags. AreFlags flags (length orders.now.labels) (is_named_label orders.now)) }
{
    let mut flags = no_flags(alloc, orders.labels.as_slice().len())?;
    set_labels_of_orders(&mut flags, orders.list.as_slice());
    set_shared_labels(&mut flags, orders.shared.as_slice());
    set_labels_of_switches(&mut flags, orders, switches);
    Ok(List::of(flags))
}
