//! The unit.
ghost use Rattle.std.specs.Prelude.{◌≡◌, ℕ, ◌+◌, ◌++◌, ◌∷◌, [], None, Some, length, drop, OnOk, IfOk, replicate, slice_get, List as Sequence};
ghost use Rattle.cw_unit.specs.Storage.{layout_of};
ghost use Rattle.cw_gen_expr.specs.Output.{made};
ghost use Rattle.cw_gen_expr.specs.UnitTables.{first_mark};
ghost use Rattle.cw_gen_unit.specs.ReferenceUnits.{body_piece, procedure_piece, procedures_piece, entries_of, procedure_labels};
ghost use Rattle.cw_gen_unit.specs.ReferenceUnits.{label_places, definition_place as spec_definition_place};
ghost use Rattle.cw_gen_unit.specs.ReferenceUnits.{definition_places as spec_definition_places, label_marks as spec_label_marks};
ghost use Rattle.cw_gen_unit.specs.ReferenceUnits.{procedure_marks as spec_procedure_marks};
ghost use Rattle.cw_gen_unit.specs.ReferenceUnits.{switch_lists as spec_switch_lists, shared as spec_shared, unit_orders};
ghost use Rattle.cw_gen_unit.specs.LabelPlaces.{labels_placed};

use crate::labels::place_labels;
use crate::procedures::emit_procedure;
use crate::statements::{emit_statement, label_mark};
use cw_gen_expr::expressions::numbered_marks;
use cw_gen_expr::output::{Output, number};
use cw_order::{LabelMark, Order, Orders};
use cw_unit::layout::Layout;
use cw_unit::unit::{Def, Goal, Proc, Switch, Unit};
use cw_word::{List, NoMemory};
use std::alloc::Global;

/// Adds the orders of the segment's body, and gives its labels their places.
fn emit_main(
    alloc: Global,
    out: &mut Output,
    unit: &Unit,
    layout: &Layout,
    places: &mut Vec<u32>,
) -> Result<(), NoMemory>
    requires of_unit { layout.now ≡ layout_of unit.now }
    requires unlabelled { out.old.labels ≡ [] }
    ensures orders { OnOk result (out.new.orders ≡ out.old.orders ++ (body_piece unit.now (length out.old.orders) (length out.old.marks.items)).orders) }
    ensures marks { OnOk result (out.new.marks.items
        ≡ out.old.marks.items
        ++ (body_piece unit.now (length out.old.orders) (length out.old.marks.items)).marks) }
    ensures labels { OnOk result (out.new.labels ≡ []) }
    ensures places { OnOk result (places.new.items
        ≡ labels_placed 0 unit.now.labels None (body_piece unit.now (length out.old.orders)
        (length out.old.marks.items)).labels places.old.items) }
{
    emit_statement(alloc, out, unit, layout, &[], None, 0, &unit.body)?;
    out.push(Order::NextBody)?;
    place_labels(places, unit.labels.as_slice(), None, out.labels.as_slice());
    out.labels = List::new(alloc);
    Ok(())
}

/// Adds the orders of a procedure, and gives its labels their places.
fn emit_next(
    alloc: Global,
    out: &mut Output,
    unit: &Unit,
    layout: &Layout,
    places: &mut Vec<u32>,
    entries: &mut Vec<u32>,
    number: u16,
    procedure: &Proc,
) -> Result<(), NoMemory>
    requires of_unit { layout.now ≡ layout_of unit.now }
    requires numbered { slice_get unit.now.procs number ≡ Some procedure.now }
    requires unlabelled { out.old.labels ≡ [] }
    ensures orders { OnOk result (out.new.orders
        ≡ out.old.orders ++ (procedure_piece unit.now number procedure.now (length out.old.orders)
        (length out.old.marks.items)).orders) }
    ensures marks { OnOk result (out.new.marks.items
        ≡ out.old.marks.items
        ++ (procedure_piece unit.now number procedure.now (length out.old.orders)
        (length out.old.marks.items)).marks) }
    ensures labels { OnOk result (out.new.labels ≡ []) }
    ensures entries { OnOk result (entries.new.items ≡ entries.old.items ++ length out.old.orders ∷ []) }
    ensures places { OnOk result (places.new.items
        ≡ labels_placed 0 unit.now.labels (Some number)
        (procedure_piece unit.now number procedure.now (length out.old.orders)
        (length out.old.marks.items)).labels places.old.items) }
{
    let entry = out.place()?;
    entries.push(entry).map_err(|_| NoMemory)?;
    emit_procedure(alloc, out, unit, layout, number, procedure)?;
    place_labels(
        places,
        unit.labels.as_slice(),
        Some(number),
        out.labels.as_slice(),
    );
    out.labels = List::new(alloc);
    Ok(())
}

/// Adds the orders of the procedures, tells where each begins, and gives their labels their places. NoMemory comes where there are over
/// 65,536.
fn emit_procedures(
    alloc: Global,
    out: &mut Output,
    unit: &Unit,
    layout: &Layout,
    places: &mut Vec<u32>,
    entries: &mut Vec<u32>,
) -> Result<(), NoMemory>
    requires of_unit { layout.now ≡ layout_of unit.now }
    requires unlabelled { out.old.labels ≡ [] }
    ensures orders { OnOk result (out.new.orders
        ≡ out.old.orders ++ (procedures_piece unit.now 0 unit.now.procs (length out.old.orders)
        (length out.old.marks.items)).orders) }
    ensures marks { OnOk result (out.new.marks.items
        ≡ out.old.marks.items
        ++ (procedures_piece unit.now 0 unit.now.procs (length out.old.orders)
        (length out.old.marks.items)).marks) }
    ensures entries { OnOk result (entries.new.items
        ≡ entries.old.items ++ entries_of unit.now 0 unit.now.procs (length out.old.orders)
        (length out.old.marks.items)) }
    ensures places { OnOk result ((b : Sequence (ℕ × ℕ)) → places.old.items ≡ label_places 0 unit.now.labels b []
        → places.new.items ≡ label_places 0 unit.now.labels b
        (procedure_labels unit.now 0 unit.now.procs (length out.old.orders) (length out.old.marks.items))) }
{
    let procedures = unit.procs.as_slice();
    for i in 0..procedures.len() {
        let number = u16::try_from(i).map_err(|_| NoMemory)?;
        emit_next(
            alloc,
            out,
            unit,
            layout,
            places,
            entries,
            number,
            &procedures[i],
        )?;
    }
    Ok(())
}

/// The place of what a descriptor stands for; that of a switch is no order's.
fn definition_place(labels: &[u32], entries: &[u32], definition: Def) -> u32
    ensures { result ≡ spec_definition_place labels.now entries.now definition }
{
    let found = match definition {
        Def::Proc(procedure) => entries.get(procedure as usize),
        Def::Label(label) => labels.get(label as usize),
        Def::Switch(_) => None,
    };
    match found {
        Some(place) => *place,
        None => 0,
    }
}

/// The places of what the unit's descriptors stand for.
fn definition_places(
    alloc: Global,
    labels: &[u32],
    entries: &[u32],
    defined: &[(u16, Def)],
) -> Result<Vec<u32>, NoMemory>
    ensures { IfOk result (λ places. places.items ≡ spec_definition_places labels.now entries.now defined.now) }
{
    let mut places = Vec::new(alloc);
    for (_, definition) in defined {
        places
            .push(definition_place(labels, entries, *definition))
            .map_err(|_| NoMemory)?;
    }
    Ok(places)
}

/// Appends marks behind the first so many.
fn extend(marks: &mut Vec<u32>, more: &[u32], skipped: usize) -> Result<(), NoMemory>
    ensures { OnOk result (marks.new.items ≡ marks.old.items ++ drop skipped more.now) }
{
    for i in skipped..more.len() {
        marks.push(more[i]).map_err(|_| NoMemory)?;
    }
    Ok(())
}

fn zeros(alloc: Global, count: usize) -> Result<Vec<u32>, NoMemory>
    ensures { IfOk result (λ places. places.items ≡ replicate count 0) }
{
    vec![in alloc; 0; count].map_err(|_| NoMemory)
}

/// The marks of the labels.
fn label_marks(alloc: Global, unit: &Unit) -> Result<List<LabelMark>, NoMemory>
    ensures { IfOk result (λ marks. marks ≡ spec_label_marks unit.now 0 unit.now.labels) }
{
    let defined = unit.defined.as_slice().len();
    let labels = unit.labels.as_slice();
    let mut marks = List::new(alloc);
    for i in 0..labels.len() {
        let mark = label_mark(defined, number(i)?)?;
        marks.push(LabelMark {
            mark,
            in_procedure: labels[i].proc.is_some(),
        })?;
    }
    Ok(marks)
}

/// The mark of a procedure of a unit with so many definitions and labels, which have the marks before.
fn procedure_mark(defined: usize, labels: usize, procedure: usize) -> Result<u32, NoMemory>
    ensures { IfOk result (λ mark. mark ≡ defined + (labels + procedure)) }
{
    let behind = labels.checked_add(procedure).ok_or(NoMemory)?;
    number(defined.checked_add(behind).ok_or(NoMemory)?)
}

/// The marks of the procedures.
fn procedure_marks(alloc: Global, unit: &Unit) -> Result<List<u32>, NoMemory>
    ensures { IfOk result (λ marks. marks ≡ spec_procedure_marks unit.now 0 unit.now.procs) }
{
    let defined = unit.defined.as_slice().len();
    let labels = unit.labels.as_slice().len();
    let procedures = unit.procs.as_slice();
    let mut marks = List::new(alloc);
    for i in 0..procedures.len() {
        marks.push(procedure_mark(defined, labels, i)?)?;
    }
    Ok(marks)
}

fn goals(alloc: Global, list: &[Goal]) -> Result<List<Goal>, NoMemory>
    ensures { IfOk result (λ copy. copy ≡ list.now) }
{
    let mut copy = List::new(alloc);
    for goal in list {
        copy.push(*goal)?;
    }
    Ok(copy)
}

/// The labels of the switches.
fn switch_lists(alloc: Global, switches: &[Switch]) -> Result<List<List<Goal>>, NoMemory>
    ensures { IfOk result (λ lists. lists ≡ spec_switch_lists switches.now) }
{
    let mut lists = List::new(alloc);
    for switch in switches {
        lists.push(goals(alloc, switch.list.as_slice())?)?;
    }
    Ok(lists)
}

/// What the unit defines in common, without the descriptors that name it.
fn shared(alloc: Global, defined: &[(u16, Def)]) -> Result<List<Def>, NoMemory>
    ensures { IfOk result (λ list. list ≡ spec_shared defined.now) }
{
    let mut list = List::new(alloc);
    for (_, definition) in defined {
        list.push(*definition)?;
    }
    Ok(list)
}

/// The places of the unit's marks: of its definitions, its labels, its procedures, and of the orders' own, which are behind the first so many.
fn all_marks(
    alloc: Global,
    defined: &[(u16, Def)],
    places: &[u32],
    entries: &[u32],
    made: &[u32],
    first: usize,
) -> Result<List<u32>, NoMemory>
    ensures { IfOk result (λ marks. marks ≡ spec_definition_places places.now entries.now defined.now
        ++ (places.now ++ (entries.now ++ drop first made.now))) }
{
    let mut marks = definition_places(alloc, places, entries, defined)?;
    extend(&mut marks, places, 0)?;
    extend(&mut marks, entries, 0)?;
    extend(&mut marks, made, first)?;
    Ok(List::of(marks))
}

/// Adds the orders of the unit's bodies to none, and answers the places of its marks. The first so many are not the orders' own.
fn emit_bodies(
    alloc: Global,
    out: &mut Output,
    unit: &Unit,
    layout: &Layout,
    first: usize,
) -> Result<List<u32>, NoMemory>
    requires of_unit { layout.now ≡ layout_of unit.now }
    requires counted { first ≡ first_mark unit.now }
    requires begun { made out.old ≡ record { orders = []; labels = []; marks = replicate first 0 } }
    ensures list { OnOk result (out.new.orders ≡ (unit_orders unit.now).list) }
    ensures marks { IfOk result (λ marks. marks ≡ (unit_orders unit.now).marks) }
{
    let mut places = zeros(alloc, unit.labels.as_slice().len())?;
    let mut entries = Vec::new(alloc);
    emit_main(alloc, out, unit, layout, &mut places)?;
    emit_procedures(alloc, out, unit, layout, &mut places, &mut entries)?;
    let marks = all_marks(
        alloc,
        unit.defined.as_slice(),
        places.as_slice(),
        entries.as_slice(),
        out.marks.as_slice(),
        first,
    )?;
    Ok(marks)
}

/// The orders of the unit with its list of orders and its marks.
fn whole(
    alloc: Global,
    unit: &Unit,
    list: List<Order>,
    marks: List<u32>,
) -> Result<Orders, NoMemory>
    requires list { list ≡ (unit_orders unit.now).list }
    requires marks { marks ≡ (unit_orders unit.now).marks }
    ensures { IfOk result (λ orders. orders ≡ unit_orders unit.now) }
{
    let labels = label_marks(alloc, unit)?;
    let procedures = procedure_marks(alloc, unit)?;
    let switches = switch_lists(alloc, unit.switches.as_slice())?;
    let shared = shared(alloc, unit.defined.as_slice())?;
    Ok(Orders {
        list,
        entry: 0,
        marks,
        labels,
        procedures,
        switches,
        shared,
    })
}

/// The orders of a unit with its storage layout. NoMemory comes for want of memory, where orders or marks would pass 2^32 - 1, and for
/// numbers that no checked unit has.
pub fn orders(alloc: Global, unit: &Unit, layout: &Layout) -> Result<Orders, NoMemory>
    requires { layout.now ≡ layout_of unit.now }
    ensures { IfOk result (λ orders. orders ≡ unit_orders unit.now) }
{
    let first = numbered_marks(unit)?;
    let mut out = Output::new(alloc, first)?;
    let marks = emit_bodies(alloc, &mut out, unit, layout, first)?;
    let Output { orders, .. } = out;
    whole(alloc, unit, orders, marks)
}
