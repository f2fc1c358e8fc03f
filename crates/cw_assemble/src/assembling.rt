//! From orders to code.
ghost use Rattle.std.specs.Prelude.{◌≡◌, length, map, slice_index, IfOk, All};
ghost use Rattle.cw_order.specs.HasCode.{HasCode};
ghost use Rattle.cw_assemble.specs.Growing.{Adds};
ghost use Rattle.cw_tmpl.specs.Pieces.{blanks, relocations};
ghost use Rattle.cw_tmpl.specs.Templates.{entry_pieces};
ghost use Rattle.cw_tmpl.specs.ReferenceCode.{templates, landings, switches, names_of, reach_of, order_places, mark_starts, label_starts, statements_from, pieces_of, orders_code};
ghost use Rattle.cw_tmpl.specs.Named.{is_named_label, is_named_switch};
ghost use Rattle.cw_assemble.specs.Flags.{AreFlags};
ghost use Rattle.cw_assemble.specs.Noted.{blocks_from};

use crate::blocks::put_block;
use crate::draft::Draft;
use crate::jumping::{put_landing, put_switch};
use crate::named::{named_labels, named_switches};
use crate::noted::{block_noted, blocks_of};
use crate::places::{
    calls, has_landing, label_places, landing_places, longest_places, mark_places, order_places,
    place_at, procedure_places, statement_places, switch_places,
};
use cw_order::{Order, Orders};
use cw_tmpl::library::START;
use cw_tmpl::{Assembly, Block, Code, Coded, Limit, Names, Reach, Target, orders_left};
use cw_word::{List, NoMemory};
use std::alloc::Global;

/// Adds the entry of a segment, which makes the base record.
fn put_entry(code: &mut Draft)
    ensures { Adds code.old entry_pieces code.new }
{
    code.put_all(&[
        Coded::Call(Target::LibraryAhead(START)),
        Coded::Word(Target::Limit(Limit::DataWords)),
        Coded::Word(Target::Limit(Limit::FrameWords)),
        Coded::Word(Target::Limit(Limit::Calls)),
        Coded::Word(Target::Limit(Limit::Segment)),
    ]);
}

/// Adds the code of orders.
fn put_orders(code: &mut Draft, list: &[Order], blocks: &[Block], names: &Names)
    requires codes { All HasCode list.now }
    requires noted { blocks.now ≡ blocks_from 0 list.now }
    ensures { Adds code.old (templates names.now (length code.old.assembly.bytes) 0 0 list.now) code.new }
{
    let mut left = 0;
    for k in 0..list.len() {
        let order = &list[k];
        let block = block_noted(blocks, list, left, k);
        let short = names.reach.is_short(k, block, order);
        put_block(code, short, block, order, k, names);
        left = orders_left(block);
    }
}

/// Adds the landings of the labels that have one.
fn put_landings(code: &mut Draft, orders: &Orders, named: &[bool], names: &Names)
    requires { AreFlags named.now (length orders.now.labels) (is_named_label orders.now) }
    ensures { Adds code.old (landings names.now (is_named_label orders.now) (length code.old.assembly.bytes) 0 orders.now.labels) code.new }
{
    let labels = orders.labels.as_slice();
    for number in 0..labels.len() {
        let has = has_landing(named[number], labels[number]);
        put_landing(code, has, &labels[number], names);
    }
}

/// Adds the routines of the switches that something names.
fn put_switches(code: &mut Draft, orders: &Orders, named: &[bool], names: &Names)
    requires { AreFlags named.now (length orders.now.switches) (is_named_switch orders.now) }
    ensures { Adds code.old (switches names.now (is_named_switch orders.now) (length code.old.assembly.bytes) 0 orders.now.switches) code.new }
{
    let switches = orders.switches.as_slice();
    for number in 0..switches.len() {
        put_switch(code, named[number], &switches[number], names);
    }
}

/// The bytes and the relocations of the orders' code.
fn code_of(
    alloc: Global,
    orders: &Orders,
    blocks: &[Block],
    labels: &[bool],
    switches: &[bool],
    names: &Names,
) -> Result<Assembly, NoMemory>
    requires codes { All HasCode orders.now.list }
    requires noted { blocks.now ≡ blocks_from 0 orders.now.list }
    requires labels { AreFlags labels.now (length orders.now.labels) (is_named_label orders.now) }
    requires switches { AreFlags switches.now (length orders.now.switches) (is_named_switch orders.now) }
    requires names { names.now ≡ names_of orders.now }
    ensures bytes { IfOk result (λ code. code.bytes ≡ blanks (pieces_of orders.now)) }
    ensures relocs { IfOk result (λ code. code.relocs ≡ relocations 0 (pieces_of orders.now)) }
{
    let mut code = Draft::new(alloc);
    put_entry(&mut code);
    put_orders(&mut code, orders.list.as_slice(), blocks, names);
    put_landings(&mut code, orders, labels, names);
    put_switches(&mut code, orders, switches, names);
    code.finish()
}

/// The blocks of the orders, where their code stands, and what tells the forms of the blocks: the places where it is longest, and the CALLs that
/// checks jump back to.
#[derive(Drop)]
struct Laid {
    blocks: List<Block>,
    longest: List<u32>,
    calls: List<u32>,
    places: List<u32>,
}

/// Lays out the orders' code.
fn lay(alloc: Global, orders: &Orders) -> Result<Laid, NoMemory>
    requires { All HasCode orders.now.list }
    ensures blocks { IfOk result (λ laid. laid.blocks ≡ blocks_from 0 orders.now.list) }
    ensures longest { IfOk result (λ laid. laid.longest ≡ (reach_of orders.now).longest) }
    ensures calls { IfOk result (λ laid. laid.calls ≡ (reach_of orders.now).calls) }
    ensures places { IfOk result (λ laid. laid.places ≡ order_places orders.now) }
{
    let blocks = blocks_of(alloc, orders.list.as_slice())?;
    let longest = longest_places(alloc, orders.list.as_slice(), blocks.as_slice())?;
    let calls = calls(
        alloc,
        orders.list.as_slice(),
        blocks.as_slice(),
        longest.as_slice(),
    )?;
    let reach = Reach {
        marks: orders.marks.as_slice(),
        longest: longest.as_slice(),
        calls: calls.as_slice(),
    };
    let places = order_places(alloc, orders.list.as_slice(), blocks.as_slice(), &reach)?;
    Ok(Laid {
        blocks,
        longest,
        calls,
        places,
    })
}

/// Where the marks, the labels, the procedures and the statements of the orders start.
#[derive(Drop)]
struct Starts {
    marks: List<u32>,
    labels: List<u32>,
    procedures: List<u32>,
    statements: List<(u32, u16)>,
}

fn starts_of(alloc: Global, orders: &Orders, names: &Names) -> Result<Starts, NoMemory>
    requires { names.now ≡ names_of orders.now }
    ensures marks { IfOk result (λ starts. starts.marks ≡ map (slice_index (order_places orders.now)) orders.now.marks) }
    ensures labels { IfOk result (λ starts. starts.labels ≡ label_starts (names_of orders.now) 0 orders.now.labels) }
    ensures procedures { IfOk result (λ starts. starts.procedures ≡ map (mark_starts orders.now) orders.now.procedures) }
    ensures statements { IfOk result (λ starts. starts.statements ≡ statements_from 0 (order_places orders.now) orders.now.list) }
{
    let marks = mark_places(alloc, names.places, orders.marks.as_slice())?;
    let labels = label_places(alloc, orders.labels.as_slice(), names)?;
    let procedures = procedure_places(alloc, orders.procedures.as_slice(), names)?;
    let statements = statement_places(alloc, names.places, orders.list.as_slice())?;
    Ok(Starts {
        marks,
        labels,
        procedures,
        statements,
    })
}

/// The code of orders that are laid out, where flags tell which labels and switches something names.
fn code_named(
    alloc: Global,
    orders: &Orders,
    laid: &Laid,
    labels: &[bool],
    switches: &[bool],
) -> Result<Code, NoMemory>
    requires codes { All HasCode orders.now.list }
    requires noted { laid.now.blocks ≡ blocks_from 0 orders.now.list }
    requires longest { laid.now.longest ≡ (reach_of orders.now).longest }
    requires calls { laid.now.calls ≡ (reach_of orders.now).calls }
    requires places { laid.now.places ≡ order_places orders.now }
    requires labels { AreFlags labels.now (length orders.now.labels) (is_named_label orders.now) }
    requires switches { AreFlags switches.now (length orders.now.switches) (is_named_switch orders.now) }
    ensures { IfOk result (λ code. code ≡ orders_code orders.now) }
{
    let first = place_at(laid.places.as_slice(), orders.list.as_slice().len());
    let (landings, behind) = landing_places(alloc, first, orders, labels)?;
    let routines = switch_places(alloc, behind, orders, switches)?;
    let names = Names {
        places: laid.places.as_slice(),
        reach: Reach {
            marks: orders.marks.as_slice(),
            longest: laid.longest.as_slice(),
            calls: laid.calls.as_slice(),
        },
        labels: orders.labels.as_slice(),
        procedures: orders.procedures.as_slice(),
        landings: landings.as_slice(),
        switches: routines.as_slice(),
    };
    let code = code_of(
        alloc,
        orders,
        laid.blocks.as_slice(),
        labels,
        switches,
        &names,
    )?;
    let starts = starts_of(alloc, orders, &names)?;
    Ok(Code {
        bytes: code.bytes,
        relocs: code.relocs,
        starts: starts.marks,
        entry: 0,
        labels: starts.labels,
        switches: routines,
        procedures: starts.procedures,
        statements: starts.statements,
    })
}

/// The code of orders that are laid out.
fn code_laid(alloc: Global, orders: &Orders, laid: &Laid) -> Result<Code, NoMemory>
    requires codes { All HasCode orders.now.list }
    requires noted { laid.now.blocks ≡ blocks_from 0 orders.now.list }
    requires longest { laid.now.longest ≡ (reach_of orders.now).longest }
    requires calls { laid.now.calls ≡ (reach_of orders.now).calls }
    requires places { laid.now.places ≡ order_places orders.now }
    ensures { IfOk result (λ code. code ≡ orders_code orders.now) }
{
    let switches = named_switches(alloc, orders)?;
    let labels = named_labels(alloc, orders, switches.as_slice())?;
    code_named(alloc, orders, laid, labels.as_slice(), switches.as_slice())
}

/// The code of the orders. NoMemory comes for want of memory, where the code would pass 2^32 - 1 bytes, and where a table
/// would have more than 65,535 entries.
pub fn assemble(alloc: Global, orders: &Orders) -> Result<Code, NoMemory>
    requires { All HasCode orders.now.list }
    ensures { IfOk result (λ code. code ≡ orders_code orders.now) }
{
    let laid = lay(alloc, orders)?;
    code_laid(alloc, orders, &laid)
}
