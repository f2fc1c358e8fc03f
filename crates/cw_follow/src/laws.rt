//! The law that joins the machine of orders and the processor.
ghost use Rattle.std.specs.Prelude.{ℕ, ℤ, ◌<◌, List, [], All};
ghost use Rattle.cw_track.specs.{Tracking.TracksAfter, Watching.watched};
ghost use Rattle.cw_i86.specs.{State.State, MachineRun.IsStart};
ghost use Rattle.cw_run86.specs.Processor.{processor_machine, processor_start};
ghost use Rattle.cw_image.specs.Begun.{StatementPlace};
ghost use Rattle.cw_unit.specs.Behaviour.{is_running};
ghost use Rattle.cw_order.specs.{OrderProgram.OrderProgram, OrderMachine.order_machine, OrderMachine.order_start, Starting.starts};
ghost use Rattle.cw_follow.specs.{Showing.shown_as, Passing.passes, Passing.statement_places, Passing.PlacesStand, Placing.IsImage, Placing.Codable, Placing.BeginsWith};
ghost use Rattle.cw_follow.specs.Placing.{NeverStuck, startup_cost};

use cw_order::laws::{activations, words};
use cw_routines::laws::{
    bodies, calls, loops, numbers as products_and_quotients, pieces, standing, word_laws,
};
use cw_rows86::laws::{acting, conditions, jumping};
use cw_run86::laws::{
    arithmetic, comparing, comparing_below, fetching, fields as stack_fields, jumps, logic, memory,
    moves, multiplying, numbers, offsets, ports, shifting, stacking, starting, tables,
};
use cw_word::laws::{fields, many_places, masks, readings, scaling, sums};

/// Started with the image of a program of orders, the processor shows what the machine of the orders shows, and begins the statements
/// that it begins, with the words of the data area: nothing else, and all of it, where each order pays for the instructions that carry
/// it out. For every way of filling the relocated words that gives each what the orders mean by it, the places of the statements in
/// that image, and every input of bytes.
pub fn code_follows_orders()
    ensures { (p : OrderProgram) (image words : List ℕ) (memory : List ℤ) (input : List ℕ) (s : State) (places : List StatementPlace) →
        IsImage p image → PlacesStand p image places → Codable p → BeginsWith p memory words
        → NeverStuck p memory input → IsStart image words s → All (λ b. b < 256) input →
        TracksAfter (λ o. is_running o.0) startup_cost (watched (order_machine p) (starts p)) (order_start p memory input, []) (watched (processor_machine shown_as) (passes places p.limits.area)) (processor_start s input, []) }
{
    readings();
    sums();
    fields();
    masks();
    scaling();
    many_places();
    words();
    activations();
    word_laws();
    fetching();
    starting();
    moves();
    stacking();
    memory();
    stack_fields();
    offsets();
    arithmetic();
    logic();
    shifting();
    multiplying();
    numbers();
    comparing();
    comparing_below();
    conditions();
    acting();
    jumps();
    jumping();
    tables();
    ports();
    bodies();
    calls();
    loops();
    products_and_quotients();
    pieces();
    standing();
}

/// The places of statements that the code of orders tells stand in their image: where the code of the order behind a Start begins, its
/// statement does, and nowhere else does any.
pub fn places_stand()
    ensures { (p : OrderProgram) (image : List ℕ) → IsImage p image → Codable p → PlacesStand p image (statement_places p) }
{
    standing();
}
