//! Laws of the machine of orders.
ghost use Rattle.std.specs.Prelude.{◌≡◌, ◌≢◌, ℕ};
ghost use Rattle.cw_track.specs.Machine.{state_after, shown_after, cost};
ghost use Rattle.cw_unit.specs.Stop.{Running};
ghost use Rattle.cw_order.specs.OrderProgram.{OrderProgram};
ghost use Rattle.cw_order.specs.OrderState.{OrderState};
ghost use Rattle.cw_order.specs.OrderMachine.{shown, step, order_machine};
ghost use Rattle.cw_order.specs.FittingWords.{StateFits};
ghost use Rattle.cw_order.specs.Activations.{StateStands, Callable};
ghost use Rattle.cw_order.specs.Example.{overflowing, overflowing_start, overflowing_shows, calling, calling_start, calling_shows};

/// A run that is over stays as it is. A sum that fits no word stops the run at its line, and what was written stays written.
/// A procedure gets its argument, and comes back behind its call.
pub fn runs()
    ensures over { (p : OrderProgram) (s : OrderState) (k : ℕ) → (shown s).end ≢ Running → state_after (order_machine p) k s ≡ s }
    ensures stops { shown_after (order_machine overflowing) 9 overflowing_start ≡ overflowing_shows }
    ensures costs { cost (order_machine overflowing) 9 overflowing_start ≡ 36 }
    ensures returns { shown_after (order_machine calling) 12 calling_start ≡ calling_shows }
    ensures returning_costs { cost (order_machine calling) 12 calling_start ≡ 99 }
{}

/// All operands, those of callers and arguments too, and all words of memory fit a word, in each state of a run that begins
/// so and reads bytes.
pub fn words()
    ensures { (p : OrderProgram) (s : OrderState) → StateFits s → StateFits (step p s) }
{}

/// In each state of a run that begins with no activation and no operand, the activations and the control arguments stand in
/// the way that the orders rely on.
pub fn activations()
    ensures { (p : OrderProgram) (s : OrderState) → Callable p → StateStands p s → StateStands p (step p s) }
{}
