//! What is so of built units, and of orders that have code.
ghost use Rattle.std.specs.Prelude.{◌≡◌, ◌≢◌, ℕ, ◌<◌, ◌≤◌, List, [], All, IsTrue, Some, slice_get};
ghost use Rattle.cw_unit.specs.{declared.unit.Unit.Unit as SourceUnit, declared.unit.Def.Def, declared.layout.Limits.Limits, declared.layout.Map.Map, HasLayout.HasLayout};
ghost use Rattle.cw_unit.specs.Program.{program_at};
ghost use Rattle.cw_safety.specs.WellFormed.{WellFormed};
ghost use Rattle.cw_order.specs.{declared.order.Orders.Orders, HasCode.HasCode};
ghost use Rattle.cw_gen_unit.specs.{BuiltUnits.AllBuilt, BuiltUnits.Suits, ReferenceUnits.unit_orders, ReferenceUnits.orders_program};
ghost use Rattle.cw_follow.specs.Placing.{Codable};
ghost use Rattle.cw_comm.specs.Clashes.{Agree};
ghost use Rattle.cw_built.specs.{Shared.faces_of, Shared.Defines, Built.is_built, Coded.have_code};

use cw_carry::laws::runs::{order_beginnings, order_spans, order_words, tested};

/// Units that are built and agree are well formed together at every storage map and limits, and have orders that do what they mean. Each of them
/// has a layout, and what it defines in common with others is there.
pub fn built_units()
    ensures well_formed { (us : List SourceUnit) (m : Map) (limits : Limits) → us ≢ []
        → All (λ u. IsTrue (is_built u)) us → Agree (faces_of us) → WellFormed (program_at us m limits) }
    ensures built { (us : List SourceUnit) → All (λ u. IsTrue (is_built u)) us → AllBuilt us }
    ensures layout { (u : SourceUnit) → IsTrue (is_built u) → HasLayout u }
    ensures defined { (u : SourceUnit) (k d : ℕ) (def : Def) → IsTrue (is_built u) → slice_get u.defined k ≡ Some (d, def) → Defines u d def }
{
    tested();
}

/// Each order of a unit whose orders have code has code.
pub fn coded()
    ensures { (orders : Orders) → IsTrue (have_code orders) → All HasCode orders.list }
{
    cw_built::laws::coded();
}

/// The program of the orders of such units, where these have code, is one that code can carry out, at a storage map, limits and room
/// that suit the units and are as a run has them.
pub fn codable()
    ensures { (us : List SourceUnit) (m : Map) (limits : Limits) (room : ℕ) → All (λ u. IsTrue (is_built u)) us
        → All (λ u. IsTrue (have_code (unit_orders u))) us → Agree (faces_of us) → Suits us m limits room
        → limits.frames ≤ limits.area → limits.depth < 65536 → room ≤ 32000
        → Codable (orders_program us m limits room) }
{
    order_words();
    order_spans();
    order_beginnings();
}
