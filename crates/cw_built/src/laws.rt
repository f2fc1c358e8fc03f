//! What is so of built units, and of orders that have code: laws that need only the definitions.
ghost use Rattle.std.specs.Prelude.{◌≡◌, ◌≢◌, ◌⊎◌, ℕ, ◌<◌, ◌≤◌, List, [], length, All, IsTrue, Some, slice_get};
ghost use Rattle.cw_unit.specs.{declared.unit.Unit.Unit as SourceUnit, declared.unit.Def.Def, declared.unit.Goal.Goal, declared.layout.Limits.Limits, declared.layout.Map.Map};
ghost use Rattle.cw_unit.specs.{HasLayout.HasLayout, Program.program_at};
ghost use Rattle.cw_safety.specs.WellFormed.{WellFormed};
ghost use Rattle.cw_comm.specs.Clashes.{Agree};
ghost use Rattle.cw_order.specs.{declared.order.Orders.Orders, declared.order.Order.Order, HasCode.HasCode, FittingWords.LinesFit, NamesAgree.NamesAgree, Activations.Callable};
ghost use Rattle.cw_order.specs.{Sharing.DefinitionsShared, OrderProgram.Tables, OrderProgram.order_at, OrderProgram.place_of};
ghost use Rattle.cw_gen_expr.specs.UnitTables.{tables_of};
ghost use Rattle.cw_gen_unit.specs.{ReferenceUnits.unit_orders, ReferenceUnits.orders_program, BuiltUnits.are_built};
ghost use Rattle.cw_built.specs.{Built.is_built, Shared.faces_of, Shared.Defines, Coded.have_code, Coded.is_landing};

/// Units that are built and agree are well formed together at every storage map and limits. Each of them has a layout, and what it defines in
/// common with others is there.
pub fn built_units()
    ensures well_formed { (us : List SourceUnit) (m : Map) (limits : Limits) → us ≢ []
        → All (λ u. IsTrue (is_built u)) us → Agree (faces_of us) → WellFormed (program_at us m limits) }
    ensures built { (us : List SourceUnit) → All (λ u. IsTrue (is_built u)) us → IsTrue (are_built us) }
    ensures layout { (u : SourceUnit) → IsTrue (is_built u) → HasLayout u }
    ensures defined { (u : SourceUnit) (k d : ℕ) (def : Def) → IsTrue (is_built u) → slice_get u.defined k ≡ Some (d, def) → Defines u d def }
{}

/// Each order of a unit whose orders have code has code.
pub fn coded()
    ensures { (orders : Orders) → IsTrue (have_code orders) → All HasCode orders.list }
{}

/// What code needs of the program of the orders of such units, where these have code: each order has code, lines are words, switches
/// have few goals, a mark stands at the first order or at one where a jump may land, calls are in order, and what descriptors stand for is shared.
pub fn programs()
    ensures codes { (us : List SourceUnit) (m : Map) (limits : Limits) (room g place : ℕ) (o : Order)
        → All (λ u. IsTrue (have_code (unit_orders u))) us
        → order_at (orders_program us m limits room) g place ≡ Some o → HasCode o }
    ensures lines { (us : List SourceUnit) (m : Map) (limits : Limits) (room : ℕ)
        → All (λ u. IsTrue (have_code (unit_orders u))) us → LinesFit (orders_program us m limits room) }
    ensures tables { (us : List SourceUnit) (m : Map) (limits : Limits) (room g : ℕ) (t : Tables) (o : Orders)
        → slice_get (orders_program us m limits room).tables g ≡ Some t
        → slice_get (orders_program us m limits room).units g ≡ Some o → NamesAgree t o }
    ensures switches { (us : List SourceUnit) (m : Map) (limits : Limits) (room g n : ℕ) (o : Orders)
        (gs : List Goal) → All (λ u. IsTrue (have_code (unit_orders u))) us
        → slice_get (orders_program us m limits room).units g ≡ Some o → slice_get o.switches n ≡ Some gs
        → length gs < 32768 }
    ensures marks { (us : List SourceUnit) (m : Map) (limits : Limits) (room g mark place : ℕ)
        → All (λ u. IsTrue (have_code (unit_orders u))) us
        → place_of (orders_program us m limits room) g mark ≡ Some place
        → (place ≡ 0) ⊎ ((o : Order) × (order_at (orders_program us m limits room) g place ≡ Some o)
        × IsTrue (is_landing o)) }
    ensures callable { (us : List SourceUnit) (m : Map) (limits : Limits) (room : ℕ)
        → All (λ u. IsTrue (is_built u)) us → All (λ u. IsTrue (have_code (unit_orders u))) us
        → limits.frames ≤ limits.area → Callable (orders_program us m limits room) }
    ensures shared { (us : List SourceUnit) (m : Map) (limits : Limits) (room : ℕ) → DefinitionsShared (orders_program us m limits room) }
{}

/// The lists of a unit's orders tell the same of its labels, procedures and switches as its tables.
pub fn names_agree()
    ensures { (us : List SourceUnit) (u : SourceUnit) → NamesAgree (tables_of us u) (unit_orders u) }
{}
