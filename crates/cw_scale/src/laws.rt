//! Laws of the faults of types: each is a function without a body, whose contract is the law.
ghost use Rattle.std.specs.Prelude.{List, [], ◌∷◌, ◌++◌};
ghost use Rattle.cw_tree.specs.declared.leaf.Position.{Position};
ghost use Rattle.cw_scale.specs.{declared.fault.Fault.Fault, declared.fault.Rule.Rule, Faults.Judgement, Faults.fine, Faults.wrong, Faults.both, Telling.Tells};

/// A judgement answers the earliest of its faults, by token and then number, whatever the order in which its parts are judged.
#[tactic(auto, using(crate::proofs::Telling::laws))]
pub fn earliest_fault()
    ensures nothing { Tells fine [] }
    ensures one { (r : Rule) (at : Position) → Tells (wrong r at) (record { rule = r; at = at } ∷ []) }
    ensures parts { (a b : Judgement) (xs ys : List Fault) → Tells a xs → Tells b ys → Tells (both a b) (xs ++ ys) }
{}
