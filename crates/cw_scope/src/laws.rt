//! Laws of the faults of names: each is a function without a body, whose contract is the law.
ghost use Rattle.std.specs.Prelude.{◌≡◌, List, [], ◌∷◌, ◌++◌, Option};
ghost use Rattle.cw_tree.specs.declared.leaf.RawName.{RawName};
ghost use Rattle.cw_table.specs.Earliest.{IsEarliest};
ghost use Rattle.cw_facts.specs.declared.fact.Fact.{Fact};
ghost use Rattle.cw_scope.specs.declared.fault.Fault.{Fault};
ghost use Rattle.cw_scope.specs.declared.fault.Rule.{Rule};
ghost use Rattle.cw_scope.specs.Faults.{Judgement, comes_before, fine, wrong, both};
ghost use Rattle.cw_scope.specs.Telling.{Tells};
ghost use Rattle.cw_scope.specs.NameRules.{name_faults};
ghost use Rattle.cw_scope.specs.Definitions.{definitions_judged};
ghost use Rattle.cw_scope.specs.Text.{text_fault};

/// A judgement answers the earliest of its faults, by token and then number, whatever the order in which its parts are judged.
#[tactic(auto, using(crate::proofs::Telling::laws))]
pub fn earliest_fault()
    ensures nothing { Tells fine [] }
    ensures one { (r : Rule) (n : RawName) → Tells (wrong r n) (record { rule = r; name = n } ∷ []) }
    ensures parts { (a b : Judgement) (xs ys : List Fault) → Tells a xs → Tells b ys → Tells (both a b) (xs ++ ys) }

    // The faults of a text are those of its names and of its definitions, and its first fault is the earliest of them.
    ensures text { (facts : List Fact) → (told : List Fault)
        × Tells (both (name_faults facts) (definitions_judged facts)) told
        × IsEarliest comes_before told (text_fault facts) }
{}
