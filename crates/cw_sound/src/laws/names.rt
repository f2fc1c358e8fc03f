//! Laws of the names and labels of a text: each is a function without a body, whose contract is the law.
ghost use Rattle.std.specs.Prelude.{◌≡◌, true, None, IsTrue};
ghost use Rattle.std.specs.declared.result.Result.TheVariants as results;
ghost use Rattle.cw_facts.specs.Facts.{block_facts};
ghost use Rattle.cw_scope.specs.{declared.resolve.Named.Named, Outcome.Resolves, NameRules.is_own_label, NameRules.is_own_switch};
ghost use Rattle.cw_judge.specs.Judged.{first_type_fault};
ghost use Rattle.cw_number.specs.Numbers.{numbers_of};
ghost use Rattle.cw_make.specs.Made.{unit_of};
ghost use Rattle.cw_built.specs.Listed.{are_named};
ghost use Rattle.cw_sound.specs.{Uses.Stands.FactsStand, Uses.Mentions.listed_mentions, Uses.Mentions.block_mentions, Uses.Mentions.text_mentions, Names.Placed.Placed};
ghost use Rattle.cw_sound.specs.{Names.Found.UsesFound, Names.Faultless.WhereItemsStand, Names.Standing.AnswersAreCalled, Names.Standing.AnswersFit, Names.Standing.CountsOwn};
ghost use Rattle.cw_sound.specs.Names.Standing.{FewParameters, Stand, ItemsStand, is_element, is_own_procedure};
ghost use Rattle.cw_sound.specs.Names.Standing.{is_control, is_built_in, is_common};
ghost use Rattle.cw_tokens.specs.SetLabels.{LabelsStand};

/// Each use of a name of a text without faults refers to a declaration that allows it, of the same body or of none.
pub fn uses_found()
    ensures { (named : Named) → Resolves named.raw.now (results.Ok named) → Placed named.raw.now → UsesFound named (numbers_of named) }
{}

/// What the outermost block declares has the next number of its sort.
pub fn counts()
    ensures { WhereItemsStand (λ named. CountsOwn named (numbers_of named)) }
{}

/// Each element stands for one of a table that its body may name.
pub fn elements()
    ensures { WhereItemsStand (λ named. Stand named (numbers_of named) (unit_of named) is_element
        (text_mentions (numbers_of named) named.raw.now)) }
{}

/// Each procedure that is specified has at most 32 parameters.
pub fn few_parameters()
    ensures { (named : Named) → Resolves named.raw.now (results.Ok named) → first_type_fault named ≡ None → Placed named.raw.now → FewParameters named }
{}

/// The number of each procedure is that of the unit's procedure with parameters as they are specified.
pub fn procedures()
    ensures { WhereItemsStand (λ named. Stand named (numbers_of named) (unit_of named) is_own_procedure
        (block_mentions (numbers_of named) named.raw.now)) }
{
    counts();
}

/// The number of each label, switch or procedure that is a parameter is that of its procedure's control parameter of this kind.
pub fn parameters()
    ensures { (named : Named) → Resolves named.raw.now (results.Ok named) → first_type_fault named ≡ None
        → Placed named.raw.now → ItemsStand named (numbers_of named) (unit_of named)
        → Stand named (numbers_of named) (unit_of named) is_control
        (block_mentions (numbers_of named) named.raw.now) }
{
    counts();
    few_parameters();
}

/// The number of each label is that of one that its body sets.
pub fn labels()
    ensures { WhereItemsStand (λ named. Stand named (numbers_of named) (unit_of named) is_own_label
        (block_mentions (numbers_of named) named.raw.now)) }
{
    counts();
}

/// The number of each switch is that of one whose labels its body reaches.
pub fn switches()
    ensures { WhereItemsStand (λ named. Stand named (numbers_of named) (unit_of named) is_own_switch
        (block_mentions (numbers_of named) named.raw.now)) }
{
    counts();
    uses_found();
    labels();
    listed();
}

/// The descriptors of the unit have names, no two the same.
pub fn descriptors_named()
    ensures { (named : Named) → Resolves named.raw.now (results.Ok named) → Placed named.raw.now → IsTrue (are_named (unit_of named).descs) }
{}

/// The number of each label, switch and procedure that the communicators list is that of a descriptor that says so.
pub fn listed()
    ensures { WhereItemsStand (λ named. Stand named (numbers_of named) (unit_of named) is_common
        (listed_mentions (numbers_of named) named.raw.now)) }
{
    descriptors_named();
}

/// READBYTE and WRITEBYTE are what they are.
pub fn built_ins()
    ensures { WhereItemsStand (λ named. Stand named (numbers_of named) (unit_of named) is_built_in
        (text_mentions (numbers_of named) named.raw.now)) }
{}

/// What answers by itself is a procedure.
pub fn answers_are_called()
    ensures { (named : Named) → Resolves named.raw.now (results.Ok named) → Placed named.raw.now → AnswersAreCalled named (numbers_of named) }
{}

/// ANSWER is that of the procedure in whose body it stands.
pub fn answers_fit()
    ensures { WhereItemsStand (λ named. AnswersFit named (numbers_of named) (unit_of named)) }
{
    counts();
    uses_found();
}

/// All that the outermost block of a text without faults mentions stands for a right thing of its unit.
pub fn all_stand()
    ensures { (named : Named) → Resolves named.raw.now (results.Ok named) → first_type_fault named ≡ None
        → Placed named.raw.now → ItemsStand named (numbers_of named) (unit_of named)
        → FactsStand named (numbers_of named) (unit_of named) (block_facts named.raw.now.block true) None }
{
    uses_found();
    elements();
    procedures();
    parameters();
    labels();
    switches();
    listed();
    built_ins();
    answers_are_called();
}

/// The unit of a text has no more labels than its bodies set.
pub fn labels_set()
    ensures { (named : Named) → LabelsStand (unit_of named) }
{}
