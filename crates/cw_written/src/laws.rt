//! Laws of the grammar: each is a function without a body, whose contract is the law.
ghost use Rattle.std.specs.Prelude.{◌≡◌, ℕ, Bool, List};
ghost use Rattle.cw_tree.specs.declared.segment.Raw.{Raw};
ghost use Rattle.cw_grammar.specs.Tokens.{Item};
ghost use Rattle.cw_grammar.specs.Grammar.{a_pair, a_list, an_option, a_from, a_position, a_name, an_int, a_place, an_elem, a_presets, a_data, an_ips, a_ps};
ghost use Rattle.cw_grammar.specs.Grammar.{a_spec, a_citem, an_aitem, a_param, a_decl, a_stmt, a_simple, again, places, labelled, labelled_simple, a_raw};
ghost use Rattle.cw_grammar.specs.Statements.{preset_value, elem, table_body, item_data, ips, ps, spec, citem, unplaced_aitem, param, decl, text};
ghost use Rattle.cw_grammar.specs.Derives.{Derives};
ghost use Rattle.cw_written.specs.Alike.{IsAlike};
ghost use Rattle.cw_written.specs.Written.{preset_value as written_preset_value, presets as written_presets, elem as written_elem};
ghost use Rattle.cw_written.specs.Written.{table_body as written_body, item_data as written_data};
ghost use Rattle.cw_written.specs.Written.{ips as written_ips, ps as written_ps, spec as written_spec, citem as written_citem};
ghost use Rattle.cw_written.specs.Written.{unplaced_aitem as written_aitem, param as written_param};
ghost use Rattle.cw_written.specs.Written.{decl as written_decl, stmt as written_stmt, labelled_simple as written_simple};

/// Each rule derives the trees that its alternatives derive, written out, from the same tokens within the same levels, and has
/// their fronts.
pub fn same_as_written()
    ensures preset_value { IsAlike a_place written_preset_value preset_value }
    ensures presets { IsAlike (a_from a_position (a_list a_place)) written_presets (again places) }
    ensures elem { IsAlike an_elem written_elem elem }
    ensures table_body { IsAlike (a_pair (a_list an_elem) (an_option a_presets)) written_body table_body }
    ensures item_data { IsAlike a_data written_data item_data }
    ensures ips { IsAlike an_ips written_ips ips }
    ensures ps { IsAlike a_ps written_ps ps }
    ensures spec { IsAlike a_spec written_spec spec }
    ensures citem { IsAlike a_citem written_citem citem }
    ensures aitem { IsAlike (a_from an_int an_aitem) written_aitem unplaced_aitem }
    ensures param { IsAlike a_param written_param param }
    ensures decl { (p : Bool) → IsAlike a_decl (written_decl p) (decl p) }
    ensures stmt { (p : Bool) → IsAlike a_stmt (written_stmt p) (again (labelled p)) }
    ensures simple { (p : Bool) → IsAlike (a_pair (a_list a_name) a_simple) (written_simple p) (again (labelled_simple p)) }
{}

/// Tokens have one tree, whatever levels it may open.
pub fn one_tree()
    ensures { (n m : ℕ) (u : List Item) (x y : Raw) → Derives n a_raw text u x → Derives m a_raw text u y → x ≡ y }
{}
