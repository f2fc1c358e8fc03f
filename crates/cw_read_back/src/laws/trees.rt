//! Laws of canonical text and the grammar: each is a function without a body, whose contract is the law.
ghost use Rattle.std.specs.Prelude.{◌≡◌, ℕ, Bool, false, List, [], map};
ghost use Rattle.cw_lex.specs.Lexical.{Lexeme};
ghost use Rattle.cw_tree.specs.declared.segment.Raw.{Raw};
ghost use Rattle.cw_tokens.specs.Texts.{IsTreeOf};
ghost use Rattle.cw_grammar.specs.Grammar.{a_bounds, a_table, a_data, a_base, an_ips, a_ps, a_spec, a_citem, an_aitem};
ghost use Rattle.cw_grammar.specs.Grammar.{a_comm, a_felem, a_param, a_decl, a_stmt, a_raw, again, labelled};
ghost use Rattle.cw_grammar.specs.Statements.{in_square, bounds, table, item_data, base, ips, ps, spec, citem, aitem, comm, felem, param, decl};
ghost use Rattle.cw_derived.specs.NormalForm.{IsNormal};
ghost use Rattle.cw_show.specs.ItemTokens.{bounds_tokens, table_with, data_tokens, base_tokens};
ghost use Rattle.cw_show.specs.SegmentTokens.{ips_tokens, ps_tokens, spec_tokens, citem_tokens, aitem_tokens, comm_tokens};
ghost use Rattle.cw_show.specs.StatementTokens.{felem_tokens, param_tokens, decl_tokens, stmt_tokens, canonical_tokens};
ghost use Rattle.cw_show.specs.Lexing.{spelling};
ghost use Rattle.cw_read_back.specs.Expressions.Leaves.{HasSpelledLeaves};
ghost use Rattle.cw_read_back.specs.Expressions.ReadingBack.{ReadsBack};
ghost use Rattle.cw_read_back.specs.Trees.ReadBack.{IsReadBack};
ghost use Rattle.cw_read_back.specs.Trees.UnplacedItems.{unplaced_bounds, unplaced_table, unplaced_data, unplaced_base, unplaced_ips};
ghost use Rattle.cw_read_back.specs.Trees.UnplacedItems.{unplaced_ps, unplaced_spec, unplaced_citem, unplaced_aitem, unplaced_comm};
ghost use Rattle.cw_read_back.specs.Trees.UnplacedStatements.{unplaced_felem, unplaced_param, unplaced_decl, unplaced_stmt, unplaced};

/// The canonical tokens of data, specifications and communicators derive them again, but for positions.
pub fn items()
    ensures bounds { (p : Bool) → ReadsBack p a_bounds (in_square bounds) bounds_tokens unplaced_bounds }
    ensures table { (p : Bool) → ReadsBack p a_table table (λ t. table_with t []) unplaced_table }
    ensures item_data { (p : Bool) → ReadsBack p a_data item_data data_tokens unplaced_data }
    ensures base { (p : Bool) → ReadsBack p a_base base base_tokens unplaced_base }
    ensures ips { (p : Bool) → ReadsBack p an_ips ips ips_tokens unplaced_ips }
    ensures ps { (p : Bool) → ReadsBack p a_ps ps ps_tokens unplaced_ps }
    ensures spec { (p : Bool) → ReadsBack p a_spec spec spec_tokens unplaced_spec }
    ensures citem { (p : Bool) → ReadsBack p a_citem citem citem_tokens unplaced_citem }
    ensures aitem { (p : Bool) → ReadsBack p an_aitem aitem aitem_tokens unplaced_aitem }
    ensures comm { (p : Bool) → ReadsBack p a_comm comm comm_tokens unplaced_comm }
{}

/// The canonical tokens of statements, parameters and declarations derive them again, but for positions.
pub fn statements()
    ensures felem { (p : Bool) → ReadsBack p a_felem felem felem_tokens unplaced_felem }
    ensures param { (p : Bool) → ReadsBack p a_param param param_tokens unplaced_param }
    ensures decl { (p : Bool) → ReadsBack p a_decl (decl p) decl_tokens unplaced_decl }
    ensures stmt { (p : Bool) → ReadsBack p a_stmt (again (labelled p)) stmt_tokens unplaced_stmt }
{}

/// The tokens of a text that are spelled as the canonical ones of a tree derive it again, but for positions.
pub fn text()
    ensures { (n : ℕ) (x : Raw) (marks : List ℕ) → IsNormal n false a_raw x marks → (ts : List Lexeme)
        → map spelling ts ≡ canonical_tokens x → (d : Raw) × IsTreeOf n ts d
        × (unplaced d ≡ unplaced x) }
{}

/// The canonical text of a tree in normal form has tokens that expand to themselves and derive the tree again, but
/// for positions, where its names, strings and literals are spelled as they must be.
pub fn read_back()
    ensures { (n : ℕ) (x : Raw) (marks : List ℕ) → IsNormal n false a_raw x marks → HasSpelledLeaves (canonical_tokens x) → IsReadBack n x }
{}
