//! Laws of derived trees: each is a function without a body, whose contract is the law.
ghost use Rattle.std.specs.Prelude.{ℕ, ◌≤◌, Bool, false, List, length};
ghost use Rattle.cw_lex.specs.Lexical.{Lexeme};
ghost use Rattle.cw_tree.specs.declared.segment.Raw.{Raw};
ghost use Rattle.cw_grammar.specs.Tokens.{numbered};
ghost use Rattle.cw_grammar.specs.Grammar.{a_name, an_int, a_sint, a_size, a_type, a_bits, an_expr, a_cond, a_ref, a_bounds, a_table, a_data, a_base, a_ptag};
ghost use Rattle.cw_grammar.specs.Grammar.{an_ips, a_ps, a_spec, a_citem, an_aitem, a_comm, a_felem, a_param, a_decl, a_stmt, a_raw, again, labelled};
ghost use Rattle.cw_grammar.specs.Rules.{name, int, sint, size, number_type, bits, expr, condition, reference};
ghost use Rattle.cw_grammar.specs.Statements.{bounds, table, item_data, base, ptag, ips, ps, spec, citem, aitem, comm, felem, param, decl, text};
ghost use Rattle.cw_grammar.specs.Derives.{Derives};
ghost use Rattle.cw_derived.specs.Proper.{GivesNormal, IsProper};

/// Each tree that a rule derives is in normal form, and its positions are those of some of its tokens, in their order.
pub fn in_normal_form()
    ensures name { (p : Bool) → GivesNormal p a_name name }
    ensures int { (p : Bool) → GivesNormal p an_int int }
    ensures sint { (p : Bool) → GivesNormal p a_sint sint }
    ensures size { (p : Bool) → GivesNormal p a_size size }
    ensures number_type { (p : Bool) → GivesNormal p a_type number_type }
    ensures bits { (p : Bool) → GivesNormal p a_bits bits }
    ensures expression { (p : Bool) → GivesNormal p an_expr expr }
    ensures condition { (p : Bool) → GivesNormal p a_cond condition }
    ensures reference { (p : Bool) → GivesNormal p a_ref reference }
    ensures bounds { (p : Bool) → GivesNormal p a_bounds bounds }
    ensures table { (p : Bool) → GivesNormal p a_table table }
    ensures item_data { (p : Bool) → GivesNormal p a_data item_data }
    ensures base { (p : Bool) → GivesNormal p a_base base }
    ensures ptag { (p : Bool) → GivesNormal p a_ptag ptag }
    ensures ips { (p : Bool) → GivesNormal p an_ips ips }
    ensures ps { (p : Bool) → GivesNormal p a_ps ps }
    ensures spec { (p : Bool) → GivesNormal p a_spec spec }
    ensures citem { (p : Bool) → GivesNormal p a_citem citem }
    ensures aitem { (p : Bool) → GivesNormal p an_aitem aitem }
    ensures comm { (p : Bool) → GivesNormal p a_comm comm }
    ensures felem { (p : Bool) → GivesNormal p a_felem felem }
    ensures param { (p : Bool) → GivesNormal p a_param param }
    ensures decl { (p : Bool) → GivesNormal p a_decl (decl p) }
    ensures stmt { (p : Bool) → GivesNormal p a_stmt (again (labelled p)) }
    ensures text { GivesNormal false a_raw text }
{}

/// The tree of a text is in normal form, and its positions rise strictly in order of the text.
pub fn rises_in_order()
    ensures { (n : ℕ) (ts : List Lexeme) (x : Raw) → length ts ≤ 65535 → Derives n a_raw text (numbered 1 ts) x → IsProper n x }
{}
