//! Laws of the syntax that rest on how it is read: one tree or one refusal for each list of tokens.

ghost use Rattle.std.specs.Prelude.{◌≡◌, ◌⊎◌, List};
ghost use Rattle.c_lexer.specs.Stream.{Stream};
ghost use Rattle.c_lexer.specs.declared.token.Token.{Token};
ghost use Rattle.c_syntax.specs.Levels.{expression};
ghost use Rattle.c_syntax.specs.Parsing.{SpelledBy, RefusedAt};
ghost use Rattle.c_syntax.specs.Scopes.{Scope};
ghost use Rattle.c_syntax.specs.Spelling.{spell, spell_type_name};
ghost use Rattle.c_syntax.specs.SpellingUnit.{spell_tree};
ghost use Rattle.c_syntax.specs.Tokens.{Match};
ghost use Rattle.c_syntax.specs.Tree.{Expr, TypeName};
ghost use Rattle.c_syntax.specs.TreeUnit.{Tree};
ghost use Rattle.c_syntax.specs.WellFormed.{IsExpr, IsTypeName};
ghost use Rattle.c_syntax.specs.WellFormedUnit.{IsTree};
ghost use Rattle.critical_table.specs.declared.pos.Pos.{Pos};
ghost use Rattle.critical_table.specs.declared.refusal.Refusal.{Refusal};

/// Each unit has one tree, or is refused for one reason at one place, and not both.
pub fn answer_law()
    ensures tree { (stream : Stream) (a b : Tree) → SpelledBy stream a → SpelledBy stream b → a ≡ b }
    ensures refusal { (stream : Stream) (why other_why : Refusal) (pos other_pos : Pos) → RefusedAt stream why pos
        → RefusedAt stream other_why other_pos → (why ≡ other_why) × (pos ≡ other_pos) }
    ensures total { (stream : Stream) → ((tree : Tree) × SpelledBy stream tree)
        ⊎ ((why : Refusal) × (pos : Pos) × RefusedAt stream why pos) }
    ensures apart { (stream : Stream) (tree : Tree) (why : Refusal) (pos : Pos) → SpelledBy stream tree
        → RefusedAt stream why pos → ⊥ }
{}

/// No two well-formed trees have one spelling, so the tokens say which is meant: precedence, association, the nearest
/// `else` and the innermost declaration of each name decide (6.5 to 6.9).
pub fn one_tree_law()
    ensures expression { (scope : Scope) (a b : Expr) (tokens : List Token) → IsExpr a scope expression
        → IsExpr b scope expression → Match tokens (spell a) → Match tokens (spell b) → a ≡ b }
    ensures type_name { (scope : Scope) (a b : TypeName) (tokens : List Token) → IsTypeName a scope
        → IsTypeName b scope → Match tokens (spell_type_name a) → Match tokens (spell_type_name b) → a ≡ b }
    ensures unit { (a b : Tree) (tokens : List Token) → IsTree a → IsTree b → Match tokens (spell_tree a)
        → Match tokens (spell_tree b) → a.end ≡ b.end → a ≡ b }
{}
