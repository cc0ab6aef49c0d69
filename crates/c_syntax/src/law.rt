//! Laws of the definitions: what holds of each well-formed node.

ghost use Rattle.std.specs.Prelude.{◌≡◌, ◌≤◌, ℕ, List, [], true, false};
ghost use Rattle.c_syntax.specs.Levels.{expression};
ghost use Rattle.c_syntax.specs.Tokens.{Match};
ghost use Rattle.c_lexer.specs.Stream.{Stream};
ghost use Rattle.c_syntax.specs.Parsing.{SpelledBy};
ghost use Rattle.c_syntax.specs.declared.spelled.Spelled.{Spelled};
ghost use Rattle.c_syntax.specs.First.{IsFirst};
ghost use Rattle.c_syntax.specs.Tree.{Expr, TypeName, Specifiers, Declarator, Parameter, MemberDeclaration};
ghost use Rattle.c_syntax.specs.TreeUnit.{Initializer, Item, Declaration, Statement, BlockItem, SwitchItem};
ghost use Rattle.c_syntax.specs.TreeUnit.{External, Tree};
ghost use Rattle.c_syntax.specs.Scopes.{Scope};
ghost use Rattle.c_syntax.specs.Spelling.{spell, spell_type_name, spell_specifiers, spell_declarator};
ghost use Rattle.c_syntax.specs.Spelling.{spell_parameter, spell_member};
ghost use Rattle.c_syntax.specs.SpellingUnit.{spell_initializer, spell_item, spell_declaration, spell_statement};
ghost use Rattle.c_syntax.specs.SpellingUnit.{spell_block_item, spell_switch_item, spell_external, spell_tree};
ghost use Rattle.c_syntax.specs.Height.{height, type_name_height, declarator_height};
ghost use Rattle.c_syntax.specs.HeightUnit.{initializer_height, statement_height, external_height, tree_height};
ghost use Rattle.c_syntax.specs.WellFormed.{HasToken, SpecifyOneType, IsExpr, IsTypeName, AreSpecifiers};
ghost use Rattle.c_syntax.specs.WellFormed.{IsParameter, IsMember};
ghost use Rattle.c_syntax.specs.WellFormedUnit.{IsInitializer, IsItem, IsDeclaration, IsStatement, IsBlockItem};
ghost use Rattle.c_syntax.specs.WellFormedUnit.{IsSwitchItem, IsExternal, IsTree, IsWellFormed};

/// One token tells an expression from a declaration: no expression begins with a word of a declaration specifier or a
/// type name (6.7.8), and specifiers always do.
pub fn first_token_law()
    ensures expression { (expr : Expr) (scope : Scope) (level : ℕ) → IsExpr expr scope level
        → IsFirst false scope (spell expr) }
    ensures specifiers { (specifiers : Specifiers) (scope : Scope) → SpecifyOneType specifiers
        → AreSpecifiers specifiers scope → IsFirst true scope (spell_specifiers specifiers) }
    ensures declaration { (declaration : Declaration) (scope : Scope) → IsDeclaration declaration scope
        → IsFirst true scope (spell_declaration declaration) }
    ensures type_name { (type : TypeName) (scope : Scope) → IsTypeName type scope
        → IsFirst true scope (spell_type_name type) }
    ensures parameter { (parameter : Parameter) (scope : Scope) → IsParameter parameter scope
        → IsFirst true scope (spell_parameter parameter) }
    ensures member { (member : MemberDeclaration) (scope : Scope) → IsMember member scope
        → IsFirst true scope (spell_member member) }
{}

/// No well-formed node has an empty spelling, beside a declarator that omits its identifier and has no other token.
pub fn spelling_law()
    ensures declarator { (declarator : Declarator) → HasToken declarator → spell_declarator declarator ≡ [] → ⊥ }
    ensures initializer { (initializer : Initializer) (scope : Scope) → IsInitializer initializer scope
        → spell_initializer initializer ≡ [] → ⊥ }
    ensures item { (item : Item) (scope : Scope) → IsItem item scope → spell_item item ≡ [] → ⊥ }
    ensures statement { (statement : Statement) (scope : Scope) → IsStatement statement scope
        → spell_statement statement ≡ [] → ⊥ }
    ensures block_item { (item : BlockItem) (scope : Scope) → IsBlockItem item scope → spell_block_item item ≡ [] → ⊥ }
    ensures switch_item { (item : SwitchItem) (scope : Scope) → IsSwitchItem item scope
        → spell_switch_item item ≡ [] → ⊥ }
    ensures external { (external : External) (scope : Scope) → IsExternal external scope
        → spell_external external ≡ [] → ⊥ }
    ensures tree { (tree : Tree) → IsTree tree → spell_tree tree ≡ [] → ⊥ }
{}

/// Each node has a height of at least 1, and a well-formed unit one from 2 to the greatest.
pub fn height_law()
    ensures expression { (expr : Expr) → 1 ≤ height expr }
    ensures type_name { (type : TypeName) → 1 ≤ type_name_height type }
    ensures declarator { (declarator : Declarator) → HasToken declarator → 1 ≤ declarator_height declarator }
    ensures initializer { (initializer : Initializer) → 1 ≤ initializer_height initializer }
    ensures statement { (statement : Statement) → 1 ≤ statement_height statement }
    ensures external { (external : External) → 1 ≤ external_height external }
    ensures least { (tree : Tree) → IsTree tree → 2 ≤ tree_height tree }
    ensures greatest { (tree : Tree) → IsWellFormed tree → tree_height tree ≤ 256 }
{}

/// The printer gives the tokens of a unit back from its tree.
pub fn round_trip_law()
    ensures { (stream : Stream) (tree : Tree) (printed : List Spelled) → SpelledBy stream tree
        → printed ≡ spell_tree tree → Match stream.tokens printed }
{}
