//! Laws of the profile: what follows from the definitions for every text. The functions do nothing.
ghost use Rattle.std.specs.Prelude.{◌≡◌, ℕ, ◌+◌, ◌≤◌, true, List, [], ◌∷◌, ◌++◌, length, Some, None, Contains};
ghost use Rattle.yaml_block.specs.declared.piece.Piece.{Piece};
ghost use Rattle.yaml_block.specs.declared.piece.Line.TheVariants.{Mark};
ghost use Rattle.yaml_block.specs.declared.fault.Refusal.{Refusal};
ghost use Rattle.yaml_block.specs.declared.node.Node.{Node};
ghost use Rattle.yaml_block.specs.Scalars.{past_white, is_end};
ghost use Rattle.yaml_block.specs.Layout.{Forest, none, grown};
ghost use Rattle.yaml_block.specs.Trees.{unreadable, block};
ghost use Rattle.yaml_block.specs.Documents as spec;
ghost use Rattle.yaml_block.specs.Laws.{IsReadable, meaning, HasTrees, IsMoved, one_more_behind, StandsIn, line_of_node};
ghost use Rattle.yaml_block.specs.Laws.{then_others};

/// A text has at most one list of trees, and it is what reading gives.
pub fn one_list_of_trees()
    ensures one { (text : List ℕ) (ns ms : List Node) → HasTrees text ns → HasTrees text ms → ns ≡ ms }
    ensures read { (text : List ℕ) (ns : List Node) → spec.read text ≡ Ok ns → HasTrees text ns }
    ensures has { (text : List ℕ) (ns : List Node) → HasTrees text ns → spec.read text ≡ Ok ns }
{}

/// What stands behind the line of a refusal changes nothing of it: neither in lines nor in the bytes of a text.
pub fn nothing_behind_the_refused_line()
    ensures lines { (front back other : List (List ℕ)) (d : ℕ) (r : Refusal)
        → meaning (front ++ back) ≡ Err (d, r)
        → r.line ≤ length front
        → meaning (front ++ other) ≡ Err (d, r) }
    ensures text { (front back other : List ℕ) (d : ℕ) (r : Refusal)
        → IsReadable (front ++ 10 ∷ back)
        → IsReadable (front ++ 10 ∷ other)
        → spec.read (front ++ 10 ∷ back) ≡ Err (d, r)
        → r.line ≤ length (spec.lines front)
        → spec.read (front ++ 10 ∷ other) ≡ Err (d, r) }
{}

/// A blank line and a comment change nothing but the numbers of the lines behind them.
pub fn blank_lines_move_lines_alone()
    ensures { (front back : List (List ℕ)) (blank : List ℕ)
        → is_end (past_white blank) ≡ true
        → IsMoved (one_more_behind (length front)) (meaning (front ++ back)) (meaning (front ++ blank ∷ back)) }
{}

/// A document's tree depends on its own lines alone: a mark parts what is before it from what is behind it.
pub fn documents_stand_apart()
    ensures { (front back : List (List ℕ)) (mark : List ℕ)
        → spec.line_of (length front + 1) mark ≡ Mark
        → meaning (front ++ mark ∷ back)
        ≡ then_others (meaning front) (λ n. spec.trees (n + 1) (spec.documents (length front + 2) back)) }
{}

/// The line of a node is that of its first character: a block has the line of its first piece, the empty scalar that of
/// the piece that it lies below, and each piece stands on the line with its number.
pub fn lines_are_those_of_first_characters()
    ensures block { (line : ℕ) (p : Piece) (under after : Forest)
        → unreadable p.head ≡ None
        → line_of_node (block line (grown p under after)) ≡ p.line }
    ensures empty { (line : ℕ) → line_of_node (block line none) ≡ line }
    ensures piece { (text : List ℕ) (d : List Piece) (p : Piece)
        → Contains (spec.documents 1 (spec.lines text)) d
        → Contains d p
        → StandsIn (spec.lines text) p }
{}
