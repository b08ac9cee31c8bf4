//! What a solver's answers about the bounds and texts of literals say of the literals, what a
//! right leaf says of them, and how it moves. The functions do nothing: each contract is a law
//! about the definitions in `specs/`.
ghost use Rattle.std.specs.Prelude.{◌≡◌, ◌≤◌, ℕ, true, List, [], length, Option, Some, slice_get};
ghost use Rattle.diff_bounds.specs.declared.system.Edge.{Edge};
ghost use Rattle.diff_bounds.specs.Rings.{IsNegativeRing, IsSimple};
ghost use Rattle.lint_core.specs.declared.certificate.Step.{Step};
ghost use Rattle.lint_core.specs.declared.certificate.SumEdge.{SumEdge};
ghost use Rattle.lint_core.specs.declared.certificate.TextEdge.{TextEdge};
ghost use Rattle.lint_core.specs.declared.schema.Table.{Table};
ghost use Rattle.sort_formula.specs.declared.formula.Side.{Side};
ghost use Rattle.sort_formula.specs.Certificate.{children};
ghost use Rattle.sort_formula.specs.Facts.{Branch};
ghost use Rattle.text_classes.specs.declared.facts.TextFact.{TextFact};
ghost use Rattle.text_classes.specs.Paths.{IsPath};
ghost use Rattle.text_classes.specs.Texts as classes;
ghost use Rattle.ground_theory.specs.declared.literal.Frame.{Frame};
ghost use Rattle.ground_theory.specs.declared.literal.Literal.{Literal};
ghost use Rattle.ground_theory.specs.Assignments.{HasAssignment};
ghost use Rattle.ground_theory.specs.Edges.{IsSystem};
ghost use Rattle.ground_theory.specs.Fitting.{all_fit, has_domains, has_ranges};
ghost use Rattle.ground_theory.specs.Leaves.{is_right_leaf};
ghost use Rattle.ground_theory.specs.Moving.{moved, IsMoved};
ghost use Rattle.ground_theory.specs.SumLeaf.{sum_leaf};
ghost use Rattle.ground_theory.specs.TextEdges.{IsTextSystem};
ghost use Rattle.ground_theory.specs.TextLeaf.{text_leaf};

/// The domains of a schema's columns are ranges that are not empty.
pub fn domains_are_ranges()
    ensures { (frame : Frame) → has_domains frame ≡ true → has_ranges frame ≡ true }
{}

/// A closed chain of the system's edges with a negative sum, in which no two edges have the same
/// left end, makes a right leaf. `solve` answers such a chain.
pub fn rings_make_leaves()
    ensures { (frame : Frame) (literals : List Literal) (side_of : ℕ → Side)
        (origins : List SumEdge) (edges : List Edge) (ring : List ℕ)
        → all_fit frame literals ≡ true → has_ranges frame ≡ true
        → IsSystem frame literals side_of origins edges
        → IsNegativeRing edges ring → IsSimple edges ring → length ring ≤ 32769
        → is_right_leaf frame literals (sum_leaf frame literals origins ring) ≡ true }
{}

/// A path of the system's facts makes a right leaf. `classes` answers such a path.
pub fn paths_make_leaves()
    ensures { (frame : Frame) (literals : List Literal) (side_of : ℕ → Side)
        (origins : List TextEdge) (facts : List TextFact) (last : Option ℕ) (path : List ℕ)
        → IsTextSystem frame literals side_of origins facts → IsPath facts last path
        → is_right_leaf frame literals (text_leaf origins facts last path) ≡ true }
{}

/// Where a leaf is right over literals, no assignment satisfies them.
pub fn right_leaves_exclude()
    ensures { (frame : Frame) (literals : List Literal) (leaf : Step)
        → is_right_leaf frame literals leaf ≡ true → HasAssignment frame literals → ⊥ }
{}

/// A right leaf over literals, with other numbers of facts and rows, closes a branch whose facts
/// at these numbers say what the literals say of these rows. So it is right over literals among
/// which these stand at other places.
pub fn leaves_move()
    ensures closing { (frame : Frame) (literals : List Literal) (leaf : Step)
        → is_right_leaf frame literals leaf ≡ true
        → (facts rows : ℕ → ℕ) (schema : List Table) (branch : Branch)
        → IsMoved frame literals facts rows schema branch
        → children schema branch (moved facts rows leaf) ≡ Some [] }
    ensures renumbered { (frame : Frame) (literals : List Literal) (leaf : Step)
        → is_right_leaf frame literals leaf ≡ true → (facts : ℕ → ℕ) (others : List Literal)
        → ((i : ℕ) (l : Literal) → slice_get literals i ≡ Some l
        → slice_get others (facts i) ≡ Some l)
        → is_right_leaf frame others (moved facts (λ row. row) leaf) ≡ true }
{}
