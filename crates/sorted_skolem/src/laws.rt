//! What an order of the live tables says of their edges. The function does nothing: its contract
//! is a law about the definitions in `specs/`.
ghost use Rattle.std.specs.Prelude.{ℕ, List};
ghost use Rattle.sort_formula.specs.declared.formula.Formula.{Formula};
ghost use Rattle.sorted_skolem.specs.Graph.{IsAcyclic, IsOrder};

/// Where the live tables have an order, no edges lead from a table round to itself.
pub fn orders_exclude_cycles()
    ensures { (sentences : List Formula) (tables : List ℕ)
        → IsOrder sentences tables → IsAcyclic sentences }
{}
