//! Small tables that others look things up in: the three-valued AND, OR and NOT as grids of
//! numbers, fixed lists of words with the reserved words of SQL, and the comparison operators with
//! the difference bounds that state them.
//!
//! The layer above may use every public item; it looks a keyword up by `RESERVED.find`. Of
//! `specs/` a reader must believe `Grid`, `Words`, `Operators` and `Ways`; `laws` proves of the
//! grids, of the operators, of their bounds and of the reserved words what they are for.
#![tactic(auto)]

mod fixed;
mod grid;
mod laws;
mod op;

pub use fixed::{Fixed, RESERVED, reserved_words};
pub use grid::{AND_GRID, Grid, NOT_GRID, OR_GRID};
pub use laws::{
    grids_are_truth_tables, operators_change_sides, reserved_words_stand_once, ways_are_exact,
};
pub use op::{Op, Way, Ways};

#[cfg(test)]
mod tests {
    use super::*;

    #[test]
    fn reserved_words_are_found_in_any_case(rt: HostRuntime) {
        let words = [
            "all",
            "And",
            "aNY",
            "as",
            "BETWEEN",
            "bY",
            "Case",
            "check",
            "ConStraint",
            "create",
            "CROSS",
            "Distinct",
            "except",
            "eXists",
            "foreign",
            "From",
            "FULL",
            "group",
            "Having",
            "iN",
            "inner",
            "InterSect",
            "is",
            "Join",
            "LEFT",
            "like",
            "Natural",
            "not",
            "Null",
            "oN",
            "or",
            "Order",
            "OUTER",
            "primary",
            "References",
            "right",
            "Select",
            "some",
            "TABLE",
            "union",
            "Unique",
            "using",
            "wherE",
            "With",
        ];
        for (place, word) in words.iter().enumerate() {
            assert_eq!(rt; RESERVED.find(word.as_bytes()), Some(place), "{word}");
            assert_eq!(rt;
                reserved_words().find(word.as_bytes()),
                Some(place),
                "{word}"
            );
        }
        for word in [
            "", "al", "alll", "selected", "an d", "customer", "`ND", "{ITH", "\u{1}S",
        ] {
            assert_eq!(rt; RESERVED.find(word.as_bytes()), None, "{word}");
        }
    }

    #[test]
    fn operators_and_grids(rt: HostRuntime) {
        let operators = [
            (Op::Eq, Op::Ne, Op::Eq),
            (Op::Ne, Op::Eq, Op::Ne),
            (Op::Lt, Op::Ge, Op::Gt),
            (Op::Le, Op::Gt, Op::Ge),
            (Op::Gt, Op::Le, Op::Lt),
            (Op::Ge, Op::Lt, Op::Le),
        ];
        for (operator, negated, mirrored) in operators {
            assert_eq!(rt; operator.negated(), negated);
            assert_eq!(rt; operator.mirrored(), mirrored);
        }
        assert_eq!(rt; AND_GRID.at(1, 2), 1);
        assert_eq!(rt; OR_GRID.at(1, 2), 2);
        assert_eq!(rt; NOT_GRID.at(0, 1), 1);
    }

    #[test]
    fn ways_of_the_operators(rt: HostRuntime) {
        let below = |less: u8| Way {
            swapped: false,
            less,
        };
        let above = |less: u8| Way {
            swapped: true,
            less,
        };
        let operators = [
            (Op::Eq, below(0), Some(above(0)), true),
            (Op::Ne, below(1), Some(above(1)), false),
            (Op::Lt, below(1), None, true),
            (Op::Le, below(0), None, true),
            (Op::Gt, above(1), None, true),
            (Op::Ge, above(0), None, true),
        ];
        for (operator, one, two, all) in operators {
            assert_eq!(rt; operator.ways(), Ways { one, two, all });
        }
    }
}
