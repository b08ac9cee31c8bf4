//! The names of steps.
ghost use Rattle.std.specs.Prelude.{◌≡◌, ◌∷◌, ◌++◌, OnOk, string_bytes};
ghost use Rattle.json.specs.Print.{quoted};
ghost use Rattle.cert_format.specs.inner.Found.{name_text, name_of};

use std::alloc::AllocError;

/// The name of a step.
#[derive(Clone, Copy)]
pub(crate) enum Name {
    And,
    Or,
    Ex,
    All,
    Sum,
    Text,
    Null,
    Same,
}

impl Name {
    /// The name that a text is.
    pub(crate) fn of(text: &str) -> Option<Name>
        ensures { result ≡ name_of text.now }
    {
        match text {
            "and" => Some(Name::And),
            "or" => Some(Name::Or),
            "ex" => Some(Name::Ex),
            "all" => Some(Name::All),
            "sum" => Some(Name::Sum),
            "text" => Some(Name::Text),
            "null" => Some(Name::Null),
            "same" => Some(Name::Same),
            _ => None,
        }
    }

    /// Begins the list of a step of this name.
    #[tactic(auto, unfolding(json::specs::Print::escape_byte))]
    pub(crate) fn push(self, out: &mut String) -> Result<(), AllocError>
        ensures { OnOk result
            (string_bytes out.new ≡ string_bytes out.old ++ (91 ∷ quoted (name_text self))) }
    {
        match self {
            Name::And => out.push_str("[\"and\""),
            Name::Or => out.push_str("[\"or\""),
            Name::Ex => out.push_str("[\"ex\""),
            Name::All => out.push_str("[\"all\""),
            Name::Sum => out.push_str("[\"sum\""),
            Name::Text => out.push_str("[\"text\""),
            Name::Null => out.push_str("[\"null\""),
            Name::Same => out.push_str("[\"same\""),
        }
    }
}
