//! Laws of the spelling of tokens. The functions do nothing: each contract is a law.
ghost use Rattle.std.specs.Prelude.{ℕ, ◌≡◌, ◌⊎◌, List};
ghost use Rattle.lint_base.specs.declared.place.Refusal.{Refusal};
ghost use Rattle.sql_lex.specs.Faults.{IsFaulty};
ghost use Rattle.sql_lex.specs.Tokens.{Spells};
ghost use Rattle.sql_lex.specs.declared.token.Token.{Token as TokenOf};

/// Every text, wherever it begins, is spelled by a list of tokens or has a first fault.
pub fn every_text_has_a_lexing()
    ensures { (at : ℕ) (text : List ℕ) → ((tokens : List TokenOf) × Spells at text tokens)
        ⊎ ((refusal : Refusal) × IsFaulty at text refusal) }
{}

/// A text is spelled by at most one list of tokens, has at most one first fault, and is not both
/// spelled and faulty.
pub fn one_lexing()
    ensures tokens { (at : ℕ) (text : List ℕ) (tokens others : List TokenOf) →
        Spells at text tokens → Spells at text others → tokens ≡ others }
    ensures apart { (at : ℕ) (text : List ℕ) (tokens : List TokenOf) (refusal : Refusal) →
        Spells at text tokens → IsFaulty at text refusal → ⊥ }
    ensures refusal { (at : ℕ) (text : List ℕ) (refusal other : Refusal) →
        IsFaulty at text refusal → IsFaulty at text other → refusal ≡ other }
{}
