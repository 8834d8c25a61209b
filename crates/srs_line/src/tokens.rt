// The tokens of a line.
ghost use Rattle.std.specs.Prelude.{◌≡◌, ◌==◌, ◌↔◌, ◌+◌, List, ℕ, [], ◌∷◌, IsTrue, IfSome, IfNone, length};
ghost use Rattle.std.specs.Option.{option_map_or};
ghost use Rattle.srs_line.specs.Fields.{tokens};

use std::marker::Model;

/// The tokens that are left of a line, seen as the list of them. The tokens are the pieces between
/// the line's spaces, and may be empty.
#[derive(Drop)]
pub struct Tokens<'a> {
    rest: Option<&'a [u8]>,
}

impl<'a> Model for Tokens<'a> {
    ghost use Rattle.std.specs.Prelude.{List, ℕ, []};
    ghost use Rattle.std.specs.Option.{option_map_or};
    ghost use Rattle.srs_line.specs.Fields.{tokens};

    ghost Value = { List (List ℕ) };

    ghost view = { λ left. option_map_or (λ rest. tokens rest.now) left.rest [] };
}

impl<'a> Tokens<'a> {
    /// All the tokens of the line, which has at least one.
    pub fn new(line: &'a [u8]) -> Tokens<'a>
        ensures { result ≡ tokens line.entry.now }
    {
        Tokens { rest: Some(line) }
    }

    /// The first token of those that are left.
    pub fn next(&mut self) -> Option<&'a [u8]>
        ensures some { IfSome result (λ token. self.old ≡ token.now ∷ self.new) }
        ensures none { IfNone result (self.old ≡ []) }
        ensures kept { IfNone result (self.new ≡ []) }
    {
        let rest = self.rest?;
        let (token, after) = split_first(rest);
        self.rest = after;
        Some(token)
    }
}

// The first token, and what follows its space.
fn split_first(text: &[u8]) -> (&[u8], Option<&[u8]>)
    ensures { tokens text.now ≡ result.0.now ∷ option_map_or (λ rest. tokens rest.now) result.1 [] }
{
    for (at, byte) in text.iter().enumerate() {
        if *byte == b' ' {
            return (&text[..at], Some(&text[at + 1..]));
        }
    }
    (text, None)
}
