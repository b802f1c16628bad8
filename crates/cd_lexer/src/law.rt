//! What a reader may ask of tokens and of substitution, over every text.
ghost use Rattle.std.specs.Prelude.{◌≡◌, ℕ, List, Ok, length};
ghost use Rattle.std.specs.List.{flat_map};
ghost use Rattle.cd_ast.specs.Pieces.{pieces_of, bytes_of};
ghost use Rattle.cd_ast.specs.Tokens.{spans_of};
ghost use Rattle.cd_ast.specs.Subst.{parts_of, subst};
ghost use Rattle.cd_ast.specs.Laws.{AreInOrder, slices, token_bytes, HaveNoAmpersand, bytes_of_parts, given_bytes};

/// The pieces of a text make it up: its tokens, and the blanks, comments and skipped `-` between them. The tokens'
/// slices are those pieces that are tokens, and their spans are in order.
pub fn law_of_tokens()
    ensures whole { (text : List ℕ) → bytes_of (pieces_of text) ≡ text }
    ensures slices { (text : List ℕ) → slices text (spans_of text) ≡ token_bytes (pieces_of text) }
    ensures order { (text : List ℕ) → AreInOrder 0 (spans_of text) (length text) }
{}

/// The parts of a text make it up, and it becomes what each of them gives way to, one after the other: so a value isn't
/// read again. A text becomes itself where no `&` stands outside comments and the quotes `'`.
pub fn law_of_substitution()
    ensures whole { (text : List ℕ) → bytes_of_parts (parts_of (pieces_of text)) ≡ text }
    ensures once { (text out : List ℕ) (symbols : List (List ℕ × List ℕ)) → subst text symbols ≡ Ok out
        → out ≡ flat_map (given_bytes symbols) (parts_of (pieces_of text)) }
    ensures same { (text : List ℕ) (symbols : List (List ℕ × List ℕ)) → HaveNoAmpersand (pieces_of text) → subst text symbols ≡ Ok text }
{}
