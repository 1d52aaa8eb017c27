//! Laws of texts and their lines. Each function does nothing: its contract is the law.
ghost use Rattle.std.specs.Prelude.{◌≡◌, ℕ, ◌+◌, ◌≤◌, [], ◌∷◌, ◌++◌, List, length};
ghost use Rattle.trace.specs.Lines.{NoLf, IsLine, Splits};

/// A text can be cut into lines and a rest without LF in only one way.
pub fn one_cutting()
    ensures { (text rest rest' : List ℕ) (lines lines' : List (List ℕ)) → Splits text lines rest
        → Splits text lines' rest' → NoLf rest → NoLf rest' → (lines ≡ lines') × (rest ≡ rest') }
{}

/// If a text is cut into lines, the next line comes after them. The text has at least as many bytes as lines.
pub fn one_more_line()
    ensures more { (text more rest rest' line : List ℕ) (lines : List (List ℕ)) → Splits text lines rest → rest
        ++ more ≡ line ++ 10 ∷ rest' → IsLine line → Splits (text ++ more) (lines ++ line ∷ []) rest' }
    ensures few { (text rest : List ℕ) (lines : List (List ℕ)) → Splits text lines rest
        → length lines + length rest ≤ length text }
{}
