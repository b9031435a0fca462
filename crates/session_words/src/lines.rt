//! What the first newline of some bytes says of their lines.

ghost use Rattle.std.specs.Prelude.{◌≡◌, ◌∷◌, ◌++◌, [], ℕ, List};
ghost use Rattle.session_words.specs.Lines.{first_line, behind_first, whole_lines, Lacks};

/// Bytes that are cut at their first newline have the line before it, and then the lines after it.
pub fn lines_are_cut()
    ensures first { (line rest : List ℕ) → Lacks 10 line → first_line (line ++ 10 ∷ rest) ≡ line }
    ensures behind { (line rest : List ℕ) → Lacks 10 line → behind_first (line ++ 10 ∷ rest) ≡ rest }
    ensures whole { (line rest : List ℕ) → Lacks 10 line → whole_lines (line ++ 10 ∷ rest) ≡ line ∷ whole_lines rest }
    ensures none { (bytes : List ℕ) → Lacks 10 bytes → whole_lines bytes ≡ [] }
{}
