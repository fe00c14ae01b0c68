//! Laws of the command line's texts. Each is the contract of a function that does nothing.

ghost use Rattle.std.specs.Prelude.{◌≡◌, ◌<◌, ℕ, List, [], ◌∷◌, ◌++◌, All, length};
ghost use Rattle.cq_text.specs.Lines.{IsLine, input_lines, text_of};

/// A text that was made of lines has these lines again. What follows the last line feed is one line more.
pub fn lines_are_read_back()
    ensures ended { (lines : List (List ℕ)) → All IsLine lines → input_lines (text_of lines) ≡ lines }
    ensures unended { (lines : List (List ℕ)) (last : List ℕ) → All IsLine lines → IsLine last → 0 < length last
        → input_lines (text_of lines ++ last) ≡ lines ++ last ∷ [] }
{}
