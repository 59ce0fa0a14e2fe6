//! Laws of lines: sentences about all bytes, each proved once.

ghost use Rattle.std.specs.Prelude.{◌≡◌, ℕ, List, ◌∷◌};
ghost use Rattle.line_link.specs.Lines.{Heard, heard_lines, IsFirstLine};
ghost use Rattle.line_link.specs.declared.line_reader.TheConstants.{MAX_LINE};

/// The first line is heard first, and then those of the rest behind it.
pub fn first_is_heard_first()
    ensures { (line : Heard) (bytes rest : List ℕ) → IsFirstLine line bytes rest → heard_lines bytes ≡ line ∷ heard_lines rest }
{}

/// The number of each public constant.
pub fn constants()
    ensures { MAX_LINE ≡ 65_536 }
{}
