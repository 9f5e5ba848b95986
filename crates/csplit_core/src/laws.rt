//! Laws of the definitions, with no code: each stands on the contract of a function whose body is empty.
ghost use Rattle.std.specs.Prelude.{◌≡◌, ◌≤◌, ◌++◌, List, false, length, ℕ};
ghost use Rattle.csplit_core.specs.{
  Agreed.{IsAgreed, settled_outputs, whole_outputs},
  Csplit.{settled_by, whole_by},
  Operand.Line,
  Output.{Style, size_of_file},
  Place.{ArePlaced, IsUndecided, place_of},
  Plan.{Plan, Runs, start},
  Planned.plan,
  Section.{is_final, lines_in, most_waiting, settled_sections, waiting_lines, whole_sections},
};
ghost use Rattle.operand_core.specs.declared.operand.Operand.{Operand};
ghost use Rattle.engine_core.specs.Written.{Begins, lines_for};

/// For any operands and lines there is one plan: the plan that is computed is right, and no other is (POSIX.1-2017, XCU
/// csplit).
pub fn one_plan()
    ensures is { (style : Style) (operands : List Operand) (lines : List Line)
        → Runs style lines (start operands) (plan style operands lines) }
    ensures only { (style : Style) (operands : List Operand) (lines : List Line) (other : Plan)
        → Runs style lines (start operands) other → plan style operands lines ≡ other }
{}

/// What is settled only grows as more comes in, and what is written at the end begins with it.
pub fn settled_grows()
    ensures grows { (style : Style) (operands : List Operand) (x y : List ℕ)
        → Begins (settled_by style operands x) (settled_by style operands (x ++ y)) }
    ensures ends { (style : Style) (operands : List Operand) (x : List ℕ)
        → Begins (settled_by style operands x) (whole_by style operands x) }
{}

/// If sizes are wanted, standard output has the sizes of exactly the files that are closed, in their order. This is
/// true of what is settled and of what is written at the end.
pub fn sizes_are_of_closed_files()
    ensures settled { (style : Style) (operands : List Operand) (x : List ℕ) → style.quiet ≡ false
        → (settled_by style operands x).out ≡ lines_for size_of_file (settled_by style operands x).files }
    ensures whole { (style : Style) (operands : List Operand) (x : List ℕ) → style.quiet ≡ false
        → (whole_by style operands x).out ≡ lines_for size_of_file (whole_by style operands x).files }
{}

/// If the line at a cut isn't left out, no line is lost. The sections, skipped sections too, and what waits are
/// together the lines that came in, in their order; at the end the sections alone are. The exception is a cut below the
/// current line: lines after it belong to no section.
pub fn no_line_is_lost()
    ensures settled { (style : Style) (operands : List Operand) (x : List Line) → style.suppress ≡ false
        → is_final (plan style operands x).ending ≡ false
        → lines_in (settled_sections x (plan style operands x)) ++ waiting_lines x (plan style operands x) ≡ x }
    ensures whole { (style : Style) (operands : List Operand) (x : List Line) → style.suppress ≡ false
        → is_final (plan style operands x).ending ≡ false → lines_in (whole_sections x (plan style operands x)) ≡ x }
{}

/// No more complete lines wait than an offset goes back.
pub fn few_lines_wait()
    ensures { (style : Style) (operands : List Operand) (x : List Line)
        → length (waiting_lines x (plan style operands x)) ≤ most_waiting (plan style operands x).ending }
{}

/// What is settled is what all continuations agree on. The lines that wait are those that two continuations put into
/// different places, or that one of them puts nowhere. This is said of complete lines, each with a mark for each
/// operand; the line at a cut may be left out or not. Places are right: each section, a skipped section too, has the
/// lines that go into it, in their order, and no others. Sections follow one another, so equal lines can't swap
/// their sections.
pub fn agreed_is_settled()
    ensures outputs { (style : Style) (operands : List Operand) (x : List Line)
        → IsAgreed (whole_outputs style operands) x (settled_outputs style operands x) }
    ensures waits { (style : Style) (operands : List Operand) (x : List Line)
        → IsUndecided (place_of style operands) x (waiting_lines x (plan style operands x)) }
    ensures placed { (style : Style) (operands : List Operand) (x : List Line)
        → ArePlaced (place_of style operands x) style.suppress (plan style operands x) x }
{}
