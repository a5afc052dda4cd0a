//! Laws of the program language. Each function does nothing: its clauses are what is proved.
ghost use Rattle.std.specs.Prelude.{◌≡◌, ℕ, List, Ok, Err, map};
ghost use Rattle.pr_asm.specs.Refusals.{AsmFault};
ghost use Rattle.std.specs.List.{AllByRecursion};
ghost use Rattle.pr_asm.specs.declared.statements.Statement.{Statement};
ghost use Rattle.pr_asm.specs.Assembly.{assembled, program_of};
ghost use Rattle.pr_asm.specs.Faults.{IsFirstFault};
ghost use Rattle.pr_asm.specs.Spelling.{spelled, text_of_statements, IsStatement};
ghost use Rattle.pr_asm.specs.Statements.{statement_of};

/// What is refused names the first line that is refused: the lines above it make a program.
pub fn a_refusal_names_the_first_line()
    ensures { (name text : List ℕ) (first : ℕ) (fault : AsmFault) → program_of name text first ≡ Err fault
        → IsFirstFault name text first fault }
{}

/// A statement is read back from the line that spells it, and the text of statements, one on a line, is the program
/// that these statements make, or stops where they stop. Without statements the text is empty, and so is the program.
pub fn statements_are_read_as_they_are_spelled()
    ensures lines { (s : Statement) → IsStatement s → statement_of (spelled s) ≡ Ok s }
    ensures programs { (name : List ℕ) (first : ℕ) (statements : List Statement) → AllByRecursion IsStatement statements
        → program_of name (text_of_statements statements) first ≡ assembled name first (map Ok statements) }
{}
