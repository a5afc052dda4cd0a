//! Laws of scenarios. Each function does nothing: its clauses are what is proved.
ghost use Rattle.std.specs.Prelude.{◌≡◌, ℕ, List, Ok, Err};
ghost use Rattle.pr_scen.specs.BlockFaults.{IsLeastInBlock};
ghost use Rattle.pr_scen.specs.Blocks.{part_added};
ghost use Rattle.pr_scen.specs.Division.{EncodeScenario, IsFirstFault};
ghost use Rattle.pr_text.specs.SpacedWords.{spaced};
ghost use Rattle.pr_asm.specs.declared.statements.Statement.{Statement};
ghost use Rattle.pr_text.specs.Words.{texts_of};
ghost use Rattle.std.specs.List.{AllByRecursion};
ghost use Rattle.pr_scen.specs.Encoding.{IsItem, IsLine, item_words, line_words};
ghost use Rattle.pr_scen.specs.Items.{item_of};
ghost use Rattle.pr_scen.specs.Parts.{block};
ghost use Rattle.pr_scen.specs.Reading.{scenario_in, scenario_of};
ghost use Rattle.pr_scen.specs.ScriptLines.{script_line_of};
ghost use Rattle.pr_scen.specs.declared.drafts.Draft.{Draft};
ghost use Rattle.pr_scen.specs.declared.items.Item.{Item};
ghost use Rattle.pr_scen.specs.declared.items.Item.TheVariants as item;
ghost use Rattle.pr_scen.specs.declared.script_blocks.InScript.TheVariants as InScript;
ghost use Rattle.pr_scen.specs.ScenarioText.{IsWritten, pieces_of};
ghost use Rattle.pr_scen.specs.Scenarios.{Scenario, IsWithinLimits};
ghost use Rattle.pr_scen.specs.TextEncoding.{Piece, IsPiece, scenario_of_pieces, text_of_pieces};
ghost use Rattle.pr_scen.specs.TrussWords.{TrussLine, IsTrussLine, truss_words, truss_asked};
ghost use Rattle.pr_scen.specs.Refusals.{ScenFault};
ghost use Rattle.pr_scen.specs.declared.script_lines.ScriptLine.{ScriptLine};

/// Lines are read as a scenario exactly where they encode it: they are lines outside blocks and whole blocks, one after
/// another, each is accepted after those above it, and together they make the scenario.
pub fn what_encodes_a_scenario_is_read()
    ensures read { (lines : List (List ℕ)) (s : Scenario) → EncodeScenario lines s → scenario_in lines ≡ Ok s }
    ensures encoded { (lines : List (List ℕ)) (s : Scenario) → scenario_in lines ≡ Ok s → EncodeScenario lines s }
{}

/// Lines are refused exactly where one of their parts is the first that cannot follow those above it, and the refusal
/// names a line of it.
pub fn a_refusal_names_the_first_line()
    ensures refused { (lines : List (List ℕ)) (fault : ScenFault) → scenario_in lines ≡ Err fault → IsFirstFault lines fault }
    ensures refuses { (lines : List (List ℕ)) (fault : ScenFault) → IsFirstFault lines fault → scenario_in lines ≡ Err fault }
{}

/// A block is refused exactly at the least of its lines that is refused: the line that begins it; of the lines in it
/// the first that cannot be read or cannot follow those above it; or, where all those are accepted, the line that ends
/// it.
pub fn a_refusal_in_a_block_names_its_least_line()
    ensures refused { (d : Draft) (n : ℕ) (first : List ℕ) (body : List (List ℕ)) (last : List ℕ) (fault : ScenFault)
        → part_added d (block n first body last) ≡ Err fault → IsLeastInBlock d n first body last fault }
    ensures refuses { (d : Draft) (n : ℕ) (first : List ℕ) (body : List (List ℕ)) (last : List ℕ) (fault : ScenFault)
        → IsLeastInBlock d n first body last fault → part_added d (block n first body last) ≡ Err fault }
{}

/// A line is read as what it was encoded from: the lines outside blocks, a truss line with its lists as numbers and its
/// functions by their names, and all lines of scripts, with their messages as bytes.
pub fn lines_are_read_as_they_are_encoded()
    ensures outside { (i : Item) → IsItem i → item_of (texts_of (spaced (item_words i))) ≡ Ok i }
    ensures truss { (t : TrussLine) → IsTrussLine t
        → item_of (texts_of (spaced (truss_words t))) ≡ Ok (item.Truss (truss_asked t)) }
    ensures in_scripts { (l : ScriptLine) → IsLine l
        → script_line_of (texts_of (spaced (line_words l))) ≡ Ok (InScript.Line l) }
{}

/// A text of lines outside blocks and whole blocks is read as what they say, one after another, or stops where they
/// stop.
pub fn texts_are_read_as_they_are_encoded()
    ensures { (pieces : List Piece) → AllByRecursion IsPiece pieces
        → scenario_of (text_of_pieces pieces) ≡ scenario_of_pieces pieces }
{}

/// Each scenario within its limits has a text that is read as it, where its programs can be written, under names of
/// their own, its controllers are scripts, and no line of that text is too long or has a byte that is not of ASCII.
pub fn each_scenario_has_a_text()
    ensures { (sources : List (List ℕ × List Statement)) (s : Scenario) → IsWithinLimits s → IsWritten sources s
        → scenario_of (text_of_pieces (pieces_of sources s)) ≡ Ok s }
{}
