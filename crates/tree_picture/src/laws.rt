//! What pictures show.
ghost use Rattle.std.specs.Prelude.{◌≡◌, ℕ, ◌+◌, List, [], ◌∷◌, ◌++◌, map, length, codes, sum_by, Some};
ghost use Rattle.crew_script.specs.Deck.{lines_of};
ghost use Rattle.fault_definitions.specs.Tree.{FaultTree, IsGateOf, IsNodeOf, IsUnitOf, inputs_of, kind_of, name_of};
ghost use Rattle.fault_definitions.specs.Tree.{node_count};
ghost use Rattle.fault_definitions.specs.WellFormed.{IsTree};
ghost use Rattle.deck_reading.specs.TreeStatements.{IsNamed, gate_numbers};
ghost use Rattle.text_pieces.specs.GateWords.{gate_word};
ghost use Rattle.tree_picture.specs.Labels.{shown_in};
ghost use Rattle.tree_picture.specs.PictureText.{gate_line, input_head, input_line, lines_with, node_head, node_line};
ghost use Rattle.tree_picture.specs.PictureText.{picture_text, unit_line};

/// The picture of a tree whose names have the form of names has one line for each node, one line for each input of a
/// gate, from left to right, and no other lines than its first two, its last, and what is behind the last line feed.
pub fn pictures_have_each_node_and_input_once()
    ensures nodes { (tree : FaultTree) (marked : List ℕ) → IsTree tree → IsNamed tree
        → (node : ℕ) → IsNodeOf tree node
        → lines_with (node_head node) (picture_text tree marked) ≡ node_line tree marked node ∷ [] }
    ensures inputs { (tree : FaultTree) (marked : List ℕ) → IsTree tree → IsNamed tree
        → (gate : ℕ) → IsGateOf tree gate
        → lines_with (input_head gate) (picture_text tree marked) ≡ map (input_line tree gate) (inputs_of tree gate) }
    ensures all { (tree : FaultTree) (marked : List ℕ) → IsTree tree → IsNamed tree
        → length (lines_of (picture_text tree marked))
        ≡ node_count tree + sum_by (λ gate. length (inputs_of tree gate)) (gate_numbers tree) + 4 }
{}

/// By the rules of the DOT language, the label of a unit shows its name, and that of a gate its name and below it its
/// word.
pub fn labels_show_their_names()
    ensures units { (tree : FaultTree) (marked : List ℕ) → IsTree tree → (unit : ℕ) → IsUnitOf tree unit
        → shown_in (unit_line tree marked unit) ≡ Some (name_of tree unit) }
    ensures gates { (tree : FaultTree) → IsTree tree → (gate : ℕ) → IsGateOf tree gate
        → shown_in (gate_line tree gate)
        ≡ Some (name_of tree gate ++ (codes "\n" ++ gate_word (kind_of tree gate))) }
{}
