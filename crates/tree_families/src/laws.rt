//! Laws of the definitions, each the clause of a function that does nothing.
ghost use Rattle.std.specs.Prelude.{◌≡◌, ◌↔◌, ◌⊎◌, ℕ, ◌+◌, ◌<◌, ◌≤◌, true, false, List, [], ◌∷◌, All, Contains, drop};
ghost use Rattle.std.specs.Prelude.{get_or, length, map, take};
ghost use Rattle.unit_sets.specs.CutOrder.{IsInCutOrder};
ghost use Rattle.fault_words.specs.declared.kind.GateKind.TheVariants.{Or, Votes};
ghost use Rattle.fault_definitions.specs.Cut.{IsCutList, IsMinimalCut};
ghost use Rattle.fault_definitions.specs.CutFamily.{IsCutFamily};
ghost use Rattle.fault_definitions.specs.Tree.{FaultTree, IsGateOf, IsNodeOf, IsUnitOf, inputs_of, is_fdep};
ghost use Rattle.fault_definitions.specs.Tree.{is_fdep_kind};
ghost use Rattle.fault_definitions.specs.Tree.{kind_of};
ghost use Rattle.fault_definitions.specs.Trigger.{below, triggers_of};
ghost use Rattle.fault_definitions.specs.WellFormed.{IsTree};
ghost use Rattle.zdd_families.specs.Family.{IsFamily};
ghost use Rattle.zdd_families.specs.Due.{IsInnerFamily, IsDueToUnion, IsDueToProduct, IsDueToMinimal};
ghost use Rattle.zdd_families.specs.Due.{IsDueToVotes};
ghost use Rattle.zdd_families.specs.Minimal.{IsMinimal};
ghost use Rattle.zdd_families.specs.Nodes.{IsReached};
ghost use Rattle.zdd_families.specs.Product.{IsProduct};
ghost use Rattle.zdd_families.specs.Union.{IsUnion};
ghost use Rattle.tree_families.specs.Due.{IsDueToUnions, IsDueToProducts, IsDueToRecipe, IsDueToTree};
ghost use Rattle.tree_families.specs.Examples.{superset_absorbed, two_of_three};
ghost use Rattle.tree_families.specs.Generation.{AreFamiliesOf, IsFamilyFor, IsFamilyOf};
ghost use Rattle.tree_families.specs.Recipe.{IsMadeBy, IsProductOfAll, IsUnionOfAll, StandFor, alone, gate_recipe};
ghost use Rattle.tree_families.specs.Recipe.{needs_all, node_recipe, unions};

/// A node has one cut family.
pub fn one_cut_family()
    ensures { (tree : FaultTree) (node : ℕ) (f g : List (List ℕ)) → IsCutFamily tree node f → IsCutFamily tree node g
        → f ≡ g }
{}

/// The minimal sets of any family that generates a node are the node's cut family, and generate it too.
pub fn minimal_sets_of_a_generating_family()
    ensures cut_family { (tree : FaultTree) (node : ℕ) (f least : List (List ℕ)) → IsFamilyFor tree node f
        → IsMinimal f least → IsCutFamily tree node least }
    ensures generates { (tree : FaultTree) (node : ℕ) (f least : List (List ℕ)) → IsFamilyFor tree node f
        → IsMinimal f least → IsFamilyFor tree node least }
{}

/// The cut family of the top event has exactly the minimal cuts, so a list of its sets in the order of
/// cut lists is the cut list of the tree.
pub fn cut_family_of_the_top_event()
    ensures sets { (tree : FaultTree) (family : List (List ℕ)) → IsCutFamily tree tree.top family → (set : List ℕ)
        → Contains family set ↔ IsMinimalCut tree set }
    ensures listed { (tree : FaultTree) (family cuts : List (List ℕ)) → IsCutFamily tree tree.top family
        → IsInCutOrder cuts → ((set : List ℕ) → Contains cuts set ↔ Contains family set) → IsCutList tree cuts }
{}

/// No cut family has the empty set.
pub fn cut_families_lack_the_empty_set()
    ensures { (tree : FaultTree) (node : ℕ) (family : List (List ℕ)) → IsTree tree → IsCutFamily tree node family
        → ¬ (Contains family []) }
{}

/// The cut family of a node generates it: each set of units that fails the node includes one of its sets.
pub fn cut_families_generate()
    ensures { (tree : FaultTree) → IsTree tree → (node : ℕ) → IsNodeOf tree node → (family : List (List ℕ))
        → IsCutFamily tree node family → IsFamilyFor tree node family }
{}

/// The recipe of a node, followed to its end from the cut families of what the node reads, gives the
/// node's cut family: of a unit and its triggers, and of a gate and its inputs. What the recipe makes
/// before its end generates the node.
pub fn building_gives_cut_families()
    ensures unit { (tree : FaultTree) → IsTree tree → (unit : ℕ) → IsUnitOf tree unit
        → (families : List (List (List ℕ))) (made least : List (List ℕ))
        → StandFor (IsCutFamily tree) (triggers_of tree unit) families → IsUnionOfAll (alone unit) families made
        → IsMinimal made least → IsCutFamily tree unit least }
    ensures gate { (tree : FaultTree) → IsTree tree → (gate : ℕ) → IsGateOf tree gate
        → (families : List (List (List ℕ))) (made least : List (List ℕ))
        → StandFor (IsCutFamily tree) (inputs_of tree gate) families
        → IsMadeBy (gate_recipe (kind_of tree gate) families) made → IsMinimal made least
        → IsCutFamily tree gate least }
    ensures generates { (tree : FaultTree) → IsTree tree → (node : ℕ) → IsNodeOf tree node
        → (families : List (List (List ℕ))) (made : List (List ℕ))
        → StandFor (IsCutFamily tree) (below tree node) families → IsMadeBy (node_recipe tree node families) made
        → IsFamilyFor tree node made }
{}

/// What is due to the recipe of a unit or of a gate, from the cut families of what it reads, is due to
/// the tree.
pub fn recipes_are_due()
    ensures unit { (tree : FaultTree) (unit : ℕ) → IsUnitOf tree unit
        → (families : List (List (List ℕ))) (due : List (List ℕ))
        → StandFor (IsCutFamily tree) (triggers_of tree unit) families
        → IsDueToRecipe (unions (alone unit) families) due → IsDueToTree tree due }
    ensures gate { (tree : FaultTree) (gate : ℕ) → IsGateOf tree gate → is_fdep_kind (kind_of tree gate) ≡ false
        → (families : List (List (List ℕ))) (due : List (List ℕ))
        → StandFor (IsCutFamily tree) (inputs_of tree gate) families
        → IsDueToRecipe (gate_recipe (kind_of tree gate) families) due → IsDueToTree tree due }
{}

/// What is due to an operation by which a unit's family is built is due to the tree: to the union with
/// the family of a trigger, and to the minimal sets at its end.
pub fn operations_of_units_are_due()
    ensures union { (tree : FaultTree) (unit : ℕ) → IsUnitOf tree unit → (families : List (List (List ℕ)))
        → StandFor (IsCutFamily tree) (triggers_of tree unit) families → (place : ℕ) (made due : List (List ℕ))
        → place < length families → IsUnionOfAll (alone unit) (take place families) made
        → IsDueToUnion made (get_or families place []) due → IsDueToTree tree due }
    ensures minimal { (tree : FaultTree) (unit : ℕ) → IsUnitOf tree unit → (families : List (List (List ℕ)))
        → StandFor (IsCutFamily tree) (triggers_of tree unit) families → (made due : List (List ℕ))
        → IsUnionOfAll (alone unit) families made → IsDueToMinimal made due → IsDueToTree tree due }
{}

/// And of a gate: to a union of an `or`, to a product of a gate that needs all of its inputs and to the
/// minimal sets after it, to votes, and to the minimal sets at the end of any gate but an `fdep`.
pub fn operations_of_gates_are_due()
    ensures union { (tree : FaultTree) (gate : ℕ) → IsGateOf tree gate
        → (first : List (List ℕ)) (others : List (List (List ℕ))) → kind_of tree gate ≡ Or
        → StandFor (IsCutFamily tree) (inputs_of tree gate) (first ∷ others) → (place : ℕ) (made due : List (List ℕ))
        → place < length others → IsUnionOfAll first (take place others) made
        → IsDueToUnion made (get_or others place []) due → IsDueToTree tree due }
    ensures product { (tree : FaultTree) (gate : ℕ) → IsGateOf tree gate
        → (first : List (List ℕ)) (others : List (List (List ℕ))) → needs_all (kind_of tree gate) ≡ true
        → StandFor (IsCutFamily tree) (inputs_of tree gate) (first ∷ others) → (place : ℕ) (made due : List (List ℕ))
        → place < length others → IsProductOfAll first (take place others) made
        → IsDueToProduct made (get_or others place []) due → IsDueToTree tree due }
    ensures minimal { (tree : FaultTree) (gate : ℕ) → IsGateOf tree gate
        → (first : List (List ℕ)) (others : List (List (List ℕ))) → needs_all (kind_of tree gate) ≡ true
        → StandFor (IsCutFamily tree) (inputs_of tree gate) (first ∷ others)
        → (place : ℕ) (made product due : List (List ℕ)) → place < length others
        → IsProductOfAll first (take place others) made → IsProduct made (get_or others place []) product
        → IsDueToMinimal product due → IsDueToTree tree due }
    ensures votes { (tree : FaultTree) (gate : ℕ) → IsGateOf tree gate
        → (least of : ℕ) (families : List (List (List ℕ))) (due : List (List ℕ)) → kind_of tree gate ≡ Votes least of
        → StandFor (IsCutFamily tree) (inputs_of tree gate) families → IsDueToVotes least families due
        → IsDueToTree tree due }
    ensures end { (tree : FaultTree) (gate : ℕ) → IsGateOf tree gate
        → (families : List (List (List ℕ))) (made due : List (List ℕ)) → is_fdep_kind (kind_of tree gate) ≡ false
        → StandFor (IsCutFamily tree) (inputs_of tree gate) families
        → IsMadeBy (gate_recipe (kind_of tree gate) families) made → IsDueToMinimal made due → IsDueToTree tree due }
{}

/// Each node of a tree has a cut family.
pub fn each_node_has_a_cut_family()
    ensures { (tree : FaultTree) → IsTree tree → (node : ℕ) → IsNodeOf tree node
        → (family : List (List ℕ)) × IsCutFamily tree node family }
{}

/// Whatever way a node's cut family was got, each of its parts is due to the tree. So are the parts of
/// what the node's recipe makes before its end.
pub fn parts_of_cut_families_are_due()
    ensures cut_family { (tree : FaultTree) → IsTree tree → (node : ℕ) → IsNodeOf tree node
        → (family part : List (List ℕ)) → IsCutFamily tree node family → IsReached family part → IsDueToTree tree part }
    ensures made { (tree : FaultTree) → IsTree tree → (node : ℕ) → IsNodeOf tree node → is_fdep tree node ≡ false
        → (families : List (List (List ℕ))) (made part : List (List ℕ))
        → StandFor (IsCutFamily tree) (below tree node) families → IsMadeBy (node_recipe tree node families) made
        → IsReached made part → IsDueToTree tree part }
{}

/// A table that has the cut family of each of some nodes has these families in the order of the nodes.
pub fn families_from_a_table()
    ensures { (tree : FaultTree) (table : ℕ → List (List ℕ)) (nodes : List ℕ)
        → All (λ node. IsCutFamily tree node (table node)) nodes → StandFor (IsCutFamily tree) nodes (map table nodes) }
{}

/// The unions with the families before a place, and the union with the family there, are the unions with
/// the families before the next place; and what is due to that union is due to all of them.
pub fn unions_one_by_one()
    ensures more { (place : ℕ) (first : List (List ℕ)) (others : List (List (List ℕ))) (made next : List (List ℕ))
        → place < length others → IsUnionOfAll first (take place others) made
        → IsUnion made (get_or others place []) next → IsUnionOfAll first (take (place + 1) others) next }
    ensures due { (place : ℕ) (first : List (List ℕ)) (others : List (List (List ℕ))) (made due : List (List ℕ))
        → place < length others → IsUnionOfAll first (take place others) made
        → IsDueToUnion made (get_or others place []) due → IsDueToUnions first others due }
{}

/// The same of products, each of which ends with its minimal sets.
pub fn products_one_by_one()
    ensures more { (place : ℕ) (first : List (List ℕ)) (others : List (List (List ℕ)))
        (made product next : List (List ℕ)) → place < length others → IsProductOfAll first (take place others) made
        → IsProduct made (get_or others place []) product → IsMinimal product next
        → IsProductOfAll first (take (place + 1) others) next }
    ensures due { (place : ℕ) (first : List (List ℕ)) (others : List (List (List ℕ))) (made due : List (List ℕ))
        → place < length others → IsProductOfAll first (take place others) made
        → IsDueToProduct made (get_or others place []) due → IsDueToProducts first others due }
    ensures minimal { (place : ℕ) (first : List (List ℕ)) (others : List (List (List ℕ)))
        (made product due : List (List ℕ)) → place < length others → IsProductOfAll first (take place others) made
        → IsProduct made (get_or others place []) product → IsDueToMinimal product due
        → IsDueToProducts first others due }
{}

/// Two examples: of a gate that fails with two of the units 1 to 3 the cut family has the three pairs. Of
/// an `or` of unit 1 and a gate that fails with 1 and 2, it has the set of 1 alone, and of that gate the
/// pair.
pub fn cut_families_of_two_small_trees()
    ensures votes { IsCutFamily two_of_three 4 ((1 ∷ 2 ∷ []) ∷ (1 ∷ 3 ∷ []) ∷ (2 ∷ 3 ∷ []) ∷ []) }
    ensures top { IsCutFamily superset_absorbed 3 ((1 ∷ []) ∷ []) }
    ensures gate { IsCutFamily superset_absorbed 4 ((1 ∷ 2 ∷ []) ∷ []) }
{}
