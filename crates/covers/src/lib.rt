// Covers, least costs, choices, rows and labels of trees: the theorems about them, each on the contract of a function.

#![tactic(auto)]

ghost use Rattle.covers.specs.Example.{Cases};
ghost use Rattle.covers.specs.Rounds.{ChainsClose, StopsEarly};
ghost use Rattle.covers.specs.Weights.{StaysLight};
ghost use Rattle.covers.specs.Theorems.{CoveredFits, BestIsRight, RowsAreRight, StepsAreRight, ChosenIsRight, LeafRows, InnerRows, CostRows, EqualRows, LabelsAreRight, AcceptedLabelsStay, SubtreesAreRight};

use cost::Cost;

// One round fewer than there are nonterminals comes to the least of all runs of chain rules.
pub fn chains_close<C: Cost>()
    ensures { ChainsClose C.Cost.model }
{}

// A round that changes nothing may be the last.
pub fn stops_early<C: Cost>()
    ensures { StopsEarly C.Cost.model }
{}

// A tree with a cover has as many kids at each node as its operator takes.
pub fn covered_fits<C: Cost>()
    ensures { CoveredFits C.Cost.model }
{}

// The computed least cost, fewest chain rules and choice are the defined ones.
pub fn best_is_right<C: Cost>()
    ensures { BestIsRight C.Cost.model }
{}

// The computed row is the defined one.
pub fn rows_are_right<C: Cost>()
    ensures { RowsAreRight C.Cost.model }
{}

// The chosen cover exists where some cover does, follows the choices, and costs the least.
pub fn chosen_is_right<C: Cost>()
    ensures { ChosenIsRight C.Cost.model }
{}

// The steps of a cover are few, add up to its cost, and determine it.
pub fn steps_are_right<C: Cost>()
    ensures { StepsAreRight C.Cost.model }
{}

// The row of a node without kids depends on its operator alone.
pub fn leaf_rows<C: Cost>()
    ensures { LeafRows C.Cost.model }
{}

// The row of a node with kids depends on its operator and its kids' rows alone.
pub fn inner_rows<C: Cost>()
    ensures { InnerRows C.Cost.model }
{}

// The row with the least costs themselves depends on the operator and such rows of the kids alone.
pub fn cost_rows<C: Cost>()
    ensures { CostRows C.Cost.model }
{}

// Trees with equal rows have covers from the same nonterminals, the same choices, and least costs that differ by one amount.
pub fn equal_rows<C: Cost>()
    ensures { EqualRows C.Cost.model }
{}

// Labels are equal exactly when rows are; rows held and keys held are the different ones.
pub fn labels_are_right<C: Cost>()
    ensures { LabelsAreRight C.Cost.model }
{}

// Later nodes change no label and no key.
pub fn labels_stay<C: Cost>()
    ensures { AcceptedLabelsStay C.Cost.model }
{}

// Each node of a list has one subtree, with no more nodes than the list.
pub fn subtrees_are_right()
    ensures { SubtreesAreRight }
{}

// Every cost that is formed stays light enough for the laws of cost.
pub fn stays_light<C: Cost>()
    ensures { StaysLight C.Cost.model }
{}

// What the definitions say of a small machine.
pub fn example_machine()
    ensures { Cases }
{}
