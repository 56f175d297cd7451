// What can be asked of declarations.
ghost use Rattle.std.specs.Prelude.{◌≡◌, ◌<◌, map, length, MatchOption};
ghost use Rattle.std.specs.Option.{option_map};
ghost use Rattle.name.specs.Names.{text};
ghost use Rattle.name.specs.Outcomes.{map_ok};
ghost use Rattle.grammar.specs.Answers.{kid_text};
ghost use Rattle.grammar.specs.Contents.{declared_lists};
ghost use Rattle.grammar.specs.Drafting.{operator_place, nonterminal_place, find_operator, find_nonterminal, find_kid, kids_of};
ghost use Rattle.grammar.specs.Views.{operator_of, nonterminal_of, rule_of};

use crate::declarations::Declarations;
use crate::finding::find;
use crate::parts::{Nonterminal, NonterminalNumber, Operator, OperatorNumber, Rule};
use crate::refusal::{DraftRefusal, Part};
use name::Name;

impl<C: Copy> Declarations<C> {
    pub fn operators(&self) -> &[Operator]
        ensures { map operator_of result.now ≡ (declared_lists self.now).operators }
    {
        self.operators.as_slice()
    }

    pub fn nonterminals(&self) -> &[Nonterminal]
        ensures { map nonterminal_of result.now ≡ (declared_lists self.now).nonterminals }
    {
        self.nonterminals.as_slice()
    }

    pub fn rules(&self) -> &[Rule<C>]
        ensures { map rule_of result.now ≡ (declared_lists self.now).rules }
    {
        self.rules.as_slice()
    }

    // The number of the operator of this name.
    #[tactic(auto, using(crate::proofs::Places::place_map))]
    pub fn operator_number(&self, name: &Name) -> Option<OperatorNumber>
        ensures { option_map (λ n. n.0) result ≡ operator_place (declared_lists self.now) (text name.now) }
    {
        find(self.operators.as_slice(), name).map(OperatorNumber)
    }

    // The number of the nonterminal of this name.
    #[tactic(auto, using(crate::proofs::Places::place_map))]
    pub fn nonterminal_number(&self, name: &Name) -> Option<NonterminalNumber>
        ensures { option_map (λ n. n.0) result ≡ nonterminal_place (declared_lists self.now) (text name.now) }
    {
        find(self.nonterminals.as_slice(), name).map(NonterminalNumber)
    }

    // How many kids the operator takes; 0 where the number is not declared.
    pub(crate) fn kids_of(&self, operator: OperatorNumber) -> u8
        ensures { result ≡ kids_of (declared_lists self.now) operator.0 }
    {
        self.operators.get(operator.0).map_or(0, |x| x.kids)
    }

    pub(crate) fn find_operator(&self, name: &Name) -> Result<OperatorNumber, DraftRefusal>
        ensures { map_ok (λ n. n.0) result ≡ find_operator (declared_lists self.now) (text name.now) }
    {
        self.operator_number(name)
            .ok_or(DraftRefusal::Undeclared(Part::Operator))
    }

    pub(crate) fn find_nonterminal(
        &self,
        name: &Name,
        part: Part,
    ) -> Result<NonterminalNumber, DraftRefusal>
        ensures { map_ok (λ n. n.0) result ≡ find_nonterminal (declared_lists self.now) part (text name.now) }
    {
        self.nonterminal_number(name)
            .ok_or(DraftRefusal::Undeclared(part))
    }

    // The number of a kid's name, where a kid is given.
    pub(crate) fn find_kid(
        &self,
        name: Option<Name>,
        part: Part,
    ) -> Result<Option<NonterminalNumber>, DraftRefusal>
        ensures { map_ok (option_map (λ n. n.0)) result ≡ find_kid (declared_lists self.now) part (kid_text name) }
    {
        name.map(|name| self.find_nonterminal(&name, part))
            .transpose()
    }
}
