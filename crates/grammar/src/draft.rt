// A draft takes declarations and rules. It cannot select: sealing uses it up and gives a grammar, which takes no more rules.
ghost use Rattle.std.specs.Prelude.{◌≡◌, ◌+◌, true, false, map, length, IfOk, vec_len};
ghost use Rattle.std.specs.Option.{option_map};
ghost use Rattle.name.specs.Names.{text};
ghost use Rattle.name.specs.Outcomes.{map_ok};
ghost use Rattle.grammar.specs.Answers.{form_answer, kid_text};
ghost use Rattle.grammar.specs.Contents.{declared_lists};
ghost use Rattle.grammar.specs.Drafting.{empty, declare_operator, declare_nonterminal, own_source, unpriced, base_form, add_rule, add_base, add_chain, lists_after};
ghost use Rattle.grammar.specs.Fits.{rule_fits};
ghost use Rattle.grammar.specs.Lists.{Priced, Sealed};
ghost use Rattle.grammar.specs.Views.{operator_of, rule_of, form_of};

use crate::declarations::{Declarations, MOST_NONTERMINALS, MOST_OPERATORS, MOST_RULES};
use crate::grammar::Grammar;
use crate::parts::{
    Form, KidNames, Nonterminal, NonterminalNumber, Operator, OperatorNumber, Rule, RuleNumber,
};
use crate::refusal::{DraftRefusal, Part};
use cost::Cost;
use name::Name;
use std::alloc::{AllocError, Global};

// As many kids as an operator may take.
const MOST_KIDS: u8 = 2;

// As much as a cost may weigh.
const HEAVIEST: u32 = 1000;

#[derive(Drop)]
pub struct Draft<C: Cost> {
    pub(crate) declarations: Declarations<C>,
    pub ghost priced: { Priced C.Cost.model (declared_lists declarations) },
}

fn is_own_source(left: NonterminalNumber, form: Form) -> bool
    ensures { result ≡ own_source left.0 (form_of form) }
{
    matches!(form, Form::Chain { source } if source.0 == left.0)
}

// Whether a cost is before zero, or weighs over 1,000.
fn is_unpriced<C: Cost>(cost: C) -> bool
    ensures { result ≡ unpriced C.Cost.model cost }
{
    cost.compare(&C::zero()).is_lt() || cost.weight() > HEAVIEST
}

// The form of a base rule with the kids given, or the first kid that does not fit.
fn form_with(
    operator: OperatorNumber,
    kids: u8,
    first: Option<NonterminalNumber>,
    second: Option<NonterminalNumber>,
) -> Result<Form, DraftRefusal>
    ensures { form_answer result ≡ base_form operator.0 kids (option_map (λ n. n.0) first) (option_map (λ n. n.0) second) }
{
    if first.is_some() != (kids > 0) {
        return Err(DraftRefusal::Unfit(Part::FirstKid));
    }
    if second.is_some() != (kids > 1) {
        return Err(DraftRefusal::Unfit(Part::SecondKid));
    }
    Ok(match (first, second) {
        (None, _) => Form::Leaf { operator },
        (Some(kid), None) => Form::Unary { operator, kid },
        (Some(left), Some(right)) => Form::Binary {
            operator,
            left,
            right,
        },
    })
}

impl<C: Cost> Draft<C> {
    ghost use Rattle.grammar.specs.Meaning.{draft_lists, grammar_lists};

    // An empty draft, with memory for as many declarations as the limits allow.
    pub fn new(heap: Global) -> Result<Draft<C>, AllocError>
        ensures lists { IfOk result (λ d. draft_lists d ≡ empty) }
    {
        Ok(Draft {
            declarations: Declarations::new(heap)?,
        })
    }

    // What has been declared.
    pub fn declarations(&self) -> &Declarations<C>
        ensures lists { declared_lists result.now ≡ draft_lists self.now }
        ensures priced { Priced C.Cost.model (draft_lists self.now) }
    {
        &self.declarations
    }

    pub fn declare_operator(&mut self, name: Name, kids: u8) -> Result<OperatorNumber, DraftRefusal>
        ensures answer { map_ok (λ n. n.0) result ≡ map_ok (λ _. length (draft_lists self.old).operators) (declare_operator (draft_lists self.old) (text name) kids) }
        ensures after { draft_lists self.new ≡ lists_after (draft_lists self.old) (declare_operator (draft_lists self.old) (text name) kids) }
    {
        if self.declarations.operator_number(&name).is_some() {
            return Err(DraftRefusal::Repeated);
        }
        if kids > MOST_KIDS {
            return Err(DraftRefusal::Unfit(Part::Kids));
        }
        let at = self.declarations.operators.len();
        if at >= MOST_OPERATORS {
            return Err(DraftRefusal::Full);
        }
        self.declarations.push_operator(Operator { name, kids });
        Ok(OperatorNumber(at))
    }

    // Apart from `declare_operator`, which looks at the kids between the name and the limit.
    pub fn declare_nonterminal(&mut self, name: Name) -> Result<NonterminalNumber, DraftRefusal>
        ensures answer { map_ok (λ n. n.0) result ≡ map_ok (λ _. length (draft_lists self.old).nonterminals) (declare_nonterminal (draft_lists self.old) (text name)) }
        ensures after { draft_lists self.new ≡ lists_after (draft_lists self.old) (declare_nonterminal (draft_lists self.old) (text name)) }
    {
        if self.declarations.nonterminal_number(&name).is_some() {
            return Err(DraftRefusal::Repeated);
        }
        let at = self.declarations.nonterminals.len();
        if at >= MOST_NONTERMINALS {
            return Err(DraftRefusal::Full);
        }
        self.declarations.push_nonterminal(Nonterminal { name });
        Ok(NonterminalNumber(at))
    }

    // A rule whose parts are declared and fit, but for a chain rule from its own left side.
    fn add_rule(&mut self, rule: Rule<C>) -> Result<RuleNumber, DraftRefusal>
        requires { own_source rule.left.0 (form_of rule.form) ≡ false → rule_fits (map operator_of self.old.declarations.operators.items) (vec_len self.old.declarations.nonterminals) (rule_of rule) ≡ true }
        ensures answer { map_ok (λ n. n.0) result ≡ map_ok (λ _. length (draft_lists self.old).rules + 1) (add_rule C.Cost.model (draft_lists self.old) (rule_of rule)) }
        ensures after { draft_lists self.new ≡ lists_after (draft_lists self.old) (add_rule C.Cost.model (draft_lists self.old) (rule_of rule)) }
    {
        let at = self.declarations.rules.len();
        if at >= MOST_RULES {
            return Err(DraftRefusal::Full);
        }
        if is_own_source(rule.left, rule.form) {
            return Err(DraftRefusal::OwnSource);
        }
        if is_unpriced(rule.cost) {
            return Err(DraftRefusal::Unpriced);
        }
        self.declarations.push_rule(rule);
        Ok(RuleNumber(at + 1))
    }

    pub fn add_chain(
        &mut self,
        left: Name,
        source: Name,
        cost: C,
        mnemonic: Name,
    ) -> Result<RuleNumber, DraftRefusal>
        ensures answer { map_ok (λ n. n.0) result ≡ map_ok (λ _. length (draft_lists self.old).rules + 1) (add_chain C.Cost.model (draft_lists self.old) (text left) (text source) cost (text mnemonic)) }
        ensures after { draft_lists self.new ≡ lists_after (draft_lists self.old) (add_chain C.Cost.model (draft_lists self.old) (text left) (text source) cost (text mnemonic)) }
    {
        let left = self.declarations.find_nonterminal(&left, Part::Left)?;
        let source = self.declarations.find_nonterminal(&source, Part::Source)?;
        let form = Form::Chain { source };
        self.add_rule(Rule {
            left,
            form,
            cost,
            mnemonic,
        })
    }

    pub fn add_base(
        &mut self,
        left: Name,
        operator: Name,
        kids: KidNames,
        cost: C,
        mnemonic: Name,
    ) -> Result<RuleNumber, DraftRefusal>
        ensures answer { map_ok (λ n. n.0) result ≡ map_ok (λ _. length (draft_lists self.old).rules + 1) (add_base C.Cost.model (draft_lists self.old) (text left) (text operator) (kid_text kids.first) (kid_text kids.second) cost (text mnemonic)) }
        ensures after { draft_lists self.new ≡ lists_after (draft_lists self.old) (add_base C.Cost.model (draft_lists self.old) (text left) (text operator) (kid_text kids.first) (kid_text kids.second) cost (text mnemonic)) }
    {
        let left = self.declarations.find_nonterminal(&left, Part::Left)?;
        let operator = self.declarations.find_operator(&operator)?;
        let first = self.declarations.find_kid(kids.first, Part::FirstKid)?;
        let second = self.declarations.find_kid(kids.second, Part::SecondKid)?;
        let takes = self.declarations.kids_of(operator);
        let form = form_with(operator, takes, first, second)?;
        self.add_rule(Rule {
            left,
            form,
            cost,
            mnemonic,
        })
    }

    // The grammar of what has been declared.
    #[tactic(auto, using(crate::proofs::Sealing::sealed_with))]
    pub fn seal(self) -> Grammar<C>
        ensures lists { grammar_lists result ≡ draft_lists self }
        ensures sealed { Sealed C.Cost.model (grammar_lists result) }
    {
        let Draft { declarations } = self;
        Grammar { declarations }
    }
}
