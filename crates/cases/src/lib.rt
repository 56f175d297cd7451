// The worked cases of the example machine, all in one statement.

#![tactic(auto)]

ghost use Rattle.cases.specs.Cases.{EightCases};

use covers::example_machine;

// What reading the example gives, and what the definitions say of that machine.
pub fn eight_cases()
    ensures { EightCases }
{
    example_machine();
}
