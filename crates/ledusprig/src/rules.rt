// What is written by the rule that a number of C names. The number is asked once and before the call, so that each rule's call is compiled by itself.
ghost use Rattle.round.specs.declared.value.Rule.{Rule};
ghost use Rattle.ledusprig.specs.Handed.{HandsOver, saying_handed, rule_of};

use crate::handed::words::HandedSaying;
use bounds::answer::Written;
use bounds::refusal::Refusal;
use round::value::Rule;

pub(crate) fn by_rule<F: FnOnce(Rule) -> Result<Written, Refusal>>(
    number: u32,
    write: F,
) -> HandedSaying
    requires rounded { F.pre write Rule.Rounded }
    requires strict { F.pre write Rule.Strict }
    ensures { HandsOver saying_handed (F.post write (rule_of number)) result }
{
    if number == 0 {
        return write(Rule::Rounded).into();
    }
    write(Rule::Strict).into()
}
