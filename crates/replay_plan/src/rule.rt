// The rules by which a section makes its cases out of a base, each by its number (list.py writes them).
ghost use Rattle.replay_plan.specs.Rule.{Decodes};

// A rule, with its number.
#[derive(Clone, Copy, Debug, PartialEq, Eq)]
pub enum Rule {
    // The base's first bytes.
    Cut = 1,
    // The base with one byte changed.
    Change = 2,
    // Some of the base's fields in a row.
    Row = 3,
    // The base's table with one word changed.
    Table = 4,
}

// A number that is no rule's.
#[derive(Clone, Copy, Debug, PartialEq, Eq)]
pub struct UnknownRule(pub u64);

impl TryFrom<u64> for Rule {
    type Error = UnknownRule;

    ghost try_from_gives = { Decodes };

    fn try_from(number: u64) -> Result<Self, UnknownRule> {
        match number {
            1 => Ok(Rule::Cut),
            2 => Ok(Rule::Change),
            3 => Ok(Rule::Row),
            4 => Ok(Rule::Table),
            _ => Err(UnknownRule(number)),
        }
    }
}
