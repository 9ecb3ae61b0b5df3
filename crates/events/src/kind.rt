// The kinds of events, and their numbers.
ghost use Rattle.events.specs.Kind.{Decodes};

use edit::edge::Change;
use table::Rule;

// What an event is.
#[derive(Clone, Copy, Debug, PartialEq, Eq)]
pub enum Kind {
    Anchor,
    Edge(Change),
}

impl TryFrom<u16> for Kind {
    type Error = Rule;

    ghost try_from_gives = { Decodes };

    fn try_from(number: u16) -> Result<Self, Rule> {
        match number {
            0 => Ok(Kind::Anchor),
            1 => Ok(Kind::Edge(Change::Add)),
            2 => Ok(Kind::Edge(Change::Drop)),
            _ => Err(Rule::Byte),
        }
    }
}
