// Where a reader stands in a text.
ghost use Rattle.std.specs.Prelude.{◌≡◌};
ghost use Rattle.reader.specs.Places.{stands};

use text::line::Line;

// A reader's place in a text.
#[derive(Clone, Copy, PartialEq, Eq, Debug)]
pub enum Place {
    // in a map text, before its M line
    BeforeMap,
    // after the M line, before any S line
    AfterMap,
    // after an S line
    InStates,
    // in a rule text
    InRules,
}

// Where the reader stands after a line, if the line may stand here.
pub fn stand(place: Place, line: Line) -> Option<Place>
    ensures { result ≡ stands place line }
{
    match (place, line) {
        (Place::BeforeMap, Line::Map(_)) => Some(Place::AfterMap),
        (Place::AfterMap | Place::InStates, Line::State(_, _)) => Some(Place::InStates),
        (Place::InStates, Line::Target(_)) => Some(Place::InStates),
        (Place::InRules, Line::Rule(_)) => Some(Place::InRules),
        _ => None,
    }
}
