// What the codes of a style word say.
ghost use Rattle.std.specs.Prelude.{◌≡◌};
ghost use Rattle.style.specs.Codes.{kind_of, position_of, overflow_of, align_of, distributed};
ghost use Rattle.style.specs.Flow.{positioned};

use crate::{AlignContent, Flow, Kind, Overflow, Position};

#[tactic(auto, unfolding(crate::specs::Codes::kind_of))]
impl From<u32> for Kind {
    ghost from_gives = { λ code kind. kind ≡ kind_of code };

    fn from(code: u32) -> Kind {
        match code {
            0 => Kind::Block,
            1 => Kind::Leaf,
            _ => Kind::Hidden,
        }
    }
}

#[tactic(auto, unfolding(crate::specs::Codes::position_of))]
impl From<u32> for Position {
    ghost from_gives = { λ code position. position ≡ position_of code };

    fn from(code: u32) -> Position {
        match code {
            0 => Position::Static,
            1 => Position::Relative,
            _ => Position::Absolute,
        }
    }
}

#[tactic(auto, unfolding(crate::specs::Codes::overflow_of))]
impl From<u32> for Overflow {
    ghost from_gives = { λ code overflow. overflow ≡ overflow_of code };

    fn from(code: u32) -> Overflow {
        match code {
            0 => Overflow::Visible,
            1 => Overflow::Clip,
            2 => Overflow::Hidden,
            _ => Overflow::Scroll,
        }
    }
}

// The word without those that distribute space.
#[tactic(auto, unfolding(crate::specs::Codes::align_of))]
impl From<u32> for AlignContent {
    ghost from_gives = { λ code align. align ≡ align_of code };

    fn from(code: u32) -> AlignContent {
        match code {
            0 => AlignContent::Normal,
            1 => AlignContent::Start,
            2 => AlignContent::Center,
            _ => AlignContent::End,
        }
    }
}

// In flow unless absolute.
#[tactic(auto, unfolding(crate::specs::Flow::positioned))]
impl From<Position> for Flow {
    ghost from_gives = { λ position flow. flow ≡ positioned position };

    fn from(position: Position) -> Flow {
        match position {
            Position::Static | Position::Relative => Flow::In,
            Position::Absolute => Flow::Out,
        }
    }
}

// A word that distributes space; where there is none, what a says.
#[tactic(auto, unfolding(crate::specs::Codes::distributed))]
pub(crate) fn distributed(k: u32, a: AlignContent) -> AlignContent
    ensures { result ≡ distributed k a }
{
    match k {
        0 => a,
        1 => AlignContent::SpaceBetween,
        2 => AlignContent::SpaceAround,
        3 => AlignContent::SpaceEvenly,
        _ => AlignContent::Stretch,
    }
}
