// Add actions: the number of each, and what it asks for.
ghost use Rattle.std.specs.Prelude.{◌≡◌};
ghost use Rattle.tree.specs.Action.{action_of};

use refusals::Refusal;

// Where a node goes by another: to the head or the tail of a group, or before or after a node.
// Kept: data, which place is meant, and no step.
#[derive(Clone, Copy)]
pub enum Position {
    Head,
    Tail,
    Before,
    After,
}

// An add action: a node is put in at a position, or in the place of the target.
#[derive(Clone, Copy)]
pub enum Action {
    Put(Position),
    Replace,
}

// The add action with a number, or the refusal of a number that none has.
impl TryFrom<u32> for Action {
    type Error = Refusal;

    ghost try_from_gives = { λ number r. r ≡ action_of number };

    #[tactic(auto, unfolding(crate::specs::Action::action_of))]
    fn try_from(number: u32) -> Result<Action, Refusal> {
        match number {
            0 => Ok(Action::Put(Position::Head)),
            1 => Ok(Action::Put(Position::Tail)),
            2 => Ok(Action::Put(Position::Before)),
            3 => Ok(Action::Put(Position::After)),
            4 => Ok(Action::Replace),
            5..=4294967295 => Err(Refusal::BadFlag),
        }
    }
}
