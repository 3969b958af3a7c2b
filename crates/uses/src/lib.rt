// Who should have a slot, and what it was used for.

#![tactic(auto)]

ghost use Rattle.std.specs.Prelude.{◌≡◌, ◌&&◌, not};
ghost use Rattle.rows.specs.Rows.{none_zero};
ghost use Rattle.uses.specs.Numbers.{use_number, use_who, use_told};
ghost use Rattle.uses.specs.Uses.{chosen, is_give, chosen_use, used_for, row_served, is_hard, is_given, is_empty, is_lost};

// Who should have a slot: the head request, the first row with work left by its number from 1 on, the head request in the
// background, or nobody.
#[derive(Clone, Copy, PartialEq, Eq)]
pub enum Choice {
    Give,
    Hard(usize),
    Back,
    Idle,
}

// What a slot was used for: a row by its number from 1 on, a request by its name.
#[derive(Clone, Copy, PartialEq, Eq)]
pub enum Use {
    Hard(usize),
    Given(u16),
    Empty,
    Lost,
}

// The head request if no counter is 0, else the first row with work left, else the head in the background.
#[tactic(auto, unfolding(crate::specs::Uses::chosen))]
pub fn choose(left: &[u16; 16], counter: &[u16; 16], count: usize, n: usize) -> Choice
    ensures { result ≡ chosen n count left.now counter.now }
{
    let waits = 0 < count;
    if waits && rows::none_zero(counter, n) {
        return Choice::Give;
    }
    let first = rows::idle_rows(left, n);
    if first < n.min(16) {
        return Choice::Hard(first + 1);
    }
    if waits { Choice::Back } else { Choice::Idle }
}

// A slot in the background and a lost one leave the counters.
pub fn charges(choice: Choice, lost: bool) -> bool
    ensures { result ≡ (is_give choice && not lost) }
{
    matches!(choice, Choice::Give) & !lost
}

fn chosen_use(choice: Choice, name: u16) -> Use
    ensures { result ≡ chosen_use choice name }
{
    match choice {
        Choice::Give | Choice::Back => Use::Given(name),
        Choice::Hard(row) => Use::Hard(row),
        Choice::Idle => Use::Empty,
    }
}

pub fn used_for(lost: bool, choice: Choice, name: u16) -> Use
    ensures { result ≡ used_for lost choice name }
{
    if lost {
        Use::Lost
    } else {
        chosen_use(choice, name)
    }
}

// 16 for none, and no Option: `worked` and the demands' `row_served` speak of a place, and there is no place 16.
pub fn row_served(used: Use) -> usize
    ensures { result ≡ row_served used }
{
    match used {
        Use::Hard(row) => row.saturating_sub(1),
        _ => 16,
    }
}

// Four tests with one shape, since `Demand2` counts by each of their names.
pub fn is_hard(used: Use) -> bool
    ensures { result ≡ is_hard used }
{
    matches!(used, Use::Hard(_))
}

pub fn is_given(used: Use) -> bool
    ensures { result ≡ is_given used }
{
    matches!(used, Use::Given(_))
}

pub fn is_empty(used: Use) -> bool
    ensures { result ≡ is_empty used }
{
    matches!(used, Use::Empty)
}

pub fn is_lost(used: Use) -> bool
    ensures { result ≡ is_lost used }
{
    matches!(used, Use::Lost)
}

// The C face has a use as two numbers.
pub fn use_number(u: Use) -> u8
    ensures { result ≡ use_number u }
{
    match u {
        Use::Empty => 0,
        Use::Hard(_) => 1,
        Use::Given(_) => 2,
        Use::Lost => 3,
    }
}

pub fn use_who(u: Use) -> usize
    ensures { result ≡ use_who u }
{
    match u {
        Use::Hard(row) => row,
        Use::Given(name) => usize::from(name),
        Use::Empty | Use::Lost => 0,
    }
}

// The use that its number tells, of a row or of the head request: the way back from the C face.
pub fn use_told(number: u8, row: usize, name: u16) -> Use
    ensures { result ≡ use_told number row name }
{
    match number {
        1 => Use::Hard(row),
        2 => Use::Given(name),
        3 => Use::Lost,
        _ => Use::Empty,
    }
}
