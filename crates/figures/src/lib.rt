// The figures to check by, shown to follow from the definitions, in two tables.
#![tactic(auto)]

ghost use Rattle.std.specs.Prelude.{◌≡◌};
ghost use Rattle.figures.specs.Figures.{Figures, StartFigures};

// Every figure of the table holds; gives how many there are.
pub fn figures_hold() -> u8
    ensures held { Figures }
    ensures count { result ≡ 2 }
{
    2
}

// The bounds and the verdict of every plan of the table hold; gives how many plans there are.
#[tactic(auto, unfolding(find::specs::First::first, find::specs::First::first_pair, bounds::specs::Bound::bound))]
pub fn start_figures_hold() -> u8
    ensures held { StartFigures }
    ensures count { result ≡ 4 }
{
    4
}
