// The sum of all costs, and how many of them are above 0: of these numbers the first line of the edition before 2022 is made.
ghost use Rattle.wcnf.specs.Steps.{Totalled};

use needed::Coded;

#[derive(Clone, Copy)]
pub(crate) struct Totals {
    pub(crate) sum: u64,
    pub(crate) charged: u64,
}

// Goes through the costs of a hall, once for each of the two.
pub(crate) fn totals_of(hall: Coded<'_>) -> Totals
    ensures { Totalled hall.entry.costs.now result.sum result.charged }
{
    let costs = hall.costs;
    Totals {
        sum: costs.iter().map(|cost| u64::from(*cost)).sum(),
        charged: costs.iter().filter(|cost| **cost > 0).count() as u64,
    }
}
