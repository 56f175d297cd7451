// The least of the costs, and the costs above it.
ghost use Rattle.std.specs.Prelude.{◌≡◌, map};
ghost use Rattle.covers.specs.Rows.{lesser, least_in, least_of_all, row_of, cost_entry};
ghost use Rattle.row.specs.Kept.{lowered};
ghost use Rattle.row.specs.Views.{kept_of};

use crate::work::Work;
use cost::Cost;

// The lesser of a cost and another one, where there is another.
fn lesser_cost<C: Cost>(cost: C, other: Option<C>) -> C
    ensures { result ≡ lesser C.Cost.model cost other }
{
    other.filter(|x| x.compare(&cost).is_lt()).unwrap_or(cost)
}

// The least cost of the work places, from the last to the first; none where all are empty.
fn least_cost<C: Cost>(work: &[Option<Work<C>>]) -> Option<C>
    ensures { result ≡ least_in C.Cost.model (map kept_of work.now) }
{
    work.iter().rev().fold(None, |least, place| {
        place.map_or(least, |best| Some(lesser_cost(best.cost, least)))
    })
}

// The same, and zero where all are empty.
fn least_or_zero<C: Cost>(work: &[Option<Work<C>>]) -> C
    ensures { result ≡ least_of_all C.Cost.model (map kept_of work.now) }
{
    least_cost(work).unwrap_or(C::zero())
}

// The least is taken off each cost.
fn lower_by<C: Cost>(work: &mut [Option<Work<C>>], least: C)
    ensures { map kept_of work.new ≡ map (lowered C.Cost.model least) (map kept_of work.old) }
{
    for place in work.iter_mut() {
        *place = place.map(|best| Work {
            cost: best.cost.diff(least),
            ..best
        });
    }
}

// The least of the costs is taken off each.
pub fn lower_to_least<C: Cost>(work: &mut [Option<Work<C>>])
    ensures { map cost_entry (map kept_of work.new) ≡ row_of C.Cost.model (map kept_of work.old) }
{
    let least = least_or_zero(work);
    lower_by(work, least);
}
