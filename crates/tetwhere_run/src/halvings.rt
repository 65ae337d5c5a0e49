//! How far the factors 2 below coordinates outnumber the factors 5, and so how often the unit of
//! their least grid is halved.

ghost use Rattle.std.specs.Prelude.{◌≤◌, ◌+◌, All};
ghost use Rattle.node_files.specs.Terms.{terms_of};
ghost use Rattle.tetwhere_run.specs.Factors.{HasFewTwos};

use grid_coords::DecimalPoint;
use tet_text::Decimal;

/// In lowest terms a number has at most 51 more factors 2 below it than factors 5: its value is
/// below 10^36, and so below 5^52, so that at most 51 factors 5 are cancelled.
fn few_twos(d: &Decimal)
    ensures { (terms_of d.now).twos ≤ (terms_of d.now).fives + 51 }
{
    let _value = d.value;
}

fn few_twos_of(p: &DecimalPoint)
    ensures { HasFewTwos p.now }
{
    few_twos(&p.x);
    few_twos(&p.y);
    few_twos(&p.z);
}

/// No point has over 51 more factors 2 below its coordinates than factors 5, so that the least grid
/// has at most 51 halvings. It reads the points for this contract alone.
pub(crate) fn few_halvings(points: &[DecimalPoint])
    ensures { All HasFewTwos points.now }
{
    for p in points {
        few_twos_of(p);
    }
}
