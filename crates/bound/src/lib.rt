// The call Bound: the class and the count of an order.
#![tactic(auto)]

ghost use Rattle.std.specs.Prelude.{◌≡◌};
ghost use Rattle.bound.specs.Bound.{bound_values, Bounds};

use class::order_class_count;
use count::ClassCount;
use grid::{Cells, Order, Refusal};

// The number of the refusal, 0 where nothing is refused, and class and count, 0 where refused.
#[derive(Clone, Copy, Debug, PartialEq, Eq)]
pub struct BoundValues {
    pub refusal: u32,
    pub class: u32,
    pub count: Cells,
}

impl From<Result<ClassCount, Refusal>> for BoundValues {
    ghost from_gives = { λ a v. v ≡ bound_values a };

    fn from(a: Result<ClassCount, Refusal>) -> BoundValues {
        match a {
            Err(r) => BoundValues {
                refusal: u32::from(r),
                class: 0,
                count: Cells(0),
            },
            Ok(ClassCount { class, count }) => BoundValues {
                refusal: 0,
                class,
                count,
            },
        }
    }
}

// The call.
pub fn bound(o: Order) -> Result<ClassCount, Refusal>
    ensures { Bounds o.panel o.entry o.exit result }
{
    o.check()?;
    Ok(order_class_count(o))
}
