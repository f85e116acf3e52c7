//! What is true of every plan that goes through the waiting threads in order, as those of
//! [`FirstCome`](crate::FirstCome) and [`TwoClass`](crate::TwoClass) do.

ghost use Rattle.gs_policy.specs.Plan.{PlansInOrder, PlansLeaveNone};

/// States that over waiting threads that end in one, a plan is that of the others, followed by this one's
/// choice.
#[tactic(auto, using(crate::proofs::Plans::in_order))]
pub fn plans_in_order()
    ensures { PlansInOrder }
{}

/// States that no waiting thread is left beside a free CPU of its mask that the plan does not use.
#[tactic(auto, using(crate::proofs::Plans::leave_none))]
pub fn leaves_none()
    ensures { PlansLeaveNone }
{}
