//! What holds of the steps of a front whatever its drivers answer.

ghost use Rattle.free_front.specs.Laws.{EachFrontStepIsFreeLaw, QuietIsNotFreeLaw};

/// Each step of the front, over whatever drivers, is one whatever its drivers answer, which leaves their books.
#[tactic(auto, using(crate::proofs::Freeing::each_step))]
pub fn each_front_step_is_free()
    ensures { EachFrontStepIsFreeLaw }
{}

/// Where no step is next, none is free either: whether a front rests does not depend on its drivers.
pub fn quiet_is_not_free()
    ensures { QuietIsNotFreeLaw }
{}
