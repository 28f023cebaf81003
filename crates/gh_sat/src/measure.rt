//! Why a search ends.

ghost use Rattle.gh_sat.specs.Measure.{StepsLeadFurther, UnitsAreAssigned, JumpsLeadFurther, StepsLeaveLess};
ghost use Rattle.gh_sat.specs.Measure.{JumpsLeaveLess};

/// Decisions and propagated literals raise the measure.
pub fn steps_lead_further()
    ensures { StepsLeadFurther }
{}

/// A learnt unit is assigned at the lesson's level when propagation answers after the cut to it.
pub fn units_are_assigned()
    ensures { UnitsAreAssigned }
{}

/// With the learnt unit assigned, the measure is greater than it was before the cut.
pub fn jumps_lead_further()
    ensures { JumpsLeadFurther }
{}

/// A number that falls where literals are added, for loops to end by.
pub fn steps_leave_less()
    ensures { StepsLeaveLess }
{}

/// With the learnt unit assigned, the same number is less than it was before the cut.
pub fn jumps_leave_less()
    ensures { JumpsLeaveLess }
{}
