//! Laws of steps.

ghost use Rattle.gh_machine.specs.Laws.{StepsAreChosen, FaultsStop, EndsStop, StepsKeepFrames, StepsTakeFrames};
ghost use Rattle.gh_machine.specs.Laws.{RunsKeepFrames, TypedFit, StepsFit, RunsGoOn, RunsKeepStacks};

/// A step is determined by the configuration and what it may choose.
pub fn steps_are_chosen()
    ensures { StepsAreChosen }
{}

/// A faulting configuration has no step.
pub fn faults_stop()
    ensures { FaultsStop }
{}

/// What has ended has no step.
pub fn ends_stop()
    ensures { EndsStop }
{}

/// Beside a frame a step is one of the part, and the frame stays.
pub fn steps_keep_frames()
    ensures { StepsKeepFrames }
{}

/// A step of a part is one beside a frame.
pub fn steps_take_frames()
    ensures { StepsTakeFrames }
{}

/// A run beside a frame is the run without it, and the frame stays.
pub fn runs_keep_frames()
    ensures { RunsKeepFrames }
{}

/// A program that breaks no type rule fits the rules on counts.
pub fn typed_fit()
    ensures { TypedFit }
{}

/// What fits the rules on counts fits after a step.
pub fn steps_fit()
    ensures { StepsFit }
{}

/// A run goes on until it ends or faults.
pub fn runs_go_on()
    ensures { RunsGoOn }
{}

/// A run over a stack is a run of its top over the rest, until the top ends.
pub fn runs_keep_stacks()
    ensures { RunsKeepStacks }
{}
