//! Laws of tasks of a well-typed program.
ghost use Rattle.task_types.specs.Laws.{StartIsTyped, StepsStayTyped, EffectStaysTyped, TypedHasWish, WishedArgsFit, WishedEndFits, WishedGetFits, TypedGrows};
ghost use Rattle.task_types.specs.Running.{RunsAreTyped, StepsFit, ChildrenFit, RunningHasWish, MainFits};

/// A task whose arguments fit begins with the types kept.
pub fn start_is_typed()
    ensures { StartIsTyped }
{}

/// Local steps keep the types.
pub fn steps_stay_typed()
    ensures { StepsStayTyped }
{}

/// Each action but the end keeps the types, where what it gives the task fits.
pub fn effect_stays_typed()
    ensures { EffectStaysTyped }
{}

/// A task that stands at an event has a wish.
pub fn typed_has_wish()
    ensures { TypedHasWish }
{}

/// The arguments of a task that is to begin fit its parameters.
pub fn wished_args_fit()
    ensures { WishedArgsFit }
{}

/// The value with which a task ends fits its result.
pub fn wished_end_fits()
    ensures { WishedEndFits }
{}

/// A future that is to be got gives what the handle's type says.
pub fn wished_get_fits()
    ensures { WishedGetFits }
{}

/// What fits goes on to fit where more futures are known.
pub fn typed_grows()
    ensures { TypedGrows }
{}

/// In every run of a well-typed program each task keeps the type rules, and has ended with a value that fits.
pub fn runs_are_typed()
    ensures { RunsAreTyped }
{}

/// What an event gives its task fits.
pub fn steps_fit()
    ensures { StepsFit }
{}

/// The arguments of a task that an event begins fit its parameters.
pub fn children_fit()
    ensures { ChildrenFit }
{}

/// In every run of a well-typed program a task that stands at an event has a wish.
pub fn running_has_wish()
    ensures { RunningHasWish }
{}

/// `main` has no parameters.
pub fn main_fits()
    ensures { MainFits }
{}
