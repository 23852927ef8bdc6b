//! What holds of all runs, as contracts of functions that do nothing.
ghost use Rattle.std.specs.Prelude.{◌≡◌, true, List};
ghost use Rattle.ch_bind.specs.Binding.{plain_bound};
ghost use Rattle.ch_command.specs.declared.outcome.Ending.TheVariants as ending;
ghost use Rattle.ch_plan.specs.Kinds.{IsPlanOf};
ghost use Rattle.ch_plan.specs.declared.kind.PlanKind.{PlanKind};
ghost use Rattle.ch_pred.specs.Meaning as meaning;
ghost use Rattle.ch_pred.specs.declared.bound.Bound.{Bound};
ghost use Rattle.ch_run.specs.Asked as run;
ghost use Rattle.ch_tables.specs.TableValue.{TableValue};
ghost use Rattle.cheetah_inputs.specs.Inputs.{given_of};
ghost use Rattle.cheetah_inputs.specs.declared.inputs.Inputs.{Inputs};
ghost use Rattle.cheetah_run.specs.Asking.{AreAsked, answer_over, rows_asked};
ghost use Rattle.cheetah_run.specs.Running.{config_of, texts_of};
ghost use Rattle.cheetah_run.specs.Saying.{said_by_run};

/// The answer over the tables is what a bound query means over their rows.
pub fn answers_are_meanings()
    ensures { (b : Bound) (tables : List TableValue) → answer_over (plain_bound b) tables ≡ meaning.answer_of b (rows_asked (plain_bound b) tables) }
{}

/// The configuration that query, profile and tables give is that of a run of any plan of the query.
pub fn runs_are_configured()
    ensures { (inputs : Inputs) (k : PlanKind) → IsPlanOf k inputs.bound inputs.profile
        → config_of (given_of inputs) ≡ run.config_of (texts_of (given_of inputs)) inputs.bound inputs.tables k inputs.profile.window }
{}

/// A run whose schedule ends in drain is never open.
pub fn drained_runs_are_done()
    ensures { (inputs : Inputs) → AreAsked inputs → inputs.schedule.drain ≡ true → (said_by_run (given_of inputs)).ending ≡ ending.Done }
{}
