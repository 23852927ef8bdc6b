ghost use Rattle.std.specs.Prelude.{◌≡◌, ◌<◌, ◌≤◌, ◌^◌, ℕ, List, [], ◌∷◌, codes, None, Ok, Some};
ghost use Rattle.rand_pcg.specs.Lcg.{Lcg};
ghost use Rattle.ch_bind.specs.Binding.{bound_of, plain_bound};
ghost use Rattle.ch_bind.specs.Checks.{bind_refusal};
ghost use Rattle.ch_bind.specs.Sums.{sum_refusal};
ghost use Rattle.ch_generated.specs.Inputs.{files_of, query_text, schedule_begins, workers_of};
ghost use Rattle.ch_generated.specs.Request.{request_of};
ghost use Rattle.ch_generated.specs.ScheduleText.{schedule_text};
ghost use Rattle.ch_generated.specs.TableText.{u_text};
ghost use Rattle.ch_generated.specs.declared.InputKind.{InputKind};
ghost use Rattle.ch_generated.specs.declared.Request.{Request};
ghost use Rattle.ch_generated_laws.specs.Queries.{select_of, shapes_of, tables_of};
ghost use Rattle.ch_generated_laws.specs.Sizes.{AreSmall};
ghost use Rattle.ch_generated_laws.specs.Steps.{schedule_of};
ghost use Rattle.ch_generated_laws.specs.Tables.{IsInRange, rows_of, t_table, t_texts, u_table};
ghost use Rattle.ch_ir.specs.Profile.{default_settings};
ghost use Rattle.ch_lines.specs.Lines.{lines_of};
ghost use Rattle.ch_plan.specs.Needs.{need_of, plan_refusal};
ghost use Rattle.ch_pred.specs.declared.Bound.{Bound};
ghost use Rattle.ch_schedule.specs.Bad.{IsSchedule};
ghost use Rattle.ch_sql_limits.specs.Texts.{Spells};
ghost use Rattle.ch_tables.specs.Table.{table_of};
ghost use Rattle.ch_tables.specs.declared.Room.{Room};

/// What words ask for is in its ranges.
pub fn requests_are_in_range()
    ensures { (words : List (List ℕ)) (request : Request) → request_of words ≡ Some request → IsInRange request }
{}

/// The schedule of each request is read as the steps that are drawn, and drain.
pub fn generated_schedules_are_read()
    ensures { (request : Request) → IsSchedule (lines_of (schedule_text (workers_of request.kind) (schedule_begins request))) (schedule_of request) }
{}

/// The parts of each table are read as the rows that are drawn, in columns of numbers, where there is room for them.
pub fn generated_tables_are_read()
    ensures t { (request : Request) (room : Room) → IsInRange request → 1000000 ≤ room.rows → 3000000 ≤ room.cells → table_of (codes "t") room (t_texts (rows_of request)) ≡ Ok (t_table (rows_of request)) }
    ensures u { (generator : Lcg) (room : Room) → 100 ≤ room.rows → 200 ≤ room.cells → table_of (codes "u") room (u_text generator ∷ []) ≡ Ok (u_table generator) }
{}

/// The text of each query spells it.
pub fn generated_queries_are_spelled()
    ensures { (kind : InputKind) → Spells (query_text kind) (select_of kind) }
{}

/// No check of binding finds anything in a query over its tables, and no cell that it sums is negative.
pub fn generated_queries_are_bound()
    ensures passes { (request : Request) → bind_refusal (select_of request.kind) (shapes_of request) ≡ None }
    ensures summed { (request : Request) (bound : Bound) → plain_bound bound ≡ bound_of (select_of request.kind) (shapes_of request) → sum_refusal bound (tables_of request) ≡ None }
{}

/// What a query needs is within the default profile.
pub fn generated_queries_are_planned()
    ensures { (request : Request) (bound : Bound) → plain_bound bound ≡ bound_of (select_of request.kind) (shapes_of request) → plan_refusal (need_of bound default_settings) default_settings ≡ None }
{}

/// The files of a request are within the limits of what a command reads.
pub fn generated_files_are_small()
    ensures { (request : Request) → IsInRange request → AreSmall (files_of request) }
{}
