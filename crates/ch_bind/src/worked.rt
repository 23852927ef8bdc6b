//! Queries that were bound by hand.
ghost use Rattle.std.specs.Prelude.{◌≡◌, ◌∷◌, [], codes, pos, true, false, Some, None};
ghost use Rattle.ch_cells.specs.declared.cell.Kind.TheVariants as kind;
ghost use Rattle.ch_pred.specs.Plain as bound;
ghost use Rattle.ch_pred.specs.declared.bound.Printed.TheVariants as printed;
ghost use Rattle.ch_pred.specs.declared.bound.Shape.TheVariants as shape;
ghost use Rattle.ch_pred.specs.declared.pred.Arg.TheVariants as arg;
ghost use Rattle.ch_pred.specs.declared.pred.Cmp.TheVariants as cmp;
ghost use Rattle.ch_pred.specs.declared.pred.Literal.TheVariants as literal;
ghost use Rattle.ch_sql_grammar.specs.Tree.{bare_col, col_of};
ghost use Rattle.ch_sql_grammar.specs.declared.query.Item.TheVariants as item;
ghost use Rattle.ch_sql_grammar.specs.declared.query.Source.TheVariants as source;
ghost use Rattle.ch_sql_grammar.specs.declared.query.Tail.TheVariants as tail;
ghost use Rattle.ch_bind.specs.Binding.{bound_of};
ghost use Rattle.ch_bind.specs.Checks.{bind_refusal};
ghost use Rattle.ch_bind.specs.Rows.{shapes, customers, sales, left, right, select, column, filtered, countries, dearest, latest, spenders, joined, cities, dear_or_early, known, dim, spread, shapes_of_none, wide, six, minus};
ghost use Rattle.ch_bind.specs.Sums.{negative_from};
ghost use Rattle.ch_bind.specs.declared.error.SumError.TheVariants as sum_error;
ghost use Rattle.ch_sql_grammar.specs.declared.query.Agg.TheVariants as agg;
ghost use Rattle.ch_bind.specs.declared.error.BindError.TheVariants as error;

/// No check finds anything in the queries over two tables of a shop, and this is what they stand for.
pub(crate) fn shop_queries_are_bound()
    ensures filtered { bind_refusal filtered shapes ≡ None }
    ensures countries { bind_refusal countries shapes ≡ None }
    ensures dearest { bind_refusal dearest shapes ≡ None }
    ensures latest { bind_refusal latest shapes ≡ None }
    ensures spenders { bind_refusal spenders shapes ≡ None }
    ensures cities { bind_refusal cities shapes ≡ None }
    ensures dear_or_early { bind_refusal dear_or_early shapes ≡ None }
    ensures known { bind_refusal known shapes ≡ None }
    ensures filter { bound_of filtered shapes ≡ record {
      tables = 1 ∷ [];
      carried = (0 ∷ 2 ∷ 3 ∷ []) ∷ [];
      kinds = (kind.Number ∷ kind.Text ∷ kind.Number ∷ []) ∷ [];
      header = codes "order_id" ∷ codes "cents" ∷ [];
      printed = printed.Column (left 0) ∷ printed.Column (left 3) ∷ [];
      filter = bound.And (bound.plains (bound.Compare (left 2) cmp.Ne (arg.Value (literal.Text (codes "ES"))) ∷ bound.Compare (left 3) cmp.Ge (arg.Value (literal.Number (pos 1200))) ∷ []));
      shape = shape.Filter;
    } }
    ensures distinct { bound_of countries shapes ≡ record {
      tables = 1 ∷ [];
      carried = (2 ∷ []) ∷ [];
      kinds = (kind.Text ∷ []) ∷ [];
      header = codes "country" ∷ [];
      printed = printed.Column (left 2) ∷ [];
      filter = bound.Truth;
      shape = shape.Distinct;
    } }
    ensures top { bound_of dearest shapes ≡ record {
      tables = 1 ∷ [];
      carried = (0 ∷ 3 ∷ []) ∷ [];
      kinds = (kind.Number ∷ kind.Number ∷ []) ∷ [];
      header = codes "order_id" ∷ codes "cents" ∷ [];
      printed = printed.Column (left 0) ∷ printed.Column (left 3) ∷ [];
      filter = bound.Truth;
      shape = shape.Top (left 3) true 2;
    } }
    ensures group { bound_of latest shapes ≡ record {
      tables = 1 ∷ [];
      carried = (1 ∷ 4 ∷ []) ∷ [];
      kinds = (kind.Text ∷ kind.Number ∷ []) ∷ [];
      header = codes "customer" ∷ codes "MAX(time)" ∷ [];
      printed = printed.Column (left 1) ∷ printed.Best ∷ [];
      filter = bound.Truth;
      shape = shape.Group (left 1 ∷ []) true (left 4);
    } }
    ensures having { bound_of spenders shapes ≡ record {
      tables = 1 ∷ [];
      carried = (1 ∷ 3 ∷ []) ∷ [];
      kinds = (kind.Text ∷ kind.Number ∷ []) ∷ [];
      header = codes "customer" ∷ [];
      printed = printed.Column (left 1) ∷ [];
      filter = bound.Truth;
      shape = shape.Having (left 1 ∷ []) (Some (left 3)) (pos 3000);
    } }
    ensures join { bound_of cities shapes ≡ record {
      tables = 1 ∷ 0 ∷ [];
      carried = (0 ∷ 1 ∷ 3 ∷ []) ∷ (0 ∷ 1 ∷ []) ∷ [];
      kinds = (kind.Number ∷ kind.Text ∷ kind.Number ∷ []) ∷ (kind.Text ∷ kind.Text ∷ []) ∷ [];
      header = codes "city" ∷ codes "order_id" ∷ [];
      printed = printed.Column (right 1) ∷ printed.Column (left 0) ∷ [];
      filter = bound.Compare (left 3) cmp.Lt (arg.Value (literal.Number (pos 2000)));
      shape = shape.Join (left 1) (right 0);
    } }
    ensures skyline { bound_of dear_or_early shapes ≡ record {
      tables = 1 ∷ [];
      carried = (0 ∷ 3 ∷ 4 ∷ []) ∷ [];
      kinds = (kind.Number ∷ kind.Number ∷ kind.Number ∷ []) ∷ [];
      header = codes "order_id" ∷ codes "cents" ∷ codes "time" ∷ [];
      printed = printed.Column (left 0) ∷ printed.Column (left 3) ∷ printed.Column (left 4) ∷ [];
      filter = bound.Truth;
      shape = shape.Skyline (record { col = left 3; max = true } ∷ record { col = left 4; max = false } ∷ []);
    } }
    ensures semi { bound_of known shapes ≡ record {
      tables = 1 ∷ 0 ∷ [];
      carried = (0 ∷ 1 ∷ 2 ∷ 3 ∷ 4 ∷ []) ∷ (0 ∷ []) ∷ [];
      kinds = (kind.Number ∷ kind.Text ∷ kind.Text ∷ kind.Number ∷ kind.Number ∷ []) ∷ (kind.Text ∷ []) ∷ [];
      header = sales.header;
      printed = printed.Column (left 0) ∷ printed.Column (left 1) ∷ printed.Column (left 2) ∷ printed.Column (left 3) ∷ printed.Column (left 4) ∷ [];
      filter = bound.Truth;
      shape = shape.Semi (left 1) (right 0);
    } }
    // An ON that names the second table first, and a * that stands for both tables.
    ensures turned { bound_of (joined (col_of (codes "customers") (codes "customer")) (col_of (codes "sales") (codes "customer")) (item.Star ∷ [])) shapes ≡ record {
      tables = 1 ∷ 0 ∷ [];
      carried = (0 ∷ 1 ∷ 2 ∷ 3 ∷ 4 ∷ []) ∷ (0 ∷ 1 ∷ []) ∷ [];
      kinds = sales.kinds ∷ customers.kinds ∷ [];
      header = codes "order_id" ∷ codes "customer" ∷ codes "country" ∷ codes "cents" ∷ codes "time" ∷ codes "customer" ∷ codes "city" ∷ [];
      printed = printed.Column (left 0) ∷ printed.Column (left 1) ∷ printed.Column (left 2) ∷ printed.Column (left 3) ∷ printed.Column (left 4) ∷ printed.Column (right 0) ∷ printed.Column (right 1) ∷ [];
      filter = bound.Compare (left 3) cmp.Lt (arg.Value (literal.Number (pos 2000)));
      shape = shape.Join (left 1) (right 0);
    } }
{}

/// What each check finds. Places count from 0 over all columns of the text.
pub(crate) fn wrong_queries_are_refused()
    ensures unknown_table { bind_refusal cities (sales ∷ []) ≡ Some (error.NoTable 1) }
    ensures self_join { bind_refusal (record cities { source = source.Join (codes "sales") (codes "sales") (bare_col (codes "x")) (bare_col (codes "x")) }) shapes ≡ Some error.SelfJoin }
    ensures unknown { bind_refusal (record dearest { tail = tail.Top (bare_col (codes "Cents")) true (pos 2) }) shapes ≡ Some (error.NoColumn 2) }
    ensures no_source { bind_refusal (select (item.Column (col_of (codes "customers") (codes "customer")) ∷ []) tail.Nothing) shapes ≡ Some (error.NoColumn 0) }
    ensures ambiguous { bind_refusal (joined (col_of (codes "sales") (codes "customer")) (bare_col (codes "customer")) (item.Star ∷ [])) shapes ≡ Some (error.Ambiguous 1) }
    ensures one_side { bind_refusal (joined (col_of (codes "sales") (codes "customer")) (bare_col (codes "country")) (item.Star ∷ [])) shapes ≡ Some error.BadOn }
    ensures no_key { bind_refusal (record latest { items = column (codes "customer") ∷ column (codes "cents") ∷ [] }) shapes ≡ Some (error.BadItem 1) }
    ensures no_best { bind_refusal (record latest { items = column (codes "customer") ∷ [] }) shapes ≡ Some (error.BadItem 1) }
    ensures two_bests { bind_refusal (record latest { items = item.Max (bare_col (codes "time")) ∷ item.Min (bare_col (codes "time")) ∷ [] }) shapes ≡ Some (error.BadItem 1) }
    // 'Greatest cell and beyond': the column is Text.
    ensures sum_of_texts { bind_refusal (record spenders { tail = tail.Group (bare_col (codes "customer") ∷ []) (Some (record { agg = agg.Sum (bare_col (codes "country")); above = pos 1 })) }) shapes ≡ Some (error.KindClash 2) }
    ensures on_kinds { bind_refusal (joined (bare_col (codes "cents")) (bare_col (codes "city")) (item.Star ∷ [])) shapes ≡ Some (error.KindClash 0) }
    ensures dimensions { bind_refusal (record dear_or_early { tail = tail.Skyline (dim ∷ dim ∷ dim ∷ dim ∷ dim ∷ []) }) shapes ≡ Some (error.TooManyDims 5) }
    ensures no_limit { bind_refusal (record dearest { tail = tail.Top (bare_col (codes "cents")) true (pos 0) }) shapes ≡ Some (error.LimitRange (pos 0)) }
    ensures limit { bind_refusal (record dearest { tail = tail.Top (bare_col (codes "cents")) true (pos 65537) }) shapes ≡ Some (error.LimitRange (pos 65537)) }
    // An inner key that only the outer table has.
    ensures inner_key { bind_refusal (record known { source = source.Semi (codes "sales") (codes "customers") (bare_col (codes "customer")) (bare_col (codes "country")) }) shapes ≡ Some (error.NoColumn 1) }
    ensures key { bind_refusal (record known { source = source.Semi (codes "sales") (codes "customers") (bare_col (codes "city")) (bare_col (codes "city")) }) shapes ≡ Some (error.NoColumn 0) }
    ensures key_kinds { bind_refusal (record known { source = source.Semi (codes "sales") (codes "customers") (bare_col (codes "cents")) (bare_col (codes "city")) }) shapes ≡ Some (error.KindClash 0) }
    ensures void { bind_refusal spread shapes_of_none ≡ None }
    ensures sixteen { bind_refusal (record spread { source = source.One (codes "wide") }) (wide 16 ∷ []) ≡ None }
    ensures seventeen { bind_refusal (record spread { source = source.One (codes "wide") }) (wide 17 ∷ []) ≡ Some (error.TooManyColumns 0 17) }
    // A name that isn't there goes before items that aren't allowed.
    ensures order { bind_refusal (record latest { items = item.Star ∷ column (codes "x") ∷ [] }) shapes ≡ Some (error.NoColumn 0) }
{}

/// The negative cell that is first, part after part: of each row, and of no other column.
pub(crate) fn negative_sums_are_found()
    ensures second_row { negative_from 1 0 (((six ∷ six ∷ []) ∷ (six ∷ minus ∷ []) ∷ []) ∷ []) ≡ Some (sum_error.NegativeSum 0 1) }
    ensures later_part { negative_from 0 0 ([] ∷ ((six ∷ minus ∷ []) ∷ []) ∷ ((minus ∷ six ∷ []) ∷ []) ∷ []) ≡ Some (sum_error.NegativeSum 2 0) }
    ensures none { negative_from 0 0 (((six ∷ minus ∷ []) ∷ []) ∷ []) ≡ None }
{}
