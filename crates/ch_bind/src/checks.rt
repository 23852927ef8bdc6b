//! The nine checks, in their order.
ghost use Rattle.std.specs.Prelude.{◌≡◌, ◌<◌, ◌^◌, ◌∷◌, [], length, option_map};
ghost use Rattle.ch_bind.specs.Checks as spec;
ghost use Rattle.ch_bind.specs.First.{first};
ghost use Rattle.ch_bind.specs.declared.error.BindError.TheVariants as error;

use crate::error::BindError;
use crate::references::Reference;
use crate::scope::{Found, Scope, col_of, number_of};
use crate::shape::TableShape;
use ch_sql::{Source, Tail};

fn is_unknown(shapes: &[TableShape], name: &[u8]) -> bool
    requires { length shapes.now < 2 ^ 32 }
    ensures { result ≡ spec.is_unknown shapes.now name.now }
{
    number_of(shapes, name).is_none()
}

fn unknown_of_two(shapes: &[TableShape], one: &[u8], other: &[u8]) -> Option<BindError>
    requires { length shapes.now < 2 ^ 32 }
    ensures { result ≡ option_map error.NoTable (first (spec.is_unknown shapes.now) (one.now ∷ other.now ∷ [])) }
{
    if is_unknown(shapes, one) {
        Some(BindError::NoTable { which: 0 })
    } else if is_unknown(shapes, other) {
        Some(BindError::NoTable { which: 1 })
    } else {
        None
    }
}

/// 1: a table of the source is unknown.
pub(crate) fn table_refusal(source: &Source, shapes: &[TableShape]) -> Option<BindError>
    requires { length shapes.now < 2 ^ 32 }
    ensures { result ≡ spec.table_refusal source.now shapes.now }
{
    match source {
        Source::One(table) => {
            if is_unknown(shapes, table.as_slice()) {
                Some(BindError::NoTable { which: 0 })
            } else {
                None
            }
        }
        Source::Join {
            left,
            right,
            first_on: _,
            second_on: _,
        } => unknown_of_two(shapes, left.as_slice(), right.as_slice()),
        Source::Semi {
            outer,
            inner,
            key: _,
            inner_key: _,
        } => unknown_of_two(shapes, outer.as_slice(), inner.as_slice()),
    }
}

fn same_names(a: &[u8], b: &[u8]) -> Option<BindError>
    ensures { result ≡ spec.same_names a.now b.now }
{
    if a == b {
        Some(BindError::SelfJoin)
    } else {
        None
    }
}

/// 2: both tables are the same.
pub(crate) fn self_refusal(source: &Source) -> Option<BindError>
    ensures { result ≡ spec.self_refusal source.now }
{
    match source {
        Source::One(_) => None,
        Source::Join {
            left,
            right,
            first_on: _,
            second_on: _,
        } => same_names(left.as_slice(), right.as_slice()),
        Source::Semi {
            outer,
            inner,
            key: _,
            inner_key: _,
        } => same_names(outer.as_slice(), inner.as_slice()),
    }
}

fn column_error(place: u32, found: Found) -> Option<BindError>
    ensures { result ≡ spec.column_error place found }
{
    match found {
        Found::Nowhere => Some(BindError::NoColumn { place }),
        Found::Twice => Some(BindError::Ambiguous { place }),
        Found::At(_) => None,
    }
}

/// 3: a column is unknown, or ambiguous.
pub(crate) fn column_refusal(refs: &[Reference]) -> Option<BindError>
    requires { length refs.now < 2 ^ 32 }
    ensures { result ≡ spec.column_refusal 0 refs.now }
{
    for place in 0..refs.len() as u32 {
        if let Some(error) = column_error(place, refs[place as usize].found) {
            return Some(error);
        }
    }
    None
}

/// 4: the columns of ON are of one table.
pub(crate) fn on_refusal(scope: &Scope, source: &Source) -> Option<BindError>
    ensures { result ≡ spec.on_refusal scope.now source.now }
{
    match source {
        Source::One(_) => None,
        Source::Join {
            left: _,
            right: _,
            first_on,
            second_on,
        } => {
            if col_of(scope, first_on).side == col_of(scope, second_on).side {
                Some(BindError::BadOn)
            } else {
                None
            }
        }
        Source::Semi {
            outer: _,
            inner: _,
            key: _,
            inner_key: _,
        } => None,
    }
}

/// 6: kinds don't suit each other.
pub(crate) fn kind_refusal(refs: &[Reference]) -> Option<BindError>
    requires { length refs.now < 2 ^ 32 }
    ensures { result ≡ spec.kind_refusal refs.now }
{
    for place in 0..refs.len() as u32 {
        if refs[place as usize].clash {
            return Some(BindError::KindClash { place });
        }
    }
    None
}

/// 7, of one table: more than 16 columns that the query names.
pub(crate) fn too_many(side: u8, carried: &[u32]) -> Option<BindError>
    requires { length carried.now < 2 ^ 32 }
    ensures { result ≡ spec.too_many side carried.now }
{
    if carried.len() > 16 {
        Some(BindError::TooManyColumns {
            side,
            have: carried.len() as u32,
        })
    } else {
        None
    }
}

/// 8: more than four dimensions.
pub(crate) fn dims_refusal(tail: &Tail) -> Option<BindError>
    requires { spec.dims_count tail.now < 2 ^ 32 }
    ensures { result ≡ spec.dims_refusal tail.now }
{
    match tail {
        Tail::Skyline { dims } => {
            if dims.len() > 4 {
                Some(BindError::TooManyDims {
                    have: dims.len() as u32,
                })
            } else {
                None
            }
        }
        _ => None,
    }
}

/// 9: the limit isn't from 1 to 65,536.
pub(crate) fn limit_refusal(tail: &Tail) -> Option<BindError>
    ensures { result ≡ spec.limit_refusal tail.now }
{
    match tail {
        Tail::Top {
            by: _,
            descending: _,
            limit,
        } => {
            if *limit < 1 || *limit > 65_536 {
                Some(BindError::LimitRange { n: *limit })
            } else {
                None
            }
        }
        _ => None,
    }
}
