//! Columns of two tables that are equal wherever the condition holds of their joined rows.
ghost use Rattle.std.specs.Prelude.{◌≡◌, ◌<◌, length, IfSome, Some, None};
ghost use Rattle.expr_lang.specs.Terms.{expr_term};
ghost use Rattle.pair_rows.specs.Shown.{Joining};
ghost use Rattle.equal_columns.specs.Columns.{column_at as column_there, columns_at as columns_there};
ghost use Rattle.equal_columns.specs.Columns.{columns_by, equal_in as equal_there, place_named};
ghost use Rattle.equal_columns.specs.Columns.{place_in as place_there, MakesEqual};

use expr_lang::{BinaryOp, Expr};

/// At which place of a list this one stands first.
fn place_in(places: &[usize], place: usize) -> Option<usize>
    ensures value { result ≡ place_there places.now place }
    ensures within { IfSome result (λ at. at < length places.now) }
{
    let Some((first, rest)) = places.split_first() else {
        return None;
    };
    if *first == place {
        return Some(0);
    }
    match place_in(rest, place) {
        Some(at) => Some(at + 1),
        None => None,
    }
}

/// The column of a table at this place of joined rows, where it is one of that table alone. `own` are
/// the places of the table's columns, and `others` those of the other table's.
///
/// It takes time in the number of the columns, and no memory.
pub fn column_at(own: &[usize], others: &[usize], place: usize) -> Option<usize>
    ensures { result ≡ column_there own.now others.now place }
{
    if place_in(others, place).is_some() {
        return None;
    }
    // Such a place is within the row.
    if place < own.len() || place - own.len() < others.len() {
        place_in(own, place)
    } else {
        None
    }
}

/// Two tables whose columns stand at places of joined rows.
pub trait Columned {
    ghost joins: { Self → Joining };

    /// The column of S at this place, where it is one of S alone. It takes no memory.
    fn first_at(&self, place: usize) -> Option<usize>
        ensures { result ≡ column_there (joins self.now).first (joins self.now).second place };

    /// The column of T at this place, where it is one of T alone. It takes no memory.
    fn second_at(&self, place: usize) -> Option<usize>
        ensures { result ≡ column_there (joins self.now).second (joins self.now).first place };
}

/// The columns at two places of joined rows, where the first is one of S, and the second of T.
fn columns_at<C: Columned>(join: &C, p: usize, q: usize) -> Option<(usize, usize)>
    ensures { result ≡ columns_there (C.joins join.now) p q }
{
    let Some(x) = join.first_at(p) else {
        return None;
    };
    let Some(y) = join.second_at(q) else {
        return None;
    };
    Some((x, y))
}

/// The column that an expression names.
fn column_of(expr: &Expr) -> Option<usize>
    ensures { result ≡ place_named (expr_term expr.now) }
{
    match expr {
        Expr::Column(place) => Some(*place),
        _ => None,
    }
}

/// The columns of an equality of two columns, one of each table.
fn columns_of<C: Columned>(join: &C, left: &Expr, right: &Expr) -> Option<(usize, usize)>
    ensures { result ≡ columns_by (C.joins join.now) (place_named (expr_term left.now))
        (place_named (expr_term right.now)) }
{
    let Some(p) = column_of(left) else {
        return None;
    };
    let Some(q) = column_of(right) else {
        return None;
    };
    match columns_at(join, p, q) {
        Some(both) => Some(both),
        None => columns_at(join, q, p),
    }
}

/// Two columns, one of each table, that are equal wherever this condition holds of joined rows.
fn equal_in<C: Columned>(join: &C, condition: &Expr) -> Option<(usize, usize)>
    ensures { result ≡ equal_there (C.joins join.now) (expr_term condition.now) }
{
    match condition {
        Expr::Binary(op, left, right) => match op {
            BinaryOp::Equal => columns_of(join, left, right),
            BinaryOp::And => match equal_in(join, left) {
                Some(both) => Some(both),
                None => equal_in(join, right),
            },
            _ => None,
        },
        _ => None,
    }
}

/// The place in S and the place in T of two columns that are equal wherever the condition holds of
/// joined rows: those of the first equality of two columns, one of each table, among what it joins by
/// AND. It takes no memory.
pub fn equal_columns<C: Columned>(join: &C, condition: &Expr) -> Option<(usize, usize)>
    ensures value { result ≡ equal_there (C.joins join.now) (expr_term condition.now) }
    ensures equal { IfSome result (λ both. MakesEqual (C.joins join.now) (expr_term condition.now)
        both.0 both.1) }
{
    equal_in(join, condition)
}
