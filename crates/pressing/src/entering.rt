//! Whether a name was entered before.
ghost use Rattle.std.specs.Prelude.{◌≡◌, ◌≤◌, map, length, take};
ghost use Rattle.std.specs.Str.{bytes_eq};
ghost use Rattle.runs.specs.Lists.{has};

use graph::rows::Row;
use names::kind::Kind;

// Whether two names have one spelling.
fn is_same<N: Kind>(a: &N, b: &N) -> bool
    ensures { result ≡ bytes_eq (N.spelling a.now) (N.spelling b.now) }
{
    let len = a.len();
    len == b.len() && (0..len).all(|i| a.byte(i + 1) == b.byte(i + 1))
}

// Whether one of the first `count` rows has a name with the spelling of this one.
pub(crate) fn is_entered<N: Kind>(rows: &[Row<N>], count: usize, name: &N) -> bool
    requires { count ≤ length rows.now }
    ensures { result ≡ has bytes_eq (N.spelling name.now) (map (λ x. N.spelling x.name) (take count rows.now)) }
{
    rows[0..count].iter().any(|row| is_same(name, &row.name))
}
