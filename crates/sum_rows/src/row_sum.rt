// What a word's rows come to, row by row. Whoever calls a function here owes its `requires`.
ghost use Rattle.std.specs.Prelude.{◌≡◌, ◌<◌};
ghost use Rattle.row_lists.specs.Rows.{max_rows};
ghost use Rattle.sum_rows.specs.Sums.{finite, add_row};

// What a word's rows come to: the running sum of their coefficients, and how many they are.
#[derive(Clone, Copy)]
pub struct RowSum {
    pub coefficient: f64,
    pub rows: u32,
}

impl RowSum {
    // One row more: its coefficient is added, rounded once.
    pub fn merged(self, coefficient: f64) -> RowSum
        requires { self.rows < max_rows }
        ensures { result ≡ add_row self coefficient }
    {
        RowSum {
            coefficient: self.coefficient + coefficient,
            rows: self.rows + 1,
        }
    }
}

// Whether a coefficient is finite: it lies between the infinities, and so it is no NaN.
pub fn is_finite(x: f64) -> bool
    ensures { result ≡ finite x }
{
    let infinity = 1.0 / 0.0;
    if -infinity < x { x < infinity } else { false }
}
