// Whether every setting of every slot lies inside its row's limits. This stands in every call, so a row's columns are one run of numbers,
// and one loop that looks at them all and tests once: no early exit, so that many are compared at a time.
ghost use Rattle.std.specs.Prelude.{◌≡◌, ◌+◌, ◌≤◌};
ghost use Rattle.versions.specs.Layout.{columns_of};
ghost use Rattle.versions.specs.Fit.{columns_fit, versions_fit};

use super::{Columns, SIZE, Versions};

impl Columns {
    // Whether every number of the row lies inside its limits.
    fn fit(self, v: &Versions) -> bool
        requires { self.at + columns_of self.row ≤ SIZE }
        ensures { result ≡ columns_fit v.now self }
    {
        let size = catalogue::element_size(self.row.kind);
        let run = &v[self.at..self.at + usize::from(self.row.count) * super::SLOTS * size];
        let mut all = true;
        for number in run.chunks_exact(size) {
            all &= catalogue::is_inside(self.row, super::low::number_of(number));
        }
        all
    }
}

// Whether the versions lie inside the limits; a slice of another size does not.
pub fn fit(s: &[u8]) -> bool
    ensures { result ≡ versions_fit s.now }
{
    let Some(v) = s.as_array::<SIZE>() else {
        return false;
    };
    for c in super::COLUMNS {
        if !c.fit(v) {
            return false;
        }
    }
    true
}
