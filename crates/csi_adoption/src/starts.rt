//! Makes the folds that check constraints, in the state that they have before the first row of a scan.

ghost use Rattle.std.specs.Prelude.{◌≡◌};
ghost use Rattle.csi_adoption.specs.Starting.{IsRisingStart, IsUnbroken};

use csi_constraints::{FirstBroken, InfallibleTest, Rising};
use std::alloc::Global;

/// Makes a fold that finds the first row that breaks a constraint. The fold names the row by the integer in
/// column `number` and the text in column `text`.
pub(crate) fn unbroken<T>(alloc: Global, test: T, number: usize, text: usize) -> FirstBroken<T>
    ensures test { result.test ≡ test }
    ensures unbroken { IsUnbroken number text result }
{
    FirstBroken {
        alloc,
        test,
        number,
        text,
        found: None,
    }
}

/// Makes a fold that finds the first row that breaks a constraint, for a test that takes no memory and so
/// cannot fail. The fold names the row by the integer in column `number` and the text in column `text`.
pub(crate) fn unbroken_test<T>(
    alloc: Global,
    test: T,
    number: usize,
    text: usize,
) -> FirstBroken<InfallibleTest<T>>
    ensures test { result.test.test ≡ test }
    ensures unbroken { IsUnbroken number text result }
{
    unbroken(alloc, InfallibleTest { test }, number, text)
}

/// Makes a fold that tests that the integers of the first column rise.
pub(crate) fn rising_start() -> Rising
    ensures { IsRisingStart result }
{
    Rising {
        column: 0,
        last: None,
        good: true,
    }
}
