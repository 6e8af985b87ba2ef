//! What tests expect. A call is proved in a tenth of a second, an assertion where it stands in two or three.

use std::fmt::{Debug, Display};
use std::process::Abort;

/// Ends the test where it got something else than it wants; the case says what, and of which row.
pub(super) fn same<T: PartialEq + Debug + Drop>(
    rt: &impl Abort,
    got: T,
    want: T,
    case: impl Display + Drop,
) {
    assert_eq!(rt; got, want, "{case}");
}

/// Ends the test where a fact does not hold in this case.
pub(super) fn holds(rt: &impl Abort, fact: bool, case: impl Display + Drop) {
    assert!(rt; fact, "{case}");
}
