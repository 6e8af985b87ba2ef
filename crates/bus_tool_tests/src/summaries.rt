//! Which summaries are clean.

use crate::expect::holds;
use crate::worked::NONE;
use bus_tool::Summary;

/// Only these five make a line unclean.
const UNCLEAN: [Summary; 5] = [
    Summary { damaged: 1, ..NONE },
    Summary {
        overlong: 1,
        ..NONE
    },
    Summary { missing: 1, ..NONE },
    Summary { spoilt: 1, ..NONE },
    Summary { late: 1, ..NONE },
];

const CLEAN: [Summary; 6] = [
    NONE,
    Summary { frames: 1, ..NONE },
    Summary { aborts: 1, ..NONE },
    Summary { idles: 1, ..NONE },
    Summary { strays: 1, ..NONE },
    Summary {
        answered: 1,
        ..NONE
    },
];

#[test]
fn clean(rt: HostRuntime) {
    for summary in UNCLEAN {
        holds(&rt, !summary.is_clean(), format_args!("{summary:?}"));
    }
    for summary in CLEAN {
        holds(&rt, summary.is_clean(), format_args!("{summary:?}"));
    }
}
