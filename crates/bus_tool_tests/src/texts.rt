//! Words of kinds, and the texts of faults that no run of the program reaches: its words keep these bounds, and a
//! reader is called as often as a program can count.

use crate::expect::same;
use bus_tool::{Kind, ToolFault};

#[test]
fn kinds(rt: HostRuntime) {
    for (word, kind) in [
        ("frame", Some(Kind::Frame)),
        ("late", Some(Kind::Late)),
        ("open", Some(Kind::Begun)),
        ("begun", None),
        ("Frame", None),
        ("", None),
    ] {
        same(&rt, Kind::read(word), kind, word);
    }
}

#[test]
fn faults(rt: HostRuntime) {
    for (fault, text) in [
        (ToolFault::Depth, "depth is not 1 to 1024"),
        (ToolFault::Origin, "origin is above 1152921504606846976"),
        (ToolFault::ReadsLimit, "too many reads"),
    ] {
        let shown = format!(in rt.alloc(); "{fault}").expect(&rt, "memory");
        same(&rt, shown.as_str(), text, "the text of a fault");
    }
}
