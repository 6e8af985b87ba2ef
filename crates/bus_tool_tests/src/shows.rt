//! Frames that are typed.

use crate::expect::{holds, same};
use bus_rows::POLLS;
use bus_rows::fakes::Fixed;
use bus_tool::{ToolFault, show_frame};

/// Frames with a good check and with a bad one, and what is no frame.
#[test]
fn shown(rt: HostRuntime) {
    let head = "station 16 type 129 state\n0 call1\n9 flash\n";
    for (hex, check) in [("10838101026e1f", "good"), ("1083810102ffff", "bad")] {
        let mut writer = Fixed::new();
        let want = format!(in rt.alloc(); "frame {hex} {check}\n{head}").expect(&rt, "memory");
        let ending = show_frame(rt.alloc(), Some(POLLS), hex, &mut writer);
        same(&rt, ending, Ok(()), hex);
        same(&rt, writer.out.as_slice(), want.as_bytes(), hex);
    }
    for (hex, want) in [("10835", ToolFault::Hex), ("108345", ToolFault::FrameSize)] {
        let mut writer = Fixed::new();
        let ending = show_frame(rt.alloc(), Some(POLLS), hex, &mut writer);
        same(&rt, ending, Err(want), hex);
        holds(&rt, writer.out.is_empty(), hex);
    }
}

/// To be run with each request for memory refused in turn: without a dictionary there is none.
#[test]
fn takes_no_memory(rt: HostRuntime) {
    let mut writer = Fixed::new();
    let ending = show_frame(rt.alloc(), None, "1013ccb8", &mut writer);
    same(&rt, ending, Ok(()), "a frame that is typed");
    let text = "frame 1013ccb8 good\ncontrol 19\n";
    same(&rt, writer.out.as_slice(), text.as_bytes(), "what is shown");
}

/// To be run with each request for memory refused in turn. Nothing is written then, and the next
/// attempt succeeds.
#[test]
fn refused_memory(rt: HostRuntime) {
    let mut is_refused = false;
    for _attempt in 0..2 {
        let mut writer = Fixed::new();
        let ending = show_frame(rt.alloc(), Some(POLLS), "10830174f4", &mut writer);
        if ending == Err(ToolFault::Memory) {
            holds(&rt, !is_refused, "the next attempt has memory");
            holds(&rt, writer.out.is_empty(), "nothing is written");
            is_refused = true;
        } else {
            same(&rt, ending, Ok(()), "a frame of a dictionary");
            let text = "frame 10830174f4 good\nstation 16 type 1 length\n";
            let shown = writer.out.as_slice();
            same(&rt, shown, text.as_bytes(), "what is shown of its frame");
        }
    }
}
