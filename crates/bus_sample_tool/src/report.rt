//! The texts of faults.

ghost use Rattle.std.specs.Prelude.{◌≡◌, ◌++◌, ◌≤◌};
ghost use Rattle.arrayvec.specs.ArrayVec.{array_vec_len};
ghost use Rattle.bus_sample_tool.specs.Faults.{fault_line, fault_text};
ghost use Rattle.bus_sample_tool.specs.Reports.{Reports};

use crate::faults::FaultWriter;
use arrayvec::ArrayVec;
use bus_sample::SampleFault;
use bus_text::push_octets;
use itoa::Buffer;

/// The status of a run without fault, and of a help text.
pub(crate) const FINE: u8 = 0;

/// The status of any fault.
pub(crate) const FAULT: u8 = 2;

/// The room of the text of a fault.
const ROOM: usize = 128;

/// Appends what is wrong.
fn push_fault(text: &mut ArrayVec<u8, ROOM>, fault: &SampleFault)
    requires { array_vec_len text.old ≤ 20 }
    ensures text { text.new.items ≡ text.old.items ++ fault_text fault.now }
    ensures short { array_vec_len text.new ≤ 120 }
{
    match fault {
        SampleFault::Octets => push_octets(text, b"a sample is 1 to 8 octets"),
        SampleFault::CutOff(octet) => {
            push_octets(text, b"octet ");
            push_octets(text, Buffer::new().format(*octet).as_bytes());
            push_octets(text, b": sample is cut off");
        }
        SampleFault::TooMany => push_octets(text, b"too many samples"),
        SampleFault::Read => push_octets(text, b"read failed"),
        SampleFault::ReadsLimit => push_octets(text, b"too many reads"),
        SampleFault::Facts | SampleFault::Write(_) => push_octets(text, b"write failed"),
    }
}

/// Reports a fault, and returns the status.
pub(crate) fn fail<E: FaultWriter>(fault: &SampleFault, e: &mut E) -> u8
    ensures status { result ≡ 2 }
    ensures reports { Reports (E.contents e.old) (E.contents e.new) (E.has_failed e.new) (fault_line fault.now) }
{
    let mut text = ArrayVec::new();
    push_octets(&mut text, b"port1-sample: ");
    push_fault(&mut text, fault);
    text.push(b'\n');
    e.put(text.as_slice());
    FAULT
}
