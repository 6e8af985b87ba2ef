//! The texts of worked dictionaries.

/// Made up: no cabinet has these types. The longest frame has three octets.
pub const CALLS: &str = "version = 1
[[frame]]
type = 0
name = \"call\"
length = 0
answered = true
[[frame]]
type = 128
name = \"reply\"
length = 0
[[frame]]
type = 9
name = \"notice\"
length = 0
";

/// Made up: no cabinet has these types.
pub const POLLS: &str = "version = 1
[[frame]]
type = 1
name = \"poll\"
length = 1
answered = true
[[frame]]
type = 129
name = \"state\"
length = 2
bits = [ { at = 9, name = \"flash\" }, { at = 0, name = \"call1\" }, { at = 7, name = \"ped\" } ]
";

/// The first with a window of sixteen bits.
pub const WITHIN: &str = "version = 2
[[frame]]
type = 0
name = \"call\"
length = 0
answered = true
window = 16
[[frame]]
type = 128
name = \"reply\"
length = 0
";

/// The dictionary of this name.
pub(super) fn dictionary_named(name: &str) -> &'static str {
    match name {
        "polls" => POLLS,
        "within" => WITHIN,
        _ => CALLS,
    }
}
