// Text on standard output.
use std::fmt::Display;
use test_cases::text::write;

// What is given, as text.
pub fn put<T: Display>(rt: &HostRuntime, shown: &T) {
    write(rt, b"test_numbers: cannot write to standard output", shown);
}
