// Document 01's numbers that are run and compared: the cases of each call one after the other, and a line for each.
#![tactic(auto)]

mod calls;
mod patches;
mod settings;
mod text;

// The setting call, the field calls and encode, one after the other.
fn main(rt: HostRuntime) {
    settings::run(&rt);
    calls::run(&rt);
    patches::run(&rt);
}
