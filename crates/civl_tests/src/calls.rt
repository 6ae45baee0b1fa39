// Calls that no command makes, and whether they answer what they have to.

use crate::exchanges::{
    failing_before_an_exchange, failing_on_the_way_to_the_front, moves_of_additions,
    neighbours_of_a_gate, neighbours_of_additions,
};
use crate::frames::{both_programs_fail, frames_before_and_inside_a_call};
use crate::logs::a_log_is_trimmed;
use crate::texts::base;
use std::alloc::Global;
use std::io;

/// Whether the calls with this name answer what they have to on a program.
fn hold(alloc: Global, name: &str, text: &str) -> Option<bool> {
    match name {
        "moves_of_additions" => moves_of_additions(alloc, text),
        "neighbours_of_additions" => neighbours_of_additions(alloc, text),
        "neighbours_of_a_gate" => neighbours_of_a_gate(alloc, text),
        "failing_before_an_exchange" => failing_before_an_exchange(alloc, text),
        "a_log_is_trimmed" => a_log_is_trimmed(alloc, text),
        "failing_on_the_way_to_the_front" => failing_on_the_way_to_the_front(alloc, text),
        "both_programs_fail" => both_programs_fail(alloc, text),
        "frames_before_and_inside_a_call" => frames_before_and_inside_a_call(alloc, text),
        _ => None,
    }
}

/// The line on the calls with this name, on the program of a file.
pub(crate) fn line_on_calls(rt: &HostRuntime, name: &str, file: &str) -> io::Result<String> {
    let text = base(rt, file)?;
    let told = match hold(rt.alloc(), name, text.as_str()) {
        Some(true) => "holds",
        Some(false) => "does not hold",
        None => "has no answer",
    };
    Ok(format!(in rt.alloc(); "{name}: {told}\n")?)
}
