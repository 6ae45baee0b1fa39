//! The cookbook, and cases that programs answer: each of them shows in the output.
//!
//! A design is data/NAME.civl, its broken twin data/NAME_broken.civl. Where the twin can fail, data/NAME_broken.schedule is the rest of a
//! script that begins with the twin's text. Of each design there are lines on what `civl` answers on it, on its twin, and on the schedule:
//! a name and the first line of the answer, or, of a schedule, the first two.
//!
//! Behind them is a line on each file of cases, data/cases/NAME.cases: texts with the reports that `civl`, `civl_explain` and `civl_lift`
//! give on them, devices and provers that fail, schedules that are lifted and replayed. How such a file is read, `cases` says; a row that
//! can't be read fails the run, with the file's name and the row's line. Lines on some files of such rows follow (data/cases/unread),
//! behind which the run goes on. At last there are lines on calls of the crates that no command makes: exchanges of moves, and frames of
//! threads.
#![tactic(auto)]

mod asking;
mod calls;
mod case;
mod cases;
mod exchanges;
mod faults;
mod frames;
mod lifted;
mod logs;
mod provers;
mod runs;
mod texts;
mod wanted;

use asking::{asked, report_of};
use calls::line_on_calls;
use case::Case;
use cases::{line, told_of};
use std::alloc::{AllocError, Global};
use std::{fs, io};

/// The designs, in the order of the book, each in a line.
const DESIGNS: &str = "\
tas
ttas
ticket_lock
array_lock
sleep_lock
readers_writer
peterson
bakery
seqlock
semaphore
barrier
once
reference_count
event_flags
ring
ticket_queue
treiber
bitmap
free_list
deque
two_phase_commit";

/// The files of cases, each in a line.
const CASES: &str = "\
words
usage_reads_nothing
programs
broken_rules
gates_guards_and_updates
initial_stores
procedures_threads_and_comments
first_faults
whole_texts
spinlocks
ranks
movers
a_pool_of_permissions
permissions_that_are_given
blocks_without_a_commit
wide_words_and_rows
choices_and_branches
division_and_signed_order
spawned_threads
limits_of_brackets
limits_of_threads
limits_of_bytes
limits_of_widths_and_locals
many_globals
fronts_of_the_flag_program
printed_programs
printed_texts
rules_on_names
rules_on_sorts
rules_on_layers
rules_on_linear
rules_on_yields
rules_that_are_kept
no_budget
usual_budget
greatest_budget
products
trials
flags_are_proved
reads_are_proved
goals_of_two_roots
goals_that_fail
owners_are_proved
wide_sums_are_proved
designs_are_proved
refusals_come_first
texts_are_read
tokens_at_fault
scripts_at_fault
schedules_of_the_flag_program
scripts_that_do_not_fit
schedules_of_additions
additions_that_are_lost
schedules_of_all_statements
an_accepted_program_that_fails
a_lock_that_fails_below_alone
a_counter_that_fails_below_alone
a_cell_that_fails_below_alone
a_flag_that_fails_twice
conditions_on_actions
conditions_on_flags
lines_of_surveys
a_permission_that_is_given
budgets_of_surveys
a_formula_weighs_too_much
formulas_at_the_limit
a_survey_is_cut_short
devices_fail_under_surveys
all_conditions_of_a_spinlock
conditions_of_a_spinlock_that_fail
certificates_of_the_flag_program
a_certificate_with_a_search
certificates_of_a_spinlock
conditions_by_number
certificates_by_hand
certificates_clause_by_clause
sizes_of_certificates
texts_of_certificates
bytes_of_certificates
each_read_fails
a_write_fails
rooms_are_too_small
rooms_of_plain_sinks
a_trial_reads_nothing
one_liar
liars_about_a_spinlock
many_liars
provers_that_are_left
scripts_are_answered
a_script_of_a_rejected_program
other_words_are_refused
blocks_are_gathered_and_completed
schedules_go_through_three_layers
waits_for_a_lock_are_lifted
choices_are_what_blocks_did
threads_that_are_started_are_lifted
blocks_that_go_on_are_told
stories_of_broken_designs
stories_of_a_spinlock
stories_of_tickets
stories_of_examples
stories_of_each_condition
stories_with_more_in_them
stories_of_all_conditions
stories_of_goals
stories_with_what_is_assumed
goals_with_what_is_assumed
stories_of_runs
stories_by_lines
slips_are_told
places_of_first_faults
places_of_broken_rules
reports_with_a_place_or_without
refusals_with_their_places
returns_at_line_ends
stories_and_devices
words_of_civl_explain
words_that_are_commands";

/// Files of cases with a row that can't be read.
const UNREAD: &str = "\
unread/a_name_of_no_case
unread/a_part_of_no_case
unread/a_part_too_few
unread/a_number_of_letters
unread/a_repeat_without_its_end
unread/nothing_is_wanted
unread/an_edit_of_another_text";

/// Calls that no command makes, each with the file of a program.
const CALLS: &[(&str, &str)] = &[
    ("moves_of_additions", "additions.civl"),
    ("neighbours_of_additions", "additions.civl"),
    ("neighbours_of_a_gate", "gated.civl"),
    ("failing_before_an_exchange", "clearing.civl"),
    ("failing_on_the_way_to_the_front", "clearing.civl"),
    ("a_log_is_trimmed", "redundant.certificate"),
    ("both_programs_fail", "gated.civl"),
    ("frames_before_and_inside_a_call", "gated.civl"),
];

/// The provers of the program `civl`.
const BOOK: Case<'static> = Case {
    head: "provers: probe splitter",
    row: "",
};

/// The line on these words and a text: the name, and the first lines of the answer.
fn answer(
    alloc: Global,
    name: &str,
    words: &str,
    text: &[u8],
    lines: usize,
) -> Result<String, AllocError> {
    let given = asked(alloc, BOOK, words, text)?;
    line(alloc, name, report_of(&given), lines)
}

/// The line on a program.
fn checked(rt: &HostRuntime, name: &str) -> io::Result<String> {
    let path = format!(in rt.alloc(); "{name}.civl")?;
    let text = fs::read(rt, path.as_str())?;
    Ok(answer(rt.alloc(), name, "check", text.as_slice(), 1)?)
}

/// The text of a program and the schedule behind it.
fn script(rt: &HostRuntime, program: &str, schedule: &str) -> io::Result<Vec<u8>> {
    let mut script = fs::read(rt, program)?;
    script.extend_from_slice(fs::read(rt, schedule)?.as_slice())?;
    Ok(script)
}

/// The line on the schedule of a program.
fn replayed(rt: &HostRuntime, name: &str) -> io::Result<String> {
    let path = format!(in rt.alloc(); "{name}.civl")?;
    let schedule = format!(in rt.alloc(); "{name}.schedule")?;
    let script = script(rt, path.as_str(), schedule.as_str())?;
    Ok(answer(
        rt.alloc(),
        schedule.as_str(),
        "run low",
        script.as_slice(),
        2,
    )?)
}

/// Writes a line that was made.
fn put(rt: &HostRuntime, line: io::Result<String>) -> io::Result<()> {
    let line = line?;
    print!(rt; "{line}")
}

/// Writes the lines of a design.
fn put_design(rt: &HostRuntime, design: &str) -> io::Result<()> {
    let broken = format!(in rt.alloc(); "{design}_broken")?;
    put(rt, checked(rt, design))?;
    put(rt, checked(rt, broken.as_str()))?;
    put(rt, replayed(rt, broken.as_str()))
}

/// Writes the lines of these designs.
fn put_designs(rt: &HostRuntime, designs: &str) -> io::Result<()> {
    for design in designs.split("\n") {
        put_design(rt, design)?;
    }
    Ok(())
}

/// Writes the line on a file of cases, and answers whether each row before it could be read.
fn put_file(rt: &HostRuntime, name: &str) -> io::Result<bool> {
    let told = told_of(rt, name)?;
    let line = told.line.as_str();
    print!(rt; "{line}")?;
    Ok(told.is_read)
}

/// Writes the lines on these files of cases. The first row that can't be read fails the run.
fn put_cases(rt: &HostRuntime, names: &str) -> io::Result<()> {
    for name in names.split("\n") {
        if !put_file(rt, name)? {
            return Err(io::Error::new(
                io::ErrorKind::InvalidData,
                "a row of a file of cases can't be read",
            ));
        }
    }
    Ok(())
}

/// Writes the lines on files whose rows can't be read, and passes on.
fn put_unread(rt: &HostRuntime, names: &str) -> io::Result<()> {
    for name in names.split("\n") {
        let _is_read = put_file(rt, name)?;
    }
    Ok(())
}

/// Writes the lines of these calls.
fn put_calls(rt: &HostRuntime, calls: &[(&str, &str)]) -> io::Result<()> {
    for (name, file) in calls {
        put(rt, line_on_calls(rt, name, file))?;
    }
    Ok(())
}

fn main(rt: HostRuntime) -> io::Result<()> {
    put_designs(&rt, DESIGNS)?;
    put_cases(&rt, CASES)?;
    put_unread(&rt, UNREAD)?;
    put_calls(&rt, CALLS)
}
