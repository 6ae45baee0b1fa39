// The top call.
ghost use Rattle.std.specs.Prelude.{◌≡◌, ◌⊎◌, map, string_bytes};
ghost use Rattle.civl_frontend.specs.Streams.{reading, writing};
ghost use Rattle.civl_lift_command.specs.Words.{AskToLiftSome};
ghost use Rattle.civl_lift_command.specs.Judge.{Explains};
ghost use Rattle.civl_lift_command.specs.Promises.{Promises};

use crate::judge::judge;
use civl_frontend::Status;
use civl_outside::{Sent, Sink, Source, write_all};
use civl_reduction::simulation::laws::accepted_programs_preserve;
use std::alloc::Global;

/// Judges the words and the input, and writes the report.
fn respond<S: Source, K: Sink>(
    alloc: Global,
    words: &Vec<String>,
    source: &mut S,
    sink: &mut K,
) -> Status
    ensures explains { Explains (record {
      words = map string_bytes words.now.items;
      source = reading (S.left source.old) (S.faults source.old);
      source_after = reading (S.left source.new) (S.faults source.new);
      sink = writing (K.written sink.old) (K.faults sink.old) (K.stalls sink.old);
      sink_after = writing (K.written sink.new) (K.faults sink.new) (K.stalls sink.new);
      status = result;
    }) }
    ensures unread { (AskToLiftSome (map string_bytes words.now.items) → ⊥) → source.new ≡ source.old }
    ensures unwritten { (result ≡ Status.ReadFault) ⊎ (result ≡ Status.Memory) → sink.new ≡ sink.old }
{
    let judged = judge(alloc, words, source);
    match write_all(sink, judged.report.as_slice()) {
        Sent::All => judged.status,
        Sent::Failed => Status::WriteFault,
        Sent::Stuck => Status::WriteFault,
    }
}

/// Does what the words after the program's name say: reads a script from the source, lifts its schedule, and writes one report to the sink.
///
/// The words are `lift`, or `lift --budget N`, with N a number of at most 10,000,000 in decimal without leading zeros: so many clauses each
/// search may learn, and 200,000 where the words don't say. The input is a script: a program, the values of its globals and moves. There is
/// a verdict on the program, as under `check` of `civl_command`, with no provers but the search. Where it is accepted, the store is initial
/// and the moves run from it in the lowest program to a failing configuration, they are lifted: to at most as many moves that run from that
/// store in the topmost program to a failing configuration. The report has these moves, and the least thread that fails at their end.
///
/// The whole input is read before anything is written, up to 1,048,576 bytes and one more, and the report is made whole before its first
/// byte is written.
///
/// # Answers
///
/// - [`Status::Done`]: the moves were lifted.
/// - [`Status::Rejected`]: a condition of the program doesn't hold.
/// - [`Status::Undecided`]: the search for an initial store of the program, or for values that violate one of its conditions, learned as
///   many clauses as it may; or a block, which the lifted moves leave unfinished, isn't ended by 1,000,000 further steps of its thread.
/// - [`Status::Refused`]: the input is too long, or is no script; its program breaks a static rule, a formula weighs too much, or no store is
///   initial; the store or the moves don't fit, the store isn't initial, or the moves don't run to a failing configuration.
/// - [`Status::Usage`]: the words are others. Nothing is read, and the line on usage is written.
/// - [`Status::ReadFault`]: the source failed. Nothing is written.
/// - [`Status::WriteFault`]: the sink failed, or took nothing more. A first part of the report is written.
/// - [`Status::Memory`]: memory is wanting. Nothing is written.
pub fn lift_command<S: Source, K: Sink>(
    alloc: Global,
    words: &Vec<String>,
    source: &mut S,
    sink: &mut K,
) -> Status
    // What is so of the words, of the streams as far as they tell their bytes, and of the status.
    ensures promises { Promises (record {
      words = map string_bytes words.now.items;
      source = reading (S.left source.old) (S.faults source.old);
      source_after = reading (S.left source.new) (S.faults source.new);
      sink = writing (K.written sink.old) (K.faults sink.old) (K.stalls sink.old);
      sink_after = writing (K.written sink.new) (K.faults sink.new) (K.stalls sink.new);
      status = result;
    }) }

    // Of the values themselves: words that don't ask for lifting leave the source as it is, even where the usage line can't be written;
    // a failed read and want of memory leave the sink.
    ensures unread { (AskToLiftSome (map string_bytes words.now.items) → ⊥) → source.new ≡ source.old }
    ensures unread_usage { result ≡ Status.Usage → source.new ≡ source.old }
    ensures unwritten { (result ≡ Status.ReadFault) ⊎ (result ≡ Status.Memory) → sink.new ≡ sink.old }
{
    // The law on which `lifted` and `undecided` rest, beside the contract of `lift`. It computes nothing.
    accepted_programs_preserve();
    respond(alloc, words, source, sink)
}
