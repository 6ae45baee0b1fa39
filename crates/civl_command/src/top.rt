// The top call.
ghost use Rattle.std.specs.Prelude.{◌≡◌, ◌⊎◌, map, string_bytes};
ghost use Rattle.civl_frontend.specs.Streams.{reading, writing};
ghost use Rattle.civl_command.specs.Tasks.{AskForSome, AskProvers};
ghost use Rattle.civl_command.specs.Judge.{Explains};
ghost use Rattle.civl_command.specs.Promises.{Promises};

use crate::judge::judge;
use civl_frontend::Status;
use civl_outside::{Sent, Sink, Source, write_all};
use civl_portfolio::Prover;
use civl_reduction::simulation::laws::accepted_programs_preserve;
use civl_safety::laws::lowest_is_safe;
use std::alloc::Global;

/// Judges the words and the input, and writes the report.
fn respond<S: Source, K: Sink>(
    alloc: Global,
    words: &Vec<String>,
    source: &mut S,
    sink: &mut K,
    provers: &mut Vec<Box<dyn Prover>>,
) -> Status
    ensures explains { Explains (record {
      words = map string_bytes words.now.items;
      source = reading (S.left source.old) (S.faults source.old);
      source_after = reading (S.left source.new) (S.faults source.new);
      sink = writing (K.written sink.old) (K.faults sink.old) (K.stalls sink.old);
      sink_after = writing (K.written sink.new) (K.faults sink.new) (K.stalls sink.new);
      status = result;
    }) }
    ensures unread { (AskForSome (map string_bytes words.now.items) → ⊥) → source.new ≡ source.old }
    ensures unwritten { (result ≡ Status.ReadFault) ⊎ (result ≡ Status.Memory) → sink.new ≡ sink.old }
    ensures unasked { (AskProvers (map string_bytes words.now.items) → ⊥) → provers.new ≡ provers.old }
{
    let judged = judge(alloc, words, source, provers);
    match write_all(sink, judged.report.as_slice()) {
        Sent::All => judged.status,
        Sent::Failed => Status::WriteFault,
        Sent::Stuck => Status::WriteFault,
    }
}

/// Does what the words after the program's name say: reads the input from the source, and writes one report to the
/// sink.
///
/// The words are `check`, `conditions`, `fmt`, `run low`, `run top`, `trial N`, `prove`, `proof make` or `proof replay`, as `clap` reads
/// them (`civl_words`). Under `check` there is a verdict on the program that the input spells, under `conditions` it is told of each of its
/// conditions whether it holds, under `fmt` its canonical text is written, and under `run` the schedule of a script is replayed on its
/// lowest or its topmost program. Under `trial` nothing is read: the trial program of N copies, from 1 to 8, is printed, and its text is
/// judged as by `check`. Under `prove` the input is an outline: a program, an invariant of its topmost program and notes before statements
/// of its roots. There is a verdict on the program, and where it is accepted, the goals of the outline are decided; where all hold, no
/// interleaving of the lowest program fails. Under `proof make` one condition of the program that the input spells is told, that with the number behind
/// `--at`, or else the first: where it holds, by a certificate, which is a clause set that stands for its violation and a lean log that
/// refutes it. Under `proof replay` the log of a certificate is replayed.
///
/// Behind `check`, `conditions`, `prove` and `proof make` may stand `--budget N`, a number of at most 10,000,000: so many clauses each search may
/// learn, and 200,000 where the words don't say. The whole input is read before anything is written, up to 1,048,576 bytes, or 67,108,864
/// of a certificate, and one more, and the report is made whole before its first byte is written. The provers are asked under `check`,
/// `conditions`, `trial`, `prove` and `proof make` alone. In which order, and which are dropped, `ask` of civl_portfolio says of each
/// round, and no clause here.
///
/// # Answers
///
/// - [`Status::Done`]: the program is accepted, its conditions were told, or one of them, it was printed, all goals of the outline hold, or the
///   schedule or the certificate was replayed.
/// - [`Status::Rejected`]: a condition of the program that is checked, tried or outlined doesn't hold, or a goal of the outline.
/// - [`Status::Undecided`]: whether a store of the program that is checked, tried or outlined is initial, or whether values violate one of
///   its conditions or of the outline's goals, is open: a log spends the budget on clauses that stand for it.
/// - [`Status::Refused`]: the input is too long, or is no program, script or outline; its program breaks a static rule; a formula weighs too
///   much, no condition has the number, no store is initial, or what a script or an outline says doesn't fit its program; or it is no
///   certificate.
/// - [`Status::Usage`]: the words are no command. Nothing is read, and the line on usage is written.
/// - [`Status::ReadFault`]: the source failed. Nothing is written.
/// - [`Status::WriteFault`]: the sink failed, or took nothing more. A first part of the report is written.
/// - [`Status::Memory`]: memory is wanting. Nothing is written; and nothing is read where it was wanting at the words.
pub fn command<S: Source, K: Sink>(
    alloc: Global,
    words: &Vec<String>,
    source: &mut S,
    sink: &mut K,
    provers: &mut Vec<Box<dyn Prover>>,
) -> Status
    // What is so of the words, of the streams as far as they tell their bytes, and of the status.
    ensures promises { Promises (record {
      words = map string_bytes words.now.items;
      source = reading (S.left source.old) (S.faults source.old);
      source_after = reading (S.left source.new) (S.faults source.new);
      sink = writing (K.written sink.old) (K.faults sink.old) (K.stalls sink.old);
      sink_after = writing (K.written sink.new) (K.faults sink.new) (K.stalls sink.new);
      status = result;
    }) }

    // Of the values themselves: words that ask for nothing of an input leave the source as it is, even where the usage line can't be
    // written; a failed read and want of memory leave the sink; and words other than those of `check`, `conditions`, `trial`, `prove`
    // and `proof make` leave the provers.
    ensures unread { (AskForSome (map string_bytes words.now.items) → ⊥) → source.new ≡ source.old }
    ensures unread_usage { result ≡ Status.Usage → source.new ≡ source.old }
    ensures unwritten { (result ≡ Status.ReadFault) ⊎ (result ≡ Status.Memory) → sink.new ≡ sink.old }
    ensures unasked { (AskProvers (map string_bytes words.now.items) → ⊥) → provers.new ≡ provers.old }
{
    // The laws on which `preserved`, `accepted` and `safe` rest. They compute nothing.
    accepted_programs_preserve();
    lowest_is_safe();
    respond(alloc, words, source, sink, provers)
}
