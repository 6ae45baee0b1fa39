// The top call.
ghost use Rattle.std.specs.Prelude.{◌≡◌, ◌⊎◌, map, string_bytes};
ghost use Rattle.civl_frontend.specs.Streams.{reading, writing};
ghost use Rattle.civl_explain_command.specs.Tasks.{AskForSome, AskProvers};
ghost use Rattle.civl_explain_command.specs.Judge.{IsExplained};
ghost use Rattle.civl_explain_command.specs.Promises.{Promises};

use crate::judge::judge;
use civl_frontend::Status;
use civl_outside::{Sent, Sink, Source, write_all};
use civl_portfolio::Prover;
use std::alloc::Global;

/// Judges the words and the input, and writes the report.
fn respond<S: Source, K: Sink>(
    alloc: Global,
    words: &Vec<String>,
    source: &mut S,
    sink: &mut K,
    provers: &mut Vec<Box<dyn Prover>>,
) -> Status
    ensures explains { IsExplained (record {
      words = map string_bytes words.now.items;
      source = reading (S.left source.old) (S.faults source.old);
      source_after = reading (S.left source.new) (S.faults source.new);
      sink = writing (K.written sink.old) (K.faults sink.old) (K.stalls sink.old);
      sink_after = writing (K.written sink.new) (K.faults sink.new) (K.stalls sink.new);
      status = result;
    }) }
    ensures unread { (AskForSome (map string_bytes words.now.items) → ⊥) → source.new ≡ source.old }
    ensures unwritten { (result ≡ Status.ReadFault) ⊎ (result ≡ Status.Memory) → sink.new ≡ sink.old }
    ensures unasked { (AskProvers (map string_bytes words.now.items) → ⊥) → provers.new ≡ provers.old }
{
    let judged = judge(alloc, words, source, provers);
    match write_all(sink, judged.report.as_slice()) {
        Sent::All => judged.status,
        Sent::Failed => Status::WriteFault,
        Sent::Stuck => Status::WriteFault,
    }
}

/// Does what the words after the program's name say: reads the input from the source, and writes one report to the sink.
///
/// The words are `check`, `conditions` or `prove`, each with `--budget N` or without, or `run low` or `run top`, as `clap` reads them
/// (`civl_explain_words`), and `--lines` with each of them or not. What is found of the input is what `command` of civl_command finds of it, with
/// the same status. The report is that of `command`, and with it stands: where a text is refused, the place as line and column, what is
/// wrong there and the line with a caret, and for a token that can't stand there all that may; under a condition that fails its
/// story, line by line with places; and under `run` the moves one by one before the report. With `--lines` each of these lines is
/// `line:column: kind: text`, as editors read them.
///
/// The whole input is read before anything is written, up to 1,048,576 bytes and one more, and the report is made whole before its first
/// byte is written. The provers are asked under `check`, `conditions` and `prove` alone.
///
/// # Answers
///
/// The statuses are those of `command`, for the same causes; [`Status::Usage`] where the words ask for nothing.
pub fn explain_command<S: Source, K: Sink>(
    alloc: Global,
    words: &Vec<String>,
    source: &mut S,
    sink: &mut K,
    provers: &mut Vec<Box<dyn Prover>>,
) -> Status
    // What is so of the words, of the streams as far as they tell their bytes, and of the status.
    ensures promises { Promises (record {
      words = map string_bytes words.now.items;
      source = reading (S.left source.old) (S.faults source.old);
      source_after = reading (S.left source.new) (S.faults source.new);
      sink = writing (K.written sink.old) (K.faults sink.old) (K.stalls sink.old);
      sink_after = writing (K.written sink.new) (K.faults sink.new) (K.stalls sink.new);
      status = result;
    }) }

    // Of the values themselves: words that ask for nothing leave the source as it is, even where the usage line can't be written; a failed
    // read and want of memory leave the sink; and words other than those of `check`, `conditions` and `prove` leave the provers.
    ensures unread { (AskForSome (map string_bytes words.now.items) → ⊥) → source.new ≡ source.old }
    ensures unread_usage { result ≡ Status.Usage → source.new ≡ source.old }
    ensures unwritten { (result ≡ Status.ReadFault) ⊎ (result ≡ Status.Memory) → sink.new ≡ sink.old }
    ensures unasked { (AskProvers (map string_bytes words.now.items) → ⊥) → provers.new ≡ provers.old }
{
    respond(alloc, words, source, sink, provers)
}
