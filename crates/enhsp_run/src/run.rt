//! The top call.

ghost use Rattle.std.specs.Prelude.{◌≡◌, ◌≤◌, ◌⊎◌, ℕ, List, map, string_bytes};
ghost use Rattle.std.specs.Io.KnownBytes.{Appends};
ghost use Rattle.edge_io.specs.Causes.{Rose};
ghost use Rattle.enhsp_words.specs.declared.job.Job.{Job};
ghost use Rattle.whole_files.specs.Seen.{saw};
ghost use Rattle.enhsp_run.specs.Answers.{IsAnswer};
ghost use Rattle.enhsp_run.specs.Ends.{EndsWith, FailsAtSink, IsAccepted, LacksMemory};
ghost use Rattle.enhsp_run.specs.Told.{Told, ended};

use crate::answers::answer;
use crate::ended::Ended;
use crate::sending::{end_without_memory, send};
use edge_io::{Files, Sink};
use num_ends::NoMemory;
use std::alloc::Global;

/// Does all that the program does, on one thread: reads the words, reads the files that they name,
/// writes the answer and gives the status.
///
/// Where files and sink tell their bytes, the clauses say what is told when, and what it claims.
pub fn run_alone<F: Files, S: Sink>(
    alloc: Global,
    words: &[String],
    files: &mut F,
    sink: &mut S,
) -> Ended
    ensures known { result.status ≤ 8 }

    // The bytes written are the whole text of what may be told. Its status is given, and the record of its search.
    ensures answered { result.status ≤ 6 → (told : Told)
        × IsAnswer (saw F.Files files.old files.new) (map string_bytes words.now) told
        × (result ≡ ended told)
        × Appends (S.written sink.old) (S.written sink.new) told.text
        × (S.faults sink.new ≡ S.faults sink.old) }

    // A job against whose files no reason stands ends as its command does, unless a fault of files or sink comes, or memory is wanting.
    ensures ends { (job : Job) (texts : List (List ℕ)) → IsAccepted (F.told files.old) (map string_bytes words.now) job texts
        → (Rose (F.faults files.old) (F.faults files.new) → ⊥)
        → (result.status ≡ 7) ⊎ (result.status ≡ 8) ⊎ EndsWith job texts result.status }

    // A fault of the sink leaves less than the text of what may be told, or than the line on memory: a front of it.
    ensures sink_fault { result.status ≡ 7 → Rose (S.faults sink.old) (S.faults sink.new) }
    ensures cut { result.status ≡ 7 → FailsAtSink (IsAnswer (saw F.Files files.old files.new) (map string_bytes words.now))
        (S.written sink.old) (S.written sink.new) result.found }

    // Where there was no memory, no fault came from files or sink.
    ensures no_memory { result.status ≡ 8 → (F.faults files.new ≡ F.faults files.old) × (S.faults sink.new ≡ S.faults sink.old)
        × LacksMemory (IsAnswer (saw F.Files files.old files.new) (map string_bytes words.now))
        (S.written sink.old) (S.written sink.new) result.found }
{
    match answer(alloc, words, files) {
        Ok(outcome) => send(alloc, outcome, sink),
        Err(NoMemory) => end_without_memory(sink),
    }
}
