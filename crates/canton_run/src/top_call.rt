//! The top call: words, a source and a sink in, a status and what was run out.
ghost use Rattle.std.specs.Prelude.{◌≡◌, ◌≢◌, ◌↔◌, ◌<◌, ◌≤◌, ◌*◌, List, [], ℕ, Some, None, Ok, All, length, take, IsErr};
ghost use Rattle.std.proofs.Common.{◌⊎◌};
ghost use Rattle.std.specs.Io.KnownBytes.{Appends};
ghost use Rattle.cli_words.specs.Jobs.{job_of};
ghost use Rattle.cli_words.specs.declared.job.Job.{Job};
ghost use Rattle.cli_words.specs.declared.job.Job.TheVariants.{Dump, Gen};
ghost use Rattle.cn_io.specs.Faults.{Rose};
ghost use Rattle.ledger_terms.specs.declared.limits.TheConstants.{MOST_PLACES, MOST_SCRIPT_BYTES, MOST_SUBMISSIONS};
ghost use Rattle.load_gen.specs.Generated.{generated};
ghost use Rattle.log_dump.specs.InRange.{IsBlock, IsTyped};
ghost use Rattle.script_read.specs.Kept.{IsAccepted};
ghost use Rattle.script_read.specs.Script.{script_in};
ghost use Rattle.script_read.specs.declared.script.Script.{Script};
ghost use Rattle.trigger_rules.specs.Answers.{CanAsk, GivesExercises, MayAnswer};
ghost use Rattle.canton_run.specs.Run.{IsRun};
ghost use Rattle.canton_run.specs.Jobs.{ReadsScript, capacity_of, text_of, workers_of};
ghost use Rattle.canton_run.specs.Ends.{AsksForScript, HasInput, IsJudgedYes, IsReadWhole, IsRunStatus, IsStatus, KeepsFault, NoReadFault};
ghost use Rattle.canton_run.specs.Ends.{OffersScript, Ran, RanNothing, ReadsFault, TakesAtMost, TakesUpTo};

use crate::audit_job::run_audit;
use crate::finish::{Finish, ended, finished};
use crate::given_script::GivenScript;
use crate::platform::Platform;
use crate::told_run::{ToldRun, told_run};
use crate::writing::write;
use cli_words::{Job, WordList, WordsFault, read_words};
use cn_io::{ReadFault, Sink, Source, read_all};
use lane_pool::Gate;
use lang_eval::NativeList;
use ledger_terms::limits::{MOST_PLACES, MOST_SCRIPT_BYTES};
use ledger_terms::{Bytes, Command, Known, Name};
use load_gen::{generate, generated_scripts_are_accepted};
use prepare_request::laws::prepared_requests_make_a_machine;
use script_read::{Script, ScriptFault, read_script};
use shared_rounds::Workers;
use std::alloc::{AllocError, AllocGlobal};
use std::random::RandomSource;
use std::sync::Wait;
use std::thread::Threads;
use trigger_rules::{Answering, Closure};

// How many lanes work beside the clients of a round.
fn workers_of(job: Job) -> u32
    ensures { result ≡ workers_of job }
{
    match job {
        Job::Run { workers, .. } | Job::Gen { workers, .. } => workers,
        Job::Commitments { workers, .. } | Job::Dump { workers, .. } => workers,
        Job::Audit => 0,
    }
}

/// Runs the script and writes the text of the job. The text is made whole before anything of it is written.
fn carry_out<
    R: Threads + Wait + Sync + RandomSource + AllocGlobal,
    G: Gate + Sync,
    K: Sink,
    A: Answering,
>(
    workers: &Workers<'_, R, G>,
    natives: &NativeList,
    job: Job,
    given: GivenScript,
    sink: &mut K,
    answer: A,
) -> Finish
    requires accepted { IsAccepted given.script }
    requires short { length given.bytes ≤ MOST_SCRIPT_BYTES }
    requires room { capacity_of job ≤ MOST_PLACES }
    requires askable { A.can_ask answer }
    requires exercises { GivesExercises (A.may_answer answer) }
    ensures status { (result.status ≡ 0) ⊎ ((result.status ≡ 5) ⊎ (result.status ≡ 70)) }
    ensures fault { result.fault ≡ None }
    ensures memory { result.status ≡ 70 → RanNothing (K.held sink.old) (K.held sink.new) result }
    ensures ran { result.status ≢ 70
        → IsRun (A.may_answer answer) given.script (capacity_of job) workers.now.count result.log result.results result.ends result.caused }
    ensures done { result.status ≡ 0 → Appends (K.held sink.old) (K.held sink.new) (text_of job given.bytes given.script result) }
    ensures cut { result.status ≡ 5 → (n : ℕ) × Appends (K.held sink.old) (K.held sink.new) (take n (text_of job given.bytes given.script result)) }
    ensures rose { result.status ≡ 5 → Rose (K.faults sink.old) (K.faults sink.new) }
    ensures sure { result.status ≡ 5 → K.room sink.old < length (text_of job given.bytes given.script result) }
    ensures count { K.faults sink.old ≤ K.faults sink.new }
    ensures spelled { (count log : ℕ) → job ≡ Dump count log → result.status ≢ 70 → IsBlock given.bytes × All IsTyped result.log }
{
    let Ok(run) = told_run(workers, natives, job, given, answer) else {
        return ended(workers.alloc, 70, None);
    };
    let ToldRun { record, text, left } = run;
    finished(write(sink, text.as_slice()), record, left)
}

// Reads a script from the source and runs it.
fn run_source<
    R: Threads + Wait + Sync + RandomSource + AllocGlobal,
    G: Gate + Sync,
    S: Source,
    K: Sink,
    A: Answering,
>(
    workers: &Workers<'_, R, G>,
    natives: &NativeList,
    job: Job,
    source: &mut S,
    sink: &mut K,
    answer: A,
) -> Finish
    requires room { capacity_of job ≤ MOST_PLACES }
    requires askable { A.can_ask answer }
    requires exercises { GivesExercises (A.may_answer answer) }
    ensures status { IsRunStatus result.status }
    ensures script { result.status ≡ 3 → ReadsFault (S.left source.old) (S.left source.new) result }
    ensures kept { result.status ≢ 3 → result.fault ≡ None }
    ensures read { result.status ≡ 4 → Rose (S.faults source.old) (S.faults source.new) }
    ensures write { result.status ≡ 5 → Rose (K.faults sink.old) (K.faults sink.new) }
    ensures taken { (bytes : List ℕ) × TakesAtMost MOST_SCRIPT_BYTES (S.left source.old) (S.left source.new) result.status bytes }
    ensures nothing { result.status ≢ 0 → result.status ≢ 5 → RanNothing (K.held sink.old) (K.held sink.new) result }
    ensures done { result.status ≡ 0 → (bytes : List ℕ) × (script : Script) × ReadsScript (S.left source.old) (S.left source.new) bytes script
        × IsRun (A.may_answer answer) script (capacity_of job) workers.now.count result.log result.results result.ends result.caused
        × Appends (K.held sink.old) (K.held sink.new) (text_of job bytes script result) }
    ensures cut { result.status ≡ 5 → (bytes : List ℕ) × (script : Script) × ReadsScript (S.left source.old) (S.left source.new) bytes script
        × IsRun (A.may_answer answer) script (capacity_of job) workers.now.count result.log result.results result.ends result.caused
        × (K.room sink.old < length (text_of job bytes script result))
        × ((n : ℕ) × Appends (K.held sink.old) (K.held sink.new) (take n (text_of job bytes script result))) }
    ensures judged { (count log : ℕ) → job ≡ Dump count log → result.status ≡ 0
        → (dump : List ℕ) × Appends (K.held sink.old) (K.held sink.new) dump × IsJudgedYes result dump }
    ensures count { (S.faults source.old ≤ S.faults source.new) × (K.faults sink.old ≤ K.faults sink.new) }
    ensures faulty { (bytes : List ℕ) → S.left source.old ≡ Some bytes → IsReadWhole result.status
        → (result.status ≡ 3 ↔ IsErr (script_in bytes)) }
    ensures complete { OffersScript (S.left source.old) → ¬ Rose (S.faults source.old) (S.faults source.new)
        → ¬ Rose (K.faults sink.old) (K.faults sink.new) → (result.status ≡ 0) ⊎ (result.status ≡ 70) }
{
    // the prover learns from this call that there is a machine
    prepared_requests_make_a_machine();
    let alloc = workers.alloc;
    match read_all(alloc, source, MOST_SCRIPT_BYTES) {
        Ok(bytes) => match read_script(alloc, bytes.as_slice()) {
            Ok(script) => {
                let given = GivenScript { script, bytes };
                carry_out(workers, natives, job, given, sink, answer)
            }
            Err(ScriptFault::Memory) => ended(alloc, 70, None),
            Err(fault) => ended(alloc, 3, Some(fault)),
        },
        Err(ReadFault::Failed) => ended(alloc, 4, None),
        Err(ReadFault::TooLong) => ended(alloc, 6, None),
        Err(ReadFault::Memory) => ended(alloc, 70, None),
    }
}

// Runs a generated script. Nothing is read.
fn run_generated<
    R: Threads + Wait + Sync + RandomSource + AllocGlobal,
    G: Gate + Sync,
    K: Sink,
    A: Answering,
>(
    workers: &Workers<'_, R, G>,
    natives: &NativeList,
    count: u32,
    seed: u64,
    sink: &mut K,
    answer: A,
) -> Finish
    requires few { 2 * count ≤ MOST_SUBMISSIONS }
    requires askable { A.can_ask answer }
    requires exercises { GivesExercises (A.may_answer answer) }
    ensures status { (result.status ≡ 0) ⊎ ((result.status ≡ 5) ⊎ (result.status ≡ 70)) }
    ensures fault { result.fault ≡ None }
    ensures memory { result.status ≡ 70 → RanNothing (K.held sink.old) (K.held sink.new) result }
    ensures ran { result.status ≢ 70
        → IsRun (A.may_answer answer) (generated seed count) MOST_PLACES workers.now.count result.log result.results result.ends result.caused }
    ensures done { (n : ℕ) → result.status ≡ 0
        → Appends (K.held sink.old) (K.held sink.new) (text_of (Gen count seed n) [] (generated seed count) result) }
    ensures cut { (n : ℕ) → result.status ≡ 5
        → (some : ℕ) × Appends (K.held sink.old) (K.held sink.new) (take some (text_of (Gen count seed n) [] (generated seed count) result)) }
    ensures rose { result.status ≡ 5 → Rose (K.faults sink.old) (K.faults sink.new) }
    ensures sure { (n : ℕ) → result.status ≡ 5 → K.room sink.old < length (text_of (Gen count seed n) [] (generated seed count) result) }
    ensures count { K.faults sink.old ≤ K.faults sink.new }
{
    generated_scripts_are_accepted();
    let alloc = workers.alloc;
    let job = Job::Gen {
        count,
        seed,
        workers: workers.count,
    };
    match generate(alloc, count, seed) {
        Ok(script) => {
            let bytes = Bytes::new(alloc);
            let given = GivenScript { script, bytes };
            carry_out(workers, natives, job, given, sink, answer)
        }
        Err(_) => ended(alloc, 70, None),
    }
}

/// Does the job that `words` ask for, from `source` to `sink`, and gives the status with the record of what was run; memory comes from the words'
/// allocator. Without workers one thread does all the work and passes no gate. The thread that plays the rounds, and no worker, asks `natives`. `rule`
/// is given a rule's name and an active contract, and answers the command that the rule submits, or None where it doesn't fire.
pub fn run<
    R: Threads + Wait + Sync + RandomSource + AllocGlobal,
    G: Gate + Sync,
    S: Source,
    K: Sink,
    F: Fn(Name, &Known) -> Result<Option<Command>, AllocError> + Drop,
>(
    platform: &Platform<'_, R, G>,
    words: &WordList,
    source: &mut S,
    sink: &mut K,
    natives: NativeList,
    rule: F,
) -> Finish
    requires askable { CanAsk (F.pre rule) }
    requires exercises { GivesExercises (MayAnswer (F.post rule)) }
    ensures status { IsStatus result.status }
    ensures words { result.status ≢ 70 → (result.status ≡ 2 ↔ job_of words.now ≡ None) }
    ensures script { result.status ≡ 3 → KeepsFault words.now (S.left source.old) (S.left source.new) result }
    ensures kept { result.status ≢ 3 → result.fault ≡ None }
    ensures read { result.status ≡ 4 → Rose (S.faults source.old) (S.faults source.new) }
    ensures write { result.status ≡ 5 → Rose (K.faults sink.old) (K.faults sink.new) }
    ensures taken { TakesUpTo words.now (S.left source.old) (S.left source.new) result }
    ensures nothing { result.status ≢ 0 → result.status ≢ 5 → RanNothing (K.held sink.old) (K.held sink.new) result }
    ensures done { result.status ≡ 0 → (text : List ℕ) × Ran (MayAnswer (F.post rule)) words.now (S.left source.old) (S.left source.new) result text
        × Appends (K.held sink.old) (K.held sink.new) text }
    ensures cut { result.status ≡ 5 → (text : List ℕ) × Ran (MayAnswer (F.post rule)) words.now (S.left source.old) (S.left source.new) result text
        × (K.room sink.old < length text) × ((n : ℕ) × Appends (K.held sink.old) (K.held sink.new) (take n text)) }
    ensures count { (S.faults source.old ≤ S.faults source.new) × (K.faults sink.old ≤ K.faults sink.new) }
    ensures faulty { (bytes : List ℕ) → S.left source.old ≡ Some bytes → AsksForScript words.now → IsReadWhole result.status
        → (result.status ≡ 3 ↔ IsErr (script_in bytes)) }
    ensures judged { (count log : ℕ) → job_of words.now ≡ Some (Dump count log) → result.status ≡ 0
        → (dump : List ℕ) × Appends (K.held sink.old) (K.held sink.new) dump × IsJudgedYes result dump }
    ensures complete { (job : Job) → job_of words.now ≡ Some job → HasInput job (S.left source.old)
        → NoReadFault job (S.faults source.old) (S.faults source.new) → ¬ Rose (K.faults sink.old) (K.faults sink.new)
        → (result.status ≡ 0) ⊎ (result.status ≡ 70) }
{
    let alloc = *words.allocator();
    let answer = Closure { call: rule };
    match read_words(alloc, words) {
        Ok(job) => {
            let workers = Workers {
                rt: platform.rt,
                gate: platform.gate,
                alloc,
                count: workers_of(job),
            };
            match job {
                Job::Gen { count, seed, .. } => run_generated(
                    &workers, &natives, count, seed, sink, answer,
                ),
                Job::Audit => run_audit(alloc, source, sink),
                _ => run_source(&workers, &natives, job, source, sink, answer),
            }
        }
        Err(WordsFault::Usage) => ended(alloc, 2, None),
        Err(WordsFault::Memory) => ended(alloc, 70, None),
    }
}
