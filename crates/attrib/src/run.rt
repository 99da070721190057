ghost use Rattle.std.specs.Prelude.{◌≡◌, ◌≢◌, ◌⊎◌, ◌≤◌, ℕ, Err, IfOk, IsOk, List, None, Some, length, map};
ghost use Rattle.std.specs.String.{string_bytes};
ghost use Rattle.attr_io.specs.Outside.{Rose, Wrote};
ghost use Rattle.attr_io.specs.Transfer.{GaveAtMost, WrotePart};
ghost use Rattle.attr_io.specs.declared.transfer.ReadStop.TheVariants as stopped;
ghost use Rattle.command_line.specs.Command.{InBounds, IsAsked, IsRefused, usage_line};
ghost use Rattle.command_line.specs.declared.asked.Asked.{Asked as TheAsked};
ghost use Rattle.accept.specs.Causes.{IsCause};
ghost use Rattle.accept.specs.declared.refusal.Refusal.{Refusal as TheRefusal};
ghost use Rattle.attrib.specs.Annotated.{IsAccepted, IsAnnotated};
ghost use Rattle.attrib.specs.Run as spec;

use crate::annotation::annotate;
use crate::lines::refusal_line;
use accept::Refusal;
use attr_ids::{Status, Text};
use attr_io::{Gate, ReadStop, Sink, Source, WriteEnd, read_all, write_all};
use attr_make::make;
use command_line::{Asked, CommandRefusal, USAGE, command};
use ir_token::MAX_BYTES;
use std::alloc::Global;
use std::thread::Threads;

/// Writes the line of a status, and answers the status; where the line can't be written, a fault of
/// writing, except that a want of memory stays what it is.
fn end_with<E: Sink>(errs: &mut E, line: &[u8], status: Status) -> Status
    ensures ends { spec.EndsWith status line.now result (E.stream errs.old) (E.stream errs.new) }
    ensures complete { ¬ Rose (E.stream errs.old) (E.stream errs.new) → result ≡ status }
{
    match write_all(errs, line) {
        WriteEnd::Done => status,
        WriteEnd::Failed => match status {
            Status::NoMemory => Status::NoMemory,
            _ => Status::WriteFault,
        },
    }
}

/// Says why reading stopped.
fn end_reading<E: Sink>(errs: &mut E, stop: ReadStop) -> Status
    ensures failed { stop ≡ ReadStop.Failed → spec.EndsWith Status.ReadFault spec.read_line result (E.stream errs.old) (E.stream errs.new) }
    ensures large { stop ≡ ReadStop.TooLarge → spec.EndsWith Status.Refused spec.bytes_line result (E.stream errs.old) (E.stream errs.new) }
    ensures memory { stop ≡ ReadStop.NoMemory → spec.EndsWith Status.NoMemory spec.memory_line result (E.stream errs.old) (E.stream errs.new) }
{
    match stop {
        ReadStop::Failed => end_with(errs, b"attrib: read failed\n", Status::ReadFault),
        ReadStop::TooLarge => end_with(
            errs,
            b"attrib: too large: Bytes 67108865\n",
            Status::Refused,
        ),
        ReadStop::NoMemory => end_with(errs, b"attrib: out of memory\n", Status::NoMemory),
    }
}

/// Writes the annotated text.
fn print<O: Sink, E: Sink>(out: &mut O, errs: &mut E, text: &[u8]) -> Status
    ensures done { result ≡ Status.Done → Wrote (O.stream out.old) (O.stream out.new) text.now × (errs.new ≡ errs.old) }
    ensures fault { result ≢ Status.Done → (result ≡ Status.WriteFault) × Rose (O.stream out.old) (O.stream out.new)
        × WrotePart (O.stream out.old) (O.stream out.new) text.now × spec.Says (E.stream errs.old) (E.stream errs.new) spec.write_line }
{
    match write_all(out, text) {
        WriteEnd::Done => Status::Done,
        WriteEnd::Failed => end_with(errs, b"attrib: write failed\n", Status::WriteFault),
    }
}

/// Writes the line of a refusal of this text.
fn refuse<E: Sink>(alloc: Global, text: &[u8], refusal: &Refusal, errs: &mut E) -> Status
    requires { IsCause text.now refusal.now }
    ensures refused { result ≡ Status.Refused → (line : List ℕ) × spec.RefusesWith text.now line × Wrote (E.stream errs.old) (E.stream errs.new) line }
    ensures memory { result ≡ Status.NoMemory → spec.Says (E.stream errs.old) (E.stream errs.new) spec.memory_line }
    ensures fault { result ≡ Status.WriteFault → spec.FailsToSay (spec.RefusesWith text.now) (E.stream errs.old) (E.stream errs.new) }
    ensures others { (result ≢ Status.Done) × (result ≢ Status.Usage) × (result ≢ Status.ReadFault) }
    ensures complete { ¬ Rose (E.stream errs.old) (E.stream errs.new) → (result ≡ Status.Refused) ⊎ (result ≡ Status.NoMemory) }
{
    match refusal_line(alloc, text, refusal) {
        Ok(line) => end_with(errs, line.as_slice(), Status::Refused),
        Err(_) => end_with(errs, b"attrib: out of memory\n", Status::NoMemory),
    }
}

/// Annotates a text, and writes what is asked of it or why not.
fn answer<R: Threads + Sync, O: Sink, E: Sink, G: Gate + Sync>(
    rt: &R,
    alloc: Global,
    asked: Asked,
    text: &[u8],
    out: &mut O,
    errs: &mut E,
    gate: &G,
) -> Status
    requires { InBounds asked }
    ensures done { result ≡ Status.Done → ((bytes : List ℕ) × IsAnnotated asked.emit text.now bytes
        × Wrote (O.stream out.old) (O.stream out.new) bytes) × (errs.new ≡ errs.old) }
    ensures untouched { result ≢ Status.Done → result ≢ Status.WriteFault → out.new ≡ out.old }
    ensures refused { result ≡ Status.Refused → (line : List ℕ) × spec.RefusesWith text.now line × Wrote (E.stream errs.old) (E.stream errs.new) line }
    ensures memory { result ≡ Status.NoMemory → spec.Says (E.stream errs.old) (E.stream errs.new) spec.memory_line }
    ensures fault { result ≡ Status.WriteFault
        → spec.FailsToPrint (IsAnnotated asked.emit text.now) (O.stream out.old) (O.stream out.new) (E.stream errs.old) (E.stream errs.new)
        ⊎ ((out.new ≡ out.old) × spec.FailsToSay (spec.RefusesWith text.now) (E.stream errs.old) (E.stream errs.new)) }
    ensures others { (result ≢ Status.Usage) × (result ≢ Status.ReadFault) }
    ensures accepted { IsAccepted text.now → ¬ Rose (O.stream out.old) (O.stream out.new) → (result ≡ Status.Done) ⊎ (result ≡ Status.NoMemory) }
    ensures outside { (IsAccepted text.now → ⊥) → ¬ Rose (E.stream errs.old) (E.stream errs.new) → (result ≡ Status.Refused) ⊎ (result ≡ Status.NoMemory) }
{
    match annotate(rt, alloc, text, asked.workers, asked.emit, gate) {
        Ok(annotated) => print(out, errs, annotated.bytes.as_slice()),
        Err(refusal) => refuse(alloc, text, &refusal, errs),
    }
}

/// The text of a run: all that the source gives, or a module that is made in its place.
fn input<S: Source>(alloc: Global, generate: Option<u32>, source: &mut S) -> Result<Text, ReadStop>
    requires some { (count : ℕ) → generate ≡ Some count → 1 ≤ count }
    requires most { (count : ℕ) → generate ≡ Some count → count ≤ 4000 }
    ensures is { IfOk result (spec.IsInput generate (S.stream source.old) (S.stream source.new)) }
    ensures failed { result ≡ Err stopped.Failed → Rose (S.stream source.old) (S.stream source.new) }
    ensures too_large { result ≡ Err stopped.TooLarge → spec.ReadTooMuch generate (S.stream source.old) (S.stream source.new) }
    ensures reads { GaveAtMost (S.stream source.old) (S.stream source.new) 67108865 }
    ensures unread { (count : ℕ) → generate ≡ Some count → source.new ≡ source.old }
    ensures accepted { spec.TellsText generate (S.stream source.old).bytes IsAccepted → ¬ Rose (S.stream source.old) (S.stream source.new)
        → ((text : List ℕ) × (result ≡ Ok text) × IsAccepted text) ⊎ (result ≡ Err stopped.NoMemory) }
    ensures outside { spec.TellsText generate (S.stream source.old).bytes (λ b. IsAccepted b → ⊥) → ¬ Rose (S.stream source.old) (S.stream source.new)
        → ((text : List ℕ) × (result ≡ Ok text) × (IsAccepted text → ⊥)) ⊎ ((result ≡ Err stopped.TooLarge) ⊎ (result ≡ Err stopped.NoMemory)) }
{
    match generate {
        Some(count) => match make(alloc, count) {
            Ok(text) => Ok(text),
            Err(_) => Err(ReadStop::NoMemory),
        },
        None => match read_all(alloc, source, MAX_BYTES) {
            Ok(bytes) => Ok(Text::from_vec(bytes)),
            Err(stop) => Err(stop),
        },
    }
}

/// Does what is asked.
fn run<R: Threads + Sync, S: Source, O: Sink, E: Sink, G: Gate + Sync>(
    rt: &R,
    alloc: Global,
    asked: Asked,
    source: &mut S,
    out: &mut O,
    errs: &mut E,
    gate: &G,
) -> Status
    requires { InBounds asked }
    ensures done { result ≡ Status.Done → ((text : List ℕ) × spec.IsPrinted asked (S.stream source.old) (S.stream source.new) text
        × Wrote (O.stream out.old) (O.stream out.new) text) × (errs.new ≡ errs.old) }
    ensures untouched { result ≢ Status.Done → result ≢ Status.WriteFault → out.new ≡ out.old }
    ensures read_fault { result ≡ Status.ReadFault → Rose (S.stream source.old) (S.stream source.new)
        × Wrote (E.stream errs.old) (E.stream errs.new) spec.read_line }
    ensures refused { result ≡ Status.Refused → (line : List ℕ) × spec.IsTextLine asked.generate (S.stream source.old) (S.stream source.new) line
        × Wrote (E.stream errs.old) (E.stream errs.new) line }
    ensures write_fault { result ≡ Status.WriteFault
        → spec.FailsToPrint (spec.IsPrinted asked (S.stream source.old) (S.stream source.new)) (O.stream out.old) (O.stream out.new)
        (E.stream errs.old) (E.stream errs.new)
        ⊎ ((out.new ≡ out.old) × spec.FailsToSay (spec.IsRunLine asked.generate (S.stream source.old) (S.stream source.new))
        (E.stream errs.old) (E.stream errs.new)) }
    ensures no_memory { result ≡ Status.NoMemory → spec.Says (E.stream errs.old) (E.stream errs.new) spec.memory_line }
    ensures reads { GaveAtMost (S.stream source.old) (S.stream source.new) 67108865 }
    ensures unread { (count : ℕ) → asked.generate ≡ Some count → source.new ≡ source.old }
    ensures others { result ≢ Status.Usage }
    ensures accepted { spec.TellsText asked.generate (S.stream source.old).bytes IsAccepted → ¬ Rose (S.stream source.old) (S.stream source.new)
        → ¬ Rose (O.stream out.old) (O.stream out.new) → (result ≡ Status.Done) ⊎ (result ≡ Status.NoMemory) }
    ensures outside { spec.TellsText asked.generate (S.stream source.old).bytes (λ b. IsAccepted b → ⊥) → ¬ Rose (S.stream source.old) (S.stream source.new)
        → ¬ Rose (E.stream errs.old) (E.stream errs.new) → (result ≡ Status.Refused) ⊎ (result ≡ Status.NoMemory) }
{
    match input(alloc, asked.generate, source) {
        Ok(text) => answer(rt, alloc, asked, text.as_slice(), out, errs, gate),
        Err(stop) => end_reading(errs, stop),
    }
}

/// The program: reads the words of the command and then the whole source, annotates the text, and
/// writes what is asked to `out`. Nothing is written to `out` before all of it is known. The words
/// leave out the program's own name.
pub fn attrib<R: Threads + Sync, S: Source, O: Sink, E: Sink, G: Gate + Sync>(
    rt: &R,
    alloc: Global,
    words: &[String],
    source: &mut S,
    out: &mut O,
    errs: &mut E,
    gate: &G,
) -> Status
    // What each status says was read, written and told.
    ensures done { result ≡ Status.Done → spec.Prints (map string_bytes words.now) (S.stream source.old) (S.stream source.new)
        (O.stream out.old) (O.stream out.new) × (errs.new ≡ errs.old) }
    ensures untouched { result ≢ Status.Done → result ≢ Status.WriteFault → out.new ≡ out.old }
    ensures usage { result ≡ Status.Usage → IsRefused (map string_bytes words.now) × Wrote (E.stream errs.old) (E.stream errs.new) usage_line }
    ensures read_fault { result ≡ Status.ReadFault → Rose (S.stream source.old) (S.stream source.new)
        × Wrote (E.stream errs.old) (E.stream errs.new) spec.read_line }
    ensures refused { result ≡ Status.Refused → (line : List ℕ)
        × spec.IsRefusedBy (map string_bytes words.now) (S.stream source.old) (S.stream source.new) line
        × Wrote (E.stream errs.old) (E.stream errs.new) line }
    ensures write_fault { result ≡ Status.WriteFault
        → spec.FailsToPrint (spec.IsOutput (map string_bytes words.now) (S.stream source.old) (S.stream source.new))
        (O.stream out.old) (O.stream out.new) (E.stream errs.old) (E.stream errs.new)
        ⊎ ((out.new ≡ out.old) × spec.FailsToSay (spec.IsCausedBy (map string_bytes words.now) (S.stream source.old) (S.stream source.new))
        (E.stream errs.old) (E.stream errs.new)) }
    ensures no_memory { result ≡ Status.NoMemory → spec.Says (E.stream errs.old) (E.stream errs.new) spec.memory_line }

    // At most one byte more is taken than a text may have; where words are refused, nothing is read or printed, and
    // nothing is read where a module is made.
    ensures reads { GaveAtMost (S.stream source.old) (S.stream source.new) 67108865 }
    ensures unread { IsRefused (map string_bytes words.now) → (source.new ≡ source.old) × (out.new ≡ out.old) × spec.IsOfWords result }
    ensures made { (asked : TheAsked) → IsAsked (map string_bytes words.now) asked → (count : ℕ) → asked.generate ≡ Some count
        → source.new ≡ source.old }

    // Which status comes where no fault does.
    ensures asked { IsRefused (map string_bytes words.now) → ¬ Rose (E.stream errs.old) (E.stream errs.new)
        → (result ≡ Status.Usage) ⊎ (result ≡ Status.NoMemory) }
    ensures accepted { (asked : TheAsked) → IsAsked (map string_bytes words.now) asked
        → spec.TellsText asked.generate (S.stream source.old).bytes IsAccepted → ¬ Rose (S.stream source.old) (S.stream source.new)
        → ¬ Rose (O.stream out.old) (O.stream out.new) → (result ≡ Status.Done) ⊎ (result ≡ Status.NoMemory) }
    ensures outside { (asked : TheAsked) → IsAsked (map string_bytes words.now) asked
        → spec.TellsText asked.generate (S.stream source.old).bytes (λ b. IsAccepted b → ⊥) → ¬ Rose (S.stream source.old) (S.stream source.new)
        → ¬ Rose (E.stream errs.old) (E.stream errs.new) → (result ≡ Status.Refused) ⊎ (result ≡ Status.NoMemory) }
{
    match command(alloc, words) {
        Ok(asked) => run(rt, alloc, asked, source, out, errs, gate),
        Err(CommandRefusal::Usage) => end_with(errs, USAGE, Status::Usage),
        Err(CommandRefusal::NoMemory) => end_with(
            errs,
            b"attrib: out of memory\n",
            Status::NoMemory,
        ),
    }
}
