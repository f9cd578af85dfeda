//! The top call: what the words ask for is done, and how it ended is told.
ghost use Rattle.std.specs.Prelude.{◌≡◌, ◌≢◌, ◌<◌, ◌++◌, ◌⊎◌, ◌↔◌, [], IsTrue, None, IfOk, IfErr};
ghost use Rattle.outside_io.specs.Causes.{Rose};
ghost use Rattle.cert_checker.specs.declared.verdicts.Verdict.{Verdict};
ghost use Rattle.top_call.specs.Words.{form_of};
ghost use Rattle.top_call.specs.Requests.{bytes_of, form, IsWithinLimits};
ghost use Rattle.top_call.specs.Reading.{limit_of, named, texts_read, AreHeld, AreShort};
ghost use Rattle.top_call.specs.Reading.{IsFirstPast};
ghost use Rattle.top_call.specs.Messages.{message_of};
ghost use Rattle.top_call.specs.Verdicts.{verdict_line};
ghost use Rattle.top_call.specs.Answers.{Answer, verdict_status, IsWorkAnswer, IsFormAnswer};
ghost use Rattle.top_call.specs.Answers.{IsAnswer};
ghost use Rattle.top_call.specs.Endings.{HasFault, IsMapStatus, IsWritten, IsWorkStatus, IsSilent};
ghost use Rattle.top_call.specs.Endings.{ReadsTexts, names_of, Replies, Settles, Notes};
ghost use Rattle.top_call.specs.Headline.{Headline, Completes, Judges, ReachesYes, KeepsLines};
ghost use Rattle.top_call.specs.Headline.{Borders, Levels, Builds, IsMaking, IsMakingStatus, Makes};

use crate::building::built;
use crate::checking::verdict_on;
use crate::demo::{coverage, demo};
use crate::dissolving::dissolved;
use crate::faces::write_faces;
use crate::forms::Request;
use crate::message::tell;
use crate::ranking::ranked;
use crate::status::{Limit, Role, Status};
use crate::texts::{Texts, read_texts};
use crate::thinning::{certified, simplified};
use crate::verdict::verdict_text;
use crate::words::request;
use cert_checker::Verdict;
use outside_io::{Inputs, Sink, write_all};
use std::alloc::Global;

// Writes the bytes, which end the run with this status.
fn write_reply<O: Sink>(status: Status, bytes: &[u8], out: &mut O) -> Status
    requires { IsWritten status }
    ensures replies { Replies O.tells (O.written out.old) (O.written out.new) bytes.now status
        result }
    ensures fault { HasFault Status.WriteFault (O.faults out.old) (O.faults out.new) result }
{
    match write_all(out, bytes) {
        Ok(()) => status,
        Err(_) => Status::WriteFault,
    }
}

// Writes the bytes of a form, where they could be made.
fn write_bytes<O: Sink>(made: Result<Vec<u8>, Status>, out: &mut O) -> Status
    requires { IfErr made IsMapStatus }
    ensures replies { IfOk made (λ bytes. Replies O.tells (O.written out.old) (O.written out.new)
        bytes.items Status.Done result) }
    ensures refused { IfErr made (λ s. (result ≡ s) × (out.new ≡ out.old)) }
    ensures status { IsWorkStatus result }
    ensures silent { IsSilent result → out.new ≡ out.old }
    ensures fault { HasFault Status.WriteFault (O.faults out.old) (O.faults out.new) result }
{
    match made {
        Ok(bytes) => write_reply(Status::Done, &bytes, out),
        Err(status) => status,
    }
}

// The status of a verdict.
fn verdict_status(verdict: Verdict) -> Status
    ensures { result ≡ verdict_status verdict }
{
    match verdict {
        Verdict::Yes => Status::Done,
        Verdict::No(reason) => Status::No(reason),
    }
}

// Writes the line of a verdict, where there is one.
fn write_verdict<O: Sink>(alloc: Global, found: Result<Verdict, Status>, out: &mut O) -> Status
    requires { IfErr found IsMapStatus }
    ensures replies { IfOk found (λ verdict. (result ≡ Status.NoMemory)
        ⊎ Replies O.tells (O.written out.old) (O.written out.new)
        (verdict_line verdict) (verdict_status verdict) result) }
    ensures refused { IfErr found (λ s. (result ≡ s) × (out.new ≡ out.old)) }
    ensures status { IsWorkStatus result }
    ensures silent { IsSilent result → out.new ≡ out.old }
    ensures fault { HasFault Status.WriteFault (O.faults out.old) (O.faults out.new) result }
{
    let verdict = match found {
        Ok(verdict) => verdict,
        Err(status) => return status,
    };
    match verdict_text(alloc, verdict) {
        Ok(line) => write_reply(verdict_status(verdict), &line, out),
        Err(_) => Status::NoMemory,
    }
}

// Does what the request asks for over the texts that it names.
fn work<O: Sink>(alloc: Global, request: &Request<'_>, texts: &Texts, out: &mut O) -> Status
    requires limits { IsWithinLimits (form request.now) }
    requires short { AreShort (texts_read texts.now) }
    ensures status { IsWorkStatus result }
    ensures silent { IsSilent result → out.new ≡ out.old }
    ensures fault { HasFault Status.WriteFault (O.faults out.old) (O.faults out.new) result }
    ensures answers { Settles (IsWorkAnswer (form request.now) (texts_read texts.now)) O.tells
        (O.written out.old) (O.written out.new) result }
{
    match request {
        Request::Simplify(options, bound, _) => {
            write_bytes(simplified(alloc, options, *bound, &texts.file), out)
        }
        Request::Layers(options, bound, _) => {
            write_bytes(certified(alloc, options, *bound, &texts.file), out)
        }
        Request::Check(options, bound, _, _, _) => {
            write_verdict(alloc, verdict_on(alloc, options, *bound, texts), out)
        }
        Request::Faces(_) => write_faces(alloc, &texts.file, out),
        Request::Make(rows, cols, seed) => write_bytes(coverage(alloc, *rows, *cols, *seed), out),
        Request::Demo(rows, cols, seed, bound) => {
            write_bytes(demo(alloc, *rows, *cols, *seed, *bound), out)
        }
        Request::Dissolve(list, _) => write_bytes(dissolved(alloc, list, &texts.file), out),
        Request::Build(_) => write_bytes(built(alloc, &texts.file), out),
        Request::Pyramid(list, _) => write_bytes(ranked(alloc, list, &texts.file), out),
    }
}

// Does what the request asks for.
fn respond<I: Inputs, O: Sink>(
    alloc: Global,
    request: &Request<'_>,
    inputs: &mut I,
    out: &mut O,
) -> Status
    requires { IsWithinLimits (form request.now) }
    ensures form { result ≢ Status.Usage }
    ensures unread { named (form request.now) ≡ [] → inputs.new ≡ inputs.old }
    ensures made { IsMaking (form request.now) → IsMakingStatus result }
    ensures reads { ReadsTexts I.tells (I.texts inputs.old) (named (form request.now))
        (I.faults inputs.old) (I.faults inputs.new) (I.strays inputs.old) (I.strays inputs.new)
        (I.given inputs.new) result }
    ensures silent { IsSilent result → out.new ≡ out.old }
    ensures fault { HasFault Status.WriteFault (O.faults out.old) (O.faults out.new) result }
    ensures answers { IsTrue I.tells
        → Settles (IsFormAnswer (form request.now) (I.texts inputs.old))
        O.tells (O.written out.old) (O.written out.new) result }
{
    match read_texts(alloc, request, inputs) {
        Ok(texts) => work(alloc, request, &texts, out),
        Err(status) => status,
    }
}

// Does what the words ask for, without the note.
fn answer<I: Inputs, O: Sink>(
    alloc: Global,
    words: &[String],
    inputs: &mut I,
    out: &mut O,
) -> Status
    ensures usage { (result ≡ Status.Usage) ↔ (form_of (bytes_of words.now) ≡ None) }
    ensures unread { names_of (form_of (bytes_of words.now)) ≡ [] → inputs.new ≡ inputs.old }
    ensures made { Makes (bytes_of words.now) result }
    ensures reads { ReadsTexts I.tells (I.texts inputs.old)
        (names_of (form_of (bytes_of words.now))) (I.faults inputs.old) (I.faults inputs.new)
        (I.strays inputs.old) (I.strays inputs.new) (I.given inputs.new) result }
    ensures silent { IsSilent result → out.new ≡ out.old }
    ensures fault { HasFault Status.WriteFault (O.faults out.old) (O.faults out.new) result }
    ensures answers { IsTrue I.tells
        → Settles (IsAnswer (bytes_of words.now) (I.texts inputs.old))
        O.tells (O.written out.old) (O.written out.new) result }
{
    match &request(words) {
        Some(request) => respond(alloc, request, inputs, out),
        None => Status::Usage,
    }
}

// Whether the bytes of a form were written, so that there is no message.
fn is_written(status: &Status) -> bool
    ensures { IsTrue result ↔ IsWritten status.now }
{
    matches!(status, Status::Done | Status::No(_))
}

// Tells how the run ended, but where the bytes of a form were written.
fn tell_end<N: Sink>(note: &mut N, status: &Status)
    ensures no_note { IsWritten status.now → note.new ≡ note.old }
    ensures note { IsTrue N.tells → ¬ (IsWritten status.now)
        → Notes (N.faults note.old) (N.faults note.new) (N.written note.old) (N.written note.new)
        (message_of status.now) }
{
    if !is_written(status) {
        let _ = tell(note, status);
    }
}

/// Does what the words ask for, and says how it ended. The bytes of the form go to `out`, and the
/// message of each status but `Done` and `No` goes to `note`; a failed write to `note` changes no
/// status.
///
/// The named texts are read in the order FILE, OUT, CERT, each within its limit, before any of them
/// is judged. Then the first that applies is the answer: FILE is no JSON text, or no topology; the
/// weights take a position off the grid; the map is not arranged and no arcs are to be held; it has
/// not each polygon of a list; else the work is done. For `build` there is only this: FILE is no
/// JSON text, or no GeoJSON of the kind that is read; else the topology is built. `NoMemory` may
/// stand in place of each of them until the first byte is written.
///
/// What `simplify` writes is faithful to the text: each byte stands but those of the value of
/// `arcs`. Each arc there has some of its positions, both ends of each chain among them, and each
/// that is skipped is within the bound of the edge that skips it; held arcs are unchanged. The map
/// is arranged beside the held arcs, and each feature point is in the same polygons. What is left
/// of each chain is a path of allowed pairs in the map as the chains before it left it, and no such
/// path has fewer vertices.
pub fn run<I: Inputs, O: Sink, N: Sink>(
    alloc: Global,
    words: &[String],
    inputs: &mut I,
    out: &mut O,
    note: &mut N,
) -> Status
    // The words alone decide whether they fit a form. Where they do not, or name no text, nothing
    // is read.
    ensures usage { (result ≡ Status.Usage) ↔ (form_of (bytes_of words.now) ≡ None) }
    ensures unread { names_of (form_of (bytes_of words.now)) ≡ [] → inputs.new ≡ inputs.old }

    // Reading failed only where a call failed, and no failed call is passed over.
    ensures read_fault { HasFault Status.ReadFault (I.faults inputs.old) (I.faults inputs.new)
        result }

    // A text is too long where it is the first past its limit, and only then; it is not said of one
    // that gave fewer bytes.
    ensures too_long { IsTrue I.tells → (role : Role) → result ≡ Status.TooLarge (Limit.Text role)
        → IsFirstPast (I.texts inputs.old) (names_of (form_of (bytes_of words.now))) role }
    ensures past_limit { IsTrue I.tells → ¬ (Rose (I.faults inputs.old) (I.faults inputs.new))
        → (role : Role)
        → IsFirstPast (I.texts inputs.old) (names_of (form_of (bytes_of words.now))) role
        → (result ≡ Status.TooLarge (Limit.Text role)) ⊎ (result ≡ Status.NoMemory) }
    ensures too_long_given { (role : Role) → result ≡ Status.TooLarge (Limit.Text role)
        → limit_of role < I.given inputs.new }
    ensures strays { IsTrue I.tells
        → AreHeld (I.texts inputs.old) (names_of (form_of (bytes_of words.now)))
        → I.strays inputs.new ≡ I.strays inputs.old }

    // Nothing is written but with Done and No, or where a write failed.
    ensures silent { IsSilent result → out.new ≡ out.old }
    ensures write_fault { HasFault Status.WriteFault (O.faults out.old) (O.faults out.new) result }

    // The status and the bytes are those of the answer.
    ensures answers { IsTrue I.tells → Settles (IsAnswer (bytes_of words.now) (I.texts inputs.old))
        O.tells (O.written out.old) (O.written out.new) result }

    // There is one answer, so each status comes exactly where the answer has it.
    ensures exactly { IsTrue I.tells → (a : Answer)
        → IsAnswer (bytes_of words.now) (I.texts inputs.old) a
        → Settles (λ b. b ≡ a) O.tells (O.written out.old) (O.written out.new) result }

    // What is written of a text that is simplified is faithful to the text.
    ensures headline { IsTrue I.tells → IsTrue O.tells
        → Headline (bytes_of words.now) (I.texts inputs.old) (O.written out.old) (O.written out.new)
        result }

    // Where FILE is held, short and loads, and no call failed, the work is done, or memory was
    // wanting.
    ensures complete { IsTrue I.tells → ¬ (Rose (I.faults inputs.old) (I.faults inputs.new))
        → ¬ (Rose (O.faults out.old) (O.faults out.new))
        → Completes (bytes_of words.now) (I.texts inputs.old) result }

    // Where besides OUT and CERT are held and short, `check` says yes or why not, or memory was
    // wanting.
    ensures judges { IsTrue I.tells → ¬ (Rose (I.faults inputs.old) (I.faults inputs.new))
        → ¬ (Rose (O.faults out.old) (O.faults out.new))
        → Judges (bytes_of words.now) (I.texts inputs.old) result }

    // Where OUT and CERT are what `simplify` and `layers` answer to FILE with the same options and
    // bound, `check` writes `yes`, or memory was wanting. What they answer is short enough.
    ensures reaches_yes { IsTrue I.tells → ¬ (Rose (I.faults inputs.old) (I.faults inputs.new))
        → ¬ (Rose (O.faults out.old) (O.faults out.new))
        → ReachesYes (bytes_of words.now) (I.texts inputs.old)
        O.tells (O.written out.old) (O.written out.new) result }

    // Where OUT is what `simplify` answers to FILE, and short enough, `faces` writes of OUT the
    // lines that it answers to FILE, or memory was wanting.
    ensures keeps_lines { IsTrue I.tells → ¬ (Rose (I.faults inputs.old) (I.faults inputs.new))
        → ¬ (Rose (O.faults out.old) (O.faults out.new))
        → KeepsLines (bytes_of words.now) (I.texts inputs.old)
        O.tells (O.written out.old) (O.written out.new) result }

    // What is written of polygons that are dissolved is their border: closed rings of the arcs that
    // they name an odd number of times in sum, each once, which are crossed from each grid point as
    // often, modulo 2, as these polygons in sum.
    ensures borders { IsTrue I.tells → IsTrue O.tells
        → Borders (bytes_of words.now) (I.texts inputs.old) (O.written out.old) (O.written out.new)
        result }

    // What is written of levels are the ranks of the positions: for each number k from 0, those of
    // rank k or more are what level k keeps, which is arranged, has the ends of the arcs and leaves
    // each feature point in its polygons; each vertex that it drops of the level before it is
    // within its bound of the edge that skips the vertex.
    ensures levels { IsTrue I.tells → IsTrue O.tells
        → Levels (bytes_of words.now) (I.texts inputs.old) (O.written out.old) (O.written out.new)
        result }

    // What is written of GeoJSON is the topology that is built of it.
    ensures builds { IsTrue I.tells → IsTrue O.tells
        → Builds (bytes_of words.now) (I.texts inputs.old) (O.written out.old) (O.written out.new)
        result }

    // A coverage is made and thinned, or a write failed, or memory was wanting.
    ensures made { Makes (bytes_of words.now) result }

    // The message of each status but Done and No.
    ensures no_note { IsWritten result → note.new ≡ note.old }
    ensures note { IsTrue N.tells → ¬ (IsWritten result)
        → Notes (N.faults note.old) (N.faults note.new) (N.written note.old) (N.written note.new)
        (message_of result) }
{
    let status = answer(alloc, words, inputs, out);
    tell_end(note, &status);
    status
}
